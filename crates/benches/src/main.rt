//! `benches KIND TURNS` builds a function of a kind over the builder's calls, and prints how many blocks and
//! instructions it has; of the kind `mixed` it makes the text too, and prints its length. A function of the kind
//! `rewritten` is rewritten when it is finished; of one of the kind `marked` it prints how many values are live across
//! its calls; one of the kind `spilled` is spilled, and it prints how many stack slots that has. tools/bench measures it.
#![tactic(auto)]

ghost use Rattle.std.specs.Prelude.{◌≡◌};

mod calls;
mod helping;
mod kinds;
mod marking;
mod rewriting;
mod switching;

use crate::calls::{Fault, declare_all, import_first, import_of_four};
use crate::kinds::{Kind, make};
use crate::marking::{live_across_calls, spill_all};
use crate::rewriting::surround_all;
use cranelift_frontend::{
    BuildError, CallConv, FinalizeError, Function, FunctionBuilder, FunctionBuilderContext,
    PointerWidth, Signature, TargetFrontendConfig, UserFuncName,
};
use std::alloc::Global;
use std::env;
use std::process::ExitCode;
use std::rt::Env;

const CONFIG: TargetFrontendConfig = TargetFrontendConfig {
    default_call_conv: CallConv::SystemV,
    pointer_width: PointerWidth::U64,
    page_size_align_log2: 12,
};

fn main(rt: HostRuntime) -> ExitCode {
    let Some((kind, turns)) = arguments(&rt) else {
        let _ = rt.eprintln(
            "usage: benches block|chain|chain_late|far|diamonds|loops|switch|mixed|calls|helpers|rewritten|marked|spilled TURNS",
        );
        return ExitCode::from(2);
    };
    let alloc = rt.alloc();
    let Some(mut func) = built(alloc, kind, turns) else {
        return ExitCode::from(1);
    };
    let Ok(found) = pass(alloc, kind, &mut func) else {
        return ExitCode::from(1);
    };
    let blocks = func.block_count();
    let insts = func.inst_count();
    let _ = match found {
        Some(number) => println!(rt; "{blocks} {insts} {number}"),
        None => println!(rt; "{blocks} {insts}"),
    };
    ExitCode::from(0)
}

// Makes the pass over a finished function that its kind asks for. Returns the number that is printed of it, if there is one.
fn pass(alloc: Global, kind: Kind, func: &mut Function) -> Result<Option<usize>, Fault> {
    match kind {
        Kind::Mixed => match format!(in alloc; "{}", func.display()) {
            Ok(text) => Ok(Some(text.len())),
            Err(_) => Err(Fault::Refused(BuildError::Memory)),
        },
        Kind::Rewritten => {
            if surround_all(func) {
                Ok(None)
            } else {
                Err(Fault::Misuse)
            }
        }
        Kind::Marked => Ok(Some(live_across_calls(alloc, func)?)),
        Kind::Spilled => Ok(Some(spill_all(alloc, func)?)),
        _ => Ok(None),
    }
}

fn arguments<R: Env + AllocGlobal>(rt: &R) -> Option<(Kind, usize)> {
    let mut args = env::args(rt).ok()?.skip(1);
    let kind = kind_named(args.next()?.as_str())?;
    let turns = args.next()?.as_str().parse::<usize>().ok()?;
    Some((kind, turns))
}

fn kind_named(name: &str) -> Option<Kind> {
    match name {
        "block" => Some(Kind::Block),
        "chain" => Some(Kind::Chain),
        "chain_late" => Some(Kind::ChainLate),
        "far" => Some(Kind::Far),
        "diamonds" => Some(Kind::Diamonds),
        "loops" => Some(Kind::Loops),
        "switch" => Some(Kind::Switch),
        "mixed" => Some(Kind::Mixed),
        "calls" => Some(Kind::Calls),
        "helpers" => Some(Kind::Helpers),
        "rewritten" => Some(Kind::Rewritten),
        "marked" => Some(Kind::Marked),
        "spilled" => Some(Kind::Spilled),
        _ => None,
    }
}

// The function, if it was built.
fn built(alloc: Global, kind: Kind, turns: usize) -> Option<Function> {
    let mut ctx = FunctionBuilderContext::new(alloc);
    let signature = Signature::new(alloc, CallConv::SystemV);
    let mut func = Function::with_name_signature(alloc, UserFuncName::user(0, 0), signature);
    let mut builder = FunctionBuilder::new(&mut func, &mut ctx);
    declare_all(&mut builder).ok()?;
    match kind {
        Kind::Marked | Kind::Spilled => import_first(alloc, &mut builder).ok()?,
        Kind::Calls => import_of_four(alloc, &mut builder).ok()?,
        _ => {}
    }
    let made = make(&mut builder, kind, turns);
    let finished = builder.finalize(CONFIG);
    if made.is_err() || finished.is_err() {
        return None;
    }
    Some(func)
}
