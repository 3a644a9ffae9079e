//! Functions built as a front end builds them, each printed.
#![tactic(auto)]

ghost use Rattle.std.specs.Prelude.{IfOk};
ghost use Rattle.clif_builder.specs.Clear.{IsClear};
ghost use Rattle.clif_builder.specs.Context.{IsFresh};

mod choose;
mod count_down;
mod diamond;
mod error;
mod forward;
mod last_node;
mod straight_line;

use crate::choose::choose;
use crate::count_down::count_down;
use crate::diamond::diamond;
use crate::error::UseError;
use crate::forward::forward;
use crate::last_node::last_node;
use crate::straight_line::straight_line;
use clif_types::types::{I32, I64};
use cranelift_frontend::{
    AbiParam, BuildError, CallConv, Function, FunctionBuilderContext, PointerWidth, Signature,
    TargetFrontendConfig, Type, UserFuncName,
};
use std::alloc::Global;
use std::process::ExitCode;

// The target of each function.
const CONFIG: TargetFrontendConfig = TargetFrontendConfig {
    default_call_conv: CallConv::SystemV,
    pointer_width: PointerWidth::U64,
    page_size_align_log2: 12,
};

#[derive(Clone, Copy)]
enum Example {
    StraightLine,
    CountDown,
    Diamond,
    Forward,
    Choose,
    LastNode,
}

impl Example {
    fn name(self) -> &'static str {
        match self {
            Example::StraightLine => "straight_line",
            Example::CountDown => "count_down",
            Example::Diamond => "diamond",
            Example::Forward => "forward",
            Example::Choose => "choose",
            Example::LastNode => "last_node",
        }
    }

    fn param_count(self) -> usize {
        match self {
            Example::StraightLine => 0,
            Example::CountDown | Example::Forward | Example::Choose | Example::LastNode => 1,
            Example::Diamond => 3,
        }
    }

    // The type of its parameters and of what it returns.
    fn ty(self) -> Type {
        match self {
            Example::LastNode => I64,
            _ => I32,
        }
    }

    fn build(self, func: &mut Function, ctx: &mut FunctionBuilderContext) -> Result<(), UseError>
        requires fresh { IsFresh func.old }
        requires empty { IsClear ctx.old }
    {
        match self {
            Example::StraightLine => straight_line(func, ctx, CONFIG)?,
            Example::CountDown => count_down(func, ctx, CONFIG)?,
            Example::Diamond => diamond(func, ctx, CONFIG)?,
            Example::Forward => forward(func, ctx, CONFIG)?,
            Example::Choose => choose(func, ctx, CONFIG)?,
            Example::LastNode => last_node(func, ctx, CONFIG)?,
        }
        Ok(())
    }
}

fn main(rt: HostRuntime) -> ExitCode {
    for example in [
        Example::StraightLine,
        Example::CountDown,
        Example::Diamond,
        Example::Forward,
        Example::Choose,
        Example::LastNode,
    ] {
        if let Err(error) = print(&rt, rt.alloc(), example) {
            let _ = eprintln!(rt; "{error}");
            return ExitCode::from(1);
        }
    }
    ExitCode::from(0)
}

// Builds a function and prints it.
fn print(rt: &HostRuntime, alloc: Global, example: Example) -> Result<(), UseError> {
    let mut func = function(alloc, example)?;
    let mut ctx = FunctionBuilderContext::new(alloc);
    let built = example.build(&mut func, &mut ctx);
    if built.is_ok() {
        let _ = print!(rt; "{}", func.display());
    }
    built
}

// A function that returns what its parameters are, without blocks.
fn function(alloc: Global, example: Example) -> Result<Function, BuildError>
    ensures { IfOk result IsFresh }
{
    let name = UserFuncName::testcase(String::from_str(alloc, example.name())?);
    let mut signature = Signature::new(alloc, CallConv::SystemV);
    for _ in 0..example.param_count() {
        signature.params.push(AbiParam::new(example.ty()))?;
    }
    signature.returns.push(AbiParam::new(example.ty()))?;
    Ok(Function::with_name_signature(alloc, name, signature))
}
