//! Replays of scripts: what their calls give, by themselves and with a context that served before, and which conditions don't
//! hold. Names are places of calls and answers.
#![tactic(auto)]

ghost use Rattle.std.specs.Prelude.{◌≡◌};
ghost use Rattle.clif_builder.specs.Clear.{IsClear};

use crate::data::EMPTY_TEXT;
use crate::support::{function_of, parts, script_of};
use crate::{parameters, placements, refusals, tables};
use clif_builder::FunctionBuilderContext;
use clif_ir::Function;
use clif_script::{Call, ReplayError, ReplayNotes, replay_noted};
use clif_text::Script;
use clif_types::Type;
use std::alloc::{AllocError, Global};
use std::process::Abort;
use std::test::Fail;

/// Scripts, and what their replays give: the text of the function, or that of the error.
const OWN_REPLAYS: &[&str] = &[
    // a block in which nothing was made isn't printed
    " => function u0:0() fast {\n}\n",
    "create_block\nswitch_to_block $0.0\nseal_block $0.0 => function u0:0() fast {\n}\n",
    "create_block\ncreate_block\nswitch_to_block $0.0\nswitch_to_block $1.0\nreturn\nseal_block $1.0 => \
function u0:0() fast {
block1:
    return
}
",
    // a variable that is assigned is used as it is, in a sealed block, too
    "declare_var i64\ncreate_block\nseal_block $1.0\nswitch_to_block $1.0\niconst.i64 1\ndef_var var0 $4.1\nuse_var var0\nreturn $6.0 => \
function u0:0() fast {
block0:
    v0 = iconst.i64 1
    return v0  ; v0 = 1
}
",
    // the same, where the calls are only tried
    "declare_var i64\ncreate_block\nseal_block $1.0\nswitch_to_block $1.0\niconst.i64 1\ntry_def_var var0 $4.1\ntry_use_var var0\nreturn $6.0 => \
function u0:0() fast {
block0:
    v0 = iconst.i64 1
    return v0  ; v0 = 1
}
",
];

const REPLAYS: &[&[&str]] = &[
    OWN_REPLAYS,
    parameters::REPLAYS,
    placements::REPLAYS,
    refusals::REPLAYS,
    tables::REPLAYS,
];

// The place of a call that was misused or refused, or of the end that was.
fn place_of(error: ReplayError) -> Option<usize> {
    match error {
        ReplayError::Misuse(place) | ReplayError::Refused(place) => Some(place),
        ReplayError::Memory | ReplayError::Full => None,
    }
}

// The notes tell a condition where a call, or the end, was misused or refused, and nowhere else; and they count the instructions
// after each call before it.
fn tells_condition(rt: &impl Abort, alloc: Global, script: &Script) -> Result<(), Fail> {
    let mut ctx = FunctionBuilderContext::new(alloc);
    let mut notes = ReplayNotes::new(alloc);
    let stopped = match replayed(alloc, script, &mut ctx, &mut notes)? {
        Ok(_) => None,
        Err(error) => place_of(error),
    };
    assert_eq!(rt; notes.condition.is_some(), stopped.is_some());
    let made = stopped.unwrap_or(script.calls.len());
    assert_eq!(rt; notes.inst_counts.len(), made);
    Ok(())
}

// What the calls give, after which the context is as before.
fn replayed(
    alloc: Global,
    script: &Script,
    ctx: &mut FunctionBuilderContext,
    notes: &mut ReplayNotes,
) -> Result<Result<Function, ReplayError>, AllocError>
    requires { IsClear ctx.old }
    ensures { IsClear ctx.new }
{
    let name = script.name.clone()?;
    let signature = script.signature.clone()?;
    let calls = script.calls.as_slice();
    Ok(replay_noted(
        alloc,
        calls,
        name,
        signature,
        ctx,
        script.config,
        None,
        notes,
    ))
}

// A function or an error has this text; where memory was refused the test itself fails.
fn has_text(
    rt: &impl Abort,
    alloc: Global,
    answer: Result<Function, ReplayError>,
    expected: &str,
) -> Result<(), Fail> {
    let text = match answer {
        Ok(func) => format!(in alloc; "{}", func.display())?,
        Err(ReplayError::Memory) => Err(ReplayError::Memory)?,
        Err(error) => format!(in alloc; "{error}")?,
    };
    assert_eq!(rt; text.as_str(), expected);
    Ok(())
}

// The calls give a function or an error of this text, after which the context is empty.
fn gives(
    rt: &impl Abort,
    alloc: Global,
    script: &Script,
    ctx: &mut FunctionBuilderContext,
    expected: &str,
) -> Result<(), Fail>
    requires { IsClear ctx.old }
    ensures { IsClear ctx.new }
{
    let mut notes = ReplayNotes::new(alloc);
    let answer = replayed(alloc, script, ctx, &mut notes)?;
    assert!(rt; ctx.is_empty());
    has_text(rt, alloc, answer, expected)
}

// The calls of two scripts give these, one after the other with the same context.
fn both_give(
    rt: &impl Abort,
    alloc: Global,
    first: (&Script, &str),
    second: (&Script, &str),
) -> Result<(), Fail> {
    let mut ctx = FunctionBuilderContext::new(alloc);
    gives(rt, alloc, first.0, &mut ctx, first.1)?;
    gives(rt, alloc, second.0, &mut ctx, second.1)
}

// The calls give this, and again with the same context, with which a script without calls gives its function, too.
fn replays(
    rt: &impl Abort,
    alloc: Global,
    script: &Script,
    empty: &Script,
    expected: &str,
) -> Result<(), Fail> {
    both_give(rt, alloc, (script, expected), (script, expected))?;
    both_give(rt, alloc, (script, expected), (empty, EMPTY_TEXT))?;
    tells_condition(rt, alloc, script)
}

// The same of the script before `=>`.
fn row_replays(rt: &impl Abort, alloc: Global, row: &str, empty: &Script) -> Result<(), Fail> {
    let (script, expected) = parts(row)?;
    replays(rt, alloc, &script_of(alloc, script)?, empty, expected)
}

#[test]
fn all_replays(rt: HostRuntime) -> Result<(), Fail> {
    let alloc = rt.alloc();
    let empty = script_of(alloc, "")?;
    for rows in REPLAYS {
        for row in rows.iter() {
            row_replays(&rt, alloc, row, &empty)?;
        }
    }
    Ok(())
}

/// No script can say a variable of no type.
#[test]
fn no_type(rt: HostRuntime) -> Result<(), Fail> {
    let alloc = rt.alloc();
    let empty = script_of(alloc, "")?;
    let mut script = script_of(alloc, "")?;
    script.calls.push(Call::DeclareVar { ty: Type::Invalid })?;
    replays(&rt, alloc, &script, &empty, "misuse at call 0")
}

#[test]
fn errors(rt: HostRuntime) -> Result<(), Fail> {
    let rows = [
        (ReplayError::Misuse(0), "misuse at call 0"),
        (ReplayError::Refused(12), "refused at call 12"),
        (ReplayError::Memory, "no memory"),
        (ReplayError::Full, "table full"),
    ];
    for (error, text) in rows.iter() {
        assert_eq!(rt; format!(in rt.alloc(); "{error}")?.as_str(), *text);
    }
    Ok(())
}

/// Each of 2,000 sums is of the constant and the sum before it.
#[test]
fn long_script(rt: HostRuntime) -> Result<(), Fail> {
    let alloc = rt.alloc();
    let mut script = String::from_str(alloc, "create_block\nswitch_to_block $0.0\niconst.i32 1\n")?;
    for place in 2..2_002u32 {
        script.push_str(format!(in alloc; "iadd $2.1 ${place}.1\n")?.as_str())?;
    }
    script.push_str("return $2002.1\nseal_block $0.0\n")?;
    let func = function_of(alloc, script.as_str())?;
    let text = format!(in alloc; "{}", func.display())?;
    assert_eq!(rt; text.lines().count(), 2_005);
    assert!(rt; text.ends_with("\n    v2000 = iadd v0, v1999  ; v0 = 1\n    return v2000\n}\n"));
    Ok(())
}
