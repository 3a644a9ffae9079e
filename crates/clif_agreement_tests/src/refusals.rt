//! Runs that can't go on: what is told of a script that the theorem doesn't cover, and of a function that is wrong.
#![tactic(auto)]

use crate::support::{STEPS, built, script_of, world_of, zeros};
use clif_interpreter::{function, script};
use clif_text::Script;
use clif_worlds::outside::Zeros;
use clif_worlds::{End, Ending, Memory, RunError};
use std::alloc::Global;
use std::process::Abort;
use std::test::Fail;

/// What is told of a run, or that it ended.
fn told(alloc: Global, run: Result<Ending, RunError>) -> Result<String, Fail> {
    Ok(match run {
        Ok(ending) => match ending.end {
            End::OutOfSteps => format!(in alloc; "no end")?,
            End::Stuck => format!(in alloc; "stuck")?,
            End::Returned(_) | End::Trapped(_) => format!(in alloc; "ended")?,
        },
        Err(error) => format!(in alloc; "{error}")?,
    })
}

// So it is told of the run of a script.
fn script_tells(
    rt: &impl Abort,
    alloc: Global,
    text: &Script,
    arguments: &[u128],
    memory: &Memory,
    expected: &str,
) -> Result<(), Fail> {
    let world = world_of(text, arguments, memory, &Zeros);
    let run = script::run(alloc, text.calls.as_slice(), &text.signature, &world, STEPS);
    assert!(rt; told(alloc, run)?.as_str() == expected);
    Ok(())
}

/// So it is told of the run of the function of a script.
pub fn function_tells(
    rt: &impl Abort,
    alloc: Global,
    text: &Script,
    arguments: &[u128],
    memory: &Memory,
    expected: &str,
) -> Result<(), Fail> {
    let func = built(alloc, text)?;
    let world = world_of(text, arguments, memory, &Zeros);
    let run = function::run(alloc, &func, &world, STEPS);
    assert!(rt; told(alloc, run)?.as_str() == expected);
    Ok(())
}

/// A block with the argument `n`, in calls 0 to 3.
const HEAD: &str =
    "b = create_block\nn = append_block_param b i8\nswitch_to_block b\nseal_block b\n";

/// What is told of scripts that begin so, and of their functions: wrong types, claims and targets. Lines are calls from 4 on.
const WRONG: &[&str] = &[
    "x = iconst.i16 1\ny = iadd n x\nreturn n => iadd isn't defined at such types at call 5 => iadd isn't defined at such types at inst1",
    "x = iconst.i16 1\nreturn x => the returned values don't fit the signature at call 5 => the returned values don't fit the signature at inst1",
    "return n n => the returned values don't fit the signature at call 4 => the returned values don't fit the signature at inst0",
    "x = declare_var f64x4\nu = use_var x\nreturn n => a value of type f64x4 has more than 128 bits at call 5 => a value of type f64x4 has more than 128 bits at inst1",
    "s = create_sized_stack_slot 33 0\nreturn n => the stack slots don't fit into memory => the stack slots don't fit into memory",
    "p = iconst.i64 4097\nx = load.i16 aligned p\nreturn n => the address isn't aligned, as the flag aligned claims at call 5 => the address isn't aligned, as the flag aligned claims at inst1",
    "p = iconst.i64 0\nstore notrap n p\nreturn n => a byte isn't accessible, as the flag notrap claims at call 5 => a byte isn't accessible, as the flag notrap claims at inst1",
    "c = create_block\njump c => a branch leads to a block without a terminator at call 5 => stuck",
    "c = create_block\nm = append_block_param c i16\njump c n\nswitch_to_block c\nseal_block c\nreturn n => the arguments of an edge don't fit its target's parameters at call 6 => the arguments of an edge don't fit its target's parameters at inst0",
    // an index of another type than i32, and an edge of a table that passes a value of another type
    "c = create_block\ne = block_call c\nt = create_jump_table e\nbr_table n t\nswitch_to_block c\nseal_block c\nreturn n => br_table isn't defined at such types at call 7 => br_table isn't defined at such types at inst0",
    "c = create_block\nm = append_block_param c i16\ne = block_call c(n)\nt = create_jump_table e\nx = iconst.i32 0\nbr_table x t\nswitch_to_block c\nseal_block c\nreturn n => the arguments of an edge don't fit its target's parameters at call 9 => the arguments of an edge don't fit its target's parameters at inst1",
];

/// A block with an address whose number 8 divides, and one four bytes on, in calls 0 to 5.
const ADDRESSES: &str =
    "b = create_block\nn = append_block_param b i8\nswitch_to_block b\nseal_block b\np = iconst.i64 4096\nq = iconst.i64 4100\n";

/// What is told of helpers that follow, and what their functions do. A function may do more than is promised.
const HELPERS: &[&str] = &[
    "emit_small_memory_copy p q 8 1 1 nonoverlap\nreturn n => bytes overlap, and a memory helper says that they don't at call 6 => ended",
    "emit_small_memory_copy q p 5 1 1 nonoverlap\nreturn n => bytes overlap, and a memory helper says that they don't at call 6 => Memcpy copies between bytes that overlap at inst3",
    "emit_small_memory_copy p q 4 1 1 nonoverlap\nreturn n => ended => ended",
    "call_memcpy p q n\nreturn n => call isn't defined at such types at call 6 => the operands of a call don't fit its signature at inst2",
    "call_memcpy q p q\nreturn n => a function of the C library touches a byte that isn't accessible at call 6 => a function of the C library touches a byte that isn't accessible at inst2",
    "z = iconst.i64 5\ncall_memcpy q p z\nreturn n => Memcpy copies between bytes that overlap at call 7 => Memcpy copies between bytes that overlap at inst3",
    "z = iconst.i64 4\ncall_memmove q p z\nreturn n => ended => ended",
    // alignments that aren't true, or that are no powers of two
    "emit_small_memory_copy q p 8 8 8 overlap\nreturn n => an address doesn't have the alignment that a memory helper says at call 6 => the address isn't aligned, as the flag aligned claims at inst3",
    "emit_small_memory_copy p q 8 8 8 overlap\nreturn n => an address doesn't have the alignment that a memory helper says at call 6 => the address isn't aligned, as the flag aligned claims at inst2",
    "emit_small_memory_copy p q 8 3 1 overlap\nreturn n => an address doesn't have the alignment that a memory helper says at call 6 => ended",
    "emit_small_memset p 1 8 0\nreturn n => an address doesn't have the alignment that a memory helper says at call 6 => ended",
    "emit_small_memory_compare eq p q 4 8 8\nreturn n => an address doesn't have the alignment that a memory helper says at call 6 => ended",
    // flags
    "emit_small_memset q 1 8 1 aligned\nreturn n => the address isn't aligned, as the flag aligned claims at call 6 => the address isn't aligned, as the flag aligned claims at inst3",
    "emit_small_memset q 1 12 1 aligned\nreturn n => ended => ended",
    "emit_small_memory_compare ult p q 8 1 1 aligned\nreturn n => ended => ended",
    // bytes that aren't accessible
    "z = iconst.i64 4127\nemit_small_memset z 1 2 1\nreturn n => a memory helper touches a byte that isn't accessible at call 7 => ended",
    "z = iconst.i64 0\nemit_small_memory_compare eq p z 3 1 1\nreturn n => a memory helper touches a byte that isn't accessible at call 7 => a function of the C library touches a byte that isn't accessible at inst4",
    // a size of 0 touches nothing, wherever it is
    "z = iconst.i64 0\nemit_small_memory_copy z q 0 1 1 overlap\ny = emit_small_memory_compare eq z q 0 1 1\nreturn n => ended => ended",
];

/// A value that is given on one arm alone, and named behind both: it is told on the run along the other arm.
const ONE_ARM: &str = "\
b = create_block
c = create_block
d = create_block
n = append_block_param b i8
switch_to_block b
seal_block b
brif n c d
switch_to_block c
seal_block c
x = iconst.i8 5
jump d
switch_to_block d
seal_block d
return x
";

/// Names that lead nowhere, and other calls that no builder takes, or that the theorem doesn't cover though their functions run:
/// what is told of scripts.
const SCRIPTS: &[&str] = &[
    "return $9.9 => $9.9 leads to no value at call 4",
    "return b => $0.0 leads to no value at call 4",
    "return $1.1 => $1.1 leads to no value at call 4",
    "jump n => a branch leads to no block at call 4",
    "u = use_var var0\nreturn u => var0 leads to no value at call 4",
    "x = declare_var i16\ndef_var x n\nreturn n => a value of another type is assigned to var0 at call 5",
    "c = create_block\nreturn n\nswitch_to_block c\njump b n => a branch leads to the entry block at call 7",
    "ensure_inserted_block => stuck",
    "x = iconst.i32 0\nbr_table x n => a branch leads to no block at call 5",
    "t = create_jump_table n\nx = iconst.i32 0\nbr_table x t => a branch leads to no block at call 6",
    // by an entry that the run doesn't take
    "e = block_call b(n)\nc = create_block\nd = block_call c\nt = create_jump_table d e\nx = iconst.i32 7\nbr_table x t\nswitch_to_block c\nreturn n => a branch leads to the entry block at call 9",
];

/// Arguments that are too many, too few or too great.
const MISFITS: &[&str] = &[
    "return n => the arguments don't fit the entry block's parameters => the arguments don't fit the entry block's parameters",
];

/// What scripts begin with, their arguments, and rows: the lines behind that, what is told of the script, and what is told of its
/// function, if that is said.
const TABLES: &[(&str, &[u128], &[&str])] = &[
    (HEAD, &[7], WRONG),
    (ADDRESSES, &[7], HELPERS),
    (ONE_ARM, &[1], &[" => ended => ended"]),
    (
        ONE_ARM,
        &[0],
        &[
            " => $9.1 is used before it is given at call 13 => v1 is used before it is given at inst3",
        ],
    ),
    (HEAD, &[7], SCRIPTS),
    (
        "b = create_block\nswitch_to_block b\nx = iconst.i8 1\nreturn x",
        &[7],
        &[" => the entry block's parameters aren't the signature's"],
    ),
    (HEAD, &[], MISFITS),
    (HEAD, &[1, 2], MISFITS),
    (HEAD, &[256], MISFITS),
    (HEAD, &[255], &["return n => ended => ended"]),
    // a loop without an end
    (
        HEAD,
        &[7],
        &["c = create_block\njump c\nswitch_to_block c\njump c\nseal_block c => no end => no end"],
    ),
];

// So it is told of the run of a script of these lines, and of that of its function, with these arguments.
fn tells(
    rt: &impl Abort,
    alloc: Global,
    head: &str,
    row: &str,
    arguments: &[u128],
) -> Result<(), Fail> {
    let Some((lines, expected)) = row.split_once(" => ") else {
        return Err("no row")?;
    };
    let (of_script, of_function) = match expected.split_once(" => ") {
        Some((of_script, of_function)) => (of_script, Some(of_function)),
        None => (expected, None),
    };
    let text = format!(in alloc; "function %refused (i8) -> i8 system_v\n{head}{lines}\n")?;
    let text = script_of(alloc, text.as_str())?;
    let memory = zeros(alloc)?;
    script_tells(rt, alloc, &text, arguments, &memory, of_script)?;
    if let Some(expected) = of_function {
        function_tells(rt, alloc, &text, arguments, &memory, expected)?;
    }
    Ok(())
}

#[test]
fn refusals(rt: HostRuntime) -> Result<(), Fail> {
    for (head, arguments, rows) in TABLES {
        for row in rows.iter() {
            tells(&rt, rt.alloc(), head, row, arguments)?;
        }
    }
    Ok(())
}
