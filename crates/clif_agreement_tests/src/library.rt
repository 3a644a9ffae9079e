//! Calls of functions of the C library: they do their work by themselves, and nothing outside is called. What they do is
//! that of the C standard's <string.h>.
#![tactic(auto)]

use crate::refusals::function_tells;
use crate::support::{Pair, memory_of, returned, script_of};
use std::alloc::Global;
use std::process::Abort;
use std::test::Fail;

/// A function of the C library, the type of its second argument, and that of what it gives.
#[derive(Clone, Copy)]
struct Called {
    callee: &'static str,
    second: &'static str,
    given: &'static str,
}

/// A call of it: its arguments, what it gives, and the eight bytes from address 64 on after it. They were 1 to 8.
#[derive(Clone, Copy)]
struct Row {
    called: Called,
    arguments: [u128; 3],
    given: u128,
    bytes: [u8; 8],
}

const COPY: Called = Called {
    callee: "Memcpy",
    second: "i64",
    given: "i64",
};

const MOVE: Called = Called {
    callee: "Memmove",
    second: "i64",
    given: "i64",
};

const FILL: Called = Called {
    callee: "Memset",
    second: "i32",
    given: "i64",
};

const COMPARE: Called = Called {
    callee: "Memcmp",
    second: "i64",
    given: "i32",
};

/// The bytes as a run begins.
const BYTES: [u8; 8] = [1, 2, 3, 4, 5, 6, 7, 8];

// The script of the function `library`, which has the signature of the call, and returns what it gives.
fn script_text(alloc: Global, called: Called) -> Result<String, Fail> {
    let Called {
        callee,
        second,
        given,
    } = called;
    let types = format!(in alloc; "(i64, {second}, i64) -> {given} system_v")?;
    let lines =
        "entry = create_block\nx, y, size = append_block_params_for_function_params entry\nswitch_to_block entry\nseal_block entry\nr = call f (x y size)\nreturn r\n";
    Ok(format!(in alloc;
        "function %library {types}\ns = import_signature {types}\nf = import_function libcall {callee} s\n{lines}"
    )?)
}

// A call does what the row tells, in a script and in its function, and calls nothing outside.
fn does(rt: &impl Abort, alloc: Global, row: &Row) -> Result<(), Fail> {
    let pair = Pair::new(alloc, script_text(alloc, row.called)?.as_str())?;
    let before = memory_of(alloc, 64, BYTES.len(), &BYTES)?;
    let after = memory_of(alloc, 64, BYTES.len(), &row.bytes)?;
    let end = returned(alloc, &[row.given])?;
    pair.ends(rt, alloc, &row.arguments, &before, end, after)
}

const ROWS: &[Row] = &[
    Row {
        called: COPY,
        arguments: [64, 68, 3],
        given: 64,
        bytes: [5, 6, 7, 4, 5, 6, 7, 8],
    },
    Row {
        called: COPY,
        arguments: [64, 64, 0],
        given: 64,
        bytes: BYTES,
    },
    Row {
        called: MOVE,
        arguments: [65, 64, 3],
        given: 65,
        bytes: [1, 1, 2, 3, 5, 6, 7, 8],
    },
    Row {
        called: MOVE,
        arguments: [64, 65, 3],
        given: 64,
        bytes: [2, 3, 4, 4, 5, 6, 7, 8],
    },
    Row {
        called: FILL,
        arguments: [70, 511, 2],
        given: 70,
        bytes: [1, 2, 3, 4, 5, 6, 255, 255],
    },
    Row {
        called: COMPARE,
        arguments: [64, 64, 8],
        given: 0,
        bytes: BYTES,
    },
    Row {
        called: COMPARE,
        arguments: [65, 64, 2],
        given: 1,
        bytes: BYTES,
    },
    Row {
        called: COMPARE,
        arguments: [64, 65, 0],
        given: 0,
        bytes: BYTES,
    },
    // bytes that come first are less: the number is negative, at 32 bits
    Row {
        called: COMPARE,
        arguments: [64, 65, 2],
        given: 0xffff_ffff,
        bytes: BYTES,
    },
];

/// Bytes are copied, also where they overlap, filled and compared; the first three give the first address.
#[test]
fn library_functions(rt: HostRuntime) -> Result<(), Fail> {
    for row in ROWS {
        does(&rt, rt.alloc(), row)?;
    }
    Ok(())
}

const NARROW: Called = Called {
    callee: "Memset",
    second: "i8",
    given: "i64",
};

/// Calls that have no meaning in a function, and for which reason: one by another signature, one that copies by `Memcpy` what
/// overlaps, and some that touch what isn't accessible.
const FAULTS: &[(Called, [u128; 3], &str)] = &[
    (
        NARROW,
        [64, 7, 2],
        "a function of the C library is called by another signature than its own at inst0",
    ),
    (
        COPY,
        [64, 66, 3],
        "Memcpy copies between bytes that overlap at inst0",
    ),
    (COPY, [64, 70, 3], OUTSIDE),
    (FILL, [63, 7, 2], OUTSIDE),
    (COMPARE, [64, 0xffff_ffff_ffff_ffff, 3], OUTSIDE),
];

const OUTSIDE: &str = "a function of the C library touches a byte that isn't accessible at inst0";

#[test]
fn library_faults(rt: HostRuntime) -> Result<(), Fail> {
    let alloc = rt.alloc();
    let before = memory_of(alloc, 64, BYTES.len(), &BYTES)?;
    for (called, arguments, expected) in FAULTS {
        let script = script_of(alloc, script_text(alloc, *called)?.as_str())?;
        function_tells(&rt, alloc, &script, arguments, &before, expected)?;
    }
    Ok(())
}
