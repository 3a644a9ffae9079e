//! The lines of a function's text that tell of its tables, as in the texts of known functions.
#![tactic(auto)]

use crate::tables::steps::Step::{
    Bytes, Context, DynamicSlot, Function, Import, Library, Region, Slot, Symbol,
};
use crate::tables::steps::{Marks, Step, UNMARKED, prints};
use clif_types::LibCall;
use clif_types::types::{I8, I32, I64};
use std::test::Fail;

const NEAR: Marks = Marks {
    colocated: true,
    patchable: false,
};

const BOTH: Marks = Marks {
    colocated: true,
    patchable: true,
};

// Steps, and the text of the tables that they make.
const LINES: [(&[Step<'static>], &str); 7] = [
    // No lines.
    (&[], ""),
    // The rows slot_reuse, with its region, and loop.
    (
        &[
            Slot(4, 2),
            Region(7),
            Region(7),
            Import(&[I32], &[]),
            Function("g", 0, UNMARKED),
        ],
        "    ss0 = explicit_slot 4, align = 4\n    region0 = user 7\n    sig0 = (i32) system_v\n    fn0 = %g sig0\n\n",
    ),
    (
        &[
            Import(&[I32], &[]),
            Function("use", 0, UNMARKED),
            Import(&[], &[I32]),
            Function("make", 1, UNMARKED),
            Slot(4, 2),
            Slot(4, 2),
        ],
        "    ss0 = explicit_slot 4, align = 4\n    ss1 = explicit_slot 4, align = 4\n    sig0 = (i32) system_v\n    sig1 = () -> i32 system_v\n    fn0 = %use sig0\n    fn1 = %make sig1\n\n",
    ),
    // The rows memcpy, memcmp_odd and undef_vectors.
    (
        &[
            Import(&[I64, I64, I64], &[I64]),
            Library(LibCall::Memcpy, 0),
        ],
        "    sig0 = (i64, i64, i64) -> i64 system_v\n    fn0 = %Memcpy sig0\n\n",
    ),
    (
        &[
            Import(&[I64, I64, I64], &[I32]),
            Library(LibCall::Memcmp, 0),
        ],
        "    sig0 = (i64, i64, i64) -> i32 system_v\n    fn0 = %Memcmp sig0\n\n",
    ),
    (
        &[Bytes(&[0; 16]), Bytes(&[0; 16])],
        "    const0 = 0x00000000000000000000000000000000\n\n",
    ),
    // Each kind of line, in the printer's order whatever the order of the calls.
    (
        &[
            Bytes(&[0x01, 0x20, 0xab]),
            Function("near", 0, NEAR),
            Function("both", 0, BOTH),
            Import(&[I8], &[]),
            Region(7),
            Symbol("name"),
            Context,
            DynamicSlot(0),
            Slot(3, 0),
        ],
        "    ss0 = explicit_slot 3\n    dss0 = explicit_dynamic_slot dt0\n    gv0 = symbol %name\n    gv1 = vmctx\n    region0 = user 7\n    sig0 = (i8) system_v\n    fn0 = colocated %near sig0\n    fn1 = colocated patchable %both sig0\n    const0 = 0xab2001\n\n",
    ),
];

#[test]
fn lines(rt: HostRuntime) -> Result<(), Fail> {
    for (steps, text) in LINES.iter() {
        prints(&rt, rt.alloc(), steps, text)?;
    }
    Ok(())
}
