//! The calls that read a function, once each.
#![tactic(auto)]

use crate::facts::Fact::{
    ArgumentAt, BlockCount, Entry, FirstInst, HasType, Home, InstCount, IsCold, IsParam, IsResult,
    LaidOut, LastInst, NextBlock, NextInst, ParamAt, Place, ResultAt, StandsFor, StandsIn,
};
use crate::instructions::Plain::{Binary, Iconst};
use crate::steps::Step::{
    Alias, Cold, Create, Ensure, Go, Is, LayOut, LayOutAfter, Param, Prints, Put, PutBehind,
};
use crate::steps::{Case, SAMPLE, begun, make_all};
use crate::support::PLACE;
use crate::transfers::Transfer::Return;
use clif_opcodes::BinaryOpcode::Iadd;
use clif_types::types::{I8, I32, I64};
use clif_types::{CallConv, Inst};
use std::test::Fail;

static CASES: [Case; 5] = [
    Case {
        name: "along_blocks",
        head: SAMPLE,
        steps: &[
            Is(Entry(None)),
            Create,
            Create,
            Create,
            LayOut(1),
            LayOut(2),
            Is(BlockCount(3)),
            Is(Entry(Some(1))),
            Is(NextBlock(1, Some(2))),
            Is(NextBlock(2, None)),
            Is(NextBlock(0, None)),
            Is(LaidOut(2, true)),
            Is(LaidOut(0, false)),
            Ensure(0),
            Ensure(0),
            Is(NextBlock(2, Some(0))),
            Is(NextBlock(0, None)),
        ],
    },
    // block0 is put behind the only block, block3 behind the first one, block4 in the middle and block5
    // behind the last one. A block that is put at the end later comes behind them.
    Case {
        name: "blocks_behind_others",
        head: SAMPLE,
        steps: &[
            Create,
            Create,
            Create,
            Create,
            Create,
            Create,
            LayOut(1),
            LayOutAfter(0, 1),
            LayOutAfter(3, 1),
            LayOutAfter(4, 3),
            LayOutAfter(5, 0),
            LayOut(2),
            Is(Entry(Some(1))),
            Is(NextBlock(4, Some(0))),
            Is(NextBlock(5, Some(2))),
            Is(NextBlock(2, None)),
            Is(LaidOut(5, true)),
            Prints(
                "function %sample() system_v {\nblock1:\n\nblock3:\n\nblock4:\n\nblock0:\n\nblock5:\n\nblock2:\n}\n",
            ),
        ],
    },
    Case {
        name: "cold_blocks",
        head: SAMPLE,
        steps: &[
            Create,
            Create,
            LayOut(0),
            Cold(1),
            Is(IsCold(0, false)),
            Is(IsCold(1, true)),
        ],
    },
    Case {
        name: "along_instructions",
        head: SAMPLE,
        steps: &[
            Create,
            Create,
            LayOut(0),
            Put(0, I32, Iconst(1)),
            Go(0, Return(&[0])),
            PutBehind(0, 0, I32, Iconst(2)),
            Is(FirstInst(1, None)),
            Is(LastInst(1, None)),
            Is(FirstInst(0, Some(2))),
            Is(LastInst(0, Some(1))),
            Is(NextInst(2, Some(0))),
            Is(NextInst(0, Some(1))),
            Is(NextInst(1, None)),
            PutBehind(0, 2, I32, Iconst(3)),
            PutBehind(0, 1, I32, Iconst(4)),
            Is(FirstInst(0, Some(2))),
            Is(NextInst(2, Some(4))),
            Is(NextInst(4, Some(0))),
            Is(NextInst(0, Some(3))),
            Is(NextInst(3, Some(1))),
            Is(NextInst(1, None)),
            Is(InstCount(0, 5)),
            Is(InstCount(1, 0)),
            Is(StandsIn(2, Some(0))),
            Is(Place(2, PLACE)),
        ],
    },
    // What values stand for, what defines them, their types, and the lists that have them.
    Case {
        name: "of_values",
        head: SAMPLE,
        steps: &[
            Create,
            LayOut(0),
            Param(0, I64),
            Param(0, I8),
            Param(0, I64),
            Put(0, I64, Binary(Iadd, 0, 2)),
            Alias(0, 2),
            Is(StandsFor(0, 2)),
            Is(IsParam(0, 0, 1)),
            Is(StandsFor(1, 1)),
            Is(IsParam(1, 0, 0)),
            Is(StandsFor(3, 3)),
            Is(IsResult(3, 0, 0)),
            Is(Home(1, Some(0))),
            Is(Home(0, None)),
            Is(Home(3, None)),
            Is(Home(4, None)),
            Is(ParamAt(0, 0, Some(1))),
            Is(ParamAt(0, 1, Some(2))),
            Is(ParamAt(0, 2, None)),
            Is(ResultAt(0, 0, Some(3))),
            Is(ResultAt(0, 1, None)),
            Is(ArgumentAt(0, 0, Some(0))),
            Is(ArgumentAt(0, 1, Some(2))),
            Is(ArgumentAt(0, 2, None)),
            Is(HasType(1, I8)),
            Is(HasType(3, I64)),
        ],
    },
];

#[test]
fn blocks_instructions_and_values(rt: HostRuntime) -> Result<(), Fail> {
    make_all(&rt, rt.alloc(), &[], &CASES)
}

#[test]
fn of_the_whole(rt: HostRuntime) -> Result<(), Fail> {
    let func = begun(rt.alloc(), SAMPLE)?;
    let name = func.name();
    let found = format!(in rt.alloc(); "{name}")?;
    assert!(rt; found.as_str() == "%sample");
    func.law_consistent();
    assert!(rt; func.signature().params.len() == 0);
    assert!(rt; func.signature().call_conv == CallConv::SystemV);
    assert!(rt; Inst::from_u32(1) != Inst::from_u32(2));
    Ok(())
}
