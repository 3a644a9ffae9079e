//! Recorded contexts of try calls.
#![tactic(auto)]

use crate::steps::Plain::{Iconst, Return, TryCall};
use crate::steps::Step::{Alias, Block, Import, Param, Put};
use crate::steps::{Step, To, tells_context};
use std::test::Fail;

// The try call of block0 names v0, and the one of block1 names v1, which stands for v0.
const FIRST_THAT_IS_REACHED: &[Step<'static>] = &[
    Import(0, 0),
    Block,
    Block,
    Param(0),
    Param(1),
    Put(1, TryCall(0, &[], To(1, &[]), To(1, &[]), Some(1))),
    Put(0, TryCall(0, &[], To(1, &[]), To(1, &[]), Some(0))),
    Alias(1, 0),
];

// A try call in a block that isn't reached, and one whose context isn't recorded.
const ACCEPTED: &[Step<'static>] = &[
    Import(0, 0),
    Block,
    Block,
    Block,
    Put(0, Iconst),
    Put(0, Iconst),
    Put(0, TryCall(0, &[], To(1, &[]), To(1, &[]), Some(1))),
    Put(1, Return(&[])),
    Put(2, TryCall(0, &[], To(1, &[]), To(1, &[]), Some(0))),
];

#[test]
fn contexts(rt: HostRuntime) -> Result<(), Fail> {
    let alloc = rt.alloc();
    tells_context(&rt, alloc, FIRST_THAT_IS_REACHED, &[0], Some(0))?;
    tells_context(&rt, alloc, FIRST_THAT_IS_REACHED, &[], None)?;
    tells_context(&rt, alloc, ACCEPTED, &[0], None)
}
