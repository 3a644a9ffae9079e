//! The cases of a switch, and why it is refused: the texts are those of Cranelift's panics.
#![tactic(auto)]

use clif_ranges::{Cases, SwitchError};
use clif_types::{Block, types};
use std::alloc::Global;
use std::process::Abort;
use std::test::Fail;

// The error prints so.
fn prints(rt: &impl Abort, alloc: Global, error: SwitchError, text: &str) -> Result<(), Fail> {
    let printed = format!(in alloc; "{error}")?;
    assert!(rt; printed.as_str() == text);
    Ok(())
}

// The cases of these keys, all with one block.
fn cases_of(alloc: Global, keys: &[u128]) -> Result<Cases, SwitchError> {
    let mut cases = Cases::new(alloc);
    for key in keys {
        cases.set(*key, Block::from_u32(1))?;
    }
    Ok(cases)
}

// The refusal of these keys for a value of eight bits.
fn refused(rt: &impl Abort, alloc: Global, keys: &[u128], error: SwitchError) -> Result<(), Fail> {
    match cases_of(alloc, keys) {
        Ok(cases) => match cases.ranges(alloc, types::I8) {
            Ok(_) => Err("not refused")?,
            Err(told) => {
                assert!(rt; told == error);
                Ok(())
            }
        },
        Err(_) => Err("no cases")?,
    }
}

/// A key is set once; what was set stays.
#[test]
fn set_twice(rt: HostRuntime) -> Result<(), Fail> {
    let alloc = rt.alloc();
    let mut cases = Cases::new(alloc);
    assert!(rt; cases.set(7, Block::from_u32(1)).is_ok());
    assert!(rt; cases.set(7, Block::from_u32(2)) == Err(SwitchError::SetTwice(7)));
    assert!(rt; cases.entries().len() == 1);
    assert!(rt; cases.entries().get(&7) == Some(&Block::from_u32(1)));
    prints(
        &rt,
        alloc,
        SwitchError::SetTwice(7),
        "Tried to set the same entry 7 twice",
    )
}

/// The greatest key is a number of the type.
#[test]
fn key_too_wide(rt: HostRuntime) -> Result<(), Fail> {
    let alloc = rt.alloc();
    let wide = |max| SwitchError::KeyTooWide { ty: types::I8, max };
    refused(&rt, alloc, &[0, 256, 1], wide(256))?;
    refused(
        &rt,
        alloc,
        &[4683743612477887600],
        wide(4683743612477887600),
    )?;
    prints(
        &rt,
        alloc,
        wide(4683743612477887600),
        "The index type i8 does not fit the maximum switch entry of 4683743612477887600",
    )
}

/// Keys up to the greatest number of the type are taken.
#[test]
fn greatest_keys(rt: HostRuntime) -> Result<(), Fail> {
    let alloc = rt.alloc();
    for (ty, key) in [
        (types::I8, u128::from(u8::MAX)),
        (types::I64, u128::from(u64::MAX)),
        (types::I128, u128::MAX),
    ] {
        match cases_of(alloc, &[key, 0]) {
            Ok(cases) => match cases.ranges(alloc, ty) {
                Ok(ranges) => assert!(rt; ranges.len() == 2),
                Err(_) => Err("refused")?,
            },
            Err(_) => Err("no cases")?,
        }
    }
    Ok(())
}

/// The text of a table that is too long.
#[test]
fn table_too_long(rt: HostRuntime) -> Result<(), Fail> {
    prints(
        &rt,
        rt.alloc(),
        SwitchError::TableTooLong,
        "Jump tables bigger than 2^32-1 are not yet supported",
    )
}
