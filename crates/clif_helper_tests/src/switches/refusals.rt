//! Cases that are set twice, and builders that failed.
#![tactic(auto)]

use cranelift_frontend::{Block, EntityRef, Switch, SwitchError};
use std::test::Fail;

/// A key that is set twice keeps its first block, and the text of the refusal is upstream's.
#[test]
fn set_twice(rt: HostRuntime) -> Result<(), Fail> {
    let alloc = rt.alloc();
    let mut switch = Switch::new(alloc);
    assert!(rt; switch.set_entry(7, Block::new(1)).is_ok());
    let Err(refusal) = switch.set_entry(7, Block::new(2)) else {
        assert!(rt; false);
        return Ok(());
    };
    assert!(rt; refusal == SwitchError::SetTwice(7));
    assert_eq!(rt;
        format!(in alloc; "{refusal}")?.as_str(),
        "Tried to set the same entry 7 twice"
    );
    assert!(rt; switch.entries().len() == 1);
    assert!(rt; switch.entries().get(&7) == Some(&Block::new(1)));
    Ok(())
}

/// The text of a table that would be too long.
#[test]
fn too_long(rt: HostRuntime) -> Result<(), Fail> {
    let text = format!(in rt.alloc(); "{}", SwitchError::TableTooLong)?;
    assert_eq!(rt;
        text.as_str(),
        "Jump tables bigger than 2^32-1 are not yet supported"
    );
    Ok(())
}
