//! What calls of `cranelift_frontend` answer, by the names that it hands on.
#![tactic(auto)]

use cranelift_frontend::{
    Block, ConstantData, Control, Demand, DisplayFunction, EntityRef, EntitySet, Function,
    HexBytes, Members, Opcode, OperandKind, OtherOperands, ResultKind, Successors, Tables, Typing,
};
use std::process::Abort;
use std::test::Fail;

/// A row of the typing table: `iconcat` takes two integers of one type, and gives one of twice their width.
#[test]
fn typing(rt: HostRuntime) {
    let row: Typing = Opcode::Iconcat.typing();
    assert!(rt; row.demand == Demand::ADoubled);
    assert!(rt; row.control == Control::Operand(0));
    assert!(rt; row.operands.len() == 2);
    assert!(rt; row.operands[0] == OperandKind::Controlling);
    assert!(rt; row.operands[1] == OperandKind::Controlling);
    assert!(rt; row.others == OtherOperands::Nothing);
    assert!(rt; row.results.len() == 1);
    assert!(rt; row.results[0] == ResultKind::Double);
}

// How many constants are pooled.
fn constants(tables: &Tables) -> usize {
    tables.constant_count()
}

// The bytes of a constant, the lowest first.
fn bytes(constant: &ConstantData) -> HexBytes<'_> {
    HexBytes(constant.as_slice())
}

/// The tables of a function, and the bytes of a constant in them.
#[test]
fn tables(rt: HostRuntime) -> Result<(), Fail> {
    let alloc = rt.alloc();
    let mut func = Function::new(alloc);
    let number = func.pool_constant(&[1, 2, 255])?;
    assert!(rt; constants(func.tables()) == 1);
    let constant = func.tables().constant(number).expect(&rt, "a constant");
    assert_eq!(rt;
        format!(in alloc; "{}", bytes(constant))?.as_str(),
        "0xff0201"
    );
    Ok(())
}

// The number of the next member.
fn next(mut members: Members<'_, Block>) -> Option<usize> {
    Some(members.next()?.index())
}

/// The members of a set of entities.
#[test]
fn members(rt: HostRuntime) -> Result<(), Fail> {
    let mut set = EntitySet::new(rt.alloc());
    assert!(rt; next(set.iter()).is_none());
    set.insert(Block::new(5))?;
    assert!(rt; next(set.iter()) == Some(5));
    set.insert(Block::new(2))?;
    assert!(rt; next(set.iter()) == Some(2));
    Ok(())
}

// Whether no block follows.
fn ends(mut successors: Successors<'_>) -> bool {
    successors.next().is_none()
}

/// The blocks to which an empty block leads, and the text of its function.
#[test]
fn function(rt: HostRuntime) -> Result<(), Fail> {
    let alloc = rt.alloc();
    let mut func = Function::new(alloc);
    let block = func.create_block()?;
    func.ensure_block_inserted(block)?;
    assert!(rt; block.index() < func.block_count());
    assert!(rt; ends(func.block_successors(block)));
    let shown: DisplayFunction<'_> = func.display();
    let text = format!(in alloc; "{shown}")?;
    assert_eq!(rt; text.as_str(), "function u0:0() fast {\nblock0:\n}\n");
    Ok(())
}
