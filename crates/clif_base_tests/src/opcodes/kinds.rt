//! Which types an operand, a result and an instruction may have.
#![tactic(auto)]

use clif_opcodes::{Demand, OperandKind, ResultKind};
use clif_types::Type;
use clif_types::types::{F32, F64, F128, I8, I8X16, I16, I16X8, I32, I32X4, I64, I128, INVALID};
use std::test::Fail;

#[test]
fn operands(rt: HostRuntime) -> Result<(), Fail> {
    let rows = [
        (OperandKind::Controlling, I32, I32, true),
        (OperandKind::Controlling, I32, I64, false),
        (OperandKind::AnInteger, I32, I8, true),
        (OperandKind::AnInteger, I32, F32, false),
        (OperandKind::AnInteger, I32, I8X16, false),
        (OperandKind::Narrower, I32, I16, true),
        (OperandKind::Narrower, I32, I32, false),
        (OperandKind::Wider, I32, I64, true),
        (OperandKind::Wider, I32, I32, false),
        (OperandKind::Wider, I32, F64, false),
        (OperandKind::Lane, I16X8, I16, true),
        (OperandKind::Lane, I16X8, I8, false),
        (OperandKind::Address, F32, I16, true),
        (OperandKind::Address, F32, I32, true),
        (OperandKind::Address, F32, I64, true),
        (OperandKind::Address, F32, I8, false),
        (OperandKind::Address, F32, I128, false),
        (OperandKind::Exactly(I32), INVALID, I32, true),
        (OperandKind::Exactly(I32), INVALID, I64, false),
    ];
    for (kind, controlling, operand, admitted) in rows {
        assert!(rt; kind.admits(controlling, operand) == admitted);
    }
    Ok(())
}

#[test]
fn results(rt: HostRuntime) -> Result<(), Fail> {
    let rows = [
        (ResultKind::Controlling, I32X4, I32X4),
        (ResultKind::Half, I16, I8),
        (ResultKind::Half, I32, I16),
        (ResultKind::Half, I64, I32),
        (ResultKind::Half, I128, I64),
        (ResultKind::Half, I8, INVALID),
        (ResultKind::Double, I8, I16),
        (ResultKind::Double, I16, I32),
        (ResultKind::Double, I32, I64),
        (ResultKind::Double, I64, I128),
        (ResultKind::Double, I128, INVALID),
        (ResultKind::Exactly(I8), I32, I8),
    ];
    for (kind, controlling, ty) in rows {
        assert!(rt; kind.at(controlling) == ty);
    }
    Ok(())
}

#[test]
fn demands(rt: HostRuntime) -> Result<(), Fail> {
    let rows: [(Demand, Type, bool); 14] = [
        (Demand::Nothing, INVALID, true),
        (Demand::AType, F128, true),
        (Demand::AType, INVALID, false),
        (Demand::AnInteger, I128, true),
        (Demand::AnInteger, F64, false),
        (Demand::AnInteger, I8X16, false),
        (Demand::ADoubled, I8, true),
        (Demand::ADoubled, I64, true),
        (Demand::ADoubled, I128, false),
        (Demand::AHalved, I16, true),
        (Demand::AHalved, I128, true),
        (Demand::AHalved, I8, false),
        (Demand::AVector, I8X16, true),
        (Demand::AVector, I32, false),
    ];
    for (demand, controlling, met) in rows {
        assert!(rt; demand.is_met(controlling) == met);
    }
    Ok(())
}
