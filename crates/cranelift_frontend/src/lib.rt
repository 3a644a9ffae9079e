//! A proved port of cranelift-frontend 0.137.1: the builder of functions, and all that its calls take and answer.
#![tactic(auto)]

pub use clif_builder::{
    DefVariableError, FinalizeError, FuncInstBuilder, FunctionBuilder, FunctionBuilderContext,
    UseVariableError,
};
pub use clif_check::{CheckError, CheckErrorKind, check};
pub use clif_constant_operands::ConstantOperands;
pub use clif_cursor::FuncCursor;
pub use clif_inst_builder::{InstBuilder, InstBuilderBase};
pub use clif_ir::write::DisplayFunction;
pub use clif_ir::{
    BinaryOpcode, BlockArg, BlockArgs, BlockCall, CondTrapOpcode, ConvertOpcode, ExceptionItem,
    ExceptionTableData, ExceptionTableItem, ExceptionTargets, FloatConstOpcode, Function,
    InstructionData, JumpTableData, PooledConstOpcode, Successors, UnaryOpcode, ValueDef,
    ValueLabelStart, ValueList,
};
pub use clif_memory_helpers::MemoryHelpers;
pub use clif_opcodes::{
    Control, Demand, Opcode, OperandKind, OtherOperands, ResultKind, StackOpcode, Typing,
};
pub use clif_regions::RegionOf;
pub use clif_ssa::Variable;
pub use clif_switch::{Switch, SwitchError};
pub use clif_tables::{ConstantData, Tables};
pub use clif_types::entity_set::Members;
pub use clif_types::{
    AbiParam, AliasRegion, AliasRegionData, AliasRegionSet, Block, BuildError, CallConv, Constant,
    DynamicStackSlot, DynamicStackSlotData, EntityRef, EntitySet, ExceptionTable, ExtFuncData,
    ExternalName, FuncRef, GlobalValue, GlobalValueData, HexBytes, Inst, IntCC, JumpTable,
    LaneCount, LaneType, LibCall, MemFlagsData, PointerWidth, SigRef, Signature, SourceLoc,
    StackSlot, StackSlotData, TargetFrontendConfig, TestcaseName, TrapCode, Type, UserExternalName,
    UserFuncName, UserStackMapEntry, Value, ValueLabel, types,
};

/// The version of the crate whose behaviour this one has.
pub const VERSION: &str = "0.137.1";
