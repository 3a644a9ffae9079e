//! Types, numbers and plain data of the IR.
#![tactic(auto)]

pub mod alias_region;
pub mod call_conv;
pub mod condcodes;
pub mod entity_set;
pub mod error;
pub mod extfunc;
pub mod extname;
pub mod globalvalue;
pub mod hex;
pub mod laws;
pub mod libcall;
pub mod memflags;
pub mod sourceloc;
pub mod stackmap;
pub mod stackslot;
pub mod target;
pub mod trapcode;
pub mod types;

pub use alias_region::{AliasRegionData, AliasRegionSet};
pub use call_conv::CallConv;
pub use clif_entities::{
    AliasRegion, Block, Constant, DynamicStackSlot, EntityRef, ExceptionTable, FuncRef,
    GlobalValue, Inst, JumpTable, SigRef, StackSlot, Value, ValueLabel,
};
pub use condcodes::IntCC;
pub use entity_set::EntitySet;
pub use error::BuildError;
pub use extfunc::{AbiParam, ExtFuncData, Signature};
pub use extname::{ExternalName, TestcaseName, UserExternalName, UserFuncName};
pub use globalvalue::GlobalValueData;
pub use hex::HexBytes;
pub use libcall::LibCall;
pub use memflags::MemFlagsData;
pub use sourceloc::SourceLoc;
pub use stackmap::UserStackMapEntry;
pub use stackslot::{DynamicStackSlotData, StackSlotData};
pub use target::{PointerWidth, TargetFrontendConfig};
pub use trapcode::TrapCode;
pub use types::{LaneCount, LaneType, Type};
