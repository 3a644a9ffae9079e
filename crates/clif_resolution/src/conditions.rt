//! What calls ask of the builder alone.
ghost use Rattle.std.specs.Prelude.{◌≡◌, ◌<◌, length, Some, is_some, false, nat_lt};
ghost use Rattle.clif_resolution.specs.Conditions.{is_open, can_seal};
ghost use Rattle.std.specs.List.{list_all};

use crate::condition::Condition;
use clif_builder::FunctionBuilder;
use clif_ir::BlockCall;
use clif_types::{Block, SigRef};

/// Whether there is a current block to which no terminator was appended.
pub fn has_current(builder: &FunctionBuilder<'_>) -> bool
    ensures { result ≡ is_open builder.now }
{
    match builder.current_block() {
        None => false,
        Some(block) => !builder.is_filled(block),
    }
}

/// Why there is no current block to which something may be appended.
pub fn current_fault(builder: &FunctionBuilder<'_>) -> Condition {
    match builder.current_block() {
        None => Condition::NoCurrent,
        Some(block) => Condition::Filled(block),
    }
}

/// Whether a block isn't sealed.
pub fn may_seal(builder: &FunctionBuilder<'_>, block: Block) -> bool
    ensures { result ≡ can_seal builder.now block }
{
    !builder.is_sealed(block)
}

// Whether no target of these edges is sealed.
pub(crate) fn are_open(builder: &FunctionBuilder<'_>, edges: &[BlockCall]) -> bool
    ensures { result ≡ list_all (λ edge. can_seal builder.now edge.block) edges.now }
{
    for edge in edges.iter() {
        if !may_seal(builder, edge.block) {
            return false;
        }
    }
    true
}

// The first target of these edges that is sealed.
pub(crate) fn sealed_target(
    builder: &FunctionBuilder<'_>,
    edges: &[BlockCall],
) -> Option<Condition> {
    for edge in edges.iter() {
        if !may_seal(builder, edge.block) {
            return Some(Condition::Sealed(edge.block));
        }
    }
    None
}

/// Whether a signature was imported.
pub fn has_signature(builder: &FunctionBuilder<'_>, signature: SigRef) -> bool
    ensures { result ≡ nat_lt signature (length builder.now.func.now.tables.signatures) }
{
    builder.signature(signature).is_some()
}
