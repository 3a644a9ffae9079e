//! What a builder holds.
ghost use Rattle.clif_builder.specs.Order.{IsKept};

use crate::context::FunctionBuilderContext;
use clif_ir::Function;
use clif_regions::Callback;
use clif_types::{Block, SourceLoc};

/// Builds one function.
///
/// After a call that returns `Memory` or `Full`, each later call that returns a `Result` returns `Failed`.
#[derive(Drop)]
pub struct FunctionBuilder<'a, R = Callback> {
    pub(crate) func: &'a mut Function,
    pub(crate) ctx: &'a mut FunctionBuilderContext<R>,
    pub(crate) position: Option<Block>,
    // The source place of the instructions that are made next.
    pub(crate) srcloc: SourceLoc,
    pub(crate) failed: bool,
    // What the construction names exists, and unless a call failed all is in order.
    ghost named: { ∥ IsKept func.now ctx.now.parts failed ∥₁ },
}
