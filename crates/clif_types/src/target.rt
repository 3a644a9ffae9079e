//! What a front end has to know of a target.
#![tactic(auto)]

ghost use Rattle.std.specs.Prelude.{◌≡◌};
ghost use Rattle.clif_types.specs.Target.{pointer_type_of};

use crate::call_conv::CallConv;
use crate::types;
use crate::types::Type;

/// The width of a pointer in bits.
#[derive(Clone, Copy, PartialEq, Eq, Hash, Debug)]
pub enum PointerWidth {
    U16,
    U32,
    U64,
}

/// A target, as far as a front end has to know it.
#[derive(Clone, Copy, PartialEq, Eq, Hash, Debug)]
pub struct TargetFrontendConfig {
    /// The convention of functions that the front end imports itself.
    pub default_call_conv: CallConv,
    /// The width of a pointer.
    pub pointer_width: PointerWidth,
    /// The number of low bits that are zero in the address of a page.
    pub page_size_align_log2: u8,
}

impl TargetFrontendConfig {
    /// The type of a pointer.
    pub fn pointer_type(self) -> Type
        ensures { result ≡ pointer_type_of self.pointer_width }
    {
        match self.pointer_width {
            PointerWidth::U16 => types::I16,
            PointerWidth::U32 => types::I32,
            PointerWidth::U64 => types::I64,
        }
    }
}
