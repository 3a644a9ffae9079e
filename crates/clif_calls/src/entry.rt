//! The calls of a script that make entries of the function's tables.
use crate::call::Name;
use clif_types::{DynamicStackSlotData, ExternalName, GlobalValueData, Signature};
use std::alloc::AllocError;

/// A function that is imported.
pub struct ImportedFunction {
    pub name: ExternalName,
    /// An answer of [`EntryCall::ImportSignature`].
    pub signature: Name,
    /// Whether it lies so near that a short jump reaches it.
    pub colocated: bool,
    /// Whether its calls can be patched to go elsewhere.
    pub patchable: bool,
}

// By hand: a derived one is proved anew at each way out of a function that holds such a value.
impl Drop for ImportedFunction {
    fn drop(self) {
        let ImportedFunction {
            name: _,
            signature: _,
            colocated: _,
            patchable: _,
        } = self;
    }
}

impl Clone for ImportedFunction {
    ghost use Rattle.std.specs.Prelude.{◌≡◌};

    ghost is_clone = { λ old new. new ≡ old };

    fn clone(&self) -> Result<ImportedFunction, AllocError> {
        Ok(ImportedFunction {
            name: self.name.clone()?,
            signature: self.signature,
            colocated: self.colocated,
            patchable: self.patchable,
        })
    }
}

/// A call that makes an entry of a table of the function. It answers the entry.
///
/// Each variant is the builder's method of its name.
#[derive(Drop)]
pub enum EntryCall {
    /// `create_sized_stack_slot(StackSlotData::new(size, align_shift))`. The alignment is at most 2^31.
    CreateSizedStackSlot { size: u32, align_shift: u8 },
    /// `create_dynamic_stack_slot(slot)`.
    CreateDynamicStackSlot(DynamicStackSlotData),
    /// `create_global_value(value)`.
    CreateGlobalValue(GlobalValueData),
    /// `import_signature(signature)`.
    ImportSignature(Signature),
    /// `import_function(function)`. The signature was imported.
    ImportFunction(ImportedFunction),
}

impl Clone for EntryCall {
    ghost use Rattle.std.specs.Prelude.{◌≡◌};

    ghost is_clone = { λ old new. new ≡ old };

    fn clone(&self) -> Result<EntryCall, AllocError> {
        match self {
            EntryCall::CreateSizedStackSlot { size, align_shift } => {
                let (size, align_shift) = (*size, *align_shift);
                Ok(EntryCall::CreateSizedStackSlot { size, align_shift })
            }
            EntryCall::CreateDynamicStackSlot(slot) => Ok(EntryCall::CreateDynamicStackSlot(*slot)),
            EntryCall::CreateGlobalValue(value) => Ok(EntryCall::CreateGlobalValue(value.clone()?)),
            EntryCall::ImportSignature(signature) => {
                Ok(EntryCall::ImportSignature(signature.clone()?))
            }
            EntryCall::ImportFunction(function) => Ok(EntryCall::ImportFunction(function.clone()?)),
        }
    }
}
