//! What a call names in the tables: what it takes and what it gives.
ghost use Rattle.std.specs.Prelude.{◌≡◌};
ghost use Rattle.clif_tables.specs.Callees.{callee_params, function_at, given_by_call, signature_at};

use crate::tables::Tables;
use clif_instructions::instructions::InstructionData;
use clif_types::{AbiParam, FuncRef, SigRef};

impl Tables {
    /// The parameters of a signature; none where there is no signature of this number.
    #[tactic(auto, using(crate::proofs::Absent::no_signature_there))]
    pub fn signature_params(&self, sig: SigRef) -> &[AbiParam]
        ensures { result.now ≡ (signature_at self.now sig).params }
    {
        match self.signature(sig) {
            Some(signature) => signature.params.as_slice(),
            None => &[],
        }
    }

    /// What a signature returns; nothing where there is no signature of this number.
    #[tactic(auto, using(crate::proofs::Absent::no_signature_there))]
    pub fn signature_returns(&self, sig: SigRef) -> &[AbiParam]
        ensures { result.now ≡ (signature_at self.now sig).returns }
    {
        match self.signature(sig) {
            Some(signature) => signature.returns.as_slice(),
            None => &[],
        }
    }

    /// The signature of an imported function; the first one where there is no function of this number.
    #[tactic(auto, using(crate::proofs::Absent::no_function_there))]
    pub fn function_signature(&self, function: FuncRef) -> SigRef
        ensures { result ≡ (function_at self.now function).signature }
    {
        match self.function(function) {
            Some(function) => function.signature,
            None => SigRef::from_u32(0),
        }
    }

    /// The parameters of what an instruction calls; none where it calls nothing.
    pub fn callee_params(&self, shape: &InstructionData) -> &[AbiParam]
        ensures { result.now ≡ callee_params self.now shape.now }
    {
        match shape {
            InstructionData::Call { func_ref, .. } => {
                self.signature_params(self.function_signature(*func_ref))
            }
            InstructionData::CallIndirect { sig_ref, .. } => self.signature_params(*sig_ref),
            InstructionData::TryCall { exception, .. } => {
                self.signature_params(exception.signature())
            }
            InstructionData::TryCallIndirect { exception, .. } => {
                self.signature_params(exception.signature())
            }
            _ => &[],
        }
    }

    /// What a plain call gives; nothing where the instruction is none.
    pub fn given_by_call(&self, shape: &InstructionData) -> &[AbiParam]
        ensures { result.now ≡ given_by_call self.now shape.now }
    {
        match shape {
            InstructionData::Call { func_ref, .. } => {
                self.signature_returns(self.function_signature(*func_ref))
            }
            InstructionData::CallIndirect { sig_ref, .. } => self.signature_returns(*sig_ref),
            _ => &[],
        }
    }
}
