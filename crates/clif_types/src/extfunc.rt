//! Signatures, and what a function says of the functions that it calls.
#![tactic(auto)]

ghost use Rattle.std.specs.Prelude.{◌≡◌, ◌++◌, Some, [], codes, flat_map};
ghost use Rattle.std.specs.Fmt.{WritesOnOk};
ghost use Rattle.clif_types.specs.Texts.{abi_param_text, types_text, returns_text, signature_text, ext_func_text};

use crate::call_conv::CallConv;
use crate::extname::ExternalName;
use crate::types::Type;
use clif_entities::tables::SigRef;
use std::alloc::{AllocError, Global};
use std::fmt;
use std::marker::Model;

/// A parameter, or a returned value, of a signature. It prints as its type.
#[derive(Clone, Copy, PartialEq, Eq, Hash, Debug)]
pub struct AbiParam {
    pub value_type: Type,
}

impl AbiParam {
    /// A parameter of this type.
    pub fn new(value_type: Type) -> AbiParam
        ensures { result ≡ record { value_type = value_type } }
    {
        AbiParam { value_type }
    }
}

impl fmt::Display for AbiParam {
    ghost output = { λ p. Some (abi_param_text p) };

    fn fmt<W: fmt::Write>(&self, f: &mut fmt::Formatter<W>) -> fmt::Result {
        let value_type = self.value_type;
        write!(f, "{value_type}")
    }
}

/// What a function takes and returns. It prints as `(i32, i64) -> i32 system_v`.
#[derive(Debug)]
pub struct Signature {
    /// The parameters, first to last.
    pub params: Vec<AbiParam>,
    /// What is returned, first to last.
    pub returns: Vec<AbiParam>,
    /// How both are passed.
    pub call_conv: CallConv,
}

// By hand: a derived one is proved anew at each way out of a function that holds such a value.
impl Drop for Signature {
    fn drop(self) {
        let Signature {
            params: _,
            returns: _,
            call_conv: _,
        } = self;
    }
}

impl Model for Signature {
    ghost use Rattle.clif_types.specs.Signature.{SignatureShape};

    ghost Value = { SignatureShape };

    ghost view = { λ s. record { params = s.params.items; returns = s.returns.items; call_conv = s.call_conv } };
}

impl Signature {
    /// The signature with no parameters and no returned values.
    pub fn new(alloc: Global, call_conv: CallConv) -> Signature
        ensures { result ≡ record { params = []; returns = []; call_conv = call_conv } }
    {
        let params = Vec::new(alloc);
        let returns = Vec::new(alloc);
        Signature {
            params,
            returns,
            call_conv,
        }
    }
}

impl Clone for Signature {
    ghost use Rattle.std.specs.Prelude.{◌≡◌};

    ghost is_clone = { λ old new. new ≡ old };

    fn clone(&self) -> Result<Signature, AllocError> {
        let alloc = *self.params.allocator();
        Ok(Signature {
            params: Vec::from_slice(alloc, self.params.as_slice())?,
            returns: Vec::from_slice(alloc, self.returns.as_slice())?,
            call_conv: self.call_conv,
        })
    }
}

/// Writes each type after `, `.
fn write_more_types<W: fmt::Write>(f: &mut fmt::Formatter<W>, params: &[AbiParam]) -> fmt::Result
    ensures { WritesOnOk W.write_str_gives f.old result (flat_map (λ p. codes ", " ++ abi_param_text p) params.now) f.new }
{
    for param in params {
        write!(f, ", {param}")?;
    }
    Ok(())
}

/// Writes the types, joined by `, `.
fn write_types<W: fmt::Write>(f: &mut fmt::Formatter<W>, params: &[AbiParam]) -> fmt::Result
    ensures { WritesOnOk W.write_str_gives f.old result (types_text params.now) f.new }
{
    match params.split_first() {
        Some((first, others)) => {
            write!(f, "{first}")?;
            write_more_types(f, others)
        }
        None => Ok(()),
    }
}

/// Writes ` -> ` and the types, or nothing where there are none.
fn write_returns<W: fmt::Write>(f: &mut fmt::Formatter<W>, returns: &[AbiParam]) -> fmt::Result
    ensures { WritesOnOk W.write_str_gives f.old result (returns_text returns.now) f.new }
{
    if returns.is_empty() {
        return Ok(());
    }
    f.write_str(" -> ")?;
    write_types(f, returns)
}

impl fmt::Display for Signature {
    ghost output = { λ s. Some (signature_text s) };

    fn fmt<W: fmt::Write>(&self, f: &mut fmt::Formatter<W>) -> fmt::Result {
        let call_conv = self.call_conv;
        f.write_str("(")?;
        write_types(f, self.params.as_slice())?;
        f.write_str(")")?;
        write_returns(f, self.returns.as_slice())?;
        write!(f, " {call_conv}")
    }
}

/// A function that may be called. It prints as `colocated patchable %name sig0`.
#[derive(PartialEq, Eq, Debug)]
pub struct ExtFuncData {
    pub name: ExternalName,
    pub signature: SigRef,
    /// Whether it lies so near that a short jump reaches it.
    pub colocated: bool,
    /// Whether its calls can be patched to go elsewhere.
    pub patchable: bool,
}

// By hand: a derived one is proved anew at each way out of a function that holds such a value.
impl Drop for ExtFuncData {
    fn drop(self) {
        let ExtFuncData {
            name: _,
            signature: _,
            colocated: _,
            patchable: _,
        } = self;
    }
}

impl Clone for ExtFuncData {
    ghost use Rattle.std.specs.Prelude.{◌≡◌};

    ghost is_clone = { λ old new. new ≡ old };

    fn clone(&self) -> Result<ExtFuncData, AllocError> {
        Ok(ExtFuncData {
            name: self.name.clone()?,
            signature: self.signature,
            colocated: self.colocated,
            patchable: self.patchable,
        })
    }
}

impl fmt::Display for ExtFuncData {
    ghost output = { λ x. Some (ext_func_text x) };

    fn fmt<W: fmt::Write>(&self, f: &mut fmt::Formatter<W>) -> fmt::Result {
        if self.colocated {
            f.write_str("colocated ")?;
        }
        if self.patchable {
            f.write_str("patchable ")?;
        }
        let name = &self.name;
        let signature = self.signature;
        write!(f, "{name} {signature}")
    }
}
