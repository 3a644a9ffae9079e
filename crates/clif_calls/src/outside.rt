//! The calls of a script that make an outside call.
ghost use Rattle.std.specs.Prelude.{◌≡◌, IfOk};
ghost use Rattle.clif_calls.specs.Outside.{operands_of};

use crate::call::Name;
use std::alloc::{AllocError, Global};

/// An instruction that calls what is outside the function, with names in place of values. Its results are what the
/// signature of what it calls returns.
///
/// Each variant is the instruction of its name. A function and a signature are answers of the calls that imported them.
pub enum OutsideCall {
    /// `call function(x, ..)`: calls a function that was imported.
    Call {
        function: Name,
        args: Vec<Name>,
    },
    /// `call_indirect signature, callee(x, ..)`: calls what is at an address, by a signature that was imported.
    CallIndirect {
        signature: Name,
        callee: Name,
        args: Vec<Name>,
    },
}

// By hand: a derived one is proved anew at each way out of a function that holds such a value.
impl Drop for OutsideCall {
    fn drop(self) {
        match self {
            OutsideCall::Call {
                function: _,
                args: _,
            } => {}
            OutsideCall::CallIndirect {
                signature: _,
                callee: _,
                args: _,
            } => {}
        }
    }
}

impl OutsideCall {
    /// The values that it names, in order: what is called, where that is an address, and then what is passed.
    ///
    /// # Errors
    ///
    /// Memory is refused.
    pub fn operands(&self, alloc: Global) -> Result<Vec<Name>, AllocError>
        ensures { IfOk result (λ names. names.items ≡ operands_of self.now) }
    {
        let mut names = Vec::new(alloc);
        match self {
            OutsideCall::Call { args, .. } => names.extend_from_slice(args.as_slice())?,
            OutsideCall::CallIndirect { callee, args, .. } => {
                names.push(*callee)?;
                names.extend_from_slice(args.as_slice())?;
            }
        }
        Ok(names)
    }
}
