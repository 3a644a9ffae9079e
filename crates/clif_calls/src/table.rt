//! What tables of a script are made of, and the calls that an exception table serves.
ghost use Rattle.std.specs.Prelude.{◌≡◌, IfOk};
ghost use Rattle.clif_calls.specs.Tables.{table_of, tried_operands};

use crate::call::Name;
use std::alloc::{AllocError, Global};

/// What an edge of a table passes to a parameter of its target.
#[derive(Clone, Copy, Debug, PartialEq, Eq)]
pub enum Passed {
    /// A value.
    Value(Name),
    /// What a try call returns at this place, as `ret0`. Only the normal edge of a try call has it.
    Returned(u32),
    /// This part of the exception that a try call throws, as `exn1`. Only the edge of an item has it.
    Thrown(u32),
}

/// An edge that a table may be made of: its target, and what is passed to the target's parameters, in order.
pub struct TableEdge {
    /// The block.
    pub block: Name,
    /// What it passes.
    pub args: Vec<Passed>,
}

// By hand: a derived one is proved anew at each way out of a function that holds such a value.
impl Drop for TableEdge {
    fn drop(self) {
        let TableEdge { block: _, args: _ } = self;
    }
}

/// An item of an exception table. Its edge is an answer of [`Call::BlockCall`](crate::Call::BlockCall).
#[derive(Clone, Copy, Debug, PartialEq, Eq)]
pub enum TableItem {
    /// Where an exception with this tag goes.
    Tag(u32, Name),
    /// Where each other exception goes.
    Default(Name),
    /// The context of the tags that follow, a value.
    Context(Name),
}

/// An instruction that calls what is outside the function, and goes along an edge of an exception table where the call
/// returns or throws. It has no results.
///
/// Each variant is the instruction of its name. A function was imported, and so was the table's signature. The table served no
/// instruction before, and no target of its edges is sealed.
pub enum ThrowingCall {
    /// `try_call function(x, ..), table`: calls a function that was imported, by the signature of the table.
    TryCall {
        function: Name,
        args: Vec<Name>,
        table: Name,
    },
    /// `try_call_indirect callee(x, ..), table`: calls what is at an address, by the signature of the table.
    TryCallIndirect {
        callee: Name,
        args: Vec<Name>,
        table: Name,
    },
}

// By hand: a derived one is proved anew at each way out of a function that holds such a value.
impl Drop for ThrowingCall {
    fn drop(self) {
        match self {
            ThrowingCall::TryCall {
                function: _,
                args: _,
                table: _,
            } => {}
            ThrowingCall::TryCallIndirect {
                callee: _,
                args: _,
                table: _,
            } => {}
        }
    }
}

impl ThrowingCall {
    /// The values that it names, in order: what is called, where that is an address, and then what is passed.
    ///
    /// # Errors
    ///
    /// Memory is refused.
    pub fn operands(&self, alloc: Global) -> Result<Vec<Name>, AllocError>
        ensures { IfOk result (λ names. names.items ≡ tried_operands self.now) }
    {
        let mut names = Vec::new(alloc);
        match self {
            ThrowingCall::TryCall { args, .. } => names.extend_from_slice(args.as_slice())?,
            ThrowingCall::TryCallIndirect { callee, args, .. } => {
                names.push(*callee)?;
                names.extend_from_slice(args.as_slice())?;
            }
        }
        Ok(names)
    }

    /// The table that serves it.
    pub fn table(&self) -> Name
        ensures { result ≡ table_of self.now }
    {
        match self {
            ThrowingCall::TryCall { table, .. } | ThrowingCall::TryCallIndirect { table, .. } => {
                *table
            }
        }
    }
}
