//! The entries of tables that the names of a script lead to, in its calls.
use clif_calls::{Call, EntryCall, ImportedFunction, Name, OutsideCall, TableEdge, TableItem};
use clif_types::Signature;
use std::alloc::{AllocError, Global};

// The call that has the answer, if it is its first one.
fn call_named(calls: &[Call], name: Name) -> Option<&Call> {
    if name.answer == 0 {
        calls.get(name.place)
    } else {
        None
    }
}

/// The signature that a name leads to.
pub fn signature_named(calls: &[Call], name: Name) -> Option<&Signature> {
    match call_named(calls, name)? {
        Call::Entry(EntryCall::ImportSignature(signature)) => Some(signature),
        _ => None,
    }
}

/// The function that a name leads to.
pub fn function_named(calls: &[Call], name: Name) -> Option<&ImportedFunction> {
    match call_named(calls, name)? {
        Call::Entry(EntryCall::ImportFunction(function)) => Some(function),
        _ => None,
    }
}

/// The signature by which an outside call is made.
pub fn called_by<'c>(calls: &'c [Call], called: &OutsideCall) -> Option<&'c Signature> {
    let signature = match called {
        OutsideCall::Call { function, .. } => function_named(calls, *function)?.signature,
        OutsideCall::CallIndirect { signature, .. } => *signature,
    };
    signature_named(calls, signature)
}

/// The edge that a name leads to.
pub fn edge_named(calls: &[Call], name: Name) -> Option<&TableEdge> {
    match call_named(calls, name)? {
        Call::BlockCall { edge } => Some(edge),
        _ => None,
    }
}

/// A jump table: the names of its edges.
#[derive(Clone, Copy)]
pub struct JumpEdges<'c> {
    default: Name,
    entries: &'c [Name],
}

impl JumpEdges<'_> {
    /// How many edges it has, the default included.
    pub fn count(self) -> usize {
        self.entries.len().saturating_add(1)
    }

    /// The name of the edge with this number, the default first.
    pub fn edge(self, number: usize) -> Option<Name> {
        match number.checked_sub(1) {
            None => Some(self.default),
            Some(index) => self.entries.get(index).copied(),
        }
    }
}

/// The jump table that a name leads to.
pub fn table_named(calls: &[Call], name: Name) -> Option<JumpEdges<'_>> {
    match call_named(calls, name)? {
        Call::CreateJumpTable { default, entries } => {
            let (default, entries) = (*default, entries.as_slice());
            Some(JumpEdges { default, entries })
        }
        _ => None,
    }
}

/// An exception table: the name of its signature, that of its normal edge, and its items.
#[derive(Clone, Copy)]
pub struct Exceptions<'c> {
    /// The signature of the call that it serves.
    pub signature: Name,
    normal: Name,
    /// Its items.
    pub items: &'c [TableItem],
}

impl Exceptions<'_> {
    /// How many edges it has, the normal one included.
    pub fn count(self) -> usize {
        let mut count: usize = 1;
        for item in self.items {
            if edge_of(*item).is_some() {
                count = count.saturating_add(1);
            }
        }
        count
    }

    /// The name of the edge with this number, the normal one first.
    pub fn edge(self, number: usize) -> Option<Name> {
        if number == 0 {
            return Some(self.normal);
        }
        let mut count: usize = 0;
        for item in self.items {
            if let Some(edge) = edge_of(*item) {
                count = count.saturating_add(1);
                if count == number {
                    return Some(edge);
                }
            }
        }
        None
    }
}

// The name of the edge of an item.
fn edge_of(item: TableItem) -> Option<Name> {
    match item {
        TableItem::Tag(_, edge) | TableItem::Default(edge) => Some(edge),
        TableItem::Context(_) => None,
    }
}

/// The exception table that a name leads to.
pub fn exceptions_named(calls: &[Call], name: Name) -> Option<Exceptions<'_>> {
    match call_named(calls, name)? {
        Call::CreateExceptionTable {
            signature,
            normal,
            items,
        } => Some(Exceptions {
            signature: *signature,
            normal: *normal,
            items: items.as_slice(),
        }),
        _ => None,
    }
}

/// The names of the edges of the table that serves a call's instruction, in order; none where no table does.
///
/// # Errors
///
/// `AllocError`, where memory is refused.
pub fn edges_served(alloc: Global, calls: &[Call], call: &Call) -> Result<Vec<Name>, AllocError> {
    let mut edges = Vec::new(alloc);
    match call {
        Call::BrTable { table, .. } => {
            if let Some(table) = table_named(calls, *table) {
                edges.push(table.default)?;
                edges.extend_from_slice(table.entries)?;
            }
        }
        Call::Throwing(called) => {
            if let Some(table) = exceptions_named(calls, called.table()) {
                edges.push(table.normal)?;
                for item in table.items {
                    if let Some(edge) = edge_of(*item) {
                        edges.push(edge)?;
                    }
                }
            }
        }
        _ => {}
    }
    Ok(edges)
}
