//! What ends a block.
use super::Generator;
use clif_calls::{Call, Edge, Name, Passed, PlainInstruction, TableEdge, TableItem, ThrowingCall};
use clif_types::types::I32;
use rand::RngExt;
use rand::seq::IndexedRandom;
use std::alloc::AllocError;

/// What ends a block.
#[derive(Clone, Copy)]
enum Terminator {
    Jump,
    Brif,
    BrTable,
    TryCall,
    TryCallIndirect,
    Switch,
    Return,
}

// Each as often as it stands here.
const TERMINATORS: [Terminator; 11] = [
    Terminator::Jump,
    Terminator::Brif,
    Terminator::Brif,
    Terminator::BrTable,
    Terminator::BrTable,
    Terminator::TryCall,
    Terminator::TryCall,
    Terminator::TryCallIndirect,
    Terminator::Switch,
    Terminator::Switch,
    Terminator::Return,
];

impl Generator {
    // The current block, which has this number, is filled.
    pub(super) fn end(&mut self, number: usize) -> Result<(), AllocError> {
        let Some(terminator) = TERMINATORS.as_slice().choose(&mut self.random) else {
            return Ok(());
        };
        let call = match *terminator {
            Terminator::Jump => Call::Jump {
                destination: self.edge(number)?,
            },
            Terminator::Brif => Call::Brif {
                condition: self.value(),
                block_then: self.edge(number)?,
                block_else: self.edge(number)?,
            },
            Terminator::BrTable => self.table_branch(number)?,
            Terminator::TryCall => Call::Throwing(ThrowingCall::TryCall {
                function: self.function,
                args: self.operands()?,
                table: self.exception_table(number)?,
            }),
            Terminator::TryCallIndirect => Call::Throwing(ThrowingCall::TryCallIndirect {
                callee: self.value(),
                args: self.operands()?,
                table: self.exception_table(number)?,
            }),
            Terminator::Switch => return self.end_by_switch(number),
            Terminator::Return => Call::Return {
                values: self.operands()?,
            },
        };
        self.call(call)?;
        Ok(())
    }

    // A block that the block of this number may lead to.
    fn target(&mut self, number: usize) -> Name {
        match self.targets.as_slice().choose(&mut self.random) {
            Some(target) if target.last >= number => target.block,
            _ => self.open,
        }
    }

    pub(super) fn edge(&mut self, number: usize) -> Result<Edge, AllocError> {
        let block = self.target(number);
        let value = self.value();
        let args = vec![in self.alloc; value]?;
        Ok(Edge { block, args })
    }

    // An edge of a table.
    fn table_edge(&mut self, number: usize, passed: Passed) -> Result<Name, AllocError> {
        let block = self.target(number);
        let args = vec![in self.alloc; passed]?;
        self.call(Call::BlockCall {
            edge: TableEdge { block, args },
        })
    }

    // Passes what a call gives, or a value.
    fn passed(&mut self, part: Passed) -> Passed {
        if self.random.random_range(0u32..3) == 0 {
            Passed::Value(self.value())
        } else {
            part
        }
    }

    // A branch by a table of two entries.
    fn table_branch(&mut self, number: usize) -> Result<Call, AllocError> {
        let passed = Passed::Value(self.value());
        let first = self.table_edge(number, passed)?;
        let second = self.table_edge(number, passed)?;
        let default = self.table_edge(number, passed)?;
        let entries = vec![in self.alloc; first, second]?;
        let table = self.call(Call::CreateJumpTable { default, entries })?;
        let x = self.value();
        let index = self.instruction(PlainInstruction::Ireduce { ty: I32, x })?;
        Ok(Call::BrTable { index, table })
    }

    // An exception table of two items behind a context, which isn't tracked.
    fn exception_table(&mut self, number: usize) -> Result<Name, AllocError> {
        let part = self.passed(Passed::Returned(1));
        let normal = self.table_edge(number, part)?;
        let part = self.passed(Passed::Thrown(0));
        let tagged = self.table_edge(number, part)?;
        let part = self.passed(Passed::Thrown(1));
        let other = self.table_edge(number, part)?;
        let context = TableItem::Context(self.constant(7)?);
        let items = vec![in self.alloc;
            context,
            TableItem::Tag(7, tagged),
            TableItem::Default(other),
        ]?;
        let signature = self.signature;
        self.call(Call::CreateExceptionTable {
            signature,
            normal,
            items,
        })
    }
}
