//! The variable program of a script: for each block the calls that run in it, in order, and the caller's parameters.
use crate::branches::Branches;
use crate::entries::called_by;
use crate::instruction::{result_count, targets_of};
use crate::switches::Switches;
use crate::tracking::Tracking;
use clif_calls::{Call, EntryCall, MemoryCall, Name, StraightInstruction, SwitchEntry};
use clif_types::{AbiParam, Signature, Type};
use std::alloc::{AllocError, Global};

/// A block of a variable program.
pub struct ProgramBlock {
    /// The caller's parameters: their names and their types.
    pub params: Vec<(Name, Type)>,
    /// The places of the instructions, uses and assignments, in order.
    pub items: Vec<usize>,
    /// Whether the block has a terminator.
    pub is_filled: bool,
}

// By hand: a derived one is proved anew at each way out of a function that holds such a value.
impl Drop for ProgramBlock {
    fn drop(self) {
        let ProgramBlock {
            params: _,
            items: _,
            is_filled: _,
        } = self;
    }
}

/// A variable program, with the stack slots that the script asks for.
pub struct Program {
    alloc: Global,
    current: Option<usize>,
    /// For each call the number of the block, the stack slot or the signature that it answered.
    pub numbers: Vec<Option<usize>>,
    /// The blocks, in the order of the calls that made them.
    pub blocks: Vec<ProgramBlock>,
    /// The block that was current at the first call that put one into the layout.
    pub entry: Option<usize>,
    /// The types of the variables.
    pub variables: Vec<Type>,
    /// The size of each stack slot, and the shift of its alignment.
    pub slots: Vec<(u32, u8)>,
    // how many signatures there are
    signatures: usize,
    branches: Branches,
    /// The switches.
    pub switches: Switches,
    /// For each call how many answers it has. What is no value is never given.
    pub answers: Vec<usize>,
    /// What a collector moves.
    pub tracking: Tracking,
}

// By hand: a derived one is proved anew at each way out of a function that holds such a value.
impl Drop for Program {
    fn drop(self) {
        let Program {
            alloc: _,
            current: _,
            numbers: _,
            blocks: _,
            entry: _,
            variables: _,
            slots: _,
            signatures: _,
            branches: _,
            switches: _,
            answers: _,
            tracking: _,
        } = self;
    }
}

impl Program {
    /// The variable program of these calls, for a function of this signature.
    ///
    /// # Errors
    ///
    /// `AllocError`, where memory is refused.
    pub fn of(alloc: Global, calls: &[Call], signature: &Signature) -> Result<Program, AllocError> {
        let mut program = Program {
            alloc,
            current: None,
            numbers: Vec::new(alloc),
            blocks: Vec::new(alloc),
            entry: None,
            variables: Vec::new(alloc),
            slots: Vec::new(alloc),
            signatures: 0,
            branches: Branches::new(alloc),
            switches: Switches::new(alloc),
            answers: Vec::new(alloc),
            tracking: Tracking::new(alloc),
        };
        for (place, call) in calls.iter().enumerate() {
            let answers = answer_count(calls, call, signature);
            program.answers.push(answers)?;
            program.add_branch(calls, call)?;
            program.add(place, call, signature)?;
        }
        program.tracking = Tracking::of(alloc, calls, program.answers.as_slice())?;
        Ok(program)
    }

    /// The number of the block, the stack slot or the signature that a name leads to.
    pub fn number(&self, block: Name) -> Option<usize> {
        if block.answer != 0 {
            return None;
        }
        *self.numbers.get(block.place)?
    }

    /// The block with a number.
    pub fn block(&self, number: usize) -> Option<&ProgramBlock> {
        self.blocks.get(number)
    }

    /// The item of a block at an index.
    pub fn item(&self, number: usize, index: usize) -> Option<usize> {
        self.block(number)?.items.get(index).copied()
    }

    /// The numbers of the blocks that the edges of the call at a place lead to, in order, once all calls were made; none
    /// where a name leads to no block.
    pub fn targets(&self, place: usize) -> &[Option<usize>] {
        self.branches.targets(place)
    }

    /// That of the edge with this number.
    pub fn target(&self, place: usize, number: usize) -> Option<usize> {
        *self.targets(place).get(number)?
    }

    // Adds where the edges of a call lead.
    fn add_branch(&mut self, calls: &[Call], call: &Call) -> Result<(), AllocError> {
        let blocks = targets_of(self.alloc, calls, call)?;
        let mut targets = Vec::new(self.alloc);
        for block in blocks.iter() {
            let target = match block {
                Some(block) => self.number(*block),
                None => None,
            };
            targets.push(target)?;
        }
        self.branches.push(targets)
    }

    // Lets a branch lead to one block in place of another one.
    fn change_branch(&mut self, branch: Name, from: Name, to: Name) {
        if let (0, Some(from), Some(to)) = (branch.answer, self.number(from), self.number(to)) {
            self.branches.change(branch.place, from, to);
        }
    }

    // Adds the call at this place.
    fn add(&mut self, place: usize, call: &Call, signature: &Signature) -> Result<(), AllocError> {
        let number = self.number_answered(call);
        self.numbers.push(number)?;
        match call {
            Call::CreateBlock => self.add_block(),
            Call::SwitchToBlock { block } => {
                self.current = self.number(*block);
                Ok(())
            }
            Call::AppendBlockParam { block, ty } => {
                self.add_params(place, *block, &[AbiParam::new(*ty)])
            }
            Call::AppendBlockParamsForFunctionParams { block } => {
                self.add_params(place, *block, signature.params.as_slice())
            }
            Call::AppendBlockParamsForFunctionReturns { block } => {
                self.add_params(place, *block, signature.returns.as_slice())
            }
            Call::DeclareVar { ty } => Ok(self.variables.push(*ty)?),
            Call::Entry(EntryCall::CreateSizedStackSlot { size, align_shift }) => {
                Ok(self.slots.push((*size, *align_shift))?)
            }
            Call::Entry(entry) => {
                if matches!(entry, EntryCall::ImportSignature(_)) {
                    self.signatures = self.signatures.saturating_add(1);
                }
                Ok(())
            }
            Call::EnsureInsertedBlock => {
                self.put_into_layout();
                Ok(())
            }
            Call::DefVar { .. } | Call::TryDefVar { .. } => self.add_item(place, false),
            Call::UseVar { .. }
            | Call::TryUseVar { .. }
            | Call::Straight(_, _)
            | Call::Immediate(_) => {
                self.put_into_layout();
                self.add_item(place, false)
            }
            Call::Memory(called) => self.add_helper(place, called),
            Call::Jump { .. }
            | Call::Brif { .. }
            | Call::BrTable { .. }
            | Call::Throwing(_)
            | Call::Return { .. }
            | Call::Trap { .. } => {
                self.put_into_layout();
                self.add_item(place, true)
            }
            Call::Switch { entries, .. } => self.add_switch(place, entries.as_slice()),
            Call::ChangeJumpDestination { branch, from, to } => {
                self.change_branch(*branch, *from, *to);
                Ok(())
            }
            Call::SealBlock { .. }
            | Call::SealAllBlocks
            | Call::InsertBlockAfter { .. }
            | Call::SetColdBlock { .. }
            | Call::SetSrcloc { .. }
            | Call::CollectDebugInfo
            | Call::SetValLabel { .. }
            | Call::DeclareVarNeedsStackMap { .. }
            | Call::DeclareValueNeedsStackMap { .. }
            | Call::BlockCall { .. }
            | Call::CreateJumpTable { .. }
            | Call::CreateExceptionTable { .. } => Ok(()),
        }
    }

    // The number of the block, the stack slot or the signature that a call answers.
    fn number_answered(&self, call: &Call) -> Option<usize> {
        match call {
            Call::CreateBlock => Some(self.blocks.len()),
            Call::Entry(EntryCall::CreateSizedStackSlot { .. }) => Some(self.slots.len()),
            Call::Entry(EntryCall::ImportSignature(_)) => Some(self.signatures),
            _ => None,
        }
    }

    fn add_block(&mut self) -> Result<(), AllocError> {
        let block = ProgramBlock {
            params: Vec::new(self.alloc),
            items: Vec::new(self.alloc),
            is_filled: false,
        };
        self.blocks.push(block)?;
        Ok(())
    }

    // Adds the switch at a place, behind which no block is current.
    fn add_switch(&mut self, place: usize, entries: &[SwitchEntry]) -> Result<(), AllocError> {
        self.switches.add(place, entries)?;
        self.put_into_layout();
        self.add_item(place, true)?;
        self.current = None;
        Ok(())
    }

    // Adds the memory helper at a place, which imports a signature if it calls the C library. Where no bytes are copied or filled,
    // nothing is made.
    fn add_helper(&mut self, place: usize, called: &MemoryCall) -> Result<(), AllocError> {
        if called.is_nothing() {
            return Ok(());
        }
        if called.called_function().is_some() {
            self.signatures = self.signatures.saturating_add(1);
        }
        self.put_into_layout();
        self.add_item(place, false)
    }

    // The current block is the entry, if none is yet.
    fn put_into_layout(&mut self) {
        if self.entry.is_none() {
            self.entry = self.current;
        }
    }

    // Adds parameters of these types, which are the answers of the call at a place, in order.
    fn add_params(
        &mut self,
        place: usize,
        block: Name,
        params: &[AbiParam],
    ) -> Result<(), AllocError> {
        let Some(number) = self.number(block) else {
            return Ok(());
        };
        let Some(block) = self.blocks.get_mut(number) else {
            return Ok(());
        };
        for (answer, param) in params.iter().enumerate() {
            block
                .params
                .push((Name { place, answer }, param.value_type))?;
        }
        Ok(())
    }

    // Adds the call at a place to the current block, which it may fill.
    fn add_item(&mut self, place: usize, fills: bool) -> Result<(), AllocError> {
        let Some(number) = self.current else {
            return Ok(());
        };
        let Some(block) = self.blocks.get_mut(number) else {
            return Ok(());
        };
        block.items.push(place)?;
        block.is_filled = fills;
        Ok(())
    }
}

// How many answers an instruction that ends no block has: it answers itself and then its results.
fn straight_answer_count(calls: &[Call], instruction: &StraightInstruction) -> usize {
    match instruction {
        StraightInstruction::Plain(plain) => result_count(&plain.plan()).saturating_add(1),
        StraightInstruction::Outside(called) => match called_by(calls, called) {
            Some(signature) => signature.returns.len().saturating_add(1),
            None => 1,
        },
        StraightInstruction::F128const { .. } | StraightInstruction::Vconst { .. } => 2,
    }
}

// How many answers a call has.
fn answer_count(calls: &[Call], call: &Call, signature: &Signature) -> usize {
    match call {
        Call::AppendBlockParamsForFunctionParams { .. } => signature.params.len(),
        Call::AppendBlockParamsForFunctionReturns { .. } => signature.returns.len(),
        Call::Straight(_, instruction) => straight_answer_count(calls, instruction),
        Call::Memory(called) => usize::from(called.result().is_some()),
        Call::AppendBlockParam { .. }
        | Call::UseVar { .. }
        | Call::TryUseVar { .. }
        | Call::Immediate(_) => 1,
        _ => 0,
    }
}
