//! The interpreter of scripts, written from the script machine: it runs the variable program of a script. It has
//! variables and names of answers, and no aliases and no parameters of variables.
use crate::premises::{check_marks, check_targets};
use clif_calls::{
    Call, Edge, ImmediateCall, MemoryCall, Name, OutsideCall, Passed, StraightInstruction,
    TableEdge, TableItem, ThrowingCall,
};
use clif_operations::{Fault, Operation, Outcome, Store, Typed, bits_of, carry_out, kept};
use clif_script_program::entries::{
    Exceptions, called_by, edge_named, exceptions_named, function_named, signature_named,
    table_named,
};
use clif_script_program::instruction::{
    Edges, Instruction, branch_by_table, byte_operation_of, constant_of, edge_of, instruction_of,
    operands_of, plan_of, with_constant_of,
};
use clif_script_program::program::{Program, ProgramBlock};
use clif_types::{AbiParam, EntityRef, ExternalName, PointerWidth, SigRef, Signature, Type};
use clif_worlds::outside::{Payload, call_library, cut, show};
use clif_worlds::run::Trace;
use clif_worlds::{
    Beside, Callee, Cause, End, Ending, Event, Mover, Operand, Outside, Place, RunError, World,
};
use std::alloc::{AllocError, Global};

// How many signatures there can be.
const MOST_SIGNATURES: usize = 0xffff_ffff;

/// What comes behind an item.
#[derive(Drop)]
enum Next {
    /// The next item of the block.
    Item,
    /// The first item of the block with this number.
    Block(usize),
    /// Nothing.
    Ended(End),
}

/// A run of a script: what variables and names hold, memory, and the outside calls so far.
struct State<'s, 'p, 'o, O> {
    alloc: Global,
    signature: &'s Signature,
    program: &'p Program,
    calls: &'p [Call],
    variables: Vec<Typed>,
    // for each call its answers that were given
    names: Vec<Vec<Option<Typed>>>,
    store: Store,
    pointer_width: PointerWidth,
    outside: &'o O,
    mover: Option<Mover>,
    events: Vec<Event>,
    // what a function of the C library gave a try call, for its normal edge
    given: Option<Typed>,
    trace: Trace,
}

// By hand: a derived one is proved anew at each way out of a function that holds such a value.
impl<O> Drop for State<'_, '_, '_, O> {
    fn drop(self) {
        let State {
            alloc: _,
            signature: _,
            program: _,
            calls: _,
            variables: _,
            names: _,
            store: _,
            pointer_width: _,
            outside: _,
            mover: _,
            events: _,
            given: _,
            trace: _,
        } = self;
    }
}

impl<O: Outside> State<'_, '_, '_, O> {
    // What a name holds.
    fn value(&self, name: Name) -> Result<Typed, Cause> {
        let Some(answers) = self.names.get(name.place) else {
            return Err(Cause::Unknown(Operand::Name(name)));
        };
        match answers.get(name.answer) {
            Some(Some(value)) => Ok(*value),
            Some(None) => Err(Cause::NotGiven(Operand::Name(name))),
            None => Err(Cause::Unknown(Operand::Name(name))),
        }
    }

    fn values(&self, names: &[Name]) -> Result<Vec<Typed>, Cause> {
        let mut values = Vec::new(self.alloc);
        for name in names {
            values.push(self.value(*name)?)?;
        }
        Ok(values)
    }

    fn give(&mut self, name: Name, value: Typed) -> Result<(), Cause> {
        let value = kept(value.ty, value.bits)?;
        let Some(answers) = self.names.get_mut(name.place) else {
            return Err(Cause::Unknown(Operand::Name(name)));
        };
        let Some(held) = answers.get_mut(name.answer) else {
            return Err(Cause::Unknown(Operand::Name(name)));
        };
        *held = Some(value);
        Ok(())
    }

    // What a variable holds.
    fn variable(&self, number: usize) -> Result<Typed, Cause> {
        match self.variables.get(number) {
            Some(held) => Ok(*held),
            None => Err(Cause::Unknown(Operand::Variable(number))),
        }
    }

    fn assign(&mut self, number: usize, value: Typed) -> Result<(), Cause> {
        let Some(held) = self.variables.get_mut(number) else {
            return Err(Cause::Unknown(Operand::Variable(number)));
        };
        if held.ty != value.ty {
            return Err(Cause::Assigned(Operand::Variable(number)));
        }
        *held = value;
        Ok(())
    }

    // Gives values to the parameters of a block, all at once.
    fn enter(&mut self, number: usize, values: &[Typed]) -> Result<(), Cause> {
        let program = self.program;
        let Some(block) = program.block(number) else {
            return Err(Cause::NoTarget);
        };
        if values.len() != block.params.len() {
            return Err(Cause::Edge);
        }
        for (param, value) in block.params.iter().zip(values.iter()) {
            let (name, ty) = *param;
            if value.ty != ty {
                return Err(Cause::Edge);
            }
            self.give(name, *value)?;
        }
        self.trace.pass(number)?;
        Ok(())
    }

    // Goes along an edge to the block with a number: that of its name, unless the branch was changed.
    fn follow(&mut self, target: Option<usize>, edge: Option<&Edge>) -> Result<Next, Cause> {
        let Some(edge) = edge else {
            return Err(Cause::NoTarget);
        };
        let Some(number) = target else {
            return Err(Cause::NoTarget);
        };
        let values = self.values(edge.args.as_slice())?;
        self.enter(number, values.as_slice())?;
        Ok(Next::Block(number))
    }

    // What the last call returned or threw at a place, of this type.
    fn part(&self, ty: Option<Type>, place: u32) -> Result<Typed, Cause> {
        let Some(ty) = ty else {
            return Err(Cause::Edge);
        };
        let bits = self.outside.value(self.events.as_slice(), place as usize);
        Ok(kept(ty, cut(ty, bits))?)
    }

    // What a call returned at a place. A function of the C library returns one value.
    fn returned(&self, payload: Payload<'_>, place: u32) -> Result<Typed, Cause> {
        match payload {
            Payload::Gave if place == 0 => self.given.ok_or(Cause::Edge),
            other => self.part(other.returned(place as usize), place),
        }
    }

    // What an edge of a table passes.
    fn passed(&self, args: &[Passed], payload: Payload<'_>) -> Result<Vec<Typed>, Cause> {
        let mut passed = Vec::new(self.alloc);
        for arg in args {
            let value = match arg {
                Passed::Value(name) => self.value(*name)?,
                Passed::Returned(place) => self.returned(payload, *place)?,
                Passed::Thrown(place) => self.part(payload.thrown(*place as usize), *place)?,
            };
            passed.push(value)?;
        }
        Ok(passed)
    }

    // Goes along an edge of a table, in the same way.
    fn follow_table(
        &mut self,
        target: Option<usize>,
        edge: Option<&TableEdge>,
        payload: Payload<'_>,
    ) -> Result<Next, Cause> {
        let Some(edge) = edge else {
            return Err(Cause::NoTarget);
        };
        let Some(number) = target else {
            return Err(Cause::NoTarget);
        };
        let values = self.passed(edge.args.as_slice(), payload)?;
        self.enter(number, values.as_slice())?;
        Ok(Next::Block(number))
    }

    // Goes along the edge of an exception table with this number.
    fn follow_exception(
        &mut self,
        place: usize,
        table: Exceptions<'_>,
        number: usize,
        payload: Payload<'_>,
    ) -> Result<Next, Cause> {
        let calls = self.calls;
        let edge = table.edge(number).and_then(|edge| edge_named(calls, edge));
        self.follow_table(self.program.target(place, number), edge, payload)
    }

    // Gives bits to the results of the instruction at a place, which are its answers from 1 on.
    fn give_results(
        &mut self,
        place: usize,
        operation: &Operation,
        ty: Type,
        bits: &[u128],
    ) -> Result<(), Cause> {
        let kinds = operation.opcode().typing().results;
        if kinds.len() != bits.len() {
            return Err(Cause::Fault(Fault::Results));
        }
        for (index, (kind, bits)) in kinds.iter().zip(bits.iter()).enumerate() {
            let answer = index.saturating_add(1);
            let ty = kind.at(ty);
            self.give(Name { place, answer }, Typed { ty, bits: *bits })?;
        }
        Ok(())
    }

    // Makes an instruction of the call at a place.
    fn instruct(
        &mut self,
        place: usize,
        instruction: &Instruction<'_>,
        edges: Edges<'_, '_>,
    ) -> Result<Next, Cause> {
        let operands = self.values(instruction.operands)?;
        let operands = operands.as_slice();
        let operation = &instruction.operation;
        let given = instruction.given;
        let signature = self.signature;
        let returns = signature.returns.as_slice();
        let alloc = self.alloc;
        match carry_out(alloc, operation, given, operands, returns, &mut self.store)? {
            (ty, Outcome::Gave(bits)) => {
                self.give_results(place, operation, ty, bits.as_slice())?;
                Ok(Next::Item)
            }
            (_, Outcome::Went(number)) => {
                let program = self.program;
                let target = program.target(place, number);
                match edges {
                    Edges::None => self.follow(target, None),
                    Edges::Own(plan) => self.follow(target, edge_of(plan, number)),
                    Edges::Table(table) => {
                        let calls = self.calls;
                        let edge = table.edge(number).and_then(|edge| edge_named(calls, edge));
                        self.follow_table(target, edge, Payload::None)
                    }
                }
            }
            (_, Outcome::Returned) => Ok(Next::Ended(End::Returned(bits_of(alloc, operands)?))),
            (_, Outcome::Trapped(code)) => Ok(Next::Ended(End::Trapped(code))),
        }
    }

    // What the run shows where it ended so.
    fn ended(self, end: End) -> Ending {
        let State {
            alloc: _,
            signature: _,
            program: _,
            calls: _,
            variables: _,
            names: _,
            store,
            pointer_width: _,
            outside: _,
            mover: _,
            events,
            given: _,
            trace,
        } = self;
        Ending {
            events,
            end,
            memory: store.memory,
            passed: trace.blocks,
        }
    }

    // Makes an instruction with a constant as an operand at a place, which gives its one answer.
    fn with_constant(&mut self, place: usize, called: ImmediateCall) -> Result<Next, Cause> {
        let (operation, x) = with_constant_of(called);
        let value = operation.result(self.value(x)?)?;
        self.give(Name { place, answer: 0 }, value)?;
        Ok(Next::Item)
    }

    // Makes the switch at a place: goes to the block of the value's case, or to that of all other values. Nothing is passed.
    fn switch(&mut self, place: usize, value: Name) -> Result<Next, Cause> {
        let program = self.program;
        let Some(map) = program.switches.at(place) else {
            return Err(Cause::NoTarget);
        };
        let number = map.edge(self.value(value)?)?;
        let Some(target) = program.target(place, number) else {
            return Err(Cause::NoTarget);
        };
        self.enter(target, &[])?;
        Ok(Next::Block(target))
    }

    // Makes the memory helper at a place, which gives its answer, if it has one.
    fn help(&mut self, place: usize, called: &MemoryCall) -> Result<Next, Cause> {
        let (alloc, width) = (self.alloc, self.pointer_width);
        let names = operands_of(alloc, called)?;
        let operands = self.values(names.as_slice())?;
        let memory = &mut self.store.memory;
        let given = byte_operation_of(*called).run(alloc, width, operands.as_slice(), memory)?;
        if let Some(value) = given {
            self.give(Name { place, answer: 0 }, value)?;
        }
        Ok(Next::Item)
    }

    // The bits of a call's arguments, which have the types of the signature's parameters.
    fn arguments(&self, signature: &Signature, names: &[Name]) -> Result<Vec<u128>, Cause> {
        let params = signature.params.as_slice();
        if params.len() != names.len() {
            return Err(Cause::CallArguments);
        }
        let mut arguments = Vec::new(self.alloc);
        for (name, param) in names.iter().zip(params.iter()) {
            let value = self.value(*name)?;
            if value.ty != param.value_type {
                return Err(Cause::CallArguments);
            }
            arguments.push(value.bits)?;
        }
        Ok(arguments)
    }

    // Shows an outside call, and moves what it moves. The answer is the item with an edge that it goes along, if it throws.
    fn show(&mut self, event: Event, items: usize) -> Result<Option<usize>, Cause> {
        let thrown = show(
            self.outside,
            &mut self.events,
            event,
            items,
            &mut self.store.memory,
        )?;
        if let Some(mover) = self.mover {
            self.collect(mover);
        }
        Ok(thrown)
    }

    // Moves the marked variables and the tracked names.
    fn collect(&mut self, mover: Mover) {
        let calls = self.events.len();
        let tracking = &self.program.tracking;
        for (number, held) in self.variables.iter_mut().enumerate() {
            if tracking.is_marked(number) {
                held.bits = mover.moved(held.ty, held.bits, calls);
            }
        }
        for name in tracking.names() {
            self.move_name(mover, *name, calls);
        }
    }

    // Moves what a name holds, if it was given.
    fn move_name(&mut self, mover: Mover, name: Name, calls: usize) {
        let Some(answers) = self.names.get_mut(name.place) else {
            return;
        };
        if let Some(Some(held)) = answers.get_mut(name.answer) {
            held.bits = mover.moved(held.ty, held.bits, calls);
        }
    }

    // Shows the outside call at a place, which gives its results.
    fn answered(
        &mut self,
        place: usize,
        event: Event,
        signature: &Signature,
    ) -> Result<Next, Cause> {
        self.show(event, 0)?;
        for (index, param) in signature.returns.iter().enumerate() {
            let bits = self.outside.value(self.events.as_slice(), index);
            let ty = param.value_type;
            let bits = cut(ty, bits);
            let answer = index.saturating_add(1);
            self.give(Name { place, answer }, Typed { ty, bits })?;
        }
        Ok(Next::Item)
    }

    // What is called at an address, by the signature that a name leads to.
    fn at_address(&mut self, callee: Name, signature: Name) -> Result<Callee, Cause> {
        let Some(number) = self.program.number(signature) else {
            return Err(Cause::NoFunction);
        };
        if number >= MOST_SIGNATURES {
            return Err(Cause::NoFunction);
        }
        Ok(Callee::AtAddress(self.value(callee)?.bits, SigRef::new(number)))
    }

    // Makes the outside call at a place.
    fn call_outside(&mut self, place: usize, called: &OutsideCall) -> Result<Next, Cause> {
        let calls = self.calls;
        let Some(signature) = called_by(calls, called) else {
            return Err(Cause::NoFunction);
        };
        match called {
            OutsideCall::Call { function, args } => {
                let Some(data) = function_named(calls, *function) else {
                    return Err(Cause::NoFunction);
                };
                let arguments = self.arguments(signature, args.as_slice())?;
                self.call_named(place, &data.name, signature, arguments)
            }
            OutsideCall::CallIndirect {
                signature: number,
                callee,
                args,
            } => {
                let callee = self.at_address(*callee, *number)?;
                let arguments = self.arguments(signature, args.as_slice())?;
                self.answered(place, Event { callee, arguments }, signature)
            }
        }
    }

    // Calls the function of this name. One of the C library does its work, and is no outside call.
    fn call_named(
        &mut self,
        place: usize,
        name: &ExternalName,
        signature: &Signature,
        arguments: Vec<u128>,
    ) -> Result<Next, Cause> {
        if let ExternalName::LibCall(callee) = name {
            let value = call_library(
                self.alloc,
                *callee,
                self.pointer_width,
                signature,
                arguments.as_slice(),
                &mut self.store.memory,
            )?;
            self.give(Name { place, answer: 1 }, value)?;
            return Ok(Next::Item);
        }
        let callee = Callee::Named(name.clone()?);
        self.answered(place, Event { callee, arguments }, signature)
    }

    // Shows a try call at a place, which goes along the normal edge of its table or along that of an item.
    fn tried(
        &mut self,
        place: usize,
        event: Event,
        signature: &Signature,
        table: Exceptions<'_>,
    ) -> Result<Next, Cause> {
        let items = table.count().saturating_sub(1);
        match self.show(event, items)? {
            Some(item) => {
                self.follow_exception(place, table, item.saturating_add(1), Payload::Thrown)
            }
            None => {
                let returns = signature.returns.as_slice();
                self.follow_exception(place, table, 0, Payload::Returned(returns))
            }
        }
    }

    // Tries to call the function of this name. One of the C library returns, and is no outside call.
    fn try_named(
        &mut self,
        place: usize,
        name: &ExternalName,
        signature: &Signature,
        arguments: Vec<u128>,
        table: Exceptions<'_>,
    ) -> Result<Next, Cause> {
        if let ExternalName::LibCall(callee) = name {
            let value = call_library(
                self.alloc,
                *callee,
                self.pointer_width,
                signature,
                arguments.as_slice(),
                &mut self.store.memory,
            )?;
            self.given = Some(value);
            return self.follow_exception(place, table, 0, Payload::Gave);
        }
        let callee = Callee::Named(name.clone()?);
        self.tried(place, Event { callee, arguments }, signature, table)
    }

    // Makes the try call at a place, by the signature of its table. The promise asks that the contexts are given before it, though
    // nothing reads them.
    fn try_call(&mut self, place: usize, called: &ThrowingCall) -> Result<Next, Cause> {
        let calls = self.calls;
        let Some(table) = exceptions_named(calls, called.table()) else {
            return Err(Cause::NoFunction);
        };
        let Some(signature) = signature_named(calls, table.signature) else {
            return Err(Cause::NoFunction);
        };
        for item in table.items {
            if let TableItem::Context(name) = item {
                self.value(*name)?;
            }
        }
        match called {
            ThrowingCall::TryCall { function, args, .. } => {
                let Some(data) = function_named(calls, *function) else {
                    return Err(Cause::NoFunction);
                };
                let arguments = self.arguments(signature, args.as_slice())?;
                self.try_named(place, &data.name, signature, arguments, table)
            }
            ThrowingCall::TryCallIndirect { callee, args, .. } => {
                let callee = self.at_address(*callee, table.signature)?;
                let arguments = self.arguments(signature, args.as_slice())?;
                self.tried(place, Event { callee, arguments }, signature, table)
            }
        }
    }

    // Makes what a call makes: the outside call, the try call, the pooled constant, the branch by a table, or the other
    // instruction.
    fn call(&mut self, place: usize, call: &Call) -> Result<Next, Cause> {
        if let Call::Straight(_, StraightInstruction::Outside(called)) = call {
            return self.call_outside(place, called);
        }
        if let Call::Throwing(called) = call {
            return self.try_call(place, called);
        }
        if let Some(constant) = constant_of(call) {
            return self.instruct(place, &constant, Edges::None);
        }
        if let Call::BrTable { index, table } = call {
            let Some(table) = table_named(self.calls, *table) else {
                return Err(Cause::NoTarget);
            };
            let branch = branch_by_table(table.count(), index);
            return self.instruct(place, &branch, Edges::Table(table));
        }
        let numbers = self.program.numbers.as_slice();
        match plan_of(call) {
            Some(plan) => {
                self.instruct(place, &instruction_of(&plan, numbers), Edges::Own(&plan))
            }
            None => Ok(Next::Item),
        }
    }

    // What the item at a place does.
    fn step(&mut self, place: usize, call: &Call) -> Result<Next, Cause> {
        match call {
            Call::UseVar { variable } | Call::TryUseVar { variable } => {
                let held = self.variable(variable.index())?;
                self.give(Name { place, answer: 0 }, held)?;
                Ok(Next::Item)
            }
            Call::DefVar { variable, value } | Call::TryDefVar { variable, value } => {
                let value = self.value(*value)?;
                self.assign(variable.index(), value)?;
                Ok(Next::Item)
            }
            Call::Immediate(called) => self.with_constant(place, *called),
            Call::Memory(called) => self.help(place, called),
            Call::Switch { value, .. } => self.switch(place, *value),
            _ => self.call(place, call),
        }
    }

    // Runs the items of a block, and of the blocks that control goes to.
    fn steps(&mut self, entry: usize, bound: u64) -> Result<End, RunError> {
        let mut block = entry;
        let mut index = 0usize;
        for _ in 0..bound {
            let Some(place) = self.program.item(block, index) else {
                return Ok(End::Stuck);
            };
            let calls = self.calls;
            let Some(call) = calls.get(place) else {
                return Ok(End::Stuck);
            };
            match self.step(place, call) {
                Ok(Next::Item) => index = index.saturating_add(1),
                Ok(Next::Block(number)) => {
                    block = number;
                    index = 0;
                }
                Ok(Next::Ended(end)) => return Ok(end),
                Err(cause) => return Err(cause.at(Place::Call(place))),
            }
        }
        Ok(End::OutOfSteps)
    }

    // Gives the arguments to the parameters of the entry block, which are those of the signature.
    fn start(&mut self, entry: usize, world: &World<'_, O>) -> Result<(), Cause> {
        let program = self.program;
        let Some(block) = program.block(entry) else {
            return Err(Cause::NoTarget);
        };
        let signature = self.signature;
        if !has_params(block, signature.params.as_slice()) {
            return Err(Cause::EntryParameters);
        }
        if block.params.len() != world.arguments.len() {
            return Err(Cause::Arguments);
        }
        let mut values = Vec::new(self.alloc);
        for (param, bits) in block.params.iter().zip(world.arguments.iter()) {
            values.push(world.argument(param.1, *bits)?)?;
        }
        self.enter(entry, values.as_slice())
    }
}

// Whether the caller's parameters of a block have these types, and are as many.
fn has_params(block: &ProgramBlock, params: &[AbiParam]) -> bool {
    if block.params.len() != params.len() {
        return false;
    }
    for (named, param) in block.params.iter().zip(params.iter()) {
        if named.1 != param.value_type {
            return false;
        }
    }
    true
}

// The variables, each zero.
fn zeros(alloc: Global, program: &Program) -> Result<Vec<Typed>, AllocError> {
    let mut variables = Vec::new(alloc);
    for ty in program.variables.iter() {
        variables.push(Typed { ty: *ty, bits: 0 })?;
    }
    Ok(variables)
}

// For each call its answers, none of which was given yet.
fn no_answers(alloc: Global, program: &Program) -> Result<Vec<Vec<Option<Typed>>>, AllocError> {
    let mut names = Vec::new(alloc);
    for count in program.answers.iter() {
        let mut answers = Vec::new(alloc);
        for _ in 0..*count {
            answers.push(None)?;
        }
        names.push(answers)?;
    }
    Ok(names)
}

/// Runs a script's variable program in a world, for at most so many instructions, uses and assignments. Nothing moves.
///
/// # Errors
///
/// Where a premise of the theorem doesn't hold of the run: a branch leads to the entry block or to a block without a
/// terminator, a variable that isn't marked gets or gives a tracked name, a name has no value yet, types don't fit, what a load, a
/// store or a memory helper claims isn't true, or a function of the C library can't do its work. And where memory is refused, a
/// value has more than 128 bits, a stack slot has no place, or a call throws to an item that isn't there.
pub fn run<O: Outside>(
    alloc: Global,
    calls: &[Call],
    signature: &Signature,
    world: &World<'_, O>,
    bound: u64,
) -> Result<Ending, RunError> {
    run_beside(alloc, calls, signature, world, &Beside::NOTHING, bound)
}

/// Runs a script's variable program as [`run`] does, beside a collector and a finished function.
///
/// # Errors
///
/// Those of [`run`], and where an access touches a stack slot that only the function has.
pub fn run_beside<O: Outside>(
    alloc: Global,
    calls: &[Call],
    signature: &Signature,
    world: &World<'_, O>,
    beside: &Beside<'_>,
    bound: u64,
) -> Result<Ending, RunError> {
    let program = match Program::of(alloc, calls, signature) {
        Ok(program) => program,
        Err(_) => return Err(RunError::memory()),
    };
    check_targets(&program, calls.len())?;
    check_marks(&program, calls)?;
    let entry = program.entry;
    let mut state = match begin(alloc, signature, &program, calls, world, beside) {
        Ok(state) => state,
        Err(cause) => return Err(cause.at(Place::Start)),
    };
    let mut end = End::Stuck;
    if let Some(entry) = entry {
        if let Err(cause) = state.start(entry, world) {
            return Err(cause.at(Place::Start));
        }
        end = state.steps(entry, bound)?;
    }
    Ok(state.ended(end))
}

// A run before its first step.
fn begin<'s, 'p, 'o, O: Outside>(
    alloc: Global,
    signature: &'s Signature,
    program: &'p Program,
    calls: &'p [Call],
    world: &World<'o, O>,
    beside: &Beside<'_>,
) -> Result<State<'s, 'p, 'o, O>, Cause> {
    let mut store = world.store(alloc)?;
    for (size, shift) in program.slots.iter() {
        store.add_slot(*size, *shift)?;
    }
    for slot in beside.hidden {
        store.memory.hide(*slot)?;
    }
    Ok(State {
        alloc,
        signature,
        program,
        calls,
        variables: zeros(alloc, program)?,
        names: no_answers(alloc, program)?,
        store,
        pointer_width: world.pointer_width,
        outside: world.outside,
        mover: beside.mover,
        events: Vec::new(alloc),
        given: None,
        trace: world.trace(alloc),
    })
}
