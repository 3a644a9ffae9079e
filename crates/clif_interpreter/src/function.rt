//! The interpreter of functions, written from the function machine. It has the bits of values, and follows aliases.
use clif_ir::{BlockArg, BlockCall, ExceptionTargets, Function, InstructionData};
use clif_operations::arithmetic::bits_of_bytes;
use clif_operations::{Fault, Operation, Outcome, Store, Typed, bits_of, carry_out, kept};
use clif_types::{
    Block, Constant, EntityRef, EntitySet, ExternalName, FuncRef, Inst, PointerWidth, SigRef,
    Signature, StackSlot, Type, UserStackMapEntry, Value,
};
use clif_worlds::outside::{Payload, call_library, cut, show};
use clif_worlds::run::Trace;
use clif_worlds::{
    Callee, Cause, Choices, Collector, End, Ending, Event, Mover, Operand, Outside, Place,
    RunError, SlotRange, World,
};
use std::alloc::Global;

/// What comes behind an instruction.
#[derive(Drop)]
enum Next {
    /// The next instruction of the block.
    InBlock,
    /// This instruction, if there is one.
    At(Option<Inst>),
    /// Nothing.
    Ended(End),
}

/// A run of a function: the bits of the values that were given, memory, and the outside calls so far.
struct State<'a, O> {
    alloc: Global,
    func: &'a Function,
    values: Vec<Option<u128>>,
    store: Store,
    pointer_width: PointerWidth,
    outside: &'a O,
    collector: Collector<'a>,
    // the stack map of the instruction that is made
    entries: &'a [UserStackMapEntry],
    events: Vec<Event>,
    // what the last function of the C library gave to a try call
    given: Option<Typed>,
    choices: Choices,
    trace: Trace,
}

// By hand: a derived one is proved anew at each way out of a function that holds such a value.
impl<O> Drop for State<'_, O> {
    fn drop(self) {
        let State {
            alloc: _,
            func: _,
            values: _,
            store: _,
            pointer_width: _,
            outside: _,
            collector: _,
            entries: _,
            events: _,
            given: _,
            choices: _,
            trace: _,
        } = self;
    }
}

/// A call by its parts.
#[derive(Drop)]
struct CallParts<'a> {
    callee: Callee,
    // the callee's
    signature: &'a Signature,
    // the bits of the arguments
    arguments: Vec<u128>,
}

/// What an instruction of a function does, by its format: a row for each but the calls.
fn operation_of(func: &Function, shape: &InstructionData) -> Option<Operation> {
    Some(match shape {
        InstructionData::UnaryImm { imm } => Operation::Iconst(*imm),
        InstructionData::UnaryIeee { opcode, bits } => Operation::FloatConst(*opcode, *bits),
        InstructionData::UnaryConst { opcode, constant } => {
            Operation::PooledConst(*opcode, pooled_bits(func, *constant))
        }
        InstructionData::Unary { opcode, .. } => Operation::Unary(*opcode),
        InstructionData::Binary { opcode, .. } => Operation::Binary(*opcode),
        InstructionData::IntCompare { cond, .. } => Operation::Compare(*cond),
        InstructionData::Concat { .. } => Operation::Concat,
        InstructionData::Split { .. } => Operation::Split,
        InstructionData::Convert { opcode, .. } => Operation::Convert(*opcode),
        InstructionData::Ternary { .. } => Operation::Select,
        InstructionData::Load { flags, offset, .. } => {
            let (flags, offset) = (*flags, *offset);
            Operation::Load { flags, offset }
        }
        InstructionData::Store { flags, offset, .. } => {
            let (flags, offset) = (*flags, *offset);
            Operation::Store { flags, offset }
        }
        InstructionData::StackLoad {
            opcode,
            slot,
            offset,
        } => {
            let (opcode, slot, offset) = (*opcode, *slot, *offset);
            Operation::Stack {
                opcode,
                slot,
                offset,
            }
        }
        InstructionData::StackStore { slot, offset, .. } => {
            let (slot, offset) = (*slot, *offset);
            Operation::StackStore { slot, offset }
        }
        InstructionData::Jump { .. } => Operation::Jump,
        InstructionData::Brif { .. } => Operation::Brif,
        InstructionData::BranchTable { table, .. } => Operation::BrTable(table.as_slice().len()),
        InstructionData::MultiAry { .. } => Operation::Return,
        InstructionData::Trap { code } => Operation::Trap(*code),
        InstructionData::CondTrap { opcode, code, .. } => Operation::CondTrap(*opcode, *code),
        InstructionData::Call { .. }
        | InstructionData::CallIndirect { .. }
        | InstructionData::TryCall { .. }
        | InstructionData::TryCallIndirect { .. } => return None,
    })
}

// The bits of a pooled constant, of which at most 128 are kept; zero if there is no such constant.
fn pooled_bits(func: &Function, constant: Constant) -> u128 {
    match func.tables().constant(constant) {
        Some(pooled) => bits_of_bytes(pooled.as_slice()),
        None => 0,
    }
}

impl<'a, O: Outside> State<'a, O> {
    // The type of a value.
    fn type_of(&self, value: Value) -> Result<Type, Cause> {
        if value.index() >= self.func.value_count() {
            return Err(Cause::Unknown(Operand::Value(value)));
        }
        Ok(self.func.value_type(value))
    }

    // What a value holds: aliases are followed.
    fn value(&self, value: Value) -> Result<Typed, Cause> {
        if value.index() >= self.func.value_count() {
            return Err(Cause::Unknown(Operand::Value(value)));
        }
        let ty = self.func.value_type(value);
        let end = self.func.resolve_aliases(value);
        match self.values.get(end.index()) {
            Some(Some(bits)) => Ok(Typed { ty, bits: *bits }),
            Some(None) => Err(Cause::NotGiven(Operand::Value(value))),
            None => Err(Cause::Unknown(Operand::Value(value))),
        }
    }

    fn all(&self, values: &[Value]) -> Result<Vec<Typed>, Cause> {
        let mut all = Vec::new(self.alloc);
        for value in values {
            all.push(self.value(*value)?)?;
        }
        Ok(all)
    }

    // What the last call returned or threw at a place, of this type.
    fn answered(&self, ty: Option<Type>, place: u32) -> Result<Typed, Cause> {
        let Some(ty) = ty else {
            return Err(Cause::Edge);
        };
        let bits = self.outside.value(self.events.as_slice(), place as usize);
        Ok(kept(ty, cut(ty, bits))?)
    }

    // What a call returned at a place. A function of the C library returns one value.
    fn returned(&self, payload: Payload<'_>, place: u32) -> Result<Typed, Cause> {
        match payload {
            Payload::Gave if place == 0 => self.given.ok_or(Cause::Edge),
            other => self.answered(other.returned(place as usize), place),
        }
    }

    // What an edge passes.
    fn passed(&self, args: &[BlockArg], payload: Payload<'_>) -> Result<Vec<Typed>, Cause> {
        let mut passed = Vec::new(self.alloc);
        for arg in args {
            let value = match arg {
                BlockArg::Value(value) => self.value(*value)?,
                BlockArg::TryCallRet(place) => self.returned(payload, *place)?,
                BlockArg::TryCallExn(place) => {
                    self.answered(payload.thrown(*place as usize), *place)?
                }
            };
            passed.push(value)?;
        }
        Ok(passed)
    }

    fn give(&mut self, value: Value, bits: u128) -> Result<(), Cause> {
        let kept = kept(self.type_of(value)?, bits)?;
        let Some(held) = self.values.get_mut(value.index()) else {
            return Err(Cause::Unknown(Operand::Value(value)));
        };
        *held = Some(kept.bits);
        Ok(())
    }

    // Gives bits to the results of an instruction.
    fn give_all(&mut self, results: &[Value], bits: &[u128]) -> Result<(), Cause> {
        if results.len() != bits.len() {
            return Err(Cause::Fault(Fault::Results));
        }
        for (value, bits) in results.iter().zip(bits.iter()) {
            self.give(*value, *bits)?;
        }
        Ok(())
    }

    // The parameters of a block.
    fn params(&self, block: Block) -> Result<&'a [Value], Cause> {
        if block.index() >= self.func.block_count() {
            return Err(Cause::NoTarget);
        }
        Ok(self.func.block_params(block))
    }

    // Gives values to the parameters of a block, all at once; the answer is its first instruction.
    fn enter(&mut self, block: Block, values: &[Typed]) -> Result<Option<Inst>, Cause> {
        let params = self.params(block)?;
        if params.len() != values.len() {
            return Err(Cause::Edge);
        }
        for (param, value) in params.iter().zip(values.iter()) {
            if self.type_of(*param)? != value.ty {
                return Err(Cause::Edge);
            }
            self.give(*param, value.bits)?;
        }
        if block.index() >= self.func.block_count() {
            return Err(Cause::NoTarget);
        }
        self.trace.pass(block.index())?;
        Ok(self.func.first_inst(block))
    }

    fn follow(&mut self, edge: Option<&BlockCall>, payload: Payload<'_>) -> Result<Next, Cause> {
        let Some(edge) = edge else {
            return Err(Cause::NoTarget);
        };
        let values = self.passed(edge.args.as_slice(), payload)?;
        Ok(Next::At(self.enter(edge.block, values.as_slice())?))
    }

    // The type of the first result, if there is one: it is the one that is given with an instruction.
    fn given(&self, results: &[Value]) -> Result<Type, Cause> {
        match results.first() {
            Some(result) => self.type_of(*result),
            None => Ok(Type::Invalid),
        }
    }

    // The bits of a call's arguments, which have the types of the signature's parameters.
    fn arguments(&self, signature: &Signature, values: &[Value]) -> Result<Vec<u128>, Cause> {
        let params = signature.params.as_slice();
        if params.len() != values.len() {
            return Err(Cause::CallArguments);
        }
        let mut arguments = Vec::new(self.alloc);
        for (value, param) in values.iter().zip(params.iter()) {
            let value = self.value(*value)?;
            if value.ty != param.value_type {
                return Err(Cause::CallArguments);
            }
            arguments.push(value.bits)?;
        }
        Ok(arguments)
    }

    // An imported function, and the signature that it is called by: its own, or that of a try call's table.
    fn named(
        &self,
        function: FuncRef,
        by: Option<SigRef>,
    ) -> Result<(&'a ExternalName, &'a Signature), Cause> {
        let func = self.func;
        let Some(data) = func.tables().function(function) else {
            return Err(Cause::NoFunction);
        };
        match func.tables().signature(by.unwrap_or(data.signature)) {
            Some(signature) => Ok((&data.name, signature)),
            None => Err(Cause::NoFunction),
        }
    }

    // A call of an imported function.
    fn direct(
        &self,
        function: FuncRef,
        by: Option<SigRef>,
        values: &[Value],
    ) -> Result<CallParts<'a>, Cause> {
        let (name, signature) = self.named(function, by)?;
        Ok(CallParts {
            callee: Callee::Named(name.clone()?),
            signature,
            arguments: self.arguments(signature, values)?,
        })
    }

    // A call of what lies at the address that the first operand is.
    fn indirect(&self, number: SigRef, operands: &[Value]) -> Result<CallParts<'a>, Cause> {
        let func = self.func;
        let Some((address, values)) = operands.split_first() else {
            return Err(Cause::CallArguments);
        };
        let Some(signature) = func.tables().signature(number) else {
            return Err(Cause::NoFunction);
        };
        Ok(CallParts {
            callee: Callee::AtAddress(self.value(*address)?.bits, number),
            signature,
            arguments: self.arguments(signature, values)?,
        })
    }

    // Shows a call, moves what it moves, and has it answered. The answer is the item's edge that it goes along, if it
    // throws.
    fn show(&mut self, call: CallParts<'a>, items: usize) -> Result<Option<usize>, Cause> {
        let CallParts {
            callee,
            arguments,
            ..
        } = call;
        let event = Event { callee, arguments };
        let thrown = show(
            self.outside,
            &mut self.events,
            event,
            items,
            &mut self.store.memory,
        )?;
        self.collect()?;
        Ok(thrown)
    }

    // Moves what the last outside call moves.
    fn collect(&mut self) -> Result<(), Cause> {
        let calls = self.events.len();
        match self.collector {
            Collector::Nothing => {}
            Collector::ByMaps(mover) => self.move_entries(mover, calls)?,
            Collector::OverSet(members, mover) => {
                mover.move_members(members, self.func, self.values.as_mut_slice(), calls)
            }
        }
        Ok(())
    }

    // Moves what lies in the slots that the stack map names.
    fn move_entries(&mut self, mover: Mover, calls: usize) -> Result<(), Cause> {
        let entries = self.entries;
        for entry in entries {
            mover.move_entry(self.alloc, *entry, &mut self.store, calls)?;
        }
        Ok(())
    }

    // Makes a call that isn't a try call, which gives its results.
    fn plain_call(&mut self, call: CallParts<'a>, results: &[Value]) -> Result<Next, Cause> {
        self.show(call, 0)?;
        for (place, result) in results.iter().enumerate() {
            let bits = self.outside.value(self.events.as_slice(), place);
            let ty = self.type_of(*result)?;
            self.give(*result, cut(ty, bits))?;
        }
        Ok(Next::InBlock)
    }

    // Makes a try call, which goes along the normal edge or along that of an item.
    fn try_call(&mut self, call: CallParts<'a>, table: &ExceptionTargets) -> Result<Next, Cause> {
        let edges = table.all_branches();
        let signature = call.signature;
        let returns = signature.returns.as_slice();
        match self.show(call, edges.len().saturating_sub(1))? {
            Some(item) => self.follow(edges.get(item.saturating_add(1)), Payload::Thrown),
            None => self.follow(edges.first(), Payload::Returned(returns)),
        }
    }

    // What a function of the C library gives, if a function is one: it does its work.
    fn library(
        &mut self,
        function: FuncRef,
        by: Option<SigRef>,
        values: &[Value],
    ) -> Result<Option<Typed>, Cause> {
        let (name, signature) = self.named(function, by)?;
        let ExternalName::LibCall(callee) = name else {
            return Ok(None);
        };
        let arguments = self.arguments(signature, values)?;
        let value = call_library(
            self.alloc,
            *callee,
            self.pointer_width,
            signature,
            arguments.as_slice(),
            &mut self.store.memory,
        )?;
        Ok(Some(value))
    }

    // Calls a function, which gives its results.
    fn call_direct(
        &mut self,
        function: FuncRef,
        values: &[Value],
        results: &[Value],
    ) -> Result<Next, Cause> {
        if let Some(value) = self.library(function, None, values)? {
            self.give_all(results, &[value.bits])?;
            return Ok(Next::InBlock);
        }
        let call = self.direct(function, None, values)?;
        self.plain_call(call, results)
    }

    // Tries to call a function. One of the C library returns, and is no outside call.
    fn try_direct(
        &mut self,
        function: FuncRef,
        values: &[Value],
        table: &ExceptionTargets,
    ) -> Result<Next, Cause> {
        if let Some(value) = self.library(function, Some(table.signature()), values)? {
            self.given = Some(value);
            return self.follow(table.all_branches().first(), Payload::Gave);
        }
        let call = self.direct(function, Some(table.signature()), values)?;
        self.try_call(call, table)
    }

    // Makes a call, if the instruction is one.
    fn call(&mut self, shape: &InstructionData, results: &[Value]) -> Result<Next, Cause> {
        match shape {
            InstructionData::Call { func_ref, args } => {
                self.call_direct(*func_ref, args.as_slice(), results)
            }
            InstructionData::CallIndirect { sig_ref, args } => {
                let call = self.indirect(*sig_ref, args.as_slice())?;
                self.plain_call(call, results)
            }
            InstructionData::TryCall {
                func_ref,
                args,
                exception,
            } => { self.try_direct(*func_ref, args.as_slice(), exception) }
            InstructionData::TryCallIndirect { args, exception } => {
                let call = self.indirect(exception.signature(), args.as_slice())?;
                self.try_call(call, exception)
            }
            _ => Err(Cause::NoTarget),
        }
    }

    // A choice more, if the operation is one.
    fn count(&mut self, operation: &Operation) {
        match operation {
            Operation::Brif => self.choices.branches = self.choices.branches.saturating_add(1),
            Operation::BrTable(_) => self.choices.tables = self.choices.tables.saturating_add(1),
            _ => {}
        }
    }

    // What the run shows where it ended so, and the choices that it made.
    fn ended(self, end: End) -> (Ending, Choices) {
        let State {
            alloc: _,
            func: _,
            values: _,
            store,
            pointer_width: _,
            outside: _,
            collector: _,
            entries: _,
            events,
            given: _,
            choices,
            trace,
        } = self;
        let ending = Ending {
            events,
            end,
            memory: store.memory,
            passed: trace.blocks,
        };
        (ending, choices)
    }

    // Makes an instruction of this shape and with these results.
    fn make(&mut self, shape: &InstructionData, results: &[Value]) -> Result<Next, Cause> {
        let Some(operation) = operation_of(self.func, shape) else {
            return self.call(shape, results);
        };
        let operands = self.all(shape.arguments())?;
        let operands = operands.as_slice();
        let given = self.given(results)?;
        let (alloc, func) = (self.alloc, self.func);
        let returns = func.signature().returns.as_slice();
        match carry_out(alloc, &operation, given, operands, returns, &mut self.store)? {
            (_, Outcome::Gave(bits)) => {
                self.give_all(results, bits.as_slice())?;
                Ok(Next::InBlock)
            }
            (_, Outcome::Went(number)) => {
                self.count(&operation);
                self.follow(shape.branch_destination().get(number), Payload::None)
            }
            (_, Outcome::Returned) => Ok(Next::Ended(End::Returned(bits_of(alloc, operands)?))),
            (_, Outcome::Trapped(code)) => Ok(Next::Ended(End::Trapped(code))),
        }
    }

    // Makes an instruction of the function.
    fn step(&mut self, inst: Inst) -> Result<Next, Cause> {
        let func = self.func;
        if inst.index() >= func.inst_count() {
            return Ok(Next::At(None));
        }
        self.entries = func.stack_map(inst);
        match self.make(func.inst_data(inst), func.inst_results(inst))? {
            Next::InBlock => Ok(Next::At(func.next_inst(inst))),
            other => Ok(other),
        }
    }

    // Makes the instructions from this one on. Where nothing comes behind one, the run is stuck.
    fn steps(&mut self, first: Option<Inst>, bound: u64) -> Result<End, RunError> {
        let mut next = first;
        for _ in 0..bound {
            let Some(inst) = next else {
                return Ok(End::Stuck);
            };
            match self.step(inst) {
                Ok(Next::At(following)) => next = following,
                Ok(Next::Ended(end)) => return Ok(end),
                Ok(Next::InBlock) => return Ok(End::Stuck),
                Err(cause) => return Err(cause.at(Place::Inst(inst))),
            }
        }
        Ok(End::OutOfSteps)
    }

    // Gives the arguments to the parameters of the entry block; the answer is its first instruction.
    fn start(&mut self, entry: Block, world: &World<'_, O>) -> Result<Option<Inst>, Cause> {
        let params = self.params(entry)?;
        if params.len() != world.arguments.len() {
            return Err(Cause::Arguments);
        }
        let mut values = Vec::new(self.alloc);
        for (param, bits) in params.iter().zip(world.arguments.iter()) {
            values.push(world.argument(self.type_of(*param)?, *bits)?)?;
        }
        self.enter(entry, values.as_slice())
    }
}

/// Runs a function in a world, for at most so many instructions.
///
/// # Errors
///
/// Where the function is wrong on the path of the run: a value isn't given yet, types don't fit, what a load or a store
/// claims isn't true, or a function of the C library is called by another signature than its own, touches bytes that
/// aren't accessible, or copies between bytes that overlap though it must not. And where memory is refused, a value has
/// more than 128 bits, or a stack slot has no place.
pub fn run<'a, O: Outside>(
    alloc: Global,
    func: &'a Function,
    world: &World<'a, O>,
    bound: u64,
) -> Result<Ending, RunError> {
    let (ending, _) = run_counted(alloc, func, world, bound)?;
    Ok(ending)
}

/// The same, with the choices that the run made.
///
/// # Errors
///
/// Those of [`run`].
pub fn run_counted<'a, O: Outside>(
    alloc: Global,
    func: &'a Function,
    world: &World<'a, O>,
    bound: u64,
) -> Result<(Ending, Choices), RunError> {
    run_collected(alloc, func, world, Collector::Nothing, bound)
}

/// Runs a function as [`run_counted`] does, where outside calls move what a collector says. A set may name values that the
/// function lacks.
///
/// # Errors
///
/// Those of [`run`], and where an entry of a stack map doesn't lie in memory.
pub fn run_collected<'a, O: Outside>(
    alloc: Global,
    func: &'a Function,
    world: &World<'a, O>,
    collector: Collector<'a>,
    bound: u64,
) -> Result<(Ending, Choices), RunError> {
    let mut state = match begin(alloc, func, world, collector) {
        Ok(state) => state,
        Err(cause) => return Err(cause.at(Place::Start)),
    };
    let mut first = None;
    if let Some(entry) = func.entry_block() {
        first = match state.start(entry, world) {
            Ok(first) => first,
            Err(cause) => return Err(cause.at(Place::Start)),
        };
    }
    let end = state.steps(first, bound)?;
    Ok(state.ended(end))
}

/// Where those stack slots of a function lie in a world that come behind so many others: behind those that the calls made, the
/// slots in which it keeps what moves.
///
/// # Errors
///
/// Where a stack slot has no place, and where memory is refused.
pub fn slots_behind<O>(
    alloc: Global,
    func: &Function,
    world: &World<'_, O>,
    count: usize,
) -> Result<Vec<SlotRange>, RunError> {
    match placed(alloc, func, world, count) {
        Ok(ranges) => Ok(ranges),
        Err(cause) => Err(cause.at(Place::Start)),
    }
}

fn placed<O>(
    alloc: Global,
    func: &Function,
    world: &World<'_, O>,
    count: usize,
) -> Result<Vec<SlotRange>, Cause> {
    let store = store_of(alloc, func, world)?;
    let mut ranges = Vec::new(alloc);
    for range in store.slots.ranges().iter().skip(count) {
        ranges.push(*range)?;
    }
    Ok(ranges)
}

// Memory as a run begins, with the function's stack slots in it.
fn store_of<O>(alloc: Global, func: &Function, world: &World<'_, O>) -> Result<Store, Cause> {
    let mut store = world.store(alloc)?;
    let tables = func.tables();
    for number in 0..tables.stack_slot_count() {
        if let Some(slot) = tables.stack_slot(StackSlot::new(number)) {
            store.add_slot(slot.size(), slot.align_shift())?;
        }
    }
    Ok(store)
}

// A run before its first step.
fn begin<'a, O: Outside>(
    alloc: Global,
    func: &'a Function,
    world: &World<'a, O>,
    collector: Collector<'a>,
) -> Result<State<'a, O>, Cause> {
    let mut values = Vec::new(alloc);
    for _ in 0..func.value_count() {
        values.push(None)?;
    }
    Ok(State {
        alloc,
        func,
        values,
        store: store_of(alloc, func, world)?,
        pointer_width: world.pointer_width,
        outside: world.outside,
        collector,
        entries: &[],
        events: Vec::new(alloc),
        given: None,
        choices: Choices::NONE,
        trace: world.trace(alloc),
    })
}
