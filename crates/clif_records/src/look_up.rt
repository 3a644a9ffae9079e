//! The stacks of a look-up that is under way.
ghost use Rattle.std.specs.Prelude.{◌≡◌, ◌++◌, ◌∷◌, ◌≤◌, ◌<◌, ◌-◌, [], ℕ, length, reverse, take, drop, Some, OnOk, OnErr, MatchOption};
ghost use Rattle.std.specs.Option.{option_to_list};
ghost use Rattle.clif_records.specs.Stacks.{no_look_up, calls_for};

use clif_types::{Block, BuildError, Inst, Value};
use std::alloc::Global;
use std::marker::Model;
use std::mem;

/// A call of the machine that looks a variable up.
#[derive(Clone, Copy, Debug, PartialEq, Eq)]
pub enum Call {
    /// Look the variable up in the block of this branch.
    UseVar(Inst),
    /// End the look-up of this parameter of a block: the predecessors' results are there.
    FinishPredecessorsLookup(Value, Block),
}

/// A look-up that is under way: two stacks, of calls and of results, stand in place of recursion, so
/// that no depth of the program costs machine stack. Contracts see the top of each first.
#[derive(Debug)]
pub struct LookUp {
    calls: Vec<Call>,
    results: Vec<Value>,
    zeros: Vec<Block>,
}

// By hand: a derived one is proved anew at each way out of a function that holds such a value.
impl Drop for LookUp {
    fn drop(self) {
        let LookUp {
            calls: _,
            results: _,
            zeros: _,
        } = self;
    }
}

impl Model for LookUp {
    ghost use Rattle.std.specs.Prelude.{reverse};
    ghost use Rattle.clif_records.specs.Stacks.{LookUpState};

    ghost Value = { LookUpState };

    ghost view = { λ l. record { calls = reverse l.calls.items; results = reverse l.results.items; zeros = l.zeros.items } };
}

impl LookUp {
    /// Nothing is looked up yet.
    #[inline(always)]
    pub fn new(alloc: Global) -> Self
        ensures { result ≡ no_look_up }
    {
        LookUp {
            calls: Vec::new(alloc),
            results: Vec::new(alloc),
            zeros: Vec::new(alloc),
        }
    }

    /// Takes the next call, if there is one.
    #[inline(always)]
    pub fn next_call(&mut self) -> Option<Call>
        ensures { MatchOption result (self.old.calls ≡ [] × self.new ≡ self.old) (λ call. (self.old.calls ≡ call ∷ self.new.calls) × (self.new ≡ record self.old { calls = self.new.calls })) }
    {
        self.calls.pop()
    }

    /// Puts the calls that look a variable up in the predecessors of a block, for a parameter of it.
    ///
    /// # Errors
    ///
    /// `Memory`, where memory is refused.
    #[tactic(auto, using(crate::proofs::Stacks::stack_rules))]
    #[inline(always)]
    pub fn begin(
        &mut self,
        predecessors: &[Inst],
        param: Value,
        block: Block,
    ) -> Result<(), BuildError>
        ensures ok { OnOk result (self.new ≡ record self.old { calls = calls_for predecessors.now param block ++ self.old.calls }) }
        ensures only_memory { OnErr result (result ≡ Err BuildError.Memory) }
    {
        self.calls
            .push(Call::FinishPredecessorsLookup(param, block))?;
        for branch in predecessors.iter().rev().copied() {
            self.calls.push(Call::UseVar(branch))?;
        }
        Ok(())
    }

    /// Puts a result.
    ///
    /// # Errors
    ///
    /// `Memory`, where memory is refused.
    #[inline(always)]
    pub fn push_result(&mut self, value: Value) -> Result<(), BuildError>
        ensures ok { OnOk result (self.new ≡ record self.old { results = value ∷ self.old.results }) }
        ensures only_memory { OnErr result (result ≡ Err BuildError.Memory) }
    {
        self.results.push(value)?;
        Ok(())
    }

    #[tactic(auto, using(crate::proofs::Stacks::stack_rules))]
    /// The last `count` results, in the order in which they came.
    #[inline(always)]
    pub fn last_results(&self, count: usize) -> &[Value]
        requires { count ≤ length self.now.results }
        ensures { result.now ≡ reverse (take count self.now.results) }
    {
        &self.results[self.results.len() - count..]
    }

    #[tactic(auto, using(crate::proofs::Stacks::stack_rules))]
    /// Forgets the last `count` results.
    #[inline(always)]
    pub fn drop_results(&mut self, count: usize)
        requires { count ≤ length self.old.results }
        ensures { self.new ≡ record self.old { results = drop count self.old.results } }
    {
        let kept = self.results.len() - count;
        self.results.truncate(kept);
    }

    /// Takes the one result.
    #[inline(always)]
    pub fn take_result(&mut self) -> Value
        requires { length self.old.results ≡ 1 }
        ensures one { self.old.results ≡ result ∷ [] }
        ensures taken { self.new ≡ record self.old { results = [] } }
    {
        let Some(value) = self.results.pop() else {
            unreachable!()
        };
        value
    }

    /// Tells of the zero that was put into this block, if one was.
    ///
    /// # Errors
    ///
    /// `Memory`, where memory is refused.
    #[inline(always)]
    pub fn tell_zero(&mut self, zero: Option<Block>) -> Result<(), BuildError>
        ensures ok { OnOk result (self.new ≡ record self.old { zeros = self.old.zeros ++ option_to_list zero }) }
        ensures only_memory { OnErr result (result ≡ Err BuildError.Memory) }
    {
        if let Some(block) = zero {
            self.zeros.push(block)?;
        }
        Ok(())
    }

    /// Forgets all, and keeps the room of the stacks.
    #[inline(always)]
    pub fn clear(&mut self)
        ensures { self.new ≡ no_look_up }
    {
        self.calls.clear();
        self.results.clear();
        self.zeros.clear();
    }

    /// Takes the blocks of the zeros that were put, in order.
    #[inline(always)]
    pub fn take_zeros(&mut self) -> Vec<Block>
        ensures { result.items ≡ self.old.zeros }
    {
        let alloc = *self.zeros.allocator();
        mem::replace(&mut self.zeros, Vec::new(alloc))
    }
}
