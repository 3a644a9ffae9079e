//! Edges: the target of a branch, and what it passes to the target's parameters.
ghost use Rattle.std.specs.Prelude.{◌≡◌, ◌-◌, ◌<◌, [], ◌∷◌, ◌++◌, length, slice_set, take, Some, OnOk, OnErr, IfOk};
ghost use Rattle.clif_instructions.specs.Edges.{argument_text};
ghost use Rattle.clif_instructions.specs.Kept.{args_of};

use arrayvec::ArrayVec;
use clif_types::{Block, BuildError, Value};
use std::alloc::Global;
use std::marker::Model;
use std::{fmt, slice};

/// What an edge passes to a parameter of its target.
#[derive(Clone, Copy, Debug, PartialEq, Eq, Hash)]
pub enum BlockArg {
    /// A value.
    Value(Value),
    /// What a try call gave: its result at this place. It stands on the normal edge alone.
    TryCallRet(u32),
    /// What a try call gave: this part of an exception. It stands on the edge of an item alone.
    TryCallExn(u32),
}

impl fmt::Display for BlockArg {
    ghost output = { λ a. Some (argument_text a) };

    fn fmt<W: fmt::Write>(&self, f: &mut fmt::Formatter<W>) -> fmt::Result {
        match self {
            BlockArg::Value(value) => write!(f, "{value}"),
            BlockArg::TryCallRet(place) => write!(f, "ret{place}"),
            BlockArg::TryCallExn(place) => write!(f, "exn{place}"),
        }
    }
}

impl Default for BlockArg {
    fn default() -> Self {
        BlockArg::TryCallRet(0)
    }
}

/// What an edge passes, in order: most of the time at most one argument, which takes no memory of its own.
pub struct BlockArgs {
    alloc: Global,
    args: Args,
}

// By hand: a derived one is proved anew at each way out of a function that holds such a value.
impl Drop for BlockArgs {
    fn drop(self) {
        let BlockArgs { alloc: _, args: _ } = self;
    }
}

// The arguments of an edge.
enum Args {
    None,
    One(BlockArg),
    // Two to four, or fewer that are left of these.
    Four(Box<ArrayVec<BlockArg, 4>>),
    // Five to eight, or fewer that are left of these.
    Eight(Box<ArrayVec<BlockArg, 8>>),
    // Nine or more, or fewer that are left of these.
    Many(Box<Vec<BlockArg>>),
}

// By hand: a derived one is proved anew at each way out of a function that holds such a value.
impl Drop for Args {
    fn drop(self) {
        match self {
            Args::None => {}
            Args::One(_) => {}
            Args::Four(_) => {}
            Args::Eight(_) => {}
            Args::Many(_) => {}
        }
    }
}

const _: () = prove!(size_of::<BlockArgs>() == 16);

impl Model for BlockArgs {
    ghost use Rattle.std.specs.Prelude.{List};
    ghost use Rattle.clif_instructions.specs.declared.block_call.BlockArg.{BlockArg};
    ghost use Rattle.clif_instructions.specs.Kept.{args_of};

    ghost Value = { List BlockArg };

    ghost view = { λ l. args_of l.args };
}

impl BlockArgs {
    /// The empty list.
    pub fn new(alloc: Global) -> Self
        ensures { result ≡ [] }
    {
        BlockArgs {
            alloc,
            args: Args::None,
        }
    }

    /// A list of these arguments.
    ///
    /// # Errors
    ///
    /// `Memory`, where memory is refused.
    pub fn from_slice(alloc: Global, args: &[BlockArg]) -> Result<Self, BuildError>
        ensures ok { IfOk result (λ l. l ≡ args.now) }
        ensures only_memory { OnErr result (result ≡ Err BuildError.Memory) }
    {
        let args = match args {
            [] => Args::None,
            [arg] => Args::One(*arg),
            _ => more_args(alloc, args)?,
        };
        Ok(BlockArgs { alloc, args })
    }

    /// The arguments, in order.
    pub fn as_slice(&self) -> &[BlockArg]
        ensures { result.now ≡ self.now }
    {
        match &self.args {
            Args::None => &[],
            Args::One(arg) => slice::from_ref(arg),
            Args::Four(four) => four.as_slice(),
            Args::Eight(eight) => eight.as_slice(),
            Args::Many(many) => many.as_slice(),
        }
    }

    /// Puts an argument at the end.
    ///
    /// # Errors
    ///
    /// `Memory`, where memory is refused; the list is as it was then.
    pub fn push(&mut self, arg: BlockArg) -> Result<(), BuildError>
        ensures ok { OnOk result (self.new ≡ self.old ++ arg ∷ []) }
        ensures err { OnErr result (self.new ≡ self.old) }
        ensures only_memory { OnErr result (result ≡ Err BuildError.Memory) }
    {
        match &mut self.args {
            Args::None => self.args = Args::One(arg),
            Args::One(first) => self.args = more_args(self.alloc, &[*first, arg])?,
            Args::Four(four) => {
                if four.is_full() {
                    self.args = eight_args(self.alloc, four.as_slice(), arg)?;
                } else {
                    four.push(arg);
                }
            }
            Args::Eight(eight) => {
                if eight.is_full() {
                    self.args = many_args(self.alloc, eight.as_slice(), arg)?;
                } else {
                    eight.push(arg);
                }
            }
            Args::Many(many) => many.push(arg)?,
        }
        Ok(())
    }

    /// Makes `arg` the argument at `place`, in place of what was there.
    pub fn set(&mut self, place: usize, arg: BlockArg)
        requires { place < length self.old }
        ensures { self.new ≡ slice_set self.old place arg }
    {
        match &mut self.args {
            Args::None => {}
            Args::One(only) => *only = arg,
            Args::Four(four) => four[place] = arg,
            Args::Eight(eight) => eight[place] = arg,
            Args::Many(many) => many[place] = arg,
        }
    }

    /// Takes the last argument away, if there is one.
    pub fn pop(&mut self)
        ensures { self.new ≡ take (length self.old - 1) self.old }
    {
        match &mut self.args {
            Args::None | Args::One(_) => self.args = Args::None,
            Args::Four(four) => {
                let _ = four.pop();
            }
            Args::Eight(eight) => {
                let _ = eight.pop();
            }
            Args::Many(many) => {
                let _ = many.pop();
            }
        }
    }
}

// Arguments that lie in memory of their own. The only error is `Memory`.
fn more_args(alloc: Global, args: &[BlockArg]) -> Result<Args, BuildError>
    ensures ok { IfOk result (λ more. args_of more ≡ args.now) }
    ensures only_memory { OnErr result (result ≡ Err BuildError.Memory) }
{
    let mut four = ArrayVec::new();
    if four.try_extend_from_slice(args).is_ok() {
        return Ok(Args::Four(Box::new(alloc, four)?));
    }
    let mut eight = ArrayVec::new();
    if eight.try_extend_from_slice(args).is_ok() {
        return Ok(Args::Eight(Box::new(alloc, eight)?));
    }
    Ok(Args::Many(Box::new(alloc, Vec::from_slice(alloc, args)?)?))
}

// Four arguments and one more. The only error is `Memory`.
fn eight_args(alloc: Global, args: &[BlockArg], last: BlockArg) -> Result<Args, BuildError>
    requires { length args.now < 8 }
    ensures ok { IfOk result (λ more. args_of more ≡ args.now ++ last ∷ []) }
    ensures only_memory { OnErr result (result ≡ Err BuildError.Memory) }
{
    let mut eight = ArrayVec::new();
    let _fits = eight.try_extend_from_slice(args);
    eight.push(last);
    Ok(Args::Eight(Box::new(alloc, eight)?))
}

// Eight arguments and one more. The only error is `Memory`.
fn many_args(alloc: Global, args: &[BlockArg], last: BlockArg) -> Result<Args, BuildError>
    ensures ok { IfOk result (λ more. args_of more ≡ args.now ++ last ∷ []) }
    ensures only_memory { OnErr result (result ≡ Err BuildError.Memory) }
{
    let mut many = Vec::from_slice(alloc, args)?;
    many.push(last)?;
    Ok(Args::Many(Box::new(alloc, many)?))
}

/// An edge: a block, and what is passed to its parameters, in order.
pub struct BlockCall {
    /// The target.
    pub block: Block,
    /// What the target's parameters get.
    pub args: BlockArgs,
}

// By hand: a derived one is proved anew at each way out of a function that holds such a value.
impl Drop for BlockCall {
    fn drop(self) {
        let BlockCall { block: _, args: _ } = self;
    }
}

const _: () = prove!(size_of::<BlockCall>() == 24);

impl BlockCall {
    /// An edge to `block` that passes these arguments.
    ///
    /// # Errors
    ///
    /// `Memory`, where memory is refused.
    pub fn new(alloc: Global, block: Block, args: &[BlockArg]) -> Result<Self, BuildError>
        ensures ok { IfOk result (λ call. (call.block ≡ block) × (call.args ≡ args.now)) }
        ensures only_memory { OnErr result (result ≡ Err BuildError.Memory) }
    {
        let args = BlockArgs::from_slice(alloc, args)?;
        Ok(BlockCall { block, args })
    }
}
