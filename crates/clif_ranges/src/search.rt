//! The search tree of a switch: ranges of cases are split at half their number, until at most three are left, which are tested
//! from the highest down.
#![tactic(auto)]

ghost use Rattle.std.specs.Prelude.{◌≡◌, ◌+◌, ◌*◌, ◌^◌, ◌<◌, ℕ, [], ◌∷◌, length, IfOk, OnErr, Err};
ghost use Rattle.clif_ranges.specs.Search.{AddsNodes, AddsRange, AreFew, AreInOrder, AreSeparate, AreTestsOf, ComesBefore, FindsCases, FindsEachKey};
ghost use Rattle.clif_ranges.specs.declared.search.Next.TheVariants as Next;
ghost use Rattle.clif_types.specs.declared.error.BuildError.TheVariants as BuildError;

use crate::ranges::CaseRange;
use clif_types::BuildError;
use std::alloc::Global;

/// Where control goes if a test doesn't hold.
#[derive(Clone, Copy, PartialEq, Eq, Debug)]
pub enum Next {
    /// To the block of all keys without a case.
    Otherwise,
    /// To the node with this number.
    Node(usize),
}

/// What is tested of a key.
#[derive(Clone, Copy, Debug)]
pub enum Test<'r> {
    /// Nothing: there is no case, and control goes to the block of all other keys.
    Nothing,
    /// Whether the key is the only one of this range. Then its block comes next.
    OneKey {
        range: &'r CaseRange,
        other: Next,
    },
    /// Whether the key isn't below this one. Then the node with the number `above` comes next.
    NotBelow {
        first: u128,
        above: usize,
        other: Next,
    },
    /// Which of the range's keys it is: control goes to its block, or to that of all other keys.
    Table {
        range: &'r CaseRange,
    },
}

/// A test in a block of its own. The node 0 stands in the block in which the switch is made.
#[derive(Clone, Copy, Debug)]
pub struct Node<'r> {
    pub number: usize,
    pub test: Test<'r>,
}

/// How many ranges are tested one after the other.
const IN_TURN: usize = 3;

/// The nodes of the search among these ranges, each behind those from which control comes to it. A number is that of
/// a block in the order in which the blocks are made.
///
/// # Errors
///
/// `Memory`, where memory is refused.
pub fn search_tree<'r>(alloc: Global, ranges: &'r [CaseRange]) -> Result<Vec<Node<'r>>, BuildError>
    requires { AreSeparate ranges.now }
    ensures ok { IfOk result (λ nodes. FindsCases ranges.now nodes.items 0) }
    ensures cases { IfOk result (λ nodes. FindsEachKey ranges.now nodes.items) }
    ensures order { IfOk result (λ nodes. AreInOrder (0 ∷ []) 1 nodes.items) }
    ensures tests { IfOk result (λ nodes. AreTestsOf ranges.now nodes.items) }
    ensures few { IfOk result (λ nodes. AreFew ranges.now nodes.items) }
    ensures only_memory { OnErr result (result ≡ Err BuildError.Memory) }
{
    let mut nodes = Vec::new(alloc);
    if ranges.is_empty() {
        nodes.push(Node {
            number: 0,
            test: Test::Nothing,
        })?;
        return Ok(nodes);
    }
    add_nodes(&mut nodes, 1, 0, ranges)?;
    Ok(nodes)
}

// The nodes of a part of the ranges, of which the first has this number, and later ones numbers from `next` on. Answers the number
// behind the last one. As deep as the number of ranges has binary digits, and three.
fn add_nodes<'r>(
    nodes: &mut Vec<Node<'r>>,
    next: usize,
    number: usize,
    ranges: &'r [CaseRange],
) -> Result<usize, BuildError>
    requires separate { AreSeparate ranges.now }
    requires some { 0 < length ranges.now }
    requires before { number < next }
    requires room { next + 3 * length ranges.now < 2 ^ 64 }
    ensures ok { IfOk result (λ behind. AddsNodes ranges.now next number nodes.old.items nodes.new.items behind) }
    ensures only_memory { OnErr result (result ≡ Err BuildError.Memory) }
{
    if ranges.len() > IN_TURN {
        let (low, high) = ranges.split_at(ranges.len() / 2);
        let test = Test::NotBelow {
            first: high[0].first,
            above: next + 1,
            other: Next::Node(next),
        };
        nodes.push(Node { number, test })?;
        let behind = add_nodes(nodes, next + 2, next + 1, high)?;
        return add_nodes(nodes, behind, next, low);
    }
    let Some((range, lower)) = ranges.split_last() else {
        return Ok(next);
    };
    if lower.is_empty() {
        return add_range(nodes, next, number, range, Next::Otherwise);
    }
    let behind = add_range(nodes, next + 1, number, range, Next::Node(next))?;
    add_nodes(nodes, behind, next, lower)
}

// The nodes that test one range.
fn add_range<'r>(
    nodes: &mut Vec<Node<'r>>,
    next: usize,
    number: usize,
    range: &'r CaseRange,
    other: Next,
) -> Result<usize, BuildError>
    requires filled { 0 < length range.now.blocks.items }
    requires before { number < next }
    requires other { ComesBefore other next }
    requires lowest { range.now.first ≡ 0 → other ≡ Next.Otherwise }
    requires room { next + 1 < 2 ^ 64 }
    ensures ok { IfOk result (λ behind. AddsRange range.now next number other nodes.old.items nodes.new.items behind) }
    ensures only_memory { OnErr result (result ≡ Err BuildError.Memory) }
{
    if range.blocks.len() == 1 {
        let test = Test::OneKey { range, other };
        nodes.push(Node { number, test })?;
        return Ok(next);
    }
    if range.first == 0 {
        let test = Test::Table { range };
        nodes.push(Node { number, test })?;
        return Ok(next);
    }
    let test = Test::NotBelow {
        first: range.first,
        above: next,
        other,
    };
    nodes.push(Node { number, test })?;
    let test = Test::Table { range };
    nodes.push(Node { number: next, test })?;
    Ok(next + 1)
}
