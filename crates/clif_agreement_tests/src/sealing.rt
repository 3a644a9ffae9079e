//! A script whose blocks are sealed in any order answers the same.
#![tactic(auto)]

use crate::support::{STEPS, both_end, built, returned, script_of, world_of, zeros};
use clif_script::{Call, Name};
use clif_text::Script;
use clif_worlds::Ending;
use clif_worlds::outside::Zeros;
use std::alloc::{AllocError, Global};
use std::process::Abort;
use std::test::Fail;

/// Two loops, one in the other: the inner one counts y down from x, the outer one x from 3, and `total` counts the turns
/// of the inner one. No block is sealed yet.
const NEST: &str = "\
function %nest () -> i32 system_v
x = declare_var i32
y = declare_var i32
total = declare_var i32
block0 = create_block
block1 = create_block
block2 = create_block
block3 = create_block
block4 = create_block
block5 = create_block
switch_to_block block0
three = iconst.i32 3
def_var x three
none = iconst.i32 0
def_var total none
jump block1
switch_to_block block1
outer = use_var x
def_var y outer
brif outer, block2, block5
switch_to_block block2
inner = use_var y
brif inner, block3, block4
switch_to_block block3
before = use_var total
one = iconst.i32 1
after = iadd before, one
def_var total after
turns = use_var y
fewer = isub turns, one
def_var y fewer
jump block2
switch_to_block block4
rest = use_var x
another = iconst.i32 1
less = isub rest, another
def_var x less
jump block1
switch_to_block block5
result = use_var total
return result
";

/// The place of the call that makes block0; those of the other blocks follow.
const FIRST_BLOCK: usize = 3;

// The block that a number of six digits in base 6 has at the digit of this weight.
fn block_at(number: usize, weight: usize) -> usize {
    number / weight.max(1) % 6
}

const WEIGHTS: [usize; 6] = [1, 6, 36, 216, 1296, 7776];

// A number has each of the six blocks: it is an order of them.
fn is_order(number: usize) -> bool {
    let mut found = [false; 6];
    for weight in WEIGHTS {
        if let Some(is_found) = found.get_mut(block_at(number, weight)) {
            *is_found = true;
        }
    }
    found == [true; 6]
}

// Puts the sealing of the blocks, in this order, at the end of a script.
fn seal_in(text: &mut Script, order: usize) -> Result<(), AllocError> {
    for weight in WEIGHTS {
        let place = FIRST_BLOCK.saturating_add(block_at(order, weight));
        let block = Name { place, answer: 0 };
        text.calls.push(Call::SealBlock { block })?;
    }
    Ok(())
}

// The nest of two loops, with the blocks sealed at its end: 3 + 2 + 1 turns.
fn nest_answers(rt: &impl Abort, alloc: Global, text: &Script) -> Result<(), Fail> {
    let func = built(alloc, text)?;
    let memory = zeros(alloc)?;
    let ending = Ending {
        events: Vec::new(alloc),
        end: returned(alloc, &[6])?,
        memory: zeros(alloc)?,
        passed: Vec::new(alloc),
    };
    let world = world_of(text, &[], &memory, &Zeros);
    both_end(rt, alloc, text, &func, &world, STEPS, &ending)
}

/// The nest of two loops, whose blocks are sealed at the end, in each of the 720 orders.
#[test]
fn nest_sealed_in_every_order(rt: HostRuntime) -> Result<(), Fail> {
    let alloc = rt.alloc();
    let mut text = script_of(alloc, NEST)?;
    let made = text.calls.len();
    let mut orders = 0u32;
    for order in 0..46_656usize {
        if is_order(order) {
            seal_in(&mut text, order)?;
            nest_answers(&rt, alloc, &text)?;
            text.calls.truncate(made);
            orders = orders.wrapping_add(1);
        }
    }
    assert!(rt; orders == 720);
    Ok(())
}
