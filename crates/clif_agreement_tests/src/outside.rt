//! Scripts that make outside calls, also along the edges of try calls, and the functions that are built of them, in worlds that
//! answer.
#![tactic(auto)]

use crate::support::{Pair, SIZE, both_end, memory_of, returned, world_of, zeros};
use Answering::{Same, TenTimes, Throwing};
use Called::{AtAddress, Named};
use clif_types::{EntityRef, ExternalName, SigRef};
use clif_worlds::{Callee, Ending, Event, Memory, Outside};
use std::alloc::{AllocError, Global};
use std::process::Abort;
use std::test::Fail;

// What a world answers, and whether it changes memory.
#[derive(Clone, Copy)]
enum Answering {
    // this at each place
    Same(u128),
    // at each place ten times what the call was passed first, and the place; calls are counted in the first byte of memory
    TenTimes,
    // 7, or 5 and 9, which are thrown along the item with an edge of this number
    Throwing(Option<usize>),
}

impl Outside for Answering {
    fn thrown(&self, _events: &[Event], _items: usize) -> Option<usize> {
        match self {
            Same(_) | TenTimes => None,
            Throwing(item) => *item,
        }
    }

    fn value(&self, events: &[Event], place: usize) -> u128 {
        match (self, place) {
            (Same(bits), _) => *bits,
            (TenTimes, _) => {
                let passed = match events.last() {
                    Some(event) => event.arguments.first().copied().unwrap_or(0),
                    None => 0,
                };
                passed.wrapping_mul(10).wrapping_add(place as u128)
            }
            (Throwing(None), _) => 7,
            (Throwing(Some(_)), 0) => 5,
            (Throwing(Some(_)), _) => 9,
        }
    }

    fn change(&self, events: &[Event], memory: &mut Memory) {
        if let TenTimes = self {
            memory.put(0, (events.len() % 256) as u8);
        }
    }
}

// What is called, and with which arguments.
#[derive(Clone, Copy)]
enum Called {
    // the function of this name
    Named(&'static str, &'static [u128]),
    // what is at address 64, by the signature of this number
    AtAddress(u8, &'static [u128]),
}

// A script, its arguments, its outside calls, and what it returns in each of these worlds.
#[derive(Clone, Copy)]
struct Case {
    script: &'static str,
    arguments: &'static [u128],
    calls: &'static [Called],
    runs: &'static [(Answering, &'static [u128])],
}

// A script that calls a function, and then what is at an address. A run shows the calls and gets their answers, of which each is
// cut to its type: the function gets 7, and what is at the address gets what the function gave, of which 32 bits are left.
const CALLS: &str = "\
function %calls () -> i32 system_v
s = import_signature (i32) -> i32 system_v
f = import_function %g s
b = create_block
switch_to_block b
seal_block b
seven = iconst.i32 7
given = call f (seven)
address = iconst.i64 64
returned = call_indirect s address (given)
return returned
";

// A loop that calls as often as the argument says: `count` goes down, and `last` is what the calls gave.
const CALLING_LOOP: &str = "\
function %calling_loop (i64, i32) -> i32, i64 system_v
s = import_signature (i32) -> i32, i64 system_v
t = import_signature (i64, i32) system_v
f = import_function %f s
count = declare_var i32
last = declare_var i64
entry = create_block
head = create_block
body = create_block
done = create_block
p, x = append_block_params_for_function_params entry
switch_to_block entry
seal_block entry
def_var count x
zero = iconst.i64 0
def_var last zero
jump head
switch_to_block head
left = use_var count
brif left, body, done
switch_to_block body
seal_block body
tens, more = call f (left)
def_var last more
call_indirect t p (more, tens)
one = iconst.i32 1
less = isub left one
def_var count less
jump head
seal_block head
seal_block done
switch_to_block done
result = use_var count
given = use_var last
return result, given
";

// A function of the C library gives its destination, and is no outside call.
const LIBRARY: &str = "\
function %library (i64) -> i64 system_v
s = import_signature (i64, i64, i64) -> i64 system_v
f = import_function libcall Memcpy s
entry = create_block
x = append_block_params_for_function_params entry
switch_to_block entry
seal_block entry
none = iconst.i64 0
r = call f (x x none)
return r
";

// The worked function `%try`: it returns its argument where the call returns, and else the first part of the exception.
const TRY: &str = "\
function %try (i64) -> i64 system_v
s = import_signature (i64) -> i32 system_v
f = import_function %f s
entry = create_block
returned = create_block
thrown = create_block
x = append_block_params_for_function_params entry
kept = append_block_param returned i64
append_block_param returned i32
part = append_block_param thrown i64
switch_to_block entry
seal_block entry
normal = block_call returned(x, ret0)
caught = block_call thrown(exn0)
t = create_exception_table s normal default caught
try_call f (x) t
seal_block returned
switch_to_block returned
return kept
seal_block thrown
switch_to_block thrown
return part
";

// Two items with edges, behind a context: the first one's takes the first part of the exception, the other one's the second.
const ITEMS: &str = "\
function %items (i64) -> i64 system_v
s = import_signature (i64) -> i64 system_v
f = import_function %f s
entry = create_block
returned = create_block
tagged = create_block
other = create_block
x = append_block_params_for_function_params entry
r = append_block_param returned i64
a = append_block_param tagged i64
b = append_block_param other i64
switch_to_block entry
seal_block entry
normal = block_call returned(ret0)
first = block_call tagged(exn0)
second = block_call other(exn1)
t = create_exception_table s normal context x tag1 first default second
try_call f (x) t
seal_all_blocks
switch_to_block returned
return r
switch_to_block tagged
return a
switch_to_block other
return b
";

// The same call at an address, whose edges were changed from one block to another before it was sealed.
const CHANGED: &str = "\
function %changed (i64) -> i64 system_v
s = import_signature (i64) -> i64 system_v
entry = create_block
returned = create_block
old = create_block
new = create_block
x = append_block_params_for_function_params entry
r = append_block_param returned i64
append_block_param old i64
part = append_block_param new i64
switch_to_block entry
seal_block entry
normal = block_call returned(ret0)
caught = block_call old(exn1)
t = create_exception_table s normal tag7 caught default caught
@c = try_call_indirect x (x) t
change_jump_destination @c old new
seal_all_blocks
switch_to_block returned
return r
switch_to_block new
return part
switch_to_block old
trap user1
";

// A function of the C library goes along the normal edge with what it gives, and is no outside call.
const TRIED_LIBRARY: &str = "\
function %library (i64) -> i64 system_v
s = import_signature (i64, i64, i64) -> i64 system_v
f = import_function libcall Memcpy s
entry = create_block
returned = create_block
thrown = create_block
x = append_block_params_for_function_params entry
r = append_block_param returned i64
switch_to_block entry
seal_block entry
none = iconst.i64 0
normal = block_call returned(ret0)
caught = block_call thrown
t = create_exception_table s normal default caught
try_call f (x x none) t
seal_all_blocks
switch_to_block returned
return r
switch_to_block thrown
trap user1
";

const CASES: &[Case] = &[
    // each answer is cut to its type: the function gets 7, and what is at the address gets what the function gave, of which 32
    // bits are left
    Case {
        script: CALLS,
        arguments: &[],
        calls: &[Named("g", &[7]), AtAddress(0, &[9])],
        runs: &[(Same(0x1_0000_0009), &[9])],
    },
    // two rounds: `%f` gets 2 and gives 20 and 21, and then gets 1 and gives 10 and 11
    Case {
        script: CALLING_LOOP,
        arguments: &[64, 2],
        calls: &[
            Named("f", &[2]),
            AtAddress(1, &[21, 20]),
            Named("f", &[1]),
            AtAddress(1, &[11, 10]),
        ],
        runs: &[(TenTimes, &[0, 11])],
    },
    // no event is shown, so the world neither answers nor changes memory
    Case {
        script: LIBRARY,
        arguments: &[64],
        calls: &[],
        runs: &[(TenTimes, &[64])],
    },
    Case {
        script: TRY,
        arguments: &[64],
        calls: &[Named("f", &[64])],
        runs: &[(Throwing(None), &[64]), (Throwing(Some(0)), &[5])],
    },
    // a context has no edge, so the second item with one is the default
    Case {
        script: ITEMS,
        arguments: &[64],
        calls: &[Named("f", &[64])],
        runs: &[
            (Throwing(None), &[7]),
            (Throwing(Some(0)), &[5]),
            (Throwing(Some(1)), &[9]),
        ],
    },
    Case {
        script: CHANGED,
        arguments: &[64],
        calls: &[AtAddress(0, &[64])],
        runs: &[
            (Throwing(None), &[7]),
            (Throwing(Some(0)), &[9]),
            (Throwing(Some(1)), &[9]),
        ],
    },
    // whatever the world answers: the destination, which is the function's argument
    Case {
        script: TRIED_LIBRARY,
        arguments: &[64],
        calls: &[],
        runs: &[(Throwing(None), &[64]), (Throwing(Some(0)), &[64])],
    },
];

fn callee_of(alloc: Global, called: &Called) -> Result<Callee, AllocError> {
    Ok(match called {
        Named(name, _) => { Callee::Named(ExternalName::testcase(String::from_str(alloc, name)?)) }
        AtAddress(number, _) => Callee::AtAddress(64, SigRef::new(usize::from(*number))),
    })
}

fn event_of(alloc: Global, called: &Called) -> Result<Event, AllocError> {
    let (Named(_, passed) | AtAddress(_, passed)) = called;
    let mut arguments = Vec::new(alloc);
    arguments.extend_from_slice(passed)?;
    let callee = callee_of(alloc, called)?;
    Ok(Event { callee, arguments })
}

// The events of these calls.
fn events(alloc: Global, calls: &[Called]) -> Result<Vec<Event>, AllocError> {
    let mut events = Vec::new(alloc);
    for called in calls {
        let event = event_of(alloc, called)?;
        if events.push(event).is_err() {
            return Err(AllocError);
        }
    }
    Ok(events)
}

// A script and its function run so within 100 steps, in memory of zeros, of which the first byte is the number of calls then,
// if the world counts them.
fn runs_so(
    rt: &impl Abort,
    alloc: Global,
    pair: &Pair,
    case: &Case,
    answering: &Answering,
    values: &[u128],
) -> Result<(), Fail> {
    let counted = match answering {
        TenTimes => (case.calls.len() % 256) as u8,
        Same(_) | Throwing(_) => 0,
    };
    let ending = Ending {
        events: events(alloc, case.calls)?,
        end: returned(alloc, values)?,
        memory: memory_of(alloc, 4096, SIZE, &[counted])?,
        passed: Vec::new(alloc),
    };
    let before = zeros(alloc)?;
    let world = world_of(&pair.script, case.arguments, &before, answering);
    both_end(rt, alloc, &pair.script, &pair.func, &world, 100, &ending)
}

/// Outside calls are shown, and answered by the world.
#[test]
fn outside_calls(rt: HostRuntime) -> Result<(), Fail> {
    let alloc = rt.alloc();
    for case in CASES {
        let pair = Pair::new(alloc, case.script)?;
        for (answering, values) in case.runs {
            runs_so(&rt, alloc, &pair, case, answering, values)?;
        }
    }
    Ok(())
}
