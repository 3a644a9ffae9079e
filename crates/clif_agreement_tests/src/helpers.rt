//! Memory helpers, in scripts and in the functions that are built of them: what they do is what plain loops over bytes do.
#![tactic(auto)]

use crate::support::{Pair, memory_of, returned};
use clif_worlds::Memory;
use std::alloc::Global;
use std::cmp::Ordering;
use std::process::Abort;
use std::test::Fail;

/// The address of the first accessible byte.
const START: u64 = 4096;

/// How many bytes are accessible.
const ROOM: usize = 128;

// Different bytes, with some that are negative as signed numbers.
fn mixed(alloc: Global) -> Result<Vec<u8>, Fail> {
    let mut bytes = Vec::new(alloc);
    for place in 0..ROOM {
        bytes.push((place.wrapping_mul(37).wrapping_add(11) % 256) as u8)?;
    }
    Ok(bytes)
}

// The byte at a place, if there are so many.
fn byte_at(bytes: &[u8], place: usize) -> u8 {
    bytes.get(place).copied().unwrap_or(0)
}

fn put_at(bytes: &mut [u8], place: usize, byte: u8) {
    if let Some(held) = bytes.get_mut(place) {
        *held = byte;
    }
}

// What is in memory behind a copy: each byte of the target is what the source held before.
fn copied(before: &[u8], after: &mut [u8], target: usize, source: usize, size: usize) {
    for place in 0..size {
        let byte = byte_at(before, source.wrapping_add(place));
        put_at(after, target.wrapping_add(place), byte);
    }
}

// The order of the first two bytes that differ, of so many.
fn order_of(bytes: &[u8], left: usize, right: usize, size: usize) -> Ordering {
    for place in 0..size {
        let one = byte_at(bytes, left.wrapping_add(place));
        let other = byte_at(bytes, right.wrapping_add(place));
        if one < other {
            return Ordering::Less;
        }
        if one > other {
            return Ordering::Greater;
        }
    }
    Ordering::Equal
}

// A script of these lines, in a block with these parameters, in a function that returns `r` if it returns a value of a type.
fn helper(alloc: Global, params: &str, returns: &str, lines: &str) -> Result<Pair, Fail> {
    let (arrow, returned) = if returns.is_empty() {
        ("", "")
    } else {
        ("->", "r")
    };
    let text = format!(in alloc;
        "function %helper ({params}) {arrow} {returns} system_v\nb = create_block\np q n = append_block_params_for_function_params b\nswitch_to_block b\n{lines}\nreturn {returned}\nseal_all_blocks\n"
    )?;
    Pair::new(alloc, text.as_str())
}

// Both end with these bytes, and return these numbers.
fn ends(
    rt: &impl Abort,
    alloc: Global,
    helper: &Pair,
    arguments: &[u128],
    bytes: (&[u8], &[u8]),
    numbers: &[u128],
) -> Result<(), Fail> {
    let (before, after) = bytes;
    let end = returned(alloc, numbers)?;
    let before = memory_of(alloc, START, before.len(), before)?;
    let after = memory_of(alloc, START, after.len(), after)?;
    helper.ends(rt, alloc, arguments, &before, end, after)
}

// The address of the byte at a place.
fn address(place: usize) -> u128 {
    u128::from(START).wrapping_add(place as u128)
}

/// Where bytes are copied to, and from where: apart, beside one another, and over one another in both directions.
const PLACES: &[(usize, usize)] = &[
    (0, 64),
    (64, 0),
    (44, 31),
    (44, 36),
    (44, 43),
    (44, 44),
    (44, 45),
    (44, 48),
    (44, 53),
    (3, 43),
];

// A helper copies so many bytes as a loop does.
fn copies(
    rt: &impl Abort,
    alloc: Global,
    helper: &Pair,
    size: usize,
    places: (usize, usize),
) -> Result<(), Fail> {
    let (target, source) = places;
    let before = mixed(alloc)?;
    let mut after = mixed(alloc)?;
    let (bytes, changed) = (before.as_slice(), after.as_mut_slice());
    copied(bytes, changed, target, source, size);
    let arguments = [address(target), address(source), size as u128];
    ends(rt, alloc, helper, &arguments, (bytes, changed), &[])
}

/// Copies: by a call, and by a helper with these words behind the size, with the places of bytes.
const COPIES: &[(&str, &str, &[(usize, usize)])] = &[
    // they may overlap
    ("call_memmove p q n", "1 1 overlap", PLACES),
    // they are said not to overlap, between aligned addresses
    (
        "call_memcpy p q n",
        "1 8 nonoverlap aligned notrap",
        &[(0, 64), (64, 0), (48, 8)],
    ),
];

/// Copies of each size to 40.
#[test]
fn each_copy(rt: HostRuntime) -> Result<(), Fail> {
    let alloc = rt.alloc();
    for (call, words, all_places) in COPIES {
        let called = helper(alloc, "i64 i64 i64", "", call)?;
        for size in 0..41usize {
            let line = format!(in alloc; "emit_small_memory_copy p q {size} {words}")?;
            let copy = helper(alloc, "i64 i64 i64", "", line.as_str())?;
            for places in all_places.iter() {
                copies(&rt, alloc, &copy, size, *places)?;
                copies(&rt, alloc, &called, size, *places)?;
            }
        }
    }
    Ok(())
}

/// The bytes 1 to 16, of which twelve are copied four places on.
#[test]
fn four_places_on(rt: HostRuntime) -> Result<(), Fail> {
    let alloc = rt.alloc();
    let line = "emit_small_memory_copy p q 12 1 1 overlap";
    let copy = helper(alloc, "i64 i64 i64", "", line)?;
    let before = [1, 2, 3, 4, 5, 6, 7, 8, 9, 10, 11, 12, 13, 14, 15, 16];
    let after = [1, 2, 3, 4, 1, 2, 3, 4, 5, 6, 7, 8, 9, 10, 11, 12];
    let arguments = [address(4), address(0), 0];
    ends(&rt, alloc, &copy, &arguments, (&before, &after), &[])
}

// A helper fills so many bytes as a loop does.
fn fills(rt: &impl Abort, alloc: Global, helper: &Pair, byte: u8, size: usize) -> Result<(), Fail> {
    for target in [0usize, 8, 80] {
        let before = mixed(alloc)?;
        let mut after = mixed(alloc)?;
        for place in 0..size {
            put_at(after.as_mut_slice(), target.wrapping_add(place), byte);
        }
        let arguments = [address(target), u128::from(byte), size as u128];
        let bytes = (before.as_slice(), after.as_slice());
        ends(rt, alloc, helper, &arguments, bytes, &[])?;
    }
    Ok(())
}

/// Fills of each size to 40.
#[test]
fn each_fill(rt: HostRuntime) -> Result<(), Fail> {
    let alloc = rt.alloc();
    let set = helper(alloc, "i64 i8 i64", "", "call_memset p q n")?;
    for byte in [0, 0x7f, 0x80, 0xab, 0xff] {
        for size in 0..41usize {
            let line = format!(in alloc; "emit_small_memset p {byte} {size} 1")?;
            let fill = helper(alloc, "i64 i8 i64", "", line.as_str())?;
            fills(&rt, alloc, &fill, byte, size)?;
            fills(&rt, alloc, &set, byte, size)?;
        }
    }
    Ok(())
}

/// The conditions by which bytes are compared, and of which orders they hold: less, equal and greater.
const CONDITIONS: [(&str, [bool; 3]); 6] = [
    ("eq", [false, true, false]),
    ("ne", [true, false, true]),
    ("ult", [true, false, false]),
    ("uge", [false, true, true]),
    ("ugt", [false, false, true]),
    ("ule", [true, true, false]),
];

fn holds(of: &[bool; 3], order: Ordering) -> bool {
    let [less, equal, greater] = *of;
    match order {
        Ordering::Less => less,
        Ordering::Equal => equal,
        Ordering::Greater => greater,
    }
}

// Twice the same bytes, of which one differs from its fellow, and one behind it differs the other way round.
fn differing(alloc: Global, at: usize, bytes: (u8, u8)) -> Result<Vec<u8>, Fail> {
    let mut both = mixed(alloc)?;
    let before = mixed(alloc)?;
    copied(before.as_slice(), both.as_mut_slice(), 64, 0, 64);
    put_at(both.as_mut_slice(), at, bytes.0);
    put_at(both.as_mut_slice(), at.wrapping_add(64), bytes.1);
    put_at(both.as_mut_slice(), at.wrapping_add(2), bytes.1);
    put_at(both.as_mut_slice(), at.wrapping_add(66), bytes.0);
    Ok(both)
}

// The bytes at a place in which two sides differ.
const DIFFERENCES: [(u8, u8); 4] = [(1, 2), (2, 1), (0x7f, 0x80), (0xff, 0)];

// Both return this number, and leave memory.
fn compares(
    rt: &impl Abort,
    alloc: Global,
    helper: &Pair,
    size: usize,
    bytes: &[u8],
    number: u128,
) -> Result<(), Fail> {
    let arguments = [address(0), address(64), size as u128];
    ends(rt, alloc, helper, &arguments, (bytes, bytes), &[number])
}

/// Comparisons of each size to 20, by each condition, of bytes that are the same and of bytes that differ.
#[test]
fn comparisons(rt: HostRuntime) -> Result<(), Fail> {
    let alloc = rt.alloc();
    for size in 0..21usize {
        for (condition, of) in CONDITIONS.iter() {
            let line = format!(in alloc;
                "r = emit_small_memory_compare {condition} p q {size} 1 1"
            )?;
            let compare = helper(alloc, "i64 i64 i64", "i8", line.as_str())?;
            for at in [0, 1, size.saturating_sub(1), size] {
                for difference in DIFFERENCES.iter() {
                    let bytes = differing(alloc, at, *difference)?;
                    let order = order_of(bytes.as_slice(), 0, 64, size);
                    let number = u128::from(holds(of, order));
                    compares(&rt, alloc, &compare, size, bytes.as_slice(), number)?;
                }
            }
        }
    }
    Ok(())
}

// The number that the world of the interpreters gives for an order: 1, 0, or -1 in 32 bits.
fn world_number(order: Ordering) -> u128 {
    match order {
        Ordering::Less => 0xffff_ffff,
        Ordering::Equal => 0,
        Ordering::Greater => 1,
    }
}

/// `call_memcmp` answers the world's number, as a call of the imported function does.
#[test]
fn numbers(rt: HostRuntime) -> Result<(), Fail> {
    let alloc = rt.alloc();
    let answered = helper(alloc, "i64 i64 i64", "i32", "r = call_memcmp p q n")?;
    let lines =
        "s = import_signature (i64 i64 i64) -> i32 system_v\nf = import_function libcall Memcmp s\n@c, r = call f (p q n)";
    let called = helper(alloc, "i64 i64 i64", "i32", lines)?;
    for size in 0..21usize {
        for at in [0, 1, size.saturating_sub(1), size] {
            for difference in DIFFERENCES.iter() {
                let bytes = differing(alloc, at, *difference)?;
                let bytes = bytes.as_slice();
                let number = world_number(order_of(bytes, 0, 64, size));
                compares(&rt, alloc, &answered, size, bytes, number)?;
                compares(&rt, alloc, &called, size, bytes, number)?;
            }
        }
    }
    Ok(())
}

// So many accessible bytes from address 0 on, with these from address 65531 on; behind the last one they go on at the first one.
fn around_the_end(alloc: Global, size: usize, bytes: &[u8]) -> Result<Memory, Fail> {
    let mut memory = Memory::zeros(alloc, 0, size)?;
    for (place, byte) in bytes.iter().enumerate() {
        memory.put(65531usize.wrapping_add(place) % size.max(1), *byte);
    }
    Ok(memory)
}

/// Addresses of 16 bits count modulo 2^16: bytes lie before the border and behind it.
#[test]
fn wrap_around(rt: HostRuntime) -> Result<(), Fail> {
    let alloc = rt.alloc();
    let text =
        "pointer 16\nfunction %wrap (i16 i16) -> i8 system_v\nb = create_block\np q = append_block_params_for_function_params b\nswitch_to_block b\nemit_small_memory_copy p q 12 1 1 overlap\nemit_small_memory_copy q p 5 1 1 overlap\nemit_small_memset p 7 2 1\nr = emit_small_memory_compare ult p q 3 1 1\nreturn r\nseal_all_blocks\n";
    let pair = Pair::new(alloc, text)?;
    // 1 to 12 from 65531 on are copied to 65535, five of them back, and then the first two become 7
    let before = [1, 2, 3, 4, 5, 6, 7, 8, 9, 10, 11, 12];
    let after = [1, 2, 3, 4, 7, 7, 3, 4, 5, 6, 7, 8, 9, 10, 11, 12];
    let before = around_the_end(alloc, 65536, &before)?;
    let after = around_the_end(alloc, 65536, &after)?;
    let end = returned(alloc, &[0])?;
    pair.ends(&rt, alloc, &[65535, 65531], &before, end, after)
}
