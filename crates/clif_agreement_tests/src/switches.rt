//! Switches, in scripts and in the functions that are built of them: control goes to the block of the value's case.
#![tactic(auto)]

use crate::support::{Pair, STEPS, returned, world_of, zeros};
use clif_interpreter::function;
use clif_worlds::outside::Zeros;
use clif_worlds::run::Choices;
use std::alloc::Global;
use std::process::Abort;
use std::test::Fail;

/// A key of a script, and the number that is returned where the value is this key.
type Case = (u128, u128);

/// What every other value returns.
const OTHER: u128 = 99;

/// The keys of the row with four ranges.
const FOUR_RANGES: &[Case] = &[
    (0, 100),
    (1, 101),
    (5, 105),
    (7, 107),
    (10, 110),
    (11, 111),
    (12, 112),
];

// A switch on its argument, which has this type.
fn switch_of(alloc: Global, ty: &str, cases: &[Case]) -> Result<Pair, Fail> {
    let mut text = format!(in alloc;
        "function %switch ({ty}) -> i32 system_v\nentry = create_block\nother = create_block\nx = append_block_params_for_function_params entry\n"
    )?;
    let mut line = String::from_str(alloc, "switch x other")?;
    let mut ends = String::from_str(
        alloc,
        "switch_to_block other\nn = iconst.i32 99\nreturn n\n",
    )?;
    for (key, number) in cases {
        text.push_str(format!(in alloc; "b{number} = create_block\n")?.as_str())?;
        line.push_str(format!(in alloc; " {key}:b{number}")?.as_str())?;
        let end = format!(in alloc;
            "switch_to_block b{number}\nn = iconst.i32 {number}\nreturn n\n"
        )?;
        ends.push_str(end.as_str())?;
    }
    let whole = format!(in alloc; "{text}switch_to_block entry\n{line}\n{ends}seal_all_blocks\n")?;
    Pair::new(alloc, whole.as_str())
}

// What a value leads to: the finite map, as a walk over its entries.
fn number_of(cases: &[Case], value: u128) -> u128 {
    for (key, number) in cases {
        if *key == value {
            return *number;
        }
    }
    OTHER
}

// The choices that a function makes on this argument, where it returns this number.
fn choices(
    rt: &impl Abort,
    alloc: Global,
    pair: &Pair,
    value: u128,
    number: u128,
) -> Result<Choices, Fail> {
    let memory = zeros(alloc)?;
    let arguments = [value];
    let world = world_of(&pair.script, &arguments, &memory, &Zeros);
    let (ending, choices) = function::run_counted(alloc, &pair.func, &world, STEPS)?;
    assert!(rt; ending.events.is_empty() && ending.memory == memory);
    assert!(rt; ending.end == returned(alloc, &[number])?);
    Ok(choices)
}

// A script and its function take each of these values as the map says, by at most so many conditional branches and one table.
fn agrees(
    rt: &impl Abort,
    alloc: Global,
    ty: &str,
    cases: &[Case],
    values: &[u128],
    bound: u64,
) -> Result<(), Fail> {
    let pair = switch_of(alloc, ty, cases)?;
    for value in values {
        let number = number_of(cases, *value);
        pair.ends_in_zeros(rt, alloc, &[*value], returned(alloc, &[number])?)?;
        let choices = choices(rt, alloc, &pair, *value, number)?;
        assert!(rt; choices.branches <= bound);
        assert!(rt; choices.tables <= 1);
    }
    Ok(())
}

/// 12 is found by two branches and a table, and 9 comes to the block of all other values by three branches.
#[test]
fn counts(rt: HostRuntime) -> Result<(), Fail> {
    let alloc = rt.alloc();
    let pair = switch_of(alloc, "i8", FOUR_RANGES)?;
    let found = choices(&rt, alloc, &pair, 12, 112)?;
    assert!(rt; (found.branches, found.tables) == (2, 1));
    let missed = choices(&rt, alloc, &pair, 9, OTHER)?;
    assert!(rt; (missed.branches, missed.tables) == (3, 0));
    Ok(())
}

/// Values that are keys in their low bits alone, and the greatest of each width.
const WIDE_VALUES: &[u128] = &[
    0xffff,
    0xffff_ffff,
    1 << 32,
    (1 << 32) + 1,
    (1 << 32) + 12,
    (1 << 63) + 7,
    0xffff_ffff_ffff_ffff,
    1 << 64,
    (1 << 64) + 5,
    (1 << 96) + 11,
    1 << 127,
    u128::MAX,
];

/// Types, the greatest value of each, keys, and how many branches are enough.
const SWITCHES: &[(&str, u128, &[Case], u64)] = &[
    // four ranges: two branches more than 4 has binary digits
    ("i8", 0xff, FOUR_RANGES, 5),
    ("i16", 0xffff, FOUR_RANGES, 5),
    ("i32", 0xffff_ffff, FOUR_RANGES, 5),
    ("i64", 0xffff_ffff_ffff_ffff, FOUR_RANGES, 5),
    ("i128", u128::MAX, FOUR_RANGES, 5),
    // keys of 8 bits that are negative as signed numbers, and those beside them
    (
        "i8",
        0xff,
        &[(127, 1), (128, 2), (129, 3), (200, 4), (254, 5), (255, 6)],
        4,
    ),
    // no key, and a key alone, which is 0 or isn't
    ("i8", 0xff, &[], 0),
    ("i8", 0xff, &[(0, 1)], 3),
    ("i8", 0xff, &[(255, 1)], 3),
];

/// Switches on the values of 8 bits and on some of the wide ones.
#[test]
fn all_values(rt: HostRuntime) -> Result<(), Fail> {
    let alloc = rt.alloc();
    for (ty, greatest, cases, bound) in SWITCHES {
        let mut values = Vec::new(alloc);
        for value in 0..256u32 {
            values.push(u128::from(value))?;
        }
        for value in WIDE_VALUES {
            if *value <= *greatest {
                values.push(*value)?;
            }
        }
        agrees(&rt, alloc, ty, cases, values.as_slice(), *bound)?;
    }
    Ok(())
}

/// Where two keys begin: beside 2^63, beside 2^64, and the greatest key but one.
const FIRSTS: &[u128] = &[
    (1 << 63) - 2,
    (1 << 63) - 1,
    1 << 63,
    (1 << 63) + 1,
    (1 << 64) - 2,
    (1 << 64) - 1,
    1 << 64,
    (1 << 64) + 1,
    (1 << 64) + (1 << 63),
    (1 << 127) - 1,
    u128::MAX - 1,
];

/// Two keys of 128 bits, on values beside them, and on some that differ from them in a high bit.
#[test]
fn borders(rt: HostRuntime) -> Result<(), Fail> {
    for first in FIRSTS {
        let first = *first;
        let cases = [(first, 1), (first.wrapping_add(1), 2)];
        let values = [
            first.wrapping_sub(1),
            first,
            first.wrapping_add(1),
            first.wrapping_add(2),
            first.wrapping_add(1 << 32),
            first.wrapping_add(1 << 64),
            first.wrapping_sub(1 << 63),
            first.wrapping_sub(1 << 64),
            first ^ 1 << 127,
            0,
            1,
            u128::MAX,
        ];
        agrees(&rt, rt.alloc(), "i128", &cases, &values, 3)?;
    }
    Ok(())
}
