//! Loads and stores: what they answer, what is in memory then, and when they trap.
#![tactic(auto)]

use crate::support::{Pair, SIZE, memory_of, returned};
use clif_types::TrapCode;
use clif_worlds::{End, Memory};
use std::alloc::Global;
use std::process::Abort;
use std::test::Fail;

/// Accesses in functions of an address.
#[derive(Clone, Copy)]
struct Accesses {
    /// The first accessible address.
    start: u64,
    /// What accessible bytes begin with.
    before: &'static [u8],
    /// The same afterwards.
    after: &'static [u8],
    /// Lines that each function begins with.
    head: &'static str,
    /// The address, its type and that of the returned number, the lines behind these, and the number; or there is a trap, since a byte isn't
    /// accessible.
    rows: &'static [(u128, &'static str, Option<u128>)],
}

/// Two stack slots of eight bytes.
const SLOTS: &str = "s = create_sized_stack_slot 8 3\nt = create_sized_stack_slot 8 3\n";

const ACCESSES: &[Accesses] = &[
    // bytes 34 and 12, as hexadecimal numbers, are 4660: the lowest comes first
    Accesses {
        start: 4096,
        before: &[0x34, 0x12, 0, 0, 0x78],
        after: &[0x34, 0x12, 0, 0, 0x78],
        head: "",
        rows: &[
            (4096, "i64 i16: x = load.i16 p\nreturn x", Some(4660)),
            (4095, "i64 i16: x = load.i16 p 1\nreturn x", Some(4660)),
            (
                4100,
                "i64 i16: x = load.i16 notrap aligned p -4\nreturn x",
                Some(4660),
            ),
            (
                4104,
                "i32 i64: x = load.i64 p -8\nreturn x",
                Some(0x78_0000_1234),
            ),
            (
                4096,
                "i32 i128: x = load.i128 p\nreturn x",
                Some(0x78_0000_1234),
            ),
        ],
    },
    // the address and the place of each byte from there count modulo the address's width
    Accesses {
        start: 0,
        before: &[0x34, 0x12],
        after: &[0x34, 0x12],
        head: "",
        rows: &[
            (65532, "i16 i16: x = load.i16 p 4\nreturn x", Some(4660)),
            (7, "i16 i16: x = load.i16 p -7\nreturn x", Some(4660)),
        ],
    },
    Accesses {
        start: u64::MAX - 31,
        before: &[7],
        after: &[7],
        head: "",
        rows: &[(0, "i64 i8: x = load.i8 p -32\nreturn x", Some(7))],
    },
    // a store changes the bytes of its own type, and no others
    Accesses {
        start: 4096,
        before: &[1, 2, 3, 4, 5, 6, 7, 8],
        after: &[1, 2, 0xd8, 0xff, 5, 6, 7, 8],
        head: "",
        rows: &[(
            4096,
            "i64 i16: x = iconst.i16 -40\nstore x p 2\ny = load.i16 p 2\nreturn y",
            Some(65496),
        )],
    },
    // an access of which a byte isn't accessible traps, and a store changes no byte then
    Accesses {
        start: 4096,
        before: &[],
        after: &[],
        head: "",
        rows: &[
            (4127, "i64 i16: x = load.i16 p\nreturn x", None),
            (4127, "i64 i16: x = load.i16 aligned p 1\nreturn x", None),
            (4095, "i64 i16: x = load.i16 p\nreturn x", None),
            (
                4127,
                "i64 i16: x = iconst.i16 -1\nstore x p\nreturn x",
                None,
            ),
            (
                4096,
                "i64 i16: x = iconst.i16 -1\nstore x p -1\nreturn x",
                None,
            ),
            (0, "i64 i16: x = iconst.i16 -1\nstore x p\nreturn x", None),
            (4126, "i64 i16: x = load.i16 p\nreturn x", Some(0)),
        ],
    },
    // the bits of floats, as they are stored: 1.0 in each type
    Accesses {
        start: 4096,
        before: &[],
        after: &[0, 0x3c, 0, 0, 0, 0, 0, 0],
        head: "",
        rows: &[(
            4096,
            "i64 i16: x = f16const 15360\nstore x p\ny = load.i16 p\nreturn y",
            Some(15360),
        )],
    },
    Accesses {
        start: 4096,
        before: &[],
        after: &[0, 0, 0x80, 0x3f, 0, 0, 0, 0],
        head: "",
        rows: &[(
            4096,
            "i64 i32: x = f32const 0x3f80_0000\nstore x p\ny = load.i32 p\nreturn y",
            Some(0x3f80_0000),
        )],
    },
    Accesses {
        start: 4096,
        before: &[],
        after: &[0, 0, 0, 0, 0, 0, 0xf0, 0x3f],
        head: "",
        rows: &[(
            4096,
            "i64 i64: x = f64const 0x3ff0_0000_0000_0000\nstore x p\ny = load.i64 p\nreturn y",
            Some(0x3ff0_0000_0000_0000),
        )],
    },
    // a slot keeps what is stored into it, and another one keeps what it held; an address lies in its slot
    Accesses {
        start: 4096,
        before: &[1, 2, 3, 4, 5, 6, 7, 8, 9],
        after: &[1, 2, 0xd8, 0xff, 5, 6, 7, 8, 9],
        head: SLOTS,
        rows: &[
            (
                0,
                "i64 i16: x = iconst.i16 -40\nstack_store x s 2\ny = stack_load.i16 s 2\nreturn y",
                Some(65496),
            ),
            (
                0,
                "i64 i16: x = iconst.i16 -40\nstack_store x t -6\ny = stack_load.i16 s +2\nreturn y",
                Some(65496),
            ),
            (
                0,
                "i64 i16: x = iconst.i16 -40\na = stack_addr.i64 s\nstore x a 2\ny = stack_load.i16 s 2\nreturn y",
                Some(65496),
            ),
            (
                0,
                "i64 i16: x = iconst.i16 -40\na = stack_addr.i32 s 2\nstore x a\ny = stack_load.i16 s 2\nreturn y",
                Some(65496),
            ),
        ],
    },
    Accesses {
        start: 4096,
        before: &[1, 2, 3, 4, 5, 6, 7, 8, 9],
        after: &[1, 2, 3, 4, 5, 6, 7, 8, 9],
        head: SLOTS,
        rows: &[(0, "i64 i8: y = stack_load.i8 t\nreturn y", Some(9))],
    },
    // an address has the low bits of its type, and zeros above, and counts modulo the width of pointers; a byte that isn't
    // accessible lies in no slot: an access to it traps
    Accesses {
        start: 4096,
        before: &[],
        after: &[],
        head: SLOTS,
        rows: &[
            (0, "i64 i64: a = stack_addr.i64 t\nreturn a", Some(4104)),
            (0, "i64 i64: a = stack_addr.i64 s -4096\nreturn a", Some(0)),
            (
                0,
                "i64 i64: a = stack_addr.i64 s -4097\nreturn a",
                Some(0xffff_ffff_ffff_ffff),
            ),
            (
                0,
                "i64 i16: a = stack_addr.i16 s -4097\nreturn a",
                Some(0xffff),
            ),
            (0, "i64 i8: a = stack_addr.i8 t 1\nreturn a", Some(9)),
            (
                0,
                "i64 i128: a = stack_addr.i128 s -4097\nreturn a",
                Some(0xffff_ffff_ffff_ffff),
            ),
            (0, "i64 i16: x = stack_load.i16 s -1\nreturn x", None),
            (0, "i64 i16: x = stack_load.i16 t 23\nreturn x", None),
            (
                0,
                "i64 i16: x = iconst.i16 -1\nstack_store x s -1\nreturn x",
                None,
            ),
        ],
    },
];

// A function of an address, whose lines these are, returns a number, or traps, since a byte isn't accessible.
fn lines_end(
    rt: &impl Abort,
    alloc: Global,
    types: &str,
    lines: (&str, &str),
    address: u128,
    memories: (&Memory, Memory),
    number: Option<u128>,
) -> Result<(), Fail> {
    let Some((address_type, ty)) = types.split_once(' ') else {
        return Err("no types")?;
    };
    let (head, lines) = lines;
    let text = format!(in alloc;
        "function %memory ({address_type}) -> {ty} system_v\nb = create_block\np = append_block_param b {address_type}\nswitch_to_block b\n{head}{lines}\nseal_block b\n"
    )?;
    let pair = Pair::new(alloc, text.as_str())?;
    let end = match number {
        Some(number) => returned(alloc, &[number])?,
        None => End::Trapped(TrapCode::HeapOutOfBounds),
    };
    let (before, after) = memories;
    pair.ends(rt, alloc, &[address], before, end, after)
}

/// Loads and stores, also of stack slots.
#[test]
fn loads_and_stores(rt: HostRuntime) -> Result<(), Fail> {
    let alloc = rt.alloc();
    for group in ACCESSES {
        for (address, row, number) in group.rows {
            let Some((types, lines)) = row.split_once(": ") else {
                return Err("no lines")?;
            };
            let before = memory_of(alloc, group.start, SIZE, group.before)?;
            let after = memory_of(alloc, group.start, SIZE, group.after)?;
            let lines = (group.head, lines);
            lines_end(
                &rt,
                alloc,
                types,
                lines,
                *address,
                (&before, after),
                *number,
            )?;
        }
    }
    Ok(())
}

/// What a variable holds that nothing is assigned to: zero bytes, as many as its type has.
#[test]
fn undefined_variables(rt: HostRuntime) -> Result<(), Fail> {
    let alloc = rt.alloc();
    for (ty, end_of_zeros) in [
        ("f16", 10),
        ("f32", 12),
        ("f64", 16),
        ("i128", 24),
        ("f32x4", 24),
        ("f64x2", 24),
    ] {
        let lines = format!(in alloc;
            "x = declare_var {ty}\nu = use_var x\nstore u p 8\ny = load.i8 p 8\nreturn y"
        )?;
        let before = memory_of(alloc, 4096, SIZE, &[255; SIZE])?;
        let mut after = before.clone()?;
        for place in 8..end_of_zeros {
            after.put(place, 0);
        }
        let lines = ("", lines.as_str());
        lines_end(&rt, alloc, "i64 i8", lines, 4096, (&before, after), Some(0))?;
    }
    Ok(())
}

/// Adds up the sixteen bytes at `p`, and puts each sum behind them.
const SUM: &str = "\
function %sum (i64) -> i32 system_v
at = declare_var i64
total = declare_var i32
block0 = create_block
block1 = create_block
block2 = create_block
block3 = create_block
p = append_block_param block0 i64
switch_to_block block0
seal_block block0
def_var at p
jump block1
switch_to_block block1
here = use_var at
size = iconst.i64 16
end = iadd p size
more = icmp ult here end
brif more block2 block3
switch_to_block block2
seal_block block2
byte = load.i8 notrap here
wide = uextend.i32 byte
before = use_var total
after = iadd before wide
def_var total after
store notrap aligned after p 16
one = iconst.i64 1
next = iadd here one
def_var at next
jump block1
seal_block block1
switch_to_block block3
seal_block block3
result = use_var total
return result
";

/// 327 is 1 times 256 and 71.
#[test]
fn sum_of_an_array(rt: HostRuntime) -> Result<(), Fail> {
    let alloc = rt.alloc();
    let bytes = [3, 1, 4, 1, 5, 9, 2, 6, 5, 3, 5, 8, 9, 7, 9, 250];
    let sum = [3, 1, 4, 1, 5, 9, 2, 6, 5, 3, 5, 8, 9, 7, 9, 250, 71, 1];
    let before = memory_of(alloc, 4096, SIZE, &bytes)?;
    let after = memory_of(alloc, 4096, SIZE, &sum)?;
    let end = returned(alloc, &[327])?;
    Pair::new(alloc, SUM)?.ends(&rt, alloc, &[4096], &before, end, after)
}

/// Each instruction without memory: of 12 and 10 it returns the sum of 120, 8, 14, 6, 244 and 243 in eight bits, so 635 - 512.
const EACH_INSTRUCTION: &str = "\
function %each (i8, i8) -> i8 system_v
block0 = create_block
block1 = create_block
block2 = create_block
a, b = append_block_params_for_function_params block0
switch_to_block block0
product = imul a b
both = band a b
either = bor a b
one = bxor a b
negative = ineg a
turned = bnot a
s1 = iadd product both
s2 = iadd s1 either
s3 = iadd s2 one
s4 = iadd s3 negative
s5 = iadd s4 turned
left = ishl a b
right = ushr a b
signed = sshr a b
quotient = udiv a b
rest = urem a b
signed_quotient = sdiv a b
signed_rest = srem a b
difference = isub a b
holds = icmp slt a b
chosen = select holds a b
wide = uextend.i32 a
signed_wide = sextend.i64 a
narrow = ireduce.i8 wide
joined = iconcat a b
low, high = isplit joined
more = iadd_imm_s a 7
equal = icmp_imm_s eq a 12
trapz a user1
never = icmp ne a a
trapnz never user2
to_next = block_call block1
table = create_jump_table to_next to_next
br_table wide table
switch_to_block block1
switch a block2 12:block2 13:block2
switch_to_block block2
return s5
seal_all_blocks
";

/// Memory is left by what doesn't store.
#[test]
fn memory_is_left(rt: HostRuntime) -> Result<(), Fail> {
    let alloc = rt.alloc();
    let before = memory_of(alloc, 4096, SIZE, &[7; SIZE])?;
    let after = before.clone()?;
    let end = returned(alloc, &[123])?;
    Pair::new(alloc, EACH_INSTRUCTION)?.ends(&rt, alloc, &[12, 10], &before, end, after)
}
