//! Scripts that calls are written as: each builds the same function as the script that the calls were read from, and some are
//! compared as they are. What the functions print is in the case files of the folder `tests`, and of the examples beside these.
#![tactic(auto)]

use crate::refused_writes::NAMES;
use crate::support::{function_of, rewritten, row_of};
use crate::{
    blocks, changes, constants, data, entries, helpers, instructions, notes, outside, switches,
    tries, undefined,
};
use std::alloc::Global;
use std::process::Abort;
use std::test::Fail;

const EXAMPLES: &[&str] = &[
    data::DIAMOND,
    data::NESTED_LOOPS,
    data::SUM_OF_BYTES,
    data::CHECKED_ELEMENT,
    data::FORMS,
    data::SLOTS,
    data::PLACED,
    data::TABLE,
    data::SWITCH,
    data::RECORDS,
    "\n# nothing is called\n \t\r\n,",
    constants::SCRIPT,
    entries::SCRIPT,
    notes::SCRIPT,
    outside::SCRIPT,
    VARIABLES,
];

/// Variables are numbered by their declarations, wherever these stand among the calls.
const VARIABLES: &str = "\
b = create_block
x = declare_var i32
switch_to_block b
y = declare_var i32
one = iconst.i32 1
def_var x one
two = iconst.i32 2
z = declare_var i32
def_var y, two
def_var z one
u = use_var y
return u
seal_block b";

/// Scripts of no module.
const OWN_SCRIPTS: &[&str] = &[
    // names lead to the latest answer of that name, also of a variable, and `$P.K` to any answer
    "\
function %f () -> i32 tail
x = declare_var i8
x = declare_var i32
b = create_block
switch_to_block $2.0
@one, one = iconst.i32 1
def_var x $4.1
a = use_var var1
a = use_var $1.0
return (a)
seal_block b",
    // the parameters of the function are named in order, also by a line that comes later
    "\
b = create_block
x, y, z = append_block_params_for_function_params b
switch_to_block b
return y
seal_block b
function %f (i32, i64) -> i64 fast",
];

const SCRIPTS: &[&[&str]] = &[
    EXAMPLES,
    blocks::SCRIPTS,
    changes::SCRIPTS,
    helpers::SCRIPTS,
    instructions::SCRIPTS,
    switches::SCRIPTS,
    tries::SCRIPTS,
    undefined::SCRIPTS,
    OWN_SCRIPTS,
];

// What the function of a script prints.
fn printed(alloc: Global, script: &str) -> Result<String, Fail> {
    let func = function_of(alloc, script)?;
    Ok(format!(in alloc; "{}", func.display())?)
}

// What the calls of a script are written as builds the same function, and is written the same once it is read.
fn is_kept(rt: &impl Abort, alloc: Global, script: &str) -> Result<(), Fail> {
    let written = rewritten(alloc, script)?;
    let (before, after) = (printed(alloc, script)?, printed(alloc, written.as_str())?);
    assert!(rt; before.as_str() == after.as_str());
    is_written(rt, alloc, written.as_str(), written.as_str())
}

fn is_written(rt: &impl Abort, alloc: Global, script: &str, written: &str) -> Result<(), Fail> {
    assert!(rt; rewritten(alloc, script)?.as_str() == written);
    Ok(())
}

/// The rows, the examples, and scripts of each kind.
#[test]
fn kept(rt: HostRuntime) -> Result<(), Fail> {
    for name in NAMES.lines() {
        is_kept(&rt, rt.alloc(), row_of(name)?)?;
    }
    for scripts in SCRIPTS {
        for script in scripts.iter() {
            is_kept(&rt, rt.alloc(), script)?;
        }
    }
    Ok(())
}

/// Scripts, and what their calls are written as.
const WRITTEN: &[(&str, &str)] = &[
    changes::WRITTEN,
    (constants::SCRIPT, constants::WRITTEN),
    (entries::SCRIPT, entries::WRITTEN),
    helpers::WRITTEN,
    (notes::SCRIPT, notes::WRITTEN),
    (outside::SCRIPT, outside::WRITTEN),
    switches::WRITTEN,
    tries::WRITTEN,
    // each call
    (
        "\
conv tail
pointer 32
function u1:2 (i8, f32x4) -> i64x2 i128 fast
declare_var i8x16
create_block
switch_to_block $1.0
seal_block $7.18446744073709551615
seal_all_blocks
insert_block_after $1.0 $2.0
set_cold_block $1.0
ensure_inserted_block
append_block_param $1.0 f32
append_block_params_for_function_params $1.0
append_block_params_for_function_returns $2.0
def_var var3 $0.0
use_var var4294967294
try_def_var var3 $0.0
try_use_var var4294967294
iconst.i128 -0x8000_0000_0000_0000
iconst.f16 0xffff_ffff_ffff_ffff
iadd $1.2 $3.4
isub $5.6 $7.8
jump $1.0 $2.1
brif $1.0 $2.0 $3.0
brif $1.0, $2.0($3.1, $4.1), $5.0()
return ($1.0 $2.0)
return",
        "\
function u1:2 (i8, f32x4) -> i64x2, i128 fast
pointer 32
conv tail
declare_var i8x16
create_block
switch_to_block $1.0
seal_block $7.18446744073709551615
seal_all_blocks
insert_block_after $1.0 $2.0
set_cold_block $1.0
ensure_inserted_block
append_block_param $1.0 f32
append_block_params_for_function_params $1.0
append_block_params_for_function_returns $2.0
def_var var3 $0.0
use_var var4294967294
try_def_var var3 $0.0
try_use_var var4294967294
iconst.i128 -9223372036854775808
iconst.f16 -1
iadd $1.2 $3.4
isub $5.6 $7.8
jump $1.0( $2.1)
brif $1.0 $2.0() $3.0()
brif $1.0 $2.0( $3.1 $4.1) $5.0()
return $1.0 $2.0
return
",
    ),
    // each instruction that has its own format, or operands that aren't values
    (
        "\
f16const 0x3c00
f16const 65_535
f32const 1065353216
f64const 0x3ff0_0000_0000_0000
f64const 18446744073709551615
f128const 0x000102030405060708090a0b0c0d0e0f
x = vconst.i8x4 0xdeadbeef
sextend.i64 $1.0
iconcat $1.0 $2.0
low, high = isplit $1.0
icmp slt $1.0, $2.0
icmp uge $1.0, $2.0
load.i32 $1.0
load.i8x16 aligned, notrap, $1.0, +4
load.f64 notrap $1.0 -4
store $1.0 $2.0
store aligned $1.0, $2.0, -2147483648
store notrap $1.0 $2.0 0
s = create_sized_stack_slot 4 2
t = create_sized_stack_slot 0x10, 0
stack_addr.i64 t 8
stack_load.f32 s
stack_load.i8 $19.0 -1
stack_store $1.0, $7.0, +4
trapz $1.0 user7
trapnz $1.0, int_divz
trap heap_oob
trap user255
trap int_ovf
e = block_call $1.0, $2.0
t = create_jump_table e
t = create_jump_table $1.0, $2.0
br_table $1.0 t
br_table $1.0, $7.0",
        "\
function u0:0 () fast
pointer 64
conv system_v
f16const 15360
f16const 65535
f32const 1065353216
f64const 4607182418800017408
f64const 18446744073709551615
f128const 0x000102030405060708090a0b0c0d0e0f
vconst.i8x4 0xdeadbeef
sextend.i64 $1.0
iconcat $1.0 $2.0
isplit $1.0
icmp slt $1.0 $2.0
icmp uge $1.0 $2.0
load.i32 $1.0
load.i8x16 notrap aligned $1.0 4
load.f64 notrap $1.0 -4
store $1.0 $2.0
store aligned $1.0 $2.0 -2147483648
store notrap $1.0 $2.0
create_sized_stack_slot 4 2
create_sized_stack_slot 16 0
stack_addr.i64 $19.0 8
stack_load.f32 $18.0
stack_load.i8 $19.0 -1
stack_store $1.0 $7.0 4
trapz $1.0 user7
trapnz $1.0 int_divz
trap heap_oob
trap user255
trap int_ovf
block_call $1.0( $2.0)
create_jump_table $29.0
create_jump_table $1.0 $2.0
br_table $1.0 $31.0
br_table $1.0 $7.0
",
    ),
];

/// Scripts, and lines that they are written with.
const NUMBERED: &[(&str, &[&str])] = &[
    helpers::LATER_IMPORTS,
    switches::LATER_TABLES,
    (
        VARIABLES,
        &[
            "def_var var0 $4.1\n",
            "def_var var1 $6.1\n",
            "def_var var2 $4.1\n",
        ],
    ),
];

/// Calls are written in one way, however they were, with their answers by number.
#[test]
fn written(rt: HostRuntime) -> Result<(), Fail> {
    let alloc = rt.alloc();
    for (script, text) in WRITTEN {
        is_written(&rt, alloc, script, text)?;
        is_written(&rt, alloc, text, text)?;
    }
    for (script, lines) in NUMBERED {
        let written = rewritten(alloc, script)?;
        for line in lines.iter() {
            assert!(rt; written.contains(*line));
        }
    }
    Ok(())
}
