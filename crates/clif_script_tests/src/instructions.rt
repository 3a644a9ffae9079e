//! Instructions in scripts. A value that is assigned to a variable has its type.
#![tactic(auto)]

/// Scripts.
pub const SCRIPTS: &[&str] = &[
    // Each operation on one or two numbers.
    "\
function %operations () -> i32 system_v
b = create_block
v0 = append_block_param b i32
v1 = append_block_param b i32
switch_to_block b
v2 = ineg v0
v3 = bnot v2
v4 = iadd v0 v1
v5 = isub v0 v1
v6 = imul v4 v5
v7 = band v3 v6
v8 = bor v7 v0
v9 = bxor v8 v1
v10 = ishl v9 v0
v11 = ushr v10 v0
v12 = sshr v11 v0
v13 = udiv v12 v1
v14 = sdiv v13 v1
v15 = urem v14 v1
v16 = srem v15 v1
return v16
seal_block b
",
    // Conversions and a choice.
    "\
function %chosen () -> i32 system_v
b = create_block
v0 = append_block_param b i32
switch_to_block b
v1 = iconst.i32 5
v2 = uextend.i64 v0
v3 = ireduce.i16 v2
v4 = splat.i32x4 v0
v5 = select v3 v0 v1
return v5
seal_block b
",
    "\
function %floats () -> i32 system_v
half = declare_var f16
single = declare_var f32
double = declare_var f64
b = create_block
switch_to_block b
v0 = f16const 0x3c00
v1 = f32const 0
v2 = f64const 0x8000_0000_0000_0000
def_var half v0
def_var single v1
def_var double v2
return v1
seal_block b
",
    // A wider number, a comparison and two halves.
    "\
function %compared () -> i32 system_v
truth = declare_var i8
number = declare_var i32
wide = declare_var i64
b = create_block
v0 = append_block_param b i32
v1 = append_block_param b i32
switch_to_block b
v2 = sextend.i64 v0
v3 = icmp slt v0 v1
v4 = iconcat v0 v1
v5, v6 = isplit v4
def_var wide v2
def_var truth v3
def_var wide v4
def_var number v5
def_var number v6
return v3
seal_block b
",
    // A block goes on behind a store.
    "\
function %memory () -> i32 system_v
number = declare_var i32
b = create_block
v0 = append_block_param b i32
switch_to_block b
v1 = load.i32 notrap aligned v0 4
store v1 v0 -8
def_var number v1
return v1
seal_block b
",
    // A block goes on behind a trap under a condition, and ends with any other one.
    "\
function %traps () -> i32 system_v
b = create_block
v0 = append_block_param b i32
switch_to_block b
trapz v0 int_divz
trapnz v0 user7
trap heap_oob
seal_block b
",
    // The cursor appends to the current block.
    "\
function %cursor () -> i32 system_v
b = create_block
switch_to_block b
seal_block b
v0 = cursor iconst.i32 5
v1 = cursor iadd v0 v0
return v1
",
    // The results of a call are what the signature returns, and print before its name.
    "\
function %calls () -> i32 system_v
s = import_signature (i32) -> i32 system_v
f = import_function %g s
b = create_block
switch_to_block b
seal_block b
v0 = iconst.i32 7
v1 = call f (v0)
v2 = iconst.i64 64
v3 = call_indirect s v2 (v1)
return v3
",
    // A stack slot is stored into, read, and its address taken.
    "\
function %slot () -> i32 system_v
b = create_block
switch_to_block b
seal_block b
slot = create_sized_stack_slot 8 3
v0 = iconst.i32 7
stack_store v0 slot
v1 = stack_load.i32 slot 4
v2 = stack_addr.i64 slot -4
return v1
",
    // A branch by the function's parameter: the default stands before the entries.
    "\
function %table (i32) -> i32 system_v
entry = create_block
other = create_block
first = create_block
second = create_block
index = append_block_param entry i32
passed = append_block_param second i32
switch_to_block entry
to_other = block_call other
to_first = block_call first
to_second = block_call second(index)
table = create_jump_table to_other to_first to_second
br_table index table
switch_to_block other
return index
switch_to_block first
return index
switch_to_block second
return passed
seal_all_blocks
",
];
