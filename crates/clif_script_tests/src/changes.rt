//! Scripts that change where a branch leads.
#![tactic(auto)]

use crate::support::Row;

/// Scripts.
pub const SCRIPTS: &[&str] = &[
    // All edges of the table lead to block2, which the branch is one predecessor of: x is no parameter there. None leads to
    // block1, so that it may have the function's parameters.
    "\
function %changed_table (i32) -> i32 system_v
x = declare_var i32
block0 = create_block
block1 = create_block
block2 = create_block
index = append_block_params_for_function_params block0
to_first = block_call block1
to_second = block_call block2
table = create_jump_table to_first to_first to_second to_first
switch_to_block block0
seal_block block0
seven = iconst.i32 7
def_var x seven
@branch = br_table index table
change_jump_destination @branch block1 block2
append_block_params_for_function_params block1
seal_block block2
switch_to_block block2
value = use_var x
sum = iadd value index
return sum
seal_all_blocks
",
    // Each edge passes what it passed. A change to the same block changes nothing.
    "\
function %passing (i32, i32) -> i32 system_v
block0 = create_block
block1 = create_block
block2 = create_block
x, y = append_block_params_for_function_params block0
append_block_param block1 i32
b = append_block_param block2 i32
switch_to_block block0
seal_block block0
@branch = brif x block1(x) block2(y)
change_jump_destination @branch block2 block2
change_jump_destination branch block1 block2
seal_block block2
switch_to_block block2
return b
seal_all_blocks
",
    // A branch led to the entry while that was unsealed. What was read then is what the entry assigned.
    "\
function %entry_left (i32) -> i32 system_v
x = declare_var i32
block0 = create_block
block1 = create_block
block2 = create_block
choice = append_block_params_for_function_params block0
switch_to_block block0
seven = iconst.i32 7
def_var x seven
@branch = brif choice block0 block1
switch_to_block block1
read = use_var x
seal_block block1
return read
change_jump_destination @branch block0 block2
switch_to_block block2
return choice
seal_all_blocks
",
];

/// A script, and what its calls are written as.
pub const WRITTEN: Row = (
    "a = create_block\nb = create_block\nc = create_block\nswitch_to_block a\n@j = jump b\nchange_jump_destination @j b c\nchange_jump_destination j c b\n",
    "\
function u0:0 () fast
pointer 64
conv system_v
create_block
create_block
create_block
switch_to_block $0.0
jump $1.0()
change_jump_destination $4.0 $1.0 $2.0
change_jump_destination $4.0 $2.0 $1.0
",
);
