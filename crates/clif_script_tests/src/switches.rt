//! Scripts with switches, and what their calls are written as.
#![tactic(auto)]

use crate::support::Row;

/// Scripts.
pub const SCRIPTS: &[&str] = &[
    // a switch without cases is a jump
    "\
b0 = create_block
b1 = create_block
x = append_block_param b0 i32
switch_to_block b0
switch x b1
switch_to_block b1
return
seal_all_blocks",
];

/// Switches as they may be written, and as they are.
pub const WRITTEN: Row = (
    "\
switch $3.1, $0.0
x = append_block_param $0.0 i8
b = create_block
switch x b 0x10:b, 1_000:$7.0 007:b
switch $3.1 $1.0 340282366920938463463374607431768211455:$0.0 0:$0.0",
    "\
function u0:0 () fast
pointer 64
conv system_v
switch $3.1 $0.0
append_block_param $0.0 i8
create_block
switch $1.0 $2.0 16:$2.0 1000:$7.0 7:$2.0
switch $3.1 $1.0 340282366920938463463374607431768211455:$0.0 0:$0.0
",
);

/// Jump tables are named by their lines, whatever tables switches between them make.
pub const LATER_TABLES: (&str, &[&str]) = (
    "\
b = create_block
c = create_block
x = append_block_param b i32
to_b = block_call b
first = create_jump_table to_b
switch_to_block b
switch x c 9:c 4:c 8:c 3:c 6:c 1:c 2:c
second = create_jump_table to_b
switch_to_block c
br_table x second
br_table x first
switch x c
third = create_jump_table to_b
br_table x third
",
    &[
        "br_table $2.0 $7.0\n",
        "br_table $2.0 $4.0\n",
        "br_table $2.0 $12.0\n",
    ],
);
