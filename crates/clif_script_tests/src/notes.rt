//! A script that sets source places and labels, and that makes instructions through the cursor.
#![tactic(auto)]

/// Labels before and after they are collected, and source places.
pub const SCRIPT: &str = "\
function %notes () -> i32 system_v
b = create_block
switch_to_block b
seal_block b
x = iconst.i32 1
set_val_label x 5
collect_debug_info
set_val_label x 6
set_srcloc 7
set_val_label x 0x4
y = cursor ineg x
set_srcloc 0xffff_ffff
z = bnot y
collect_debug_info
set_val_label x 6
return z
";

/// What its calls are written as.
pub const WRITTEN: &str = "\
function %notes () -> i32 system_v
pointer 64
conv system_v
create_block
switch_to_block $0.0
seal_block $0.0
iconst.i32 1
set_val_label $3.1 5
collect_debug_info
set_val_label $3.1 6
set_srcloc 7
set_val_label $3.1 4
cursor ineg $3.1
set_srcloc 4294967295
bnot $9.1
collect_debug_info
set_val_label $3.1 6
return $11.1
";
