//! A script that makes entries of the function's tables.
#![tactic(auto)]

/// An entry of each kind.
pub const SCRIPT: &str = "\
s = import_signature (i64, i64, i64) -> i64 system_v
copy = import_function libcall Memcpy s
create_sized_stack_slot 4 2
create_dynamic_stack_slot 0x10
g = create_global_value vmctx
create_global_value symbol %name
create_global_value symbol u1:2
t = import_signature () fast
import_function colocated patchable u0:1 t
import_function colocated %Memcpy s
import_function patchable %f $7.0
b = create_block
switch_to_block b
return
seal_block b";

/// What its calls are written as.
pub const WRITTEN: &str = "\
function u0:0 () fast
pointer 64
conv system_v
import_signature (i64, i64, i64) -> i64 system_v
import_function libcall Memcpy $0.0
create_sized_stack_slot 4 2
create_dynamic_stack_slot 16
create_global_value vmctx
create_global_value symbol %name
create_global_value symbol u1:2
import_signature () fast
import_function colocated patchable u0:1 $7.0
import_function colocated %Memcpy $0.0
import_function patchable %f $7.0
create_block
switch_to_block $11.0
return
seal_block $11.0
";
