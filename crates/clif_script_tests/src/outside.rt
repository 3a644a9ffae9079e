//! A script that makes outside calls.
#![tactic(auto)]

/// Calls of a function and of what is at an address.
pub const SCRIPT: &str = "\
function %calls (i64, i32) -> i32, i64 system_v
s = import_signature (i32) -> i32, i64 system_v
t = import_signature (i64) fast
f = import_function %f s
entry = create_block
p, x = append_block_params_for_function_params entry
switch_to_block entry
@first, a, b = call f (x)
call_indirect t p (b)
c = call f a
return c, b
seal_block entry";

/// What its calls are written as.
pub const WRITTEN: &str = "\
function %calls (i64, i32) -> i32, i64 system_v
pointer 64
conv system_v
import_signature (i32) -> i32, i64 system_v
import_signature (i64) fast
import_function %f $0.0
create_block
append_block_params_for_function_params $3.0
switch_to_block $3.0
call $2.0( $4.1)
call_indirect $1.0 $4.0( $6.2)
call $2.0( $6.1)
return $8.1 $6.2
seal_block $3.0
";
