//! Scripts that make try calls.
#![tactic(auto)]

use crate::support::Row;

/// Scripts.
pub const SCRIPTS: &[&str] = &[
    // The worked function `%try`: the normal edge passes the caller's value and what the call returns, the other one the first
    // part of the exception.
    "\
function %try (i64) -> i64 system_v
s = import_signature (i64) -> i32 system_v
f = import_function %f s
entry = create_block
returned = create_block
thrown = create_block
x = append_block_params_for_function_params entry
kept = append_block_param returned i64
append_block_param returned i32
part = append_block_param thrown i64
switch_to_block entry
seal_block entry
normal = block_call returned(x, ret0)
caught = block_call thrown(exn0)
t = create_exception_table s normal default caught
try_call f (x) t
seal_block returned
switch_to_block returned
return kept
seal_block thrown
switch_to_block thrown
return part",
    // Upstream's test of try calls: a variable that has another value at each of two calls.
    "\
function %sample (i8) -> i32 system_v
s = import_signature () system_v
f = import_function u0:0 s
block0 = create_block
block1 = create_block
block2 = create_block
block3 = create_block
my_var = declare_var i32
switch_to_block block0
branch_val = append_block_param block0 i8
brif branch_val block1 block2
switch_to_block block1
one = iconst.i32 1
def_var my_var one
first = block_call block3
try_one = create_exception_table s first
try_call f () try_one
switch_to_block block2
two = iconst.i32 2
def_var my_var two
second = block_call block3
try_two = create_exception_table s second
try_call f () try_two
switch_to_block block3
ret_val = use_var my_var
return ret_val
seal_all_blocks",
];

/// A script, and what its calls are written as.
pub const WRITTEN: Row = (
    "\
s = import_signature () fast
b = create_block
p = append_block_param b i64
e = block_call b(p, exn0, exn1)
t = create_exception_table s e context p tag7 e default e
switch_to_block b
try_call_indirect p (p) t",
    "\
function u0:0 () fast
pointer 64
conv system_v
import_signature () fast
create_block
append_block_param $1.0 i64
block_call $1.0( $2.0 exn0 exn1)
create_exception_table $0.0 $3.0 context $2.0 tag7 $3.0 default $3.0
switch_to_block $1.0
try_call_indirect $2.0( $2.0) $4.0
",
);
