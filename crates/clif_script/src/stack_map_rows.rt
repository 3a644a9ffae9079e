//! The scripts of the rows that ask for stack maps.

/// Two values, one after the other, each live across the first of two calls: they share a stack slot.
pub(crate) const SLOT_REUSE: &str = "\
# At the second call of each pair the value isn't needed any more, so that its slot is free for the next one.
function %sample () system_v
takes = import_signature (i32) system_v
g = import_function %g takes
block0 = create_block
seal_block block0
switch_to_block block0
zero = iconst.i32 0
declare_value_needs_stack_map zero
call g (zero)
call g (zero)
one = iconst.i32 1
declare_value_needs_stack_map one
call g (one)
call g (one)
return
";

/// A marked variable that lives around a loop, whose body makes and keeps another value.
pub(crate) const LOOP: &str = "\
# a lives across all calls of the loop, made only from its call to the one before its last use.
function %loop (i32) system_v
takes = import_signature (i32) system_v
gives = import_signature () -> i32 system_v
use = import_function %use takes
make = import_function %make gives
a = declare_var i32
declare_var_needs_stack_map a
block0 = create_block
block1 = create_block
block2 = create_block
first = append_block_params_for_function_params block0

seal_block block0
switch_to_block block0
def_var a first
jump block1

switch_to_block block1
made = call make
declare_value_needs_stack_map made
call use (made)
call use (made)
again = use_var a
call use (again)
brif again block1 block2
seal_block block1
seal_block block2

switch_to_block block2
return
";

/// A marked variable in two blocks that lead to each other, and that both are entered from outside.
pub(crate) const IRREDUCIBLE: &str = "\
# Neither block1 nor block2 is the one head of the loop. The stack map of each call names the variable's value.
function %irreducible (i32, i64) -> i64 system_v
asks = import_signature (i64) -> i32 system_v
a = import_function %a asks
b = import_function %b asks
p = declare_var i64
declare_var_needs_stack_map p
block0 = create_block
block1 = create_block
block2 = create_block
block3 = create_block
way pointer = append_block_params_for_function_params block0

seal_block block0
switch_to_block block0
def_var p pointer
brif way block1 block2

switch_to_block block1
in1 = use_var p
from1 = call a (in1)
brif from1 block2 block3

switch_to_block block2
in2 = use_var p
from2 = call b (in2)
brif from2 block1 block3

switch_to_block block3
in3 = use_var p
return in3
seal_all_blocks
";

/// A try call that passes a tracked value and its own result along the edge on which it returns.
pub(crate) const TRY_CALL: &str = "\
# The value is loaded again in a block of its own, on the edge where the call returns.
function %try (i64) -> i64 system_v
asks = import_signature (i64) -> i32 system_v
f = import_function %f asks
block0 = create_block
block1 = create_block
block2 = create_block
v0 = append_block_params_for_function_params block0
v1 = append_block_param block1 i64
v2 = append_block_param block1 i32
declare_value_needs_stack_map v0
returns = block_call block1(v0, ret0)
throws = block_call block2
table = create_exception_table asks returns default throws

switch_to_block block0
try_call f (v0) table

switch_to_block block1
return v1

switch_to_block block2
trap user1
seal_all_blocks
";

/// A marked variable that is never assigned, around a call.
pub(crate) const ZERO_MARKED: &str = "\
# It is zero, which no collector moves: no stack map names it.
function %zero_marked () -> i64 system_v
p = declare_var i64
declare_var_needs_stack_map p
block0 = create_block
seal_block block0
switch_to_block block0
plain = import_signature () system_v
g = import_function %g plain
before = use_var p
call g
after = use_var p
return after
";

/// The same as `SLOT_REUSE`, with a callback that answers one region.
pub(crate) const REGIONS: &str = "\
# Each access of a spill names the region of user id 7.
function %sample () system_v
region intern 7
takes = import_signature (i32) system_v
g = import_function %g takes
block0 = create_block
seal_block block0
switch_to_block block0
zero = iconst.i32 0
declare_value_needs_stack_map zero
call g (zero)
call g (zero)
one = iconst.i32 1
declare_value_needs_stack_map one
call g (one)
call g (one)
return
";
