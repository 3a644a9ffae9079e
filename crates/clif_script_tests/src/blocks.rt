//! Scripts whose functions have several blocks: layout, parameters, changed branches and try calls.
#![tactic(auto)]

/// Scripts.
pub const SCRIPTS: &[&str] = &[
    // The row of this name, with its last block cold: the header of a cold block says so.
    "\
function %both_arms () -> i32 system_v
x = declare_var i32
block0 = create_block
block1 = create_block
block2 = create_block
block3 = create_block
set_cold_block block3
switch_to_block block0
five = iconst.i32 5
def_var x five
jump block1
switch_to_block block1
value = use_var x
brif value block2 block3
switch_to_block block2
seal_block block2
value = use_var x
minus_one = iconst.i32 -1
sum = iadd value minus_one
def_var x sum
brif sum block1 block1
seal_block block1
switch_to_block block3
seal_block block3
value = use_var x
return value
seal_block block0
",
    // A difference keeps the order of its operands. Its block is put into the layout before anything is in it.
    "\
function %difference () -> i32 system_v
b = create_block
switch_to_block b
ensure_inserted_block
v0 = iconst.i32 3
v1 = iconst.i32 1
v2 = isub v0 v1
return v2
seal_block b
",
    // A block that was put behind the entry stays there, whichever is filled first.
    "\
function %behind () -> i32 system_v
block0 = create_block
block1 = create_block
block2 = create_block
switch_to_block block0
jump block1
insert_block_after block2 block0
switch_to_block block1
seal_block block1
v0 = iconst.i32 1
return v0
switch_to_block block2
seal_block block2
v1 = iconst.i32 2
return v1
seal_block block0
",
    // The entry has the function's parameters.
    "\
function %same (i32) -> i32 system_v
b = create_block
x = append_block_params_for_function_params b
switch_to_block b
seal_block b
return x
",
    // A block has a parameter that a branch passes; it gets its number first.
    "\
function %passed () -> i32 system_v
entry = create_block
last = create_block
taken = append_block_param last i32
switch_to_block entry
seal_block entry
one = iconst.i32 1
jump last(one)
switch_to_block last
seal_block last
return taken
",
    // The same with the types that the function returns.
    "\
function %passed () -> i32 system_v
entry = create_block
last = create_block
taken = append_block_params_for_function_returns last
switch_to_block entry
seal_block entry
one = iconst.i32 1
jump last(one)
switch_to_block last
seal_block last
return taken
",
    // A branch leads to the entry while it is unsealed, and is changed before that is sealed: the variable that was read in the
    // other block, by then sealed, is what the entry assigned.
    "\
function %entry () -> i32 system_v
entry = create_block
reader = create_block
last = create_block
variable = declare_var i32
switch_to_block entry
x = iconst.i32 1
try_def_var variable x
@branch = brif x entry reader
switch_to_block reader
read = try_use_var variable
seal_block reader
return read
change_jump_destination @branch entry last
switch_to_block last
return x
seal_all_blocks
",
    // Both edges of a try call lead to a block that uses a variable, and so does a jump with another value of it: the call is one
    // of two predecessors, so the variable's parameter stays, and the call passes its value along both edges.
    "\
function %meet (i64) -> i64 system_v
s = import_signature (i64) -> i32 system_v
f = import_function %f s
entry = create_block
calling = create_block
jumping = create_block
meeting = create_block
x = append_block_param entry i64
variable = declare_var i32
switch_to_block entry
seal_block entry
brif x calling jumping
switch_to_block calling
seal_block calling
one = iconst.i32 1
def_var variable one
normal = block_call meeting
caught = block_call meeting
t = create_exception_table s normal default caught
try_call f (x) t
switch_to_block jumping
seal_block jumping
two = iconst.i32 2
def_var variable two
jump meeting
switch_to_block meeting
seal_block meeting
met = use_var variable
return met
",
    // The forms of a try call: a tag, a default and a context, in the order in which they were given; and a call of what is at an
    // address, with no items.
    "\
function %forms (i64) -> i64 system_v
s = import_signature (i64) -> i32 system_v
f = import_function %f s
entry = create_block
second = create_block
tagged = create_block
returned = create_block
other = create_block
v0 = append_block_param entry i64
address = append_block_param entry i64
v2 = append_block_param entry i64
v3 = append_block_param entry i64
v4 = append_block_param entry i64
unwinder = append_block_param entry i64
v6 = append_block_param entry i64
x = append_block_param entry i64
switch_to_block entry
normal = block_call returned(ret0)
caught = block_call tagged(exn0)
rest = block_call other
t = create_exception_table s normal tag1 caught default rest context unwinder
try_call f (x) t
switch_to_block second
normal = block_call returned(ret0)
u = create_exception_table s normal
try_call_indirect address (x) u
seal_all_blocks
",
];
