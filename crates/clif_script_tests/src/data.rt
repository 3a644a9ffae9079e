//! Scripts of the folder `examples`, and more of the same kind.
#![tactic(auto)]

/// The function of no calls.
pub const EMPTY_TEXT: &str = "function u0:0() fast {\n}\n";

/// A switch with five ranges of keys.
pub const SWITCH: &str = "\
# What a status of HTTP means: 1 that the request was served, 2 that its subject is elsewhere, 3 that it is missing, 4 that
# the server failed, and 0 for all other numbers. The keys make five ranges, which are searched by halves.
function %meaning_of_status (i16) -> i8 system_v
entry = create_block
served = create_block
elsewhere = create_block
missing = create_block
failed = create_block
other = create_block
status = append_block_params_for_function_params entry

switch_to_block entry
seal_block entry
switch status other 200:served 201:served 204:served 301:elsewhere 302:elsewhere 404:missing 500:failed

switch_to_block served
meaning = iconst.i8 1
return meaning

switch_to_block elsewhere
meaning = iconst.i8 2
return meaning

switch_to_block missing
meaning = iconst.i8 3
return meaning

switch_to_block failed
meaning = iconst.i8 4
return meaning

switch_to_block other
meaning = iconst.i8 0
return meaning
seal_all_blocks
";

pub const DIAMOND: &str = "\
# Each arm assigns x, and the block where they meet gets it as a parameter.
function %diamond () -> i32 system_v
x = declare_var i32
entry = create_block
left = create_block
right = create_block
join = create_block

switch_to_block entry
seal_block entry
zero = iconst.i32 0
brif zero left right

switch_to_block left
seal_block left
one = iconst.i32 1
def_var x one
jump join

switch_to_block right
seal_block right
two = iconst.i32 2
def_var x two
jump join

switch_to_block join
seal_block join
value = use_var x
return value
";

pub const NESTED_LOOPS: &str = "\
# The inner loop counts j down from i, the outer one counts i down. The inner loop doesn't change i, so it
# doesn't get i as a parameter.
function %nested () -> i32 system_v
i = declare_var i32
j = declare_var i32
entry = create_block
outer = create_block
inner = create_block
next = create_block
exit = create_block

switch_to_block entry
seal_block entry
three = iconst.i32 3
def_var i three
jump outer

switch_to_block outer
i1 = use_var i
def_var j i1
jump inner

switch_to_block inner
j1 = use_var j
minus = iconst.i32 -1
j2 = iadd j1 minus
def_var j j2
brif j2 inner next
seal_block inner

switch_to_block next
seal_block next
i2 = use_var i
minus = iconst.i32 -1
i3 = iadd i2 minus
def_var i i3
brif i3 outer exit
seal_block outer

switch_to_block exit
seal_block exit
i4 = use_var i
return i4
";

pub const SUM_OF_BYTES: &str = "\
# Adds up the bytes from `start` up to `end`.
function %sum_of_bytes (i64, i64) -> i32 system_v
at = declare_var i64
total = declare_var i32
entry = create_block
test = create_block
body = create_block
exit = create_block
start, end = append_block_params_for_function_params entry

switch_to_block entry
seal_block entry
def_var at start
jump test

switch_to_block test
here = use_var at
more = icmp ult here end
brif more body exit

switch_to_block body
seal_block body
byte = load.i8 notrap here
wide = uextend.i32 byte
before = use_var total
after = iadd before wide
def_var total after
one = iconst.i64 1
next = iadd here one
def_var at next
jump test
seal_block test

switch_to_block exit
seal_block exit
result = use_var total
return result
";

pub const CHECKED_ELEMENT: &str = "\
# Element `index` of eight numbers at `array`. A null pointer traps, and so does an index past the last element.
function %checked_element (i64, i32) -> i32 system_v
entry = create_block
inside = create_block
outside = create_block
array, index = append_block_params_for_function_params entry

switch_to_block entry
seal_block entry
trapz array user1
eight = iconst.i32 8
is_inside = icmp ult index eight
brif is_inside inside outside

switch_to_block inside
seal_block inside
four = iconst.i32 4
bytes = imul index four
distance = uextend.i64 bytes
place = iadd array distance
element = load.i32 notrap aligned place
return element

switch_to_block outside
seal_block outside
trap user2
";

pub const FORMS: &str = "\
function %forms (i64) -> f32 system_v
b = create_block
p = append_block_param b i64
switch_to_block b
half = f16const 0x3c00
single = f32const 0
double = f64const 1
byte = load.i8 aligned p +4
wide = sextend.i32 byte
both = iconcat wide wide
is_less = icmp slt both p
low, high = isplit both
store notrap is_less p -8
trapnz byte int_ovf
return single
seal_block b
";

pub const SLOTS: &str = "\
function %slots (i32) -> i32 system_v
small = create_sized_stack_slot 4 2
large = create_sized_stack_slot 16 3
b = create_block
x = append_block_param b i32
switch_to_block b
stack_store x small
at = stack_addr.i64 large 8
store x at 4
half = stack_load.i16 large +12
y = uextend.i32 half
z = stack_load.i32 small
sum = iadd y z
seal_block b
next = create_block
jump next
switch_to_block next
seal_block next
stack_store sum $1.0 -4
return sum
";

pub const PLACED: &str = "\
b0 = create_block
b1 = create_block
b2 = create_block
switch_to_block b0
ensure_inserted_block
jump b1
insert_block_after b2 b0
set_cold_block b2
switch_to_block b1
jump b2
switch_to_block b2
return
seal_all_blocks
";

pub const TABLE: &str = "\
function %jump_table (i32) -> i32 system_v
entry = create_block
zero = create_block
one = create_block
other = create_block
index = append_block_params_for_function_params entry
passed = append_block_param one i32
to_zero = block_call zero
to_one = block_call one(index)
to_other = block_call other
table = create_jump_table to_other to_zero to_one

switch_to_block entry
seal_block entry
br_table index table
seal_block zero
seal_block one
seal_block other

switch_to_block zero
ten = iconst.i32 10
return ten

switch_to_block one
return passed

switch_to_block other
many = iconst.i32 99
return many
";

/// The example `records`.
pub const RECORDS: &str = "\
# Two records of 24 bytes: a name of 16, and then a number. Where their names differ, the first record is copied over the second
# one, and the 64 bytes behind the second one are cleared. Answers whether the names were the same, the number of the second record,
# and the order of what lies behind the second record and behind the first one.
function %update (i64, i64) -> i8, i64, i32 system_v
entry = create_block
differ = create_block
done = create_block
first, second = append_block_params_for_function_params entry

switch_to_block entry
seal_block entry
same = emit_small_memory_compare eq first second 16 8 8
brif same done differ

switch_to_block differ
seal_block differ
emit_small_memory_copy second first 24 8 8 nonoverlap
behind = iadd_imm_s second 24
emit_small_memset behind 0 64 8
jump done
seal_block done

switch_to_block done
place = iadd_imm_s second 16
number = load.i64 place
behind = iadd_imm_s second 24
rest = iadd_imm_s first 24
size = iconst.i64 40
order = call_memcmp behind rest size
return same number order
";
