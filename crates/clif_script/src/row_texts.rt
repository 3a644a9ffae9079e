//! The scripts of the rows.

/// A variable that is used before it is assigned, and before its block is sealed.
pub(crate) const FIRST: &str = "\
# A variable that is used before any assignment is zero.
function %first () -> i32 system_v
x = declare_var i32
block0 = create_block
switch_to_block block0
before = use_var x
seven = iconst.i32 7
sum = iadd before seven
def_var x sum
after = use_var x
return after
seal_block block0
";

/// A loop whose block is sealed after it: a parameter that turns out to be one value is another name of it, and the
/// others keep their order.
pub(crate) const REORDERING: &str = "\
# The loop's block is sealed once the branch back to it is made. x and y change in the loop and become its
# parameters; z doesn't.
function %reordering () system_v
x = declare_var i32
y = declare_var i32
z = declare_var i32
start = create_block
loop = create_block

switch_to_block start
seal_block start
zero = iconst.i32 0
def_var x zero
one = iconst.i32 1
def_var y one
two = iconst.i32 2
def_var z two
jump loop

switch_to_block loop
z1 = use_var z
x1 = use_var x
x2 = iadd x1, z1
def_var x x2
x3 = use_var x
y1 = use_var y
y2 = isub y1, x3
def_var y y2
jump loop
seal_block loop
";

/// The documented example of the crate whose behaviour the builder has: a loop over three variables, whose first one is
/// the function's parameter. Each block is sealed as soon as its branches are there.
pub(crate) const SAMPLE: &str = "\
# A loop over three variables, of which x is the function's parameter. It doesn't change in the loop.
function %sample (i32) -> i32 system_v
block0 = create_block
block1 = create_block
block2 = create_block
block3 = create_block
x = declare_var i32
y = declare_var i32
z = declare_var i32
first = append_block_params_for_function_params block0

switch_to_block block0
seal_block block0
def_var x first
two = iconst.i32 2
def_var y two
x0 = use_var x
y0 = use_var y
z0 = iadd x0 y0
def_var z z0
jump block1

switch_to_block block1
y1 = use_var y
z1 = use_var z
z2 = iadd y1 z1
def_var z z2
y2 = use_var y
brif y2 block3 block2

switch_to_block block2
seal_block block2
z3 = use_var z
x1 = use_var x
z4 = isub z3 x1
def_var z z4
y3 = use_var y
return y3

switch_to_block block3
seal_block block3
y4 = use_var y
x2 = use_var x
y5 = isub y4 x2
def_var y y5
jump block1
seal_block block1
";

/// The same, with all blocks sealed at the end.
pub(crate) const SAMPLE_LATE: &str = "\
# The same with all blocks sealed at the end: x is then a parameter of the loop's block.
function %sample (i32) -> i32 system_v
block0 = create_block
block1 = create_block
block2 = create_block
block3 = create_block
x = declare_var i32
y = declare_var i32
z = declare_var i32
first = append_block_params_for_function_params block0

switch_to_block block0
def_var x first
two = iconst.i32 2
def_var y two
x0 = use_var x
y0 = use_var y
z0 = iadd x0 y0
def_var z z0
jump block1

switch_to_block block1
y1 = use_var y
z1 = use_var z
z2 = iadd y1 z1
def_var z z2
y2 = use_var y
brif y2 block3 block2

switch_to_block block2
z3 = use_var z
x1 = use_var x
z4 = isub z3 x1
def_var z z4
y3 = use_var y
return y3

switch_to_block block3
y4 = use_var y
x2 = use_var x
y5 = isub y4 x2
def_var y y5
jump block1
seal_all_blocks
";

/// A loop that both arms of one branch lead back to.
pub(crate) const BOTH_ARMS: &str = "\
function %both_arms () -> i32 system_v
x = declare_var i32
block0 = create_block
block1 = create_block
block2 = create_block
block3 = create_block
switch_to_block block0
five = iconst.i32 5
def_var x five
jump block1
switch_to_block block1
value = use_var x
brif value block2 block3
switch_to_block block2
seal_block block2
value = use_var x
minus_one = iconst.i32 -1
sum = iadd value minus_one
def_var x sum
value = use_var x
brif value block1 block1
seal_block block1
switch_to_block block3
seal_block block3
value = use_var x
return value
seal_block block0
";

/// Variables of vectors that are used and never assigned, before their block is sealed.
pub(crate) const UNDEF_VECTORS: &str = "\
# Variables that are never assigned are zero. The zeros of a and b are made of one constant.
function %sample () -> i8x16 i8x16 f32x4 system_v
block0 = create_block
a = declare_var i8x16
b = declare_var i8x16
c = declare_var f32x4
switch_to_block block0
a0 = use_var a
b0 = use_var b
c0 = use_var c
return a0 b0 c0
seal_all_blocks
";

/// A switch with four ranges of keys, which are searched by halves.
pub(crate) const SWITCH_MANY: &str = "\
# The keys make the ranges 0..1, 5, 7 and 10..12. No block of a case has anything in it, so none is in the layout.
block0 = create_block
switch_to_block block0
x = iconst.i8 0
block1 = create_block
block2 = create_block
block3 = create_block
block4 = create_block
block5 = create_block
block6 = create_block
block7 = create_block
switch x block0 0:block1 1:block2 5:block3 7:block4 10:block5 11:block6 12:block7
seal_all_blocks
";

/// A switch on 128 bits: the key 2^64 - 1 is made of its halves.
pub(crate) const SWITCH_128BIT_MAX_U64: &str = "\
function %switch_128bit_max_u64 () system_v
block0 = create_block
switch_to_block block0
zero = iconst.i64 0
x = uextend.i128 zero
block1 = create_block
block2 = create_block
block3 = create_block
switch x block3 0xffff_ffff_ffff_ffff:block1 0:block2
seal_all_blocks
";

/// A range of keys that starts above 2^63: its first key is subtracted as a whole.
pub(crate) const SWITCH_HIGH: &str = "\
# The value is the first key of the range.
function %switch_high () system_v
block0 = create_block
block1 = create_block
block2 = create_block
block3 = create_block
switch_to_block block0
low = iconst.i64 0x8000_0000_0000_0001
high = iconst.i64 0
x = iconcat low high
switch x block3 0x8000_0000_0000_0001:block1 0x8000_0000_0000_0002:block2
switch_to_block block1
trap user1
switch_to_block block2
trap user2
switch_to_block block3
trap user3
seal_all_blocks
";

/// A range of keys that starts at 2^63: the number that is added is its negation in 64 bits, with its sign repeated.
pub(crate) const SWITCH_BORDER: &str = "\
# The value is the second key of the range.
function %switch_border () system_v
block0 = create_block
block1 = create_block
block2 = create_block
block3 = create_block
switch_to_block block0
low = iconst.i64 0x8000_0000_0000_0001
high = iconst.i64 0
x = iconcat low high
switch x block3 0x8000_0000_0000_0000:block1 0x8000_0000_0000_0001:block2
switch_to_block block1
trap user1
switch_to_block block2
trap user2
switch_to_block block3
trap user3
seal_all_blocks
";

/// A branch of which both arms are changed.
pub(crate) const CHANGE_BOTH: &str = "\
# Both arms lead to block1, and then to block2. The branch is one predecessor of block2.
function %change_both () -> i32 system_v
x = declare_var i32
block0 = create_block
block1 = create_block
block2 = create_block
switch_to_block block0
one = iconst.i32 1
def_var x one
@branch = brif one block1 block1
change_jump_destination @branch block1 block2
seal_block block2
switch_to_block block2
value = use_var x
return value
seal_all_blocks
";

/// A branch of which one arm is changed, and the other one leads to the new block already.
pub(crate) const CHANGE_ONE: &str = "\
# One arm leads to block1, and then to block2, where the other one leads. The branch is one predecessor of block2.
function %change_one () -> i32 system_v
x = declare_var i32
block0 = create_block
block1 = create_block
block2 = create_block
switch_to_block block0
one = iconst.i32 1
def_var x one
@branch = brif one block1 block2
change_jump_destination @branch block1 block2
seal_block block2
switch_to_block block2
value = use_var x
return value
seal_all_blocks
";

/// No calls.
pub(crate) const EMPTY: &str = "";
