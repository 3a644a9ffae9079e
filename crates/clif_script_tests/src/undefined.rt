//! Variables of several types that are read and never assigned. What is read may be assigned to the variable, since it has its type.
#![tactic(auto)]

/// Scripts.
pub const SCRIPTS: &[&str] = &[
    // Read before the block is sealed: the parameters get their numbers first.
    "\
function %undefined () -> i32 system_v
b = create_block
switch_to_block b
w = declare_var i8
read = use_var w
def_var w read
x = declare_var f32
read = use_var x
def_var x read
y = declare_var f64
read = use_var y
def_var y read
z = declare_var f16
read = use_var z
def_var z read
seal_block b
return
",
    // Zeros of two instructions.
    "\
function %undefined () -> i32 system_v
b = create_block
switch_to_block b
x = declare_var i128
read = use_var x
def_var x read
y = declare_var f32x4
read = use_var y
def_var y read
z = declare_var f64x2
read = use_var z
def_var z read
seal_block b
return
",
    // Zeros of constants: equal bytes are one constant.
    "\
function %undefined () -> i32 system_v
b = create_block
switch_to_block b
x = declare_var i8x16
read = use_var x
def_var x read
y = declare_var i8x16
read = use_var y
def_var y read
z = declare_var f128
read = use_var z
def_var z read
seal_block b
return
",
    // Read in a sealed block: each zero is put at once.
    "\
function %undefined () -> i32 system_v
b = create_block
switch_to_block b
seal_block b
w = declare_var i128
read = use_var w
def_var w read
x = declare_var f32
read = use_var x
def_var x read
y = declare_var f64
read = use_var y
def_var y read
z = declare_var f32x4
read = use_var z
def_var z read
return
",
];
