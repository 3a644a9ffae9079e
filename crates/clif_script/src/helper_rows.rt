//! The scripts of the rows with a memory helper.

/// A copy of as many bytes as a variable says, by a call of the C library.
pub(crate) const MEMCPY: &str = "\
# The function is imported, and its signature. The variables are zero, since nothing is assigned to them.
function %sample () -> i32 system_v
block0 = create_block
x = declare_var i64
y = declare_var i64
switch_to_block block0
src = use_var x
dest = use_var y
size = use_var y
call_memcpy dest src size
return size
seal_all_blocks
";

/// A copy of 12 bytes, by loads and stores: all is read before anything is written.
pub(crate) const COPY12: &str = "\
# 4 is the greatest power of two that divides 12. The bytes may overlap.
function %copy12 (i64, i64) system_v
block0 = create_block
dest src = append_block_params_for_function_params block0
switch_to_block block0
emit_small_memory_copy dest src 12 1 1 overlap
return
seal_all_blocks
";

/// A copy of 40 bytes, which takes more than four accesses of 8 bytes.
pub(crate) const COPY40: &str = "\
# The bytes are said not to overlap, so that Memcpy is called, and not Memmove.
function %copy40 (i64, i64) system_v
block0 = create_block
dest src = append_block_params_for_function_params block0
switch_to_block block0
emit_small_memory_copy dest src 40 1 1 nonoverlap
return
seal_all_blocks
";

/// A comparison of 3 bytes, which no integer has.
pub(crate) const MEMCMP_ODD: &str = "\
# The number of Memcmp is compared with 0 by the signed condition.
function %sample () -> i8 system_v
block0 = create_block
x = declare_var i64
y = declare_var i64
switch_to_block block0
left = use_var x
right = use_var y
holds = emit_small_memory_compare uge left right 3 1 1
return holds
seal_all_blocks
";
