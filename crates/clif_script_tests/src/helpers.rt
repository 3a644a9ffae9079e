//! Scripts with memory helpers, and what their calls are written as.
#![tactic(auto)]

use crate::support::Row;

/// Where the convention of the target and the width of its pointers are others, so are those of the functions.
pub const SCRIPTS: &[&str] = &[
    "\
pointer 16
conv tail
function %f (i16, i16) -> i8 system_v
b = create_block
p q = append_block_params_for_function_params b
switch_to_block b
emit_small_memory_copy p q 65535 1 1 overlap
r = emit_small_memory_compare ule p q 65535 1 1
return r
seal_all_blocks",
];

/// Helpers as they may be written, and as they are.
pub const WRITTEN: Row = (
    "\
p = append_block_param $9.0 i64
call_memcpy p, p $7.1
call_memmove $0.0 p p
call_memset p p p
n = call_memcmp p p p
emit_small_memory_copy p p 0x10 1_0 0 overlap
emit_small_memory_copy p p 18446744073709551615 255 007 nonoverlap aligned, notrap
emit_small_memset p 0xff 6 2
emit_small_memset p 0 6 2 notrap
b = emit_small_memory_compare ule p p 3 1 255 aligned
b = emit_small_memory_compare slt p n 0 0x10 1",
    "\
function u0:0 () fast
pointer 64
conv system_v
append_block_param $9.0 i64
call_memcpy $0.0 $0.0 $7.1
call_memmove $0.0 $0.0 $0.0
call_memset $0.0 $0.0 $0.0
call_memcmp $0.0 $0.0 $0.0
emit_small_memory_copy $0.0 $0.0 16 10 0 overlap
emit_small_memory_copy $0.0 $0.0 18446744073709551615 255 7 nonoverlap notrap aligned
emit_small_memset $0.0 255 6 2
emit_small_memset $0.0 0 6 2 notrap
emit_small_memory_compare ule $0.0 $0.0 3 1 255 aligned
emit_small_memory_compare slt $0.0 $4.0 0 16 1
",
);

/// Signatures and functions are named by their lines, whatever helpers between them import.
pub const LATER_IMPORTS: (&str, &[&str]) = (
    "\
p = append_block_param $0.0 i64
s = import_signature () fast
call_memcpy p p p
f = import_function %f s
t = import_signature () tail
emit_small_memory_copy p p 5 1 1 overlap
emit_small_memory_copy p p 12 1 1 overlap
emit_small_memset p 0 40 1
emit_small_memset p 0 0 1
emit_small_memory_compare ult p p 0 1 1
emit_small_memory_compare ult p p 3 1 1
emit_small_memory_compare eq p p 16 1 1
g = import_function %g t
call f ()
call g ()
call_indirect t p ()
u = import_signature () fast
call_indirect u p ()
",
    &[
        "import_function %f $1.0\n",
        "import_function %g $4.0\n",
        "call $3.0()\n",
        "call $12.0()\n",
        "call_indirect $4.0 $0.0()\n",
        "call_indirect $16.0 $0.0()\n",
    ],
);
