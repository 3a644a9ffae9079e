//! A script that makes instructions with a constant as an operand.
#![tactic(auto)]

/// Sums and comparisons.
pub const SCRIPT: &str = "\
function %constants (i32, i128) -> i32, i8, i128, i8 system_v
entry = create_block
x, w = append_block_params_for_function_params entry
switch_to_block entry
a = iadd_imm_s x -5
b = icmp_imm_s slt a 7
c = iadd_imm_s w -5
icmp_imm_s uge $5.0, 0x1_0
d = icmp_imm_s uge c, 0x1_0
return a b c d
seal_block entry";

/// What its calls are written as.
pub const WRITTEN: &str = "\
function %constants (i32, i128) -> i32, i8, i128, i8 system_v
pointer 64
conv system_v
create_block
append_block_params_for_function_params $0.0
switch_to_block $0.0
iadd_imm_s $1.0 -5
icmp_imm_s slt $3.0 7
iadd_imm_s $1.1 -5
icmp_imm_s uge $5.0 16
icmp_imm_s uge $5.0 16
return $3.0 $4.0 $5.0 $7.0
seal_block $0.0
";
