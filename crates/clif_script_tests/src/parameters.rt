//! Scripts whose blocks have parameters of the caller's.
#![tactic(auto)]

/// Scripts, and what their replays give.
pub const REPLAYS: &[&str] = &[
    // what the caller passes is the parameter in the block, which gets the first number
    "create_block\ncreate_block\nappend_block_param $1.0 i32\nswitch_to_block $0.0\niconst.i32 1\njump $1.0($4.1)\nswitch_to_block $1.0\niadd $2.0 $2.0\njump $1.0($7.1)\nseal_all_blocks => \
function u0:0() fast {
block0:
    v1 = iconst.i32 1
    jump block1(v1)  ; v1 = 1

block1(v0: i32):
    v2 = iadd v0, v0
    jump block1(v2)
}
",
    // parameters stand in the order of the calls; the current block may get one while nothing was made in it
    "create_block\nappend_block_param $0.0 i32\nappend_block_param $0.0 f32\nswitch_to_block $0.0\nappend_block_param $0.0 i64\niadd $4.0 $4.0\nreturn\nseal_block $0.0 => \
function u0:0() fast {
block0(v0: i32, v1: f32, v2: i64):
    v3 = iadd v2, v2
    return
}
",
    // a block that is sealed may get one
    "create_block\ncreate_block\nseal_block $1.0\nappend_block_param $1.0 i64\nswitch_to_block $0.0\nreturn\nswitch_to_block $1.0\nreturn\nseal_block $0.0 => \
function u0:0() fast {
block0:
    return

block1(v0: i64):
    return
}
",
    // the parameters of the function are the answers 0, 1, .. of their call
    "function u0:0 (i32, i64) -> i32 fast\ncreate_block\nappend_block_params_for_function_params $0.0\nswitch_to_block $0.0\niadd $1.1 $1.1\nreturn $1.0\nseal_block $0.0 => \
function u0:0(i32, i64) -> i32 fast {
block0(v0: i32, v1: i64):
    v2 = iadd v1, v1
    return v0
}
",
    // a block to which a branch leads may get what the function returns
    "function u0:0 () -> i64 fast\ncreate_block\ncreate_block\nswitch_to_block $0.0\niconst.i64 1\njump $1.0($3.1)\nappend_block_params_for_function_returns $1.0\nswitch_to_block $1.0\nreturn $5.0\nseal_all_blocks => \
function u0:0() -> i64 fast {
block0:
    v0 = iconst.i64 1
    jump block1(v0)  ; v0 = 1

block1(v1: i64):
    return v1
}
",
    // a function that takes and returns nothing
    "create_block\nappend_block_params_for_function_params $0.0\nappend_block_params_for_function_returns $0.0\nswitch_to_block $0.0\nreturn\nseal_block $0.0 => \
function u0:0() fast {
block0:
    return
}
",
    // parameters of the signature for a block in which something was made
    "create_block\nswitch_to_block $0.0\niconst.i32 1\nappend_block_params_for_function_params $0.0 => misuse at call 3",
    "create_block\nswitch_to_block $0.0\niconst.i32 1\nappend_block_params_for_function_returns $0.0 => misuse at call 3",
    // a block to which a branch leads
    "create_block\ncreate_block\nswitch_to_block $0.0\njump $1.0\nappend_block_params_for_function_params $1.0 => misuse at call 4",
    // no block
    "append_block_params_for_function_params $0.0 => misuse at call 0",
    "create_block\nappend_block_params_for_function_returns $0.1 => misuse at call 1",
    // no answer, where there is no parameter
    "create_block\nappend_block_params_for_function_params $0.0\nswitch_to_block $0.0\nreturn $1.0 => misuse at call 3",
    // a parameter for a block in which something was made, or that is filled
    "create_block\nswitch_to_block $0.0\niconst.i32 1\nappend_block_param $0.0 i32 => misuse at call 3",
    "create_block\nswitch_to_block $0.0\nreturn\nappend_block_param $0.0 i32 => misuse at call 3",
    // no block: no such call, no such answer, another kind
    "append_block_param $0.0 i32 => misuse at call 0",
    "create_block\nappend_block_param $0.1 i32 => misuse at call 1",
    "declare_var i32\nappend_block_param $0.0 i32 => misuse at call 1",
    "create_block\nappend_block_param $0.0 i32\nappend_block_param $1.0 i32 => misuse at call 2",
    // a parameter is answer 0 of its call, and no other
    "create_block\ncreate_block\nappend_block_param $1.0 i32\nswitch_to_block $0.0\njump $1.0($2.1) => misuse at call 4",
    "create_block\ncreate_block\nappend_block_param $1.0 i32\nswitch_to_block $0.0\njump $2.0 => misuse at call 4",
];
