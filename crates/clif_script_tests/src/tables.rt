//! Scripts that make edges and jump tables, and branch by these.
#![tactic(auto)]

/// Scripts, and what their replays give.
pub const REPLAYS: &[&str] = &[
    // an edge may be in several tables, and twice in one; a table may be made before another one serves
    "create_block\ncreate_block\ncreate_block\nblock_call $1.0\nblock_call $2.0\ncreate_jump_table $3.0 $4.0\ncreate_jump_table $3.0 $3.0\nswitch_to_block $0.0\niconst.i32 1\nbr_table $8.1 $5.0\nswitch_to_block $2.0\niconst.i32 1\nbr_table $11.1 $6.0\nswitch_to_block $1.0\nreturn\nseal_all_blocks => \
function u0:0() fast {
block0:
    v0 = iconst.i32 1
    br_table v0, block1, [block2]  ; v0 = 1

block2:
    v1 = iconst.i32 1
    br_table v1, block1, [block1]  ; v1 = 1

block1:
    return
}
",
    // an edge to no block: its own place, and an edge
    "create_block\nblock_call $1.0 => misuse at call 1",
    "create_block\nblock_call $0.0\nblock_call $1.0 => misuse at call 2",
    // that passes a block
    "create_block\nblock_call $0.0($0.0) => misuse at call 1",
    // an edge where a value or a block is named
    "create_block\nblock_call $0.0\nswitch_to_block $0.0\nreturn $1.0 => misuse at call 3",
    "create_block\nblock_call $0.0\nseal_block $1.0 => misuse at call 2",
    // a table where a block is named
    "create_block\nblock_call $0.0\ncreate_jump_table $1.0 $1.0\nswitch_to_block $2.0 => misuse at call 3",
    // a table with a block as the default, and as an entry
    "create_block\ncreate_jump_table $0.0 $0.0 => misuse at call 1",
    "create_block\nblock_call $0.0\ncreate_jump_table $1.0 $0.0 => misuse at call 2",
    // an answer that isn't there, its own place, and a table
    "create_block\nblock_call $0.0\ncreate_jump_table $1.1 $1.0 => misuse at call 2",
    "create_block\nblock_call $0.0\ncreate_jump_table $1.0 $2.0 => misuse at call 2",
    "create_block\nblock_call $0.0\ncreate_jump_table $1.0 $1.0\ncreate_jump_table $2.0 $1.0 => misuse at call 3",
    // a branch by a table that served an instruction before, and one that isn't made
    "create_block\ncreate_block\nblock_call $1.0\ncreate_jump_table $2.0 $2.0\nswitch_to_block $0.0\niconst.i32 1\nbr_table $5.1 $3.0\ncreate_block\nswitch_to_block $7.0\niconst.i32 1\nbr_table $9.1 $3.0 => misuse at call 10",
    "create_block\nswitch_to_block $0.0\niconst.i32 1\nbr_table $2.1 $1.0 => misuse at call 3",
    // a target that is sealed behind its edge, or before it
    "create_block\ncreate_block\nblock_call $0.0\nblock_call $1.0\ncreate_jump_table $2.0 $3.0\nseal_block $1.0\nswitch_to_block $0.0\niconst.i32 1\nbr_table $7.1 $4.0 => misuse at call 8",
    "create_block\ncreate_block\nseal_block $1.0\nblock_call $1.0\ncreate_jump_table $3.0 $3.0\nswitch_to_block $0.0\niconst.i32 1\nbr_table $6.1 $4.0 => misuse at call 7",
    // no current block, or one that is filled, and an index that is no value
    "create_block\nblock_call $0.0\ncreate_jump_table $1.0 $1.0\nbr_table $0.0 $2.0 => misuse at call 3",
    "create_block\nblock_call $0.0\ncreate_jump_table $1.0 $1.0\nswitch_to_block $0.0\niconst.i32 1\nreturn\nbr_table $4.1 $2.0 => misuse at call 6",
    "create_block\nblock_call $0.0\ncreate_jump_table $1.0 $1.0\nswitch_to_block $0.0\nbr_table $2.0 $2.0 => misuse at call 4",
];
