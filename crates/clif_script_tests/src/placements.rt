//! Scripts that mark blocks and place them in the layout.
#![tactic(auto)]

/// Scripts, and what their replays give.
pub const REPLAYS: &[&str] = &[
    // the block that was put behind the first one is printed there, and one that holds nothing, too
    "create_block\ncreate_block\ncreate_block\nswitch_to_block $0.0\njump $1.0\ninsert_block_after $2.0 $0.0\nswitch_to_block $1.0\njump $2.0\nswitch_to_block $2.0\nreturn\nseal_block $0.0\nseal_block $1.0\nseal_block $2.0 => \
function u0:0() fast {
block0:
    jump block1

block2:
    return

block1:
    jump block2
}
",
    "create_block\ncreate_block\nswitch_to_block $0.0\nreturn\nseal_block $0.0\ninsert_block_after $1.0 $0.0 => \
function u0:0() fast {
block0:
    return

block1:
}
",
    // a block may be marked cold at any time, and more than once
    "create_block\nset_cold_block $0.0\nswitch_to_block $0.0\nreturn\nseal_block $0.0\nset_cold_block $0.0 => \
function u0:0() fast {
block0 cold:
    return
}
",
    "declare_var i32\ncreate_block\ncreate_block\nswitch_to_block $1.0\niconst.i32 1\ndef_var var0 $4.1\njump $2.0\nset_cold_block $2.0\nswitch_to_block $2.0\nuse_var var0\niadd $9.0 $9.0\ndef_var var0 $10.1\njump $2.0\nseal_block $2.0\nseal_block $1.0 => \
function u0:0() fast {
block0:
    v0 = iconst.i32 1
    jump block1(v0)  ; v0 = 1

block1(v1: i32) cold:
    v2 = iadd v1, v1
    jump block1(v2)
}
",
    // a block to which nothing leads is put into the layout, left, and filled after the next one
    "create_block\ncreate_block\ncreate_block\nswitch_to_block $0.0\nreturn\nseal_block $0.0\nseal_block $1.0\nswitch_to_block $1.0\nensure_inserted_block\nensure_inserted_block\nswitch_to_block $2.0\nreturn\nseal_block $2.0\nswitch_to_block $1.0\niconst.i32 1\nreturn => \
function u0:0() fast {
block0:
    return

block1:
    v0 = iconst.i32 1
    return

block2:
    return
}
",
    // all blocks are sealed at the end; in a loop that nothing leads to an alias stands behind its uses
    "declare_var i32\ncreate_block\ncreate_block\ncreate_block\nswitch_to_block $1.0\niconst.i32 1\ndef_var var0 $5.1\nreturn\nswitch_to_block $2.0\njump $3.0\nswitch_to_block $3.0\nuse_var var0\niadd $11.0 $11.0\niconst.i32 1\ndef_var var0 $13.1\njump $2.0\nseal_all_blocks => \
function u0:0() fast {
block0:
    v0 = iconst.i32 1
    return

block1:
    jump block2

block2:
    v2 = iadd v1, v1  ; v1 = 1, v1 = 1
    v3 = iconst.i32 1
    v1 -> v3
    jump block1
}
",
    // an insertion of a block that is in the layout: by what was made in it, or by an insertion
    "create_block\nswitch_to_block $0.0\nreturn\ninsert_block_after $0.0 $0.0 => misuse at call 3",
    "create_block\ncreate_block\nswitch_to_block $0.0\nreturn\ninsert_block_after $1.0 $0.0\ninsert_block_after $1.0 $0.0 => misuse at call 5",
    // behind a block that isn't in it
    "create_block\ncreate_block\ninsert_block_after $1.0 $0.0 => misuse at call 2",
    // a variable, an instruction and nothing where a block is named
    "declare_var i32\ncreate_block\nswitch_to_block $1.0\nreturn\ninsert_block_after $0.0 $1.0 => misuse at call 4",
    "create_block\ncreate_block\nswitch_to_block $0.0\nreturn\ninsert_block_after $1.0 $3.0 => misuse at call 4",
    "create_block\ncreate_block\nswitch_to_block $0.0\nreturn\ninsert_block_after $1.0 $9.0 => misuse at call 4",
    // a mark where a block isn't named
    "set_cold_block $0.0 => misuse at call 0",
    "declare_var i32\nset_cold_block $0.0 => misuse at call 1",
    "create_block\nset_cold_block $0.1 => misuse at call 1",
    // in no block, in one that isn't current, and in one that is filled
    "ensure_inserted_block => misuse at call 0",
    "create_block\nensure_inserted_block => misuse at call 1",
    "create_block\nswitch_to_block $0.0\nreturn\nensure_inserted_block => misuse at call 3",
    // the block is begun, so it isn't left, and has to be finished
    "create_block\ncreate_block\nswitch_to_block $0.0\nensure_inserted_block\nswitch_to_block $1.0 => misuse at call 4",
    "create_block\nswitch_to_block $0.0\nensure_inserted_block => refused at call 3",
    "create_block\nswitch_to_block $0.0\nensure_inserted_block\nseal_block $0.0 => refused at call 4",
];
