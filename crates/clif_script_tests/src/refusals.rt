//! Scripts that are refused: which call is told, and as what.
#![tactic(auto)]

/// Scripts, and what is told of them.
pub const REPLAYS: &[&str] = &[
    // a block that was begun and isn't sealed, or isn't filled, is told by `finalize`
    "create_block\nswitch_to_block $0.0\niconst.i32 1 => refused at call 3",
    "create_block\nswitch_to_block $0.0\niconst.i32 1\nseal_block $0.0 => refused at call 4",
    "create_block\nswitch_to_block $0.0\nreturn => refused at call 3",
    // variables that aren't declared
    "use_var var0 => misuse at call 0",
    "create_block\nswitch_to_block $0.0\nuse_var var0 => misuse at call 2",
    "create_block\nswitch_to_block $0.0\niconst.i32 1\ndef_var var0 $2.1 => misuse at call 3",
    "declare_var i32\ncreate_block\nswitch_to_block $1.0\nuse_var var1 => misuse at call 3",
    // types that don't fit
    "create_block\nswitch_to_block $0.0\niconst.f32 1 => misuse at call 2",
    "declare_var i64\ncreate_block\nswitch_to_block $1.0\niconst.i32 1\ndef_var var0 $3.1 => misuse at call 4",
    // where a use is a misuse, a tried one is refused: the variable isn't declared
    "create_block\nswitch_to_block $0.0\ntry_use_var var0 => refused at call 2",
    "declare_var i32\ncreate_block\nswitch_to_block $1.0\ntry_use_var var1 => refused at call 3",
    "create_block\nswitch_to_block $0.0\niconst.i32 1\ntry_def_var var0 $2.1 => refused at call 3",
    // types that don't fit
    "declare_var i64\ncreate_block\nswitch_to_block $1.0\niconst.i32 1\ntry_def_var var0 $3.1 => refused at call 4",
    // no current block, or one that is filled, and a name that leads to no value
    "try_use_var var0 => misuse at call 0",
    "declare_var i32\ncreate_block\nswitch_to_block $1.0\niconst.i32 1\nreturn\ntry_def_var var1 $3.1 => misuse at call 5",
    "create_block\nswitch_to_block $0.0\nreturn\ntry_use_var var0 => misuse at call 3",
    "create_block\nswitch_to_block $0.0\niconst.i32 1\ntry_def_var var0 $2.0 => misuse at call 3",
    // names without an answer
    "create_block\nswitch_to_block $0.1 => misuse at call 1",
    // its own place, a later and a missing one
    "create_block\nswitch_to_block $1.0 => misuse at call 1",
    "switch_to_block $1.0\ncreate_block => misuse at call 0",
    "create_block\nseal_block $18446744073709551615.0 => misuse at call 1",
    "create_block\nswitch_to_block $0.0\nreturn $2.0 => misuse at call 2",
    // results that the instruction hasn't
    "create_block\nswitch_to_block $0.0\niconst.i32 1\niadd $2.1 $2.2 => misuse at call 3",
    "create_block\nswitch_to_block $0.0\niconst.i32 1\nreturn $2.18446744073709551615 => misuse at call 3",
    // a result, an instruction and nothing where a block is named
    "create_block\nswitch_to_block $0.0\niconst.i32 1\nswitch_to_block $2.1 => misuse at call 3",
    "create_block\nswitch_to_block $0.0\niconst.i32 1\nseal_block $2.0 => misuse at call 3",
    "create_block\nswitch_to_block $0.0\nseal_block $1.0 => misuse at call 2",
    // a block, an instruction and a variable where a value is named
    "create_block\nswitch_to_block $0.0\nreturn $0.0 => misuse at call 2",
    "create_block\nswitch_to_block $0.0\niconst.i32 1\niadd $2.0 $2.1 => misuse at call 3",
    "declare_var i32\ncreate_block\nswitch_to_block $1.0\ndef_var var0 $0.0 => misuse at call 3",
    // calls in a wrong order
    "iconst.i32 1 => misuse at call 0",
    "create_block\nseal_block $0.0\nseal_block $0.0 => misuse at call 2",
    // away from a block that is filled in part, and back to one that is filled
    "create_block\ncreate_block\nswitch_to_block $0.0\niconst.i32 1\nswitch_to_block $1.0 => misuse at call 4",
    "create_block\nswitch_to_block $0.0\nreturn\nswitch_to_block $0.0 => misuse at call 3",
    "create_block\nswitch_to_block $0.0\niconst.i32 1\nreturn $2.1\niconst.i32 1 => misuse at call 4",
    // of two faults the first is told, also before one of `finalize`
    "create_block\nswitch_to_block $7.0\niconst.f32 1 => misuse at call 1",
    "create_block\nswitch_to_block $0.0\niconst.i32 1\nseal_block $9.0 => misuse at call 3",
    // a branch to a sealed block, from a filled block, or with names that lead to no block or to no value
    "create_block\nswitch_to_block $0.0\nseal_block $0.0\njump $0.0 => misuse at call 3",
    "create_block\njump $0.0 => misuse at call 1",
    "create_block\nswitch_to_block $0.0\njump $0.0\njump $0.0 => misuse at call 3",
    "create_block\nswitch_to_block $0.0\njump $1.0 => misuse at call 2",
    "create_block\nswitch_to_block $0.0\njump $0.0($0.0) => misuse at call 2",
    "create_block\nswitch_to_block $0.0\niconst.i32 1\nisub $2.1 $2.2 => misuse at call 3",
    "create_block\nswitch_to_block $0.0\nbrif $0.0 $0.0 $0.0 => misuse at call 2",
    // the second arm leads to a sealed block
    "create_block\ncreate_block\nseal_block $1.0\nswitch_to_block $0.0\niconst.i32 1\nbrif $4.1 $0.0 $1.0 => misuse at call 5",
    // the target is begun by no branch, and the block of the branch isn't sealed
    "create_block\ncreate_block\nswitch_to_block $0.0\njump $1.0 => refused at call 4",
];
