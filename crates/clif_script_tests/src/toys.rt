//! What is told of a toy function whose calls the builder doesn't make. No program of the language has such calls.
#![tactic(auto)]

use crate::support::script_of;
use clif_text::Script;
use std::test::Fail;
use toy_compiler::CompiledFunction;

/// Calls, and what is told of them.
const UNBUILT: &[(&str, &str)] = &[
    (
        "create_block\nswitch_to_block $0.0\nensure_inserted_block",
        "refused at call 3\nf: block0 isn't sealed\n",
    ),
    (
        "create_block\nswitch_to_block $0.0\nensure_inserted_block\nseal_block $0.0",
        "refused at call 4\nf: block0 isn't filled\n",
    ),
    (
        "create_block\nseal_block $0.0\nseal_block $0.0",
        "misuse at call 2\nf: block0 is sealed\n",
    ),
];

#[test]
fn unbuilt(rt: HostRuntime) -> Result<(), Fail> {
    let alloc = rt.alloc();
    for (text, expected) in UNBUILT {
        let Script { calls, .. } = script_of(alloc, text)?;
        let function = CompiledFunction {
            name: "f",
            parameters: 0,
            calls,
        };
        let Err(error) = function.build(alloc) else {
            return Err("the function was built")?;
        };
        let mut told = Vec::new(alloc);
        function.tell(alloc, error, &mut told)?;
        assert_eq!(rt; told.as_slice(), expected.as_bytes());
    }
    Ok(())
}
