//! Where lines that can't be read are at fault. The folder `tests` has more of them.
#![tactic(auto)]

use clif_text::{Expected, explain};
use std::alloc::Global;
use std::process::Abort;
use std::test::Fail;

// Texts, and what is printed of the first line that can't be read.
const ROWS: &[(&str, &str)] = &[
    ("", ""),
    ("b = create_block\nseal_block b", ""),
    (
        "b = create_block\nseal_block b c\nx",
        "column 14: found `c`, expected the end of the line\n",
    ),
    (
        "b = create_block\nseal_block # b",
        "column 11: the line ends, expected a block\n",
    ),
    ("a, b = create_block", "column 4: found `b`, expected =\n"),
    (
        "@1, b = iconst.i8 1",
        "column 1: found `@1`, expected a name\n",
    ),
    (
        "cursor jump b",
        "column 8: found `jump`, expected an instruction for cursor\n",
    ),
    (
        "conv fast\nconv tail",
        "column 1: found `conv`, expected another header line\n",
    ),
    (
        "return var0",
        "column 8: found `var0`, expected a value\nvar0 is a variable: use_var var0\n",
    ),
];

fn prints(rt: &impl Abort, alloc: Global, text: &str, printed: &str) -> Result<(), Fail> {
    match explain(alloc, text) {
        Some(explanation) => {
            let found = format!(in alloc; "{explanation}")?;
            assert!(rt; found.as_str() == printed);
        }
        None => assert!(rt; printed.is_empty()),
    }
    Ok(())
}

/// Each row is printed as it should be; a script isn't.
#[test]
fn explanations(rt: HostRuntime) -> Result<(), Fail> {
    for (text, printed) in ROWS {
        prints(&rt, rt.alloc(), text, printed)?;
    }
    Ok(())
}

/// The parts of an explanation.
#[test]
fn parts(rt: HostRuntime) -> Result<(), Fail> {
    match explain(rt.alloc(), "seal_block ;") {
        Some(explanation) => {
            assert!(rt; explanation.column == 12);
            assert!(rt; explanation.found == Some(";"));
            assert!(rt; explanation.expected == Expected::Block);
            assert!(rt; explanation.hint.is_some());
            Ok(())
        }
        None => Err("no explanation")?,
    }
}
