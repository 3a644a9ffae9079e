//! What the words of the command line of `clif_build` ask for. The files of the folder `tests` have runs by such words.
#![tactic(auto)]

use crate::support::words_of;
use clif_script::{Command, Form, Options, Printing, TypeCheck};
use std::test::Fail;

const SEVEN: Options = Options {
    steps: 7,
    is_traced: false,
};

const SEVEN_TRACED: Options = Options {
    steps: 7,
    is_traced: true,
};

/// What is to be done with a file.
#[derive(Clone, Copy, PartialEq, Eq)]
enum Task {
    /// To print its function.
    Print(Printing),
    /// To run it with so many arguments.
    Run(usize, Options),
}

const PLAIN: Printing = Printing {
    types: TypeCheck::Checked,
    form: Form::Text,
};

const UNCHECKED: Printing = Printing {
    types: TypeCheck::Unchecked,
    form: Form::Text,
};

const GRAPH: Printing = Printing {
    types: TypeCheck::Checked,
    form: Form::Graph,
};

const UNCHECKED_GRAPH: Printing = Printing {
    types: TypeCheck::Unchecked,
    form: Form::Graph,
};

/// What the words of a command line ask for.
const COMMANDS: &[(&str, Option<(&str, Task)>)] = &[
    ("a.script", Some(("a.script", Task::Print(PLAIN)))),
    ("-", Some(("-", Task::Print(PLAIN)))),
    ("--unchecked -", Some(("-", Task::Print(UNCHECKED)))),
    ("--cfg -", Some(("-", Task::Print(GRAPH)))),
    (
        "--unchecked --cfg -",
        Some(("-", Task::Print(UNCHECKED_GRAPH))),
    ),
    (
        "--run a.script",
        Some(("a.script", Task::Run(0, Options::NONE))),
    ),
    (
        "--run - -1 --steps",
        Some(("-", Task::Run(2, Options::NONE))),
    ),
    (
        "--run --steps 7 a.script 1",
        Some(("a.script", Task::Run(1, SEVEN))),
    ),
    (
        "--run --trace --steps 7 -",
        Some(("-", Task::Run(0, SEVEN_TRACED))),
    ),
    (
        "--run --steps 7 --trace -",
        Some(("-", Task::Run(0, SEVEN_TRACED))),
    ),
    ("", None),
    ("a.script 1", None),
    ("--unchecked", None),
    ("--unchecked a.script 1", None),
    ("a.script --unchecked", None),
    ("--cfg", None),
    ("--cfg a.script 1", None),
    ("--run", None),
    ("--run --trace", None),
    ("--run --steps 7", None),
    ("--run --steps x a.script", None),
];

#[test]
fn commands(rt: HostRuntime) -> Result<(), Fail> {
    for (text, expected) in COMMANDS {
        let words = words_of(rt.alloc(), text)?;
        let asked = match Command::of(words.as_slice()) {
            None => None,
            Some(Command::Build { path, printing }) => Some((path, Task::Print(printing))),
            Some(Command::Run { path, run }) => {
                let task = Task::Run(run.arguments.len(), run.options);
                Some((path, task))
            }
        };
        assert!(rt; asked == *expected);
    }
    Ok(())
}
