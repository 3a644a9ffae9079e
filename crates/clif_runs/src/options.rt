//! The words before the file of a run.
use clif_worlds::STEPS;

/// How two runs are made.
#[derive(Clone, Copy, PartialEq, Eq)]
pub struct Options {
    /// The bound on the steps of each.
    pub steps: u64,
    /// Whether the blocks that they pass are shown.
    pub is_traced: bool,
}

impl Options {
    /// So many steps at most if nobody says it, and no blocks.
    pub const NONE: Options = Options {
        steps: STEPS,
        is_traced: false,
    };

    /// The options at the front of words, `--steps N` and `--trace`, and the first other word with the words after it. None if
    /// there is no such word, or N is no number.
    pub fn of(words: &[String]) -> Option<(Options, &str, &[String])> {
        let mut options = Options::NONE;
        let mut rest = words;
        for _ in words {
            let (first, others) = rest.split_first()?;
            rest = match first.as_str() {
                "--trace" => {
                    options.is_traced = true;
                    others
                }
                "--steps" => {
                    let (steps, others) = others.split_first()?;
                    options.steps = steps.as_str().parse().ok()?;
                    others
                }
                word => return Some((options, word, others)),
            };
        }
        None
    }
}
