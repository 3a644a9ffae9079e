//! `random_scripts SEED COUNT` makes COUNT scripts with outside calls, memory helpers and marks for stack maps, of the seeds from
//! SEED on, and builds a function of each. The script and its function run side by side in six worlds, of which three move what is
//! tracked, on the two interpreters of `clif_interpreter`. It prints that they agree, and fails where two runs differ, or where too
//! few of them show anything.
#![tactic(auto)]

mod generator;
mod runs;
mod worlds;

use crate::runs::{Tally, try_script};
use std::env;
use std::process::ExitCode;
use std::rt::Env;

fn main(rt: HostRuntime) -> ExitCode {
    let Some((seed, count)) = arguments(&rt) else {
        let _ = rt.eprintln("usage: random_scripts SEED COUNT");
        return ExitCode::from(2);
    };
    let mut tally = Tally::default();
    for step in 0..count {
        let seed = seed.wrapping_add(step);
        if let Err(failure) = try_script(rt.alloc(), seed, &mut tally) {
            let _ = eprintln!(rt; "seed {seed}: {failure}");
            return ExitCode::from(1);
        }
    }
    if !tally.reaches((count / 20).max(1)) {
        let _ = eprintln!(rt; "too little happens: {tally}");
        return ExitCode::from(1);
    }
    let _ = println!(rt; "{count} scripts and their functions agree in 6 worlds");
    ExitCode::from(0)
}

fn arguments<R: Env + AllocGlobal>(rt: &R) -> Option<(u64, u64)> {
    let mut words = env::args(rt).ok()?.skip(1);
    let seed = words.next()?.as_str().parse::<u64>().ok()?;
    let count = words.next()?.as_str().parse::<u64>().ok()?;
    Some((seed, count))
}
