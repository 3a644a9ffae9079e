//! `rows NAME` prints the function that the row of this name builds; `rows` prints the names.
#![tactic(auto)]

use clif_command_line::{tell_no_words, words};
use clif_script::{RegionOf, run, tell_no_memory};
use clif_types::{AliasRegion, AliasRegionData, AliasRegionSet, StackSlot, Type};
use std::alloc::AllocError;
use std::io;
use std::process::ExitCode;

// What is told of a name that isn't UTF-8, as no row's is.
const UNKNOWN: &str = "unknown row: the name isn't UTF-8";

fn main(rt: HostRuntime) -> ExitCode {
    let args = match words(&rt) {
        Ok(args) => args,
        Err(error) => return ExitCode::from(tell_no_words(&error, UNKNOWN, &mut rt.stderr())),
    };
    match carry_out(&rt, args.as_slice()) {
        Ok(status) => ExitCode::from(status),
        Err(_) => ExitCode::from(tell_no_memory(&mut rt.stderr())),
    }
}

// Does what the words ask for; answers the exit status. The row `regions` has the callback that answers the region of user id 7.
fn carry_out(rt: &HostRuntime, args: &[String]) -> Result<u8, AllocError> {
    let mut out = io::writer(rt);
    let mut err = rt.stderr();
    let region: RegionOf = Box::new(
        rt.alloc(),
        |set: &mut AliasRegionSet, _ty: Type, _slot: StackSlot, _offset: u32| -> Option<
            AliasRegion,
        > {
            match set.insert(AliasRegionData { user_id: 7 }) {
                Ok(region) => Some(region),
                Err(_) => None,
            }
        },
    )?;
    Ok(run(rt.alloc(), args, region, &mut out, &mut err))
}
