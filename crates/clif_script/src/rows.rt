//! The rows: scripts that stand in this crate, and the program `rows` that builds their functions, over two writers.
ghost use Rattle.std.specs.Prelude.{◌≡◌, ◌<◌, ◌↔◌, length, string_bytes, slice_get, IfOk, IfSome, IsSome};
ghost use Rattle.clif_script.specs.Rows.{IsHelperRow, IsOtherRow, IsRowName, IsStackMapRow, IsSwitchRow};

use crate::helper_rows::{COPY12, COPY40, MEMCMP_ODD, MEMCPY};
use crate::program::{Form, Printing, TypeCheck, build};
use crate::row_texts::{
    BOTH_ARMS, CHANGE_BOTH, CHANGE_ONE, EMPTY, FIRST, REORDERING, SAMPLE, SAMPLE_LATE,
    SWITCH_128BIT_MAX_U64, SWITCH_BORDER, SWITCH_HIGH, SWITCH_MANY, UNDEF_VECTORS,
};
use crate::source::Source;
use crate::stack_map_rows::{IRREDUCIBLE, LOOP, REGIONS, SLOT_REUSE, TRY_CALL, ZERO_MARKED};
use clif_regions::RegionOf;
use std::alloc::Global;
use std::io;

// Rows are printed as they are: the row memcpy isn't well typed.
const AS_TEXT: Printing = Printing {
    types: TypeCheck::Unchecked,
    form: Form::Text,
};

// The names of the rows, in order.
const NAMES: [&str; 23] = [
    "first",
    "memcpy",
    "reordering",
    "sample",
    "sample_late",
    "both_arms",
    "undef_vectors",
    "switch_many",
    "switch_128bit_max_u64",
    "switch_high",
    "switch_border",
    "copy12",
    "copy40",
    "slot_reuse",
    "loop",
    "irreducible",
    "try_call",
    "zero_marked",
    "memcmp_odd",
    "change_both",
    "change_one",
    "empty",
    "regions",
];

/// The script of the row of this name, compared byte for byte.
pub fn row_text(name: &str) -> Option<&'static str>
    ensures { IsSome result ↔ IsRowName name.now }
{
    match switch_row_text(name).or(helper_row_text(name)) {
        Some(text) => Some(text),
        None => stack_map_row_text(name).or(other_row_text(name)),
    }
}

// That of a row with a switch.
fn switch_row_text(name: &str) -> Option<&'static str>
    ensures { IsSome result ↔ IsSwitchRow name.now }
{
    match name {
        "switch_many" => Some(SWITCH_MANY),
        "switch_128bit_max_u64" => Some(SWITCH_128BIT_MAX_U64),
        "switch_high" => Some(SWITCH_HIGH),
        "switch_border" => Some(SWITCH_BORDER),
        _ => None,
    }
}

// That of a row with a memory helper.
fn helper_row_text(name: &str) -> Option<&'static str>
    ensures { IsSome result ↔ IsHelperRow name.now }
{
    match name {
        "memcpy" => Some(MEMCPY),
        "copy12" => Some(COPY12),
        "copy40" => Some(COPY40),
        "memcmp_odd" => Some(MEMCMP_ODD),
        _ => None,
    }
}

// That of a row that asks for stack maps.
fn stack_map_row_text(name: &str) -> Option<&'static str>
    ensures { IsSome result ↔ IsStackMapRow name.now }
{
    match name {
        "slot_reuse" => Some(SLOT_REUSE),
        "loop" => Some(LOOP),
        "irreducible" => Some(IRREDUCIBLE),
        "try_call" => Some(TRY_CALL),
        "zero_marked" => Some(ZERO_MARKED),
        "regions" => Some(REGIONS),
        _ => None,
    }
}

// That of another row.
fn other_row_text(name: &str) -> Option<&'static str>
    ensures { IsSome result ↔ IsOtherRow name.now }
{
    match name {
        "first" => Some(FIRST),
        "reordering" => Some(REORDERING),
        "sample" => Some(SAMPLE),
        "sample_late" => Some(SAMPLE_LATE),
        "both_arms" => Some(BOTH_ARMS),
        "undef_vectors" => Some(UNDEF_VECTORS),
        "change_both" => Some(CHANGE_BOTH),
        "change_one" => Some(CHANGE_ONE),
        "empty" => Some(EMPTY),
        _ => None,
    }
}

/// The program `rows NAME`: builds the function of the row that the argument names, for pointers of 64
/// bits and the convention `system_v`, and prints it; its types aren't checked. Without an argument it prints
/// the names of the rows, one a line. Answers the exit status. `region`, which may be called with every argument, is asked for
/// the alias regions of the accesses that spills make, where the row's script has a line `region`: by the row `regions`.
///
/// | Status | When |
/// |---|---|
/// | 0 | the text was printed to `out`, and nothing to `err` |
/// | 1 | the function couldn't be built, and `err` has the reason, as `no memory`; or a write failed |
/// | 2 | `err` has `unknown row: NAME`, or `usage: rows [NAME]` where there is more than one argument |
///
/// Names are compared byte for byte. Where a write fails, what was written before it stays written.
pub fn run<O: io::Write, E: io::Write>(
    alloc: Global,
    args: &[String],
    region: RegionOf,
    out: &mut O,
    err: &mut E,
) -> u8
    requires callable { RegionOf.IsAlwaysCallable region }
    ensures status { result < 3 }
    ensures names { length args.now ≡ 0 → result < 2 }
    ensures known { length args.now ≡ 1 → IfSome (slice_get args.now 0) (λ name. IsRowName (string_bytes name) → result < 2) }
    ensures unknown { length args.now ≡ 1 → IfSome (slice_get args.now 0) (λ name. result ≡ 0 → IsRowName (string_bytes name)) }
    ensures usage { 1 < length args.now → 0 < result }
{
    let printed = match args {
        [] => print_names(out),
        [name] => print_row(alloc, name.as_str(), region, out, err),
        _ => told(err, 2, "usage: rows [NAME]"),
    };
    match printed {
        Ok(status) => status,
        Err(_) => 1,
    }
}

// Writes a line, and answers a status.
fn told<E: io::Write>(err: &mut E, status: u8, line: &str) -> io::Result<u8>
    ensures { IfOk result (λ answer. answer ≡ status) }
{
    writeln!(err, "{line}")?;
    Ok(status)
}

fn print_names<O: io::Write>(out: &mut O) -> io::Result<u8>
    ensures { IfOk result (λ status. status ≡ 0) }
{
    for name in NAMES.iter() {
        writeln!(out, "{name}")?;
    }
    Ok(0)
}

// Builds the function of a row and prints it; whatever its script is refused for, the status is 1.
fn print_row<O: io::Write, E: io::Write>(
    alloc: Global,
    name: &str,
    region: RegionOf,
    out: &mut O,
    err: &mut E,
) -> io::Result<u8>
    requires callable { RegionOf.IsAlwaysCallable region }
    ensures known { IsRowName name.now → IfOk result (λ status. status < 2) }
    ensures unknown { IfOk result (λ status. status ≡ 0 → IsRowName name.now) }
    ensures status { IfOk result (λ status. status < 3) }
{
    let Some(text) = row_text(name) else {
        writeln!(err, "unknown row: {name}")?;
        return Ok(2);
    };
    let Ok(source) = Source::of_text(alloc, text, err) else {
        return Ok(1);
    };
    let region = match source.region() {
        Some(_) => Some(region),
        None => None,
    };
    match build(alloc, source, AS_TEXT, region, out, err) {
        0 => Ok(0),
        _ => Ok(1),
    }
}
