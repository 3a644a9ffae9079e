//! The lines of a function's text that tell of its tables.
//!
//! Nothing here takes memory or recurses. Jump tables and exception tables aren't listed: the instructions
//! that name them print their edges.
ghost use Rattle.std.specs.Prelude.{◌≡◌, ◌++◌, ℕ, List, Some};
ghost use Rattle.std.specs.Fmt.{WritesOnOk, decimal};
ghost use Rattle.clif_tables.specs.Preamble.{line, lines, line_count, own_lines, other_lines, preamble_text};

use crate::tables::Tables;
use std::fmt;

// The name of an entry by its kind and its number, and what is said of it, after four spaces.
fn write_line<W: fmt::Write, V: fmt::Display>(
    f: &mut fmt::Formatter<W>,
    kind: &str,
    number: usize,
    entry: &V,
) -> fmt::Result
    ensures { (text : List ℕ) → V.output entry.now ≡ Some text
        → WritesOnOk W.write_str_gives f.old result (line (kind.now ++ decimal number) text) f.new }
{
    write!(f, "    {kind}{number} = ")?;
    entry.fmt(f)?;
    f.write_str("\n")
}

// A line for each entry of a table.
fn write_lines<W: fmt::Write, V: fmt::Display>(
    f: &mut fmt::Formatter<W>,
    kind: &str,
    entries: &[V],
) -> fmt::Result
    ensures { (text : V → List ℕ) → ((entry : V) → V.output entry ≡ Some (text entry))
        → WritesOnOk W.write_str_gives f.old result (lines kind.now text entries.now) f.new }
{
    for (number, entry) in entries.iter().enumerate() {
        write_line(f, kind, number, entry)?;
    }
    Ok(())
}

// The lines of what a function owns: stack slots, global values and regions.
fn write_own<W: fmt::Write>(f: &mut fmt::Formatter<W>, tables: &Tables) -> fmt::Result
    ensures { WritesOnOk W.write_str_gives f.old result (own_lines tables.now) f.new }
{
    write_lines(f, "ss", tables.stack_slots.as_slice())?;
    write_lines(f, "dss", tables.dynamic_stack_slots.as_slice())?;
    write_lines(f, "gv", tables.global_values.as_slice())?;
    write_lines(f, "region", tables.alias_regions.as_slice())
}

// The lines of what it names: signatures, functions and constants.
fn write_others<W: fmt::Write>(f: &mut fmt::Formatter<W>, tables: &Tables) -> fmt::Result
    ensures { WritesOnOk W.write_str_gives f.old result (other_lines tables.now) f.new }
{
    write_lines(f, "sig", tables.signatures.as_slice())?;
    write_lines(f, "fn", tables.functions.as_slice())?;
    write_lines(f, "const", tables.constants.as_slice())
}

// How many lines there are.
fn line_count(tables: &Tables) -> usize
    ensures { result ≡ line_count tables.now }
{
    tables.stack_slots.len()
        + tables.dynamic_stack_slots.len()
        + tables.global_values.len()
        + tables.alias_regions.as_slice().len()
        + tables.signatures.len()
        + tables.functions.len()
        + tables.constants.len()
}

impl fmt::Display for Tables {
    ghost output = { λ t. Some (preamble_text t) };

    fn fmt<W: fmt::Write>(&self, f: &mut fmt::Formatter<W>) -> fmt::Result {
        write_own(f, self)?;
        write_others(f, self)?;
        if line_count(self) > 0 {
            f.write_str("\n")?;
        }
        Ok(())
    }
}
