//! The script of a file, which is read before its function is built or run.
ghost use Rattle.std.specs.Prelude.{◌≡◌, ◌<◌, IfOk};
ghost use Rattle.clif_text.specs.Script.{SaysScript};

use clif_region_kinds::RegionKind;
use clif_text::{Expected, Fault, ReadError, Script, explain, read};
use std::alloc::Global;
use std::{io, str};

/// A script, with the text that says it.
#[derive(Drop)]
pub struct Source<'a> {
    pub(crate) text: &'a str,
    pub(crate) script: Script,
    // The lines of the text say the script.
    ghost says: { ∥ SaysScript text.now script ∥₁ },
}

impl<'a> Source<'a> {
    ghost use Rattle.std.specs.Prelude.{◌≡◌, ◌<◌, IfErr, IfOk};

    /// Reads the script of a file, of these bytes.
    ///
    /// # Errors
    ///
    /// The exit status, where the bytes are no script, or memory or a write was refused: that of [`crate::build`], and `err` has
    /// the reason as it says.
    pub fn read<E: io::Write>(alloc: Global, bytes: &'a [u8], err: &mut E) -> Result<Source<'a>, u8>
        ensures text { IfOk result (λ source. source.text.now ≡ bytes.now) }
        ensures status { IfErr result (λ status. (0 < status) × (status < 3)) }
    {
        match str::from_utf8(bytes) {
            Ok(text) => Source::of_text(alloc, text, err),
            Err(error) => {
                let place = error.valid_up_to();
                let told = tell_no_text(&bytes[..place], &bytes[place..], err);
                Err(status_of(told))
            }
        }
    }

    /// Reads the script of a text.
    ///
    /// # Errors
    ///
    /// The exit status, as of `read`.
    pub fn of_text<E: io::Write>(
        alloc: Global,
        text: &'a str,
        err: &mut E,
    ) -> Result<Source<'a>, u8>
        ensures text { IfOk result (λ source. source.text.now ≡ text.now) }
        ensures status { IfErr result (λ status. (0 < status) × (status < 3)) }
    {
        match read(alloc, text) {
            Ok(script) => Ok(Source { text, script }),
            Err(error) => Err(status_of(tell_refused(alloc, text, error, err))),
        }
    }

    /// How a callback answers that is asked for alias regions, if the script has a line that says it.
    pub fn region(&self) -> Option<RegionKind>
        ensures { result ≡ self.now.script.region }
    {
        self.script.region
    }
}

// The exit status of what was told: 1, if it couldn't be written.
fn status_of(told: io::Result<u8>) -> u8
    requires { IfOk told (λ status. (0 < status) × (status < 3)) }
    ensures { (0 < result) × (result < 3) }
{
    match told {
        Ok(status) => status,
        Err(_) => 1,
    }
}

// Tells that a file, of these bytes and those after them, is no text from there on.
fn tell_no_text<E: io::Write>(before: &[u8], after: &[u8], err: &mut E) -> io::Result<u8>
    ensures { IfOk result (λ status. (0 < status) × (status < 3)) }
{
    let number = lines_to(before);
    let fault = Fault::Expected(Expected::Text);
    let status = tell_unread(ReadError::Line { number, fault }, err)?;
    if let Some(byte) = after.first() {
        let column = column_after(before);
        let expected = Expected::Text;
        writeln!(
            err,
            "column {column}: found the byte {byte:#04x}, expected {expected}"
        )?;
    }
    Ok(status)
}

// The number of the line on which these bytes end.
fn lines_to(bytes: &[u8]) -> usize {
    bytes.iter().filter(|byte| **byte == b'\n').count() + 1
}

// The column after these bytes, which are a text: 1 more than the last line has characters.
fn column_after(bytes: &[u8]) -> usize {
    let mut column: usize = 1;
    for byte in bytes {
        if *byte == b'\n' {
            column = 1;
        } else if *byte & 0xc0 != 0x80 {
            column = column.saturating_add(1);
        }
    }
    column
}

// Tells why a text is no script.
pub(crate) fn tell_unread<E: io::Write>(error: ReadError<'_>, err: &mut E) -> io::Result<u8>
    ensures { IfOk result (λ status. (0 < status) × (status < 3)) }
{
    writeln!(err, "{error}")?;
    match error {
        ReadError::Memory => Ok(1),
        ReadError::Line { .. } => Ok(2),
    }
}

/// Tells that memory was refused, and answers the exit status.
pub fn tell_no_memory<E: io::Write>(err: &mut E) -> u8
    ensures { result ≡ 1 }
{
    let _ = tell_unread(ReadError::Memory, err);
    1
}

// Tells why a text is no script, and where.
fn tell_refused<E: io::Write>(
    alloc: Global,
    text: &str,
    error: ReadError<'_>,
    err: &mut E,
) -> io::Result<u8>
    ensures { IfOk result (λ status. (0 < status) × (status < 3)) }
{
    let status = tell_unread(error, err)?;
    if let ReadError::Line { .. } = error {
        if let Some(explanation) = explain(alloc, text) {
            write!(err, "{explanation}")?;
        }
    }
    Ok(status)
}
