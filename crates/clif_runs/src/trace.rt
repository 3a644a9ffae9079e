//! The blocks that two runs pass, side by side.
use std::fmt;

/// How the function numbers the blocks of a script.
#[derive(Clone, Copy)]
pub enum Numbering<'a> {
    /// In the order in which they were made: there are no others.
    InOrder,
    /// By these numbers, which rise. A switch makes blocks, too.
    Listed(&'a [usize]),
}

impl Numbering<'_> {
    // The number of the block at a place.
    fn number(self, place: usize) -> Option<usize> {
        match self {
            Numbering::InOrder => Some(place),
            Numbering::Listed(numbers) => numbers.get(place).copied(),
        }
    }

    // Whether the block with a number is one of them.
    fn contains(self, number: usize) -> bool {
        match self {
            Numbering::InOrder => true,
            Numbering::Listed(numbers) => numbers.binary_search(&number).is_ok(),
        }
    }
}

/// The blocks that the runs of a script and of its function passed. It prints a line for each step from block to block, with the
/// script's block and then the function's, as `block1  block1`. Where only one of them passes a block, as the function does in
/// the search of a switch, the other has `-`. Both are named as in the function's text.
#[derive(Clone, Copy)]
pub struct Trace<'a> {
    /// The blocks that the script passed, in order, each by its place among the script's blocks.
    pub script: &'a [usize],
    /// The blocks that the function passed, in order, each by its number.
    pub function: &'a [usize],
    /// The numbers in the function of the script's blocks.
    pub numbering: Numbering<'a>,
}

impl fmt::Display for Trace<'_> {
    fn fmt<W: fmt::Write>(&self, f: &mut fmt::Formatter<W>) -> fmt::Result {
        let mut left = self.script;
        for number in self.function {
            left = self.write_step(f, left, *number)?;
        }
        self.write_left(f, left)
    }
}

impl<'a> Trace<'a> {
    // The lines of the blocks that the script alone passes at the end.
    fn write_left<W: fmt::Write>(&self, f: &mut fmt::Formatter<W>, left: &[usize]) -> fmt::Result {
        for place in left {
            self.write_block(f, *place)?;
            f.write_str("  -\n")?;
        }
        Ok(())
    }

    // The line of a block that the function passed, where the script has these to pass; answers what it has then.
    fn write_step<W: fmt::Write>(
        &self,
        f: &mut fmt::Formatter<W>,
        left: &'a [usize],
        number: usize,
    ) -> Result<&'a [usize], fmt::Error> {
        match left.split_first() {
            Some((place, others)) if self.numbering.contains(number) => {
                self.write_block(f, *place)?;
                writeln!(f, "  block{number}")?;
                Ok(others)
            }
            _ => {
                writeln!(f, "-  block{number}")?;
                Ok(left)
            }
        }
    }

    // The name in the function of a block of the script.
    fn write_block<W: fmt::Write>(&self, f: &mut fmt::Formatter<W>, place: usize) -> fmt::Result {
        match self.numbering.number(place) {
            Some(number) => write!(f, "block{number}"),
            None => f.write_str("-"),
        }
    }
}
