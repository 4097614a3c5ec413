//! A sequence of a paragraph as a walk lends it: run by run, without a list of its indexes.
ghost use Rattle.std.specs.Prelude.{◌≡◌};

use crate::embedding::ExplicitChar;
use crate::resolve::scratch::Ends;

/// A sequence of a paragraph.
#[derive(Clone, Copy)]
pub(crate) struct LentSequence<'w> {
    /// The explicit rules' result for each character of the paragraph.
    pub(crate) kept: &'w [Option<ExplicitChar>],
    /// The first index of each run of the sequence, in text order.
    pub(crate) firsts: &'w [usize],
    /// Its level, sos and eos.
    pub(crate) ends: Ends,
}

/// A level run: the kept characters from `first` on, up to the next one of another level.
#[derive(Clone, Copy)]
pub(crate) struct LevelRun<'w> {
    /// The explicit rules' result for each character of the paragraph.
    pub(crate) kept: &'w [Option<ExplicitChar>],
    /// The index of its first character in the paragraph.
    pub(crate) first: usize,
    pub(crate) level: u8,
}

impl<'w> LentSequence<'w> {
    /// The run that begins at index `first`.
    pub(crate) fn run(&self, first: usize) -> LevelRun<'w>
        ensures kept { result.kept.now ≡ self.now.kept.now }
        ensures first { result.first ≡ first }
        ensures level { result.level ≡ self.now.ends.level }
    {
        LevelRun {
            kept: self.kept,
            first,
            level: self.ends.level,
        }
    }
}
