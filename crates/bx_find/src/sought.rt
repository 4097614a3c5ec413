//! What is sought in a text: the query, and how the text's letters are read.
ghost use Rattle.std.specs.Prelude.{◌≡◌};
ghost use Rattle.bx_find.specs.Letters.{letters_of};

use crate::letters::{MOST_LETTERS, Reading, letters_of};
use crate::query::Query;
use arrayvec::ArrayVec;
use bx_ucd::BidiData;

/// A query, with the tables and the reading that tell the letters of a text.
#[derive(Drop)]
pub struct Sought<'a, D: BidiData> {
    pub query: &'a Query,
    pub tables: &'a D,
    /// How the text's letters are read.
    pub reading: Reading,
}

impl<'a, D: BidiData> Sought<'a, D> {
    /// The letters of a character.
    #[inline(always)]
    pub fn letters_of(&self, c: char) -> ArrayVec<char, MOST_LETTERS>
        ensures { result.items ≡ letters_of (D.data self.now.tables.now) self.now.reading c }
    {
        letters_of(self.tables, self.reading, c)
    }
}
