//! The classes of characters, and those that separate paragraphs.
ghost use Rattle.std.specs.Prelude.{◌≡◌};
ghost use Rattle.bx_text.specs.index.Paragraphs.{is_separator};

use crate::document::Document;
use bx_text::separates;
use bx_ucd::{BidiData, Class};

impl<D: BidiData + Drop> Document<D> {
    /// A character's class (the property Bidi_Class). Allocates nothing.
    pub fn class(&self, c: char) -> Class
        ensures { result ≡ (D.data self.now.tables).class c }
    {
        self.indexed.tables().class(c)
    }

    /// Whether a character separates paragraphs. Allocates nothing.
    pub fn separates(&self, c: char) -> bool
        ensures { result ≡ is_separator ((D.data self.now.tables).class c) }
    {
        separates(self.indexed.tables(), c)
    }
}
