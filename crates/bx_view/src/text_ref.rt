//! A text with its paragraph index and tables.
ghost use Rattle.std.specs.Prelude.{◌≡◌, ◌≤◌, ⊤, length, IsUtf8};
ghost use Rattle.bx_text.specs.Edits.{largest_text};
ghost use Rattle.bx_text.specs.index.Paragraphs.{lengths};
ghost use Rattle.std.proofs.Props.{props};

use bx_text::{Index, Text};
use bx_ucd::BidiData;
use std::alloc::AllocError;

/// A text, its paragraph index, and the tables for both.
pub struct TextRef<'a, D: BidiData> {
    pub text: &'a Text,
    pub index: &'a Index,
    pub tables: &'a D,
    pub ghost indexed: { index.now.paragraphs ≡ lengths (D.data tables.now) text.now.edited.text },
    pub ghost utf8: { IsUtf8 text.now.edited.text } by { Prim.hlevel props },
    pub ghost short: { length text.now.edited.text ≤ largest_text },
}

impl<'a, D: BidiData> Copy for TextRef<'a, D> {}

impl<'a, D: BidiData> Clone for TextRef<'a, D> {
    ghost is_clone = { λ s t. t ≡ s };

    ghost is_infallible = { λ _. ⊤ };

    fn clone(&self) -> Result<TextRef<'a, D>, AllocError> {
        Ok(*self)
    }
}

impl<'a, D: BidiData> TextRef<'a, D> {
    /// Combines a text with its own index, built with the same tables.
    pub fn of(text: &'a Text, index: &'a Index, tables: &'a D) -> TextRef<'a, D>
        requires { index.now.paragraphs ≡ lengths (D.data tables.now) text.now.edited.text }
        ensures text { result.text.now ≡ text.now }
        ensures tables { result.tables.now ≡ tables.now }
    {
        // `len` promises that the text is UTF-8 and within its limit.
        let _utf8 = text.len();
        TextRef {
            text,
            index,
            tables,
        }
    }
}
