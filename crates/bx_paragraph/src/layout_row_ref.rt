//! A row of a paragraph's layout, by reference, of which slots, moves and glyphs are read.
ghost use Rattle.std.specs.Prelude.{⊤, ◌≡◌, ◌+◌, ◌^◌, ◌<◌, length};
ghost use Rattle.bx_paragraph.specs.Layout.{IsLayoutBy, IsSound};
ghost use Rattle.std.proofs.Props.{props};

use crate::layout::ParagraphLayout;
use bx_ucd::BidiData;
use std::alloc::AllocError;

/// A row of a laid out paragraph, with the tables that the paragraph was laid out by. It borrows both, so making one costs
/// nothing. An offset of the body is the place `start` + offset in the text.
pub struct LayoutRowRef<'a, 't, D: BidiData> {
    pub paragraph: &'a ParagraphLayout,
    pub tables: &'t D,
    /// The row's number in the paragraph, from 0.
    pub number: usize,
    /// The offset, in bytes of the text, at which the paragraph's body begins; 0 for a body alone.
    pub start: usize,
    pub ghost by: { IsLayoutBy (D.data tables.now) paragraph.now } by { Prim.hlevel props },
    pub ghost within: { number < length paragraph.now.starts },
    pub ghost sound: { IsSound paragraph.now } by { Prim.hlevel props },
    pub ghost fits: { start + length paragraph.now.body < 2 ^ 64 },
}

impl<'a, 't, D: BidiData> Copy for LayoutRowRef<'a, 't, D> {}

impl<'a, 't, D: BidiData> Clone for LayoutRowRef<'a, 't, D> {
    ghost is_clone = { λ s t. t ≡ s };

    ghost is_infallible = { λ _. ⊤ };

    fn clone(&self) -> Result<LayoutRowRef<'a, 't, D>, AllocError> {
        Ok(*self)
    }
}
