//! The glyphs of a row's picture, as the window, the status row and the printed page take them.
use std::alloc::Global;
use std::borrow::CowStr;

/// A glyph of a row's picture.
#[derive(Drop)]
pub struct Drawn<'a> {
    /// The text: borrowed from the body, a fixed text, or an owned one, mirrored or joined.
    pub text: CowStr<'a, Global>,
    /// The columns, at least one.
    pub columns: u16,
    /// Whether it is in negative image.
    pub negative: bool,
}

/// The picture of a row, or of a text alone.
#[derive(Drop)]
pub struct RowPicture<'a> {
    /// The glyphs from left to right; the row's blanks are among them in `picture`, and not in `own_glyphs`.
    pub glyphs: Vec<Drawn<'a>>,
}
