//! Where a paragraph is in the text, as a search of the blocks finds it.

/// A paragraph's number, and its offsets in the text, in bytes. It is no range, since one search finds the number and the separator
/// too, and the blocks do not know where the text's last paragraph ends.
#[derive(Clone, Copy)]
pub struct ParagraphSpan {
    /// Its number, from 0.
    pub number: usize,
    /// Offset of the start of its body.
    pub start: usize,
    /// Offset after its separator; none if it has no separator.
    pub end: Option<usize>,
    /// Length of its separator in bytes, 0 if it has none.
    pub separator: usize,
}
