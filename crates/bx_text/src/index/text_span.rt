//! Where the body of a paragraph is in the text.

/// The body of a paragraph, by its offsets in bytes of the text. It is no plain range, since it is asked for by the paragraph's number
/// too.
#[derive(Clone, Copy)]
pub struct TextSpan {
    /// The number of the paragraph, from 0.
    pub number: usize,
    /// The offset at which the body begins.
    pub start: usize,
    /// The offset at which it ends.
    pub stop: usize,
}
