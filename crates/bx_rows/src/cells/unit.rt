//! Units and faces: what the cursor moves over, and what the window shows for it.

/// The look of a grapheme cluster on the screen.
#[derive(Clone, Copy, PartialEq, Eq)]
pub enum Face {
    /// Blanks to the next tab stop.
    Tab,
    /// A letter in negative image, in one column; the value is its byte.
    Placeholder(u8),
    /// The cluster's own text; the value is its columns.
    Own(u16),
}

/// A grapheme cluster of a body, at the bytes `start..stop` of the body.
#[derive(Clone, Copy)]
pub struct Unit {
    pub start: usize,
    pub stop: usize,
    pub face: Face,
}

/// A range of units in a body: the first `count` units from the byte offset `start` on, or fewer if the body has fewer.
#[derive(Clone, Copy)]
pub struct UnitRange {
    pub start: usize,
    pub count: usize,
}
