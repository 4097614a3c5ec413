//! One piece of a text: a span of one of the two buffers in which `bx_text` keeps its bytes.

ghost use Rattle.std.specs.Prelude.{◌≡◌};
ghost use Rattle.bx_text.specs.pieces.Pieces.{goes_on};

/// The buffer that holds the bytes of a piece.
#[derive(Clone, Copy)]
pub enum Buffer {
    /// The text as it was opened.
    Opened,
    /// All text added since.
    Added,
}

/// A span of a buffer, counted in bytes.
#[derive(Clone, Copy)]
pub struct Piece {
    pub buffer: Buffer,
    /// Offset of its first byte in the buffer, from 0.
    pub start: usize,
    /// Length in bytes.
    pub len: usize,
}

impl Piece {
    /// Whether `next` begins where this piece ends, in the same buffer.
    pub fn goes_on(&self, next: &Piece) -> bool
        ensures { result ≡ goes_on self.now next.now }
    {
        self.buffer == next.buffer && next.start.checked_sub(self.start) == Some(self.len)
    }
}
