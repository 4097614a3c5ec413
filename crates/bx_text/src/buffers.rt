//! Reads the text of pieces in their two buffers: `opened`, the text as opened, and `added`, all text inserted since.

ghost use Rattle.std.specs.Prelude.{◌≡◌, ◌<◌, ◌↔◌, IsSome, IsTrue, IfSome, drop, length, take, IsCharBoundary};
ghost use Rattle.bx_text.specs.Buffers.{Buffers, buffer_bytes, bytes_of, AreInBuffers, IsRest};

use crate::pieces::{Buffer, Pieces};

/// The buffer that a piece names.
fn buffer_of<'a>(opened: &'a str, added: &'a str, buffer: Buffer) -> &'a str
    ensures { result.now ≡ buffer_bytes (record { opened = opened.now; added = added.now }) buffer }
{
    match buffer {
        Buffer::Opened => opened,
        Buffer::Added => added,
    }
}

/// The text of the piece at an offset, from that offset on; none if the offset is inside a character, or
/// at or past the end of the text.
pub fn rest_in<'a>(opened: &'a str, added: &'a str, pieces: &Pieces, at: usize) -> Option<&'a str>
    requires { AreInBuffers (record { opened = opened.now; added = added.now }) pieces.now }
    ensures there { let text = bytes_of (record { opened = opened.now; added = added.now }) pieces.now in
        IsSome result ↔ (IsCharBoundary text at × (at < length text)) }
    ensures rest { let text = bytes_of (record { opened = opened.now; added = added.now }) pieces.now in
        IfSome result (λ s. IsRest text at s.now) }
{
    let (piece, before) = pieces.holding(at)?;
    let text = buffer_of(opened, added, piece.buffer);
    let start = piece.start + before;
    if !text.is_char_boundary(start) {
        return None;
    }
    Some(&text[start..piece.start + piece.len])
}

/// Whether the text has these bytes at an offset.
pub fn has_in(opened: &str, added: &str, pieces: &Pieces, at: usize, bytes: &[u8]) -> bool
    requires { AreInBuffers (record { opened = opened.now; added = added.now }) pieces.now }
    ensures { IsTrue result → take (length bytes.now) (drop at (bytes_of (record { opened = opened.now; added = added.now }) pieces.now)) ≡ bytes.now }
{
    pieces.has(opened.as_bytes(), added.as_bytes(), at, bytes)
}
