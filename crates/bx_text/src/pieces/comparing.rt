//! The bytes of one piece.

ghost use Rattle.std.specs.Prelude.{◌≡◌, ◌↔◌, ◌+◌, ◌≤◌, length, take, drop, IsTrue};
ghost use Rattle.bx_text.specs.pieces.Bytes.{buffer_bytes, buffers, piece_bytes};

use crate::pieces::piece::{Buffer, Piece};

/// The buffer that a piece names.
fn buffer_of<'a>(opened: &'a [u8], added: &'a [u8], buffer: Buffer) -> &'a [u8]
    ensures { result.now ≡ buffer_bytes (buffers opened.now added.now) buffer }
{
    match buffer {
        Buffer::Opened => opened,
        Buffer::Added => added,
    }
}

/// Whether two byte slices are equal.
fn are_equal(left: &[u8], right: &[u8]) -> bool
    ensures { IsTrue result ↔ (left.now ≡ right.now) }
{
    left == right
}

/// Whether a piece has these bytes after its first `skipped`.
pub fn piece_has(opened: &[u8], added: &[u8], piece: Piece, skipped: usize, bytes: &[u8]) -> bool
    requires within { piece.start + piece.len ≤ length (buffer_bytes (buffers opened.now added.now) piece.buffer) }
    requires fits { skipped + length bytes.now ≤ piece.len }
    ensures { IsTrue result → take (length bytes.now) (drop skipped (piece_bytes (buffers opened.now added.now) piece)) ≡ bytes.now }
{
    let start = piece.start + skipped;
    let part = &buffer_of(opened, added, piece.buffer)[start..start + bytes.len()];
    are_equal(part, bytes)
}
