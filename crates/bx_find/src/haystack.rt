//! A text that is searched, lent piece by piece, since it is stored in pieces.
ghost use Rattle.std.specs.Prelude.{◌≡◌, ℕ, ◌+◌, ◌-◌, ◌<◌, List, length, take, IsUtf8, IsCharBoundary};
ghost use Rattle.bx_find.specs.Haystack.{IsPieceAt};

use bx_common::first_char;

/// A text that is searched. It lends the piece at an offset.
pub trait Haystack {
    ghost text: { Self → List ℕ };

    /// The text's length in bytes.
    fn len(&self) -> usize
        ensures value { result ≡ length (text self.now) }
        ensures utf8 { IsUtf8 (text self.now) };

    /// The text from an offset in bytes to the end of the piece that holds it. Pieces are whole characters.
    fn piece_at(&self, offset: usize) -> &str
        requires boundary { IsCharBoundary (text self.now) offset }
        requires inside { offset < length (text self.now) }
        ensures { IsPieceAt (text self.now) offset result.now };
}

/// The part of a piece at the offset `at` up to the offset `x`; from `x` on, the piece's first character, so that a search for
/// matches before `x` can stop after each.
pub(crate) fn upto(piece: &str, at: usize, x: usize) -> &str
    requires { at < x → x < at + length piece.now → IsCharBoundary piece.now (x - at) }
    ensures front { take (length result.now) piece.now ≡ result.now }
    ensures some { 0 < length piece.now → 0 < length result.now }
{
    if at < x {
        if x - at < piece.len() {
            return &piece[..x - at];
        }
        return piece;
    }
    match first_char(piece) {
        Some((_, behind)) => &piece[..piece.len() - behind.len()],
        None => piece,
    }
}
