//! An iterator over the pieces of a text, which lends them for a save or a copy.

ghost use Rattle.std.specs.Prelude.{◌≡◌, length, slice_range};
ghost use Rattle.std.specs.Iterator.{at_most};
ghost use Rattle.bx_text.specs.Changes.{IsRange};

use crate::text::Text;
use std::marker::Model;

/// Iterates over the pieces of a text between two offsets, none of them empty. Contracts see the bytes that
/// are left. Each call finds its piece by offset, and allocates nothing.
#[derive(Drop)]
pub struct Slices<'a> {
    text: &'a Text,
    /// The offset up to which the text was lent.
    at: usize,
    /// The offset up to which it is to be lent.
    stop: usize,
}

impl<'a> Model for Slices<'a> {
    ghost use Rattle.std.specs.Prelude.{ℕ, List};

    ghost Value = { List ℕ };

    ghost use Rattle.bx_text.specs.Slices.{bytes_left, AreSlices};

    ghost view = { bytes_left };

    ghost invariant = { AreSlices };
}

impl<'a> Slices<'a> {
    /// The pieces between two offsets.
    pub(crate) fn new(text: &'a Text, start: usize, stop: usize) -> Slices<'a>
        requires { IsRange text.now.edited.text start stop }
        ensures { result ≡ slice_range text.now.edited.text start stop }
    {
        Slices {
            text,
            at: start,
            stop,
        }
    }
}

impl<'a> Iterator for Slices<'a> {
    ghost use Rattle.std.specs.Prelude.{length};
    ghost use Rattle.std.specs.Iterator.{at_most};
    ghost use Rattle.bx_text.specs.Slices.{lends};

    type Item = &'a str;

    ghost next_gives = { lends };

    ghost remaining = { λ s. at_most (length s) };

    fn next(&mut self) -> Option<&'a str> {
        if self.at == self.stop {
            return None;
        }
        let slice = self.text.part_at(self.at, self.stop);
        self.at += slice.len();
        Some(slice)
    }
}
