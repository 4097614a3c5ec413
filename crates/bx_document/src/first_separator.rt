//! Whether the text's first separator is CR LF, also where a part of the text is left out.
ghost use Rattle.std.specs.Prelude.{◌≡◌, ◌++◌, ◌∷◌, [], ℕ, List, chars, slice_range};
ghost use Rattle.bx_text.specs.Edits.{splice};
ghost use Rattle.bx_text.specs.Changes.{IsRange};
ghost use Rattle.bx_document.specs.Line.{has_crlf_first};
ghost use Rattle.bx_ucd.specs.Data.{Data};
ghost use Rattle.bx_document.specs.SeparatorReads.{crlf_from};

use crate::document::Document;
use bx_common::first_char;
use bx_text::{Text, separates};
use bx_ucd::BidiData;

/// What the characters read so far, from a text's start on, tell of its first separator.
#[derive(Clone, Copy)]
enum Seen {
    /// No separator is read yet.
    Nothing,
    /// The last character read is the first separator, a CR: an LF may follow.
    Cr,
    /// Whether the first separator is CR LF.
    Known(bool),
}

/// Whether the first separator is CR LF, once all characters are read.
fn is_crlf(seen: Seen) -> bool
    ensures { (ucd : Data) → result ≡ crlf_from ucd seen [] }
{
    match seen {
        Seen::Nothing | Seen::Cr => false,
        Seen::Known(answer) => answer,
    }
}

/// What is known once the next character is read too.
fn after<D: BidiData>(seen: Seen, c: char, tables: &D) -> Seen
    ensures { (rest : List ℕ) → crlf_from (D.data tables.now) seen (c ∷ rest) ≡ crlf_from (D.data tables.now) result rest }
{
    match seen {
        Seen::Nothing => {
            if !separates(tables, c) {
                return Seen::Nothing;
            }
            if c == '\r' {
                return Seen::Cr;
            }
            Seen::Known(false)
        }
        Seen::Cr => Seen::Known(c == '\n' && separates(tables, c)),
        Seen::Known(answer) => Seen::Known(answer),
    }
}

/// What is known once the characters of a part, which follows those read before, are read too.
fn after_part<D: BidiData>(before: Seen, part: &str, tables: &D) -> Seen
    ensures { (rest : List ℕ) → crlf_from (D.data tables.now) before (chars part.now ++ rest) ≡ crlf_from (D.data tables.now) result rest }
{
    let mut seen = before;
    let mut left = part;
    while let Some((c, behind)) = first_char(left) {
        if let Seen::Known(answer) = seen {
            return Seen::Known(answer);
        }
        seen = after(seen, c, tables);
        left = behind;
    }
    seen
}

/// What is known once the text from `start` to `stop`, which follows what was read before, is read too, piece by piece.
fn after_range<D: BidiData>(
    before: Seen,
    text: &Text,
    start: usize,
    stop: usize,
    tables: &D,
) -> Seen
    requires range { IsRange text.now.edited.text start stop }
    ensures { (rest : List ℕ) → crlf_from (D.data tables.now) before (chars (slice_range text.now.edited.text start stop) ++ rest)
        ≡ crlf_from (D.data tables.now) result rest }
{
    let mut seen = before;
    let mut at = start;
    while at < stop {
        if let Seen::Known(answer) = seen {
            return Seen::Known(answer);
        }
        let part = text.part_at(at, stop);
        seen = after_part(seen, part, tables);
        at += part.len();
    }
    seen
}

impl<D: BidiData + Drop> Document<D> {
    /// Whether the text's first separator is CR LF. Allocates nothing.
    pub fn has_crlf_first(&self) -> bool
        ensures { result ≡ has_crlf_first (D.data self.now.tables) self.now.document.content.text }
    {
        let text_ref = self.indexed.text_ref();
        let walk = text_ref.index.walk_at(0, 0);
        // A separator of two bytes is CR LF or one character past ASCII.
        if walk.separator() != 2 {
            return false;
        }
        match text_ref.text.piece_at(walk.span().stop) {
            Some(separator) => separator.as_bytes()[0] == b'\r',
            None => false,
        }
    }

    /// Whether the first separator of the text without the bytes from `start` to `stop` is CR LF. It reads up to that
    /// separator. Allocates nothing.
    pub fn has_crlf_first_without(&self, start: usize, stop: usize) -> bool
        requires range { IsRange self.now.document.content.text start stop }
        ensures { result ≡ has_crlf_first (D.data self.now.tables) (splice self.now.document.content.text start stop []) }
    {
        let text_ref = self.indexed.text_ref();
        let len = text_ref.text.len();
        let before = after_range(Seen::Nothing, text_ref.text, 0, start, text_ref.tables);
        is_crlf(after_range(before, text_ref.text, stop, len, text_ref.tables))
    }
}
