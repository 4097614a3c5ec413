//! Points: marks and joiners that are typed after a letter, and that Backspace removes one by one.
ghost use Rattle.std.specs.Prelude.{◌≡◌, ◌+◌, ◌++◌, ◌∷◌, [], IfOk, MatchOption, chars, encode_utf8, length, slice_range};
ghost use Rattle.std.specs.Str.{IsCharBoundary, IsUtf8};
ghost use Rattle.bx_text.specs.Changes.{IsRange};
ghost use Rattle.bx_document.specs.Points.{chooses_look, is_point, is_zero_width_joiner, point_start};
ghost use Rattle.bx_ucd.specs.Class.{is_nsm};

use crate::document::Document;
use bx_common::OutOfMemory;
use bx_ucd::{BidiData, Class};

/// Whether a class is NSM, the class of nonspacing marks.
fn is_mark(class: Class) -> bool
    ensures { result ≡ is_nsm class }
{
    matches!(class, Class::NSM)
}

/// Whether a character chooses the look of the one before it: a variation selector or the enclosing keycap.
fn chooses_look(c: char) -> bool
    ensures { result ≡ chooses_look c }
{
    ('\u{fe00}' <= c && c <= '\u{fe0f}') || c == '\u{20e3}'
}

/// Whether a character is a zero width joiner or non-joiner.
fn is_zero_width_joiner(c: char) -> bool
    ensures { result ≡ is_zero_width_joiner c }
{
    c == '\u{200c}' || c == '\u{200d}'
}

/// Whether a character is a point: one that is removed alone.
fn is_point<D: BidiData>(c: char, tables: &D) -> bool
    ensures { result ≡ is_point (D.data tables.now) c }
{
    (is_mark(tables.class(c)) && !chooses_look(c)) || is_zero_width_joiner(c)
}

/// The last character of a text, and the text before it; None for the empty text.
pub(crate) fn last_character(text: &str) -> Option<(char, &str)>
    ensures { MatchOption result (length text.now ≡ 0) (λ (c, before).
        (text.now ≡ before.now ++ encode_utf8 c) × (chars text.now ≡ chars before.now ++ c ∷ []) × IsUtf8 before.now) }
{
    let mut chars = text.chars();
    match chars.next_back() {
        Some(c) => Some((c, chars.as_str())),
        None => None,
    }
}

/// Where the removal of a unit begins, as an offset in its bytes: before its last character, if that is a point, else 0.
fn point_start<D: BidiData>(unit: &str, tables: &D) -> usize
    ensures start { result ≡ point_start (D.data tables.now) unit.now }
    ensures boundary { IsCharBoundary unit.now result }
{
    let Some((c, before)) = last_character(unit) else {
        return 0;
    };
    if is_point(c, tables) {
        return before.len();
    }
    0
}

impl<D: BidiData + Drop> Document<D> {
    /// The offset in the text at which the removal of a point before a place begins, for the unit from `start` to the place: at
    /// the unit's last character, if that is a point, else at `start`. If it is the unit's only character, both are the same.
    pub fn start_of_point(&self, start: usize, place: usize) -> Result<usize, OutOfMemory>
        requires range { IsRange self.now.document.content.text start place }
        ensures start { IfOk result (λ o. o ≡ start + point_start (D.data self.now.tables) (slice_range self.now.document.content.text start place)) }
        ensures range { IfOk result (λ o. IsRange self.now.document.content.text o place) }
    {
        let unit = self.copy(start, place)?;
        let kept = point_start(unit.as_str(), self.indexed.tables());
        Ok(start + kept)
    }
}
