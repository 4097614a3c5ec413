//! The embedding level of the unit at a place, which the editor tells of the unit at the cursor.
ghost use Rattle.std.specs.Prelude.{◌≡◌, true, Contains, IfOk, IsCharBoundary};
ghost use Rattle.unicode_segmentation.specs.Grapheme.{graphemes};
ghost use Rattle.bx_rows.specs.RowLevels.{first_level};
ghost use Rattle.bx_view.specs.Places.{IsTextPlace};
ghost use Rattle.bx_view.specs.Numbers.{boundaries};
ghost use Rattle.bx_document.specs.PlaceLevel.{place_level, unit_level};

use crate::document::Document;
use bx_common::OutOfMemory;
use bx_levels::{Level, levels};
use bx_rows::char_count;
use bx_ucd::BidiData;
use unicode_segmentation::UnicodeSegmentation;

/// The first level of some characters' levels; None if rule X9 of UAX #9 removes all of the characters.
fn first_level(levels: &[Level]) -> Option<u8>
    ensures { result ≡ first_level levels.now }
{
    for level in levels {
        if let Some(first) = level.get() {
            return Some(first);
        }
    }
    None
}

/// The level of the unit that begins at the offset `at` of a body; `each` has the level of each character of the body. None if X9
/// removes all of the unit's characters, and at the body's end.
fn unit_level(body: &str, each: &[Level], at: usize) -> Option<u8>
    requires bounds { IsCharBoundary body.now at }
    requires place { Contains (boundaries 0 (graphemes true body.now)) at }
    ensures { result ≡ unit_level body.now each.now at }
{
    let Some(unit) = body[at..].graphemes(true).next() else {
        return None;
    };
    let ahead = char_count(&body[..at]);
    let left = &each[ahead.min(each.len())..];
    first_level(&left[..char_count(unit).min(left.len())])
}

impl<D: BidiData + Drop> Document<D> {
    /// The embedding level of the unit that begins at a place, before rule L1 resets trailing blanks. None at a separator, at
    /// the text's end, and where X9 removes all of the unit's characters. The place's paragraph is resolved anew.
    pub fn level_at(&self, place: usize) -> Result<Option<u8>, OutOfMemory>
        requires text_place { IsTextPlace (D.data self.now.tables) self.now.document.content.text place }
        ensures { IfOk result (λ l. l ≡ place_level (D.data self.now.tables) self.now.document.base self.now.document.content.text place) }
    {
        let text_ref = self.indexed.text_ref();
        let span = text_ref.index.span_at(place);
        let copy = self.copy(span.start, span.stop)?;
        let body = copy.as_str();
        let levels = levels(self.alloc, body, text_ref.tables, self.view.base())?;
        Ok(unit_level(body, levels.each.as_slice(), place - span.start))
    }
}
