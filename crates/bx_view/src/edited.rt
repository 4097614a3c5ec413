//! Edits of cached paragraphs, and the place after an edit.
ghost use Rattle.std.specs.Prelude.{◌≡◌, ◌≤◌, ◌+◌, ◌==◌, ◌||◌, IfOk, IfSome, chars, length, nat_lt};
ghost use Rattle.std.specs.List.{list_any};
ghost use Rattle.bx_paragraph.specs.Layout.{IsLayoutBy, rows_by as rows_of_body};
ghost use Rattle.bx_text.specs.index.Paragraphs.{is_separator};
ghost use Rattle.bx_text.specs.Edits.{splice};
ghost use Rattle.bx_view.specs.BodyPlaces.{place_in_body};
ghost use Rattle.bx_view.specs.FoundRow.{rows_by};
ghost use Rattle.bx_view.specs.Caching as caching;
ghost use Rattle.bx_view.specs.Moves.{place_from};
ghost use Rattle.bx_view.specs.Places.{IsTextPlace};
ghost use Rattle.bx_view.specs.TextRef.{IsViewBy, Keeps, bytes};

use crate::cache::{edit_in, find_in, lay_out_in};
use crate::placed::first_from;
use crate::span::paragraph_under;
use crate::text_ref::TextRef;
use crate::view::View;
use bx_common::{OutOfMemory, Range};
use bx_paragraph::{LayoutRowRef, ParagraphLayout};
use bx_text::separates;
use bx_ucd::BidiData;

/// A range of bytes in the body of a cached paragraph.
#[derive(Clone, Copy)]
pub struct CachedRange {
    // the paragraph's index among the cached ones
    cached: usize,
    // offsets of the body
    range: Range,
}

/// Whether a text contains a paragraph separator.
fn has_separator<D: BidiData>(new: &str, tables: &D) -> bool
    ensures { result ≡ list_any (λ c. is_separator ((D.data tables.now).class c)) (chars new.now) }
{
    new.chars().any(|c| separates(tables, c))
}

/// Whether an offset is past the start of its paragraph, which begins at `first`, or the paragraph is the text's first.
fn is_after_begin(first: usize, offset: usize) -> bool
    ensures { result ≡ ((first == 0) || nat_lt first offset) }
{
    first == 0 || first < offset
}

/// The first place of a paragraph at or after an offset of its body; the last place, if there is none. Both are offsets of the
/// body.
fn place_in_body<D: BidiData>(
    paragraph: &ParagraphLayout,
    offset: usize,
    tables: &D,
) -> Result<usize, OutOfMemory>
    requires data { IsLayoutBy (D.data tables.now) paragraph.now }
    ensures place { IfOk result (λ o. o ≡ place_in_body (rows_of_body (D.data tables.now) paragraph.now) offset) }
    ensures within { IfOk result (λ o. o ≤ length paragraph.now.body) }
{
    let row = paragraph.row_of(offset);
    let lent = LayoutRowRef {
        paragraph,
        tables,
        number: row,
        start: 0,
    };
    let offsets = lent.offsets()?;
    if let Some(place) = first_from(&offsets, offset) {
        return Ok(place);
    }
    let rows = paragraph.row_count();
    if row + 1 < rows {
        return Ok(paragraph.first(row + 1));
    }
    // The proof refers to the place by this name.
    let last = lent.last()?;
    Ok(last)
}

impl View {
    /// Applies an edit that the text is about to get, which replaces its bytes from `start` to `stop` with `new`, to the cached
    /// paragraph, and returns the place after the edit. None, with nothing applied, if the paragraph is not cached, if the range
    /// exceeds it or cuts a character, or if `new` has a separator. None too, with the edit applied, at the start of a paragraph
    /// other than the text's first, where a CR before it and an LF may join into one separator.
    pub fn edit<D: BidiData>(
        &mut self,
        text_ref: &TextRef<'_, D>,
        start: usize,
        stop: usize,
        new: &str,
    ) -> Result<Option<usize>, OutOfMemory>
        requires data { IsViewBy text_ref.now self.old }
        ensures keeps { Keeps text_ref.now self.old self.new }
        ensures place { IfOk result (λ found. IfSome found (λ o. o ≡ place_from
            (rows_by (D.data text_ref.now.tables.now) self.old (splice (bytes text_ref.now) start stop new.now))
            (start + length new.now))) }
        ensures text_place { IfOk result (λ found. IfSome found
            (IsTextPlace (D.data text_ref.now.tables.now) (splice (bytes text_ref.now) start stop new.now))) }
        ensures order { IfOk result (λ found. IfSome found (λ o. start + length new.now ≤ o)) }
    {
        let span = paragraph_under(text_ref, start);
        if stop < start || span.stop < stop || has_separator(new, text_ref.tables) {
            return Ok(None);
        }
        let first = span.start;
        let Some(i) = find_in(&self.cache, &mut self.recent, text_ref.text, span) else {
            return Ok(None);
        };
        lay_out_in(&mut self.cache, i, text_ref.tables, self.base, self.w)?;
        let range = start - first..stop - first;
        let is_edited = edit_in(&mut self.cache, i, range, new, text_ref.tables, self.base)?;
        if !is_edited {
            return Ok(None);
        }
        if !is_after_begin(first, start) {
            return Ok(None);
        }
        let offset = start - first + new.len();
        let place = place_in_body(&self.cache[i], offset, text_ref.tables)?;
        Ok(Some(first + place))
    }

    /// A range of the text as a range of a cached paragraph, for `follow_edit` once the text has changed. None if the paragraph
    /// is not cached or the range exceeds it. Allocates nothing.
    pub fn cached_range<D: BidiData>(
        &mut self,
        text_ref: &TextRef<'_, D>,
        start: usize,
        stop: usize,
    ) -> Option<CachedRange>
        ensures { self.new ≡ self.old }
    {
        let span = paragraph_under(text_ref, start);
        if stop < start || span.stop < stop {
            return None;
        }
        let cached = find_in(&self.cache, &mut self.recent, text_ref.text, span)?;
        let range = Range {
            start: start - span.start,
            stop: stop - span.start,
        };
        Some(CachedRange { cached, range })
    }

    /// Applies an edit, which replaces a range with `new`, to the cached paragraph that `cached_range` just found: once the view
    /// has searched again, another may have its index. Nothing changes if `new` contains a separator or the range cuts a
    /// character.
    pub fn follow_edit<D: BidiData>(
        &mut self,
        edited: CachedRange,
        new: &str,
        tables: &D,
    ) -> Result<(), OutOfMemory>
        requires data { caching.IsViewBy (D.data tables.now) self.old }
        ensures keeps { caching.Keeps (D.data tables.now) self.old self.new }
    {
        let CachedRange { cached, range } = edited;
        let Range { start, stop } = range;
        if cached >= self.cache.len() || stop < start || has_separator(new, tables) {
            return Ok(());
        }
        let _followed = edit_in(&mut self.cache, cached, start..stop, new, tables, self.base)?;
        Ok(())
    }
}
