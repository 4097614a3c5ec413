//! The unit and the word at a place. Offsets count bytes of a paragraph's body, places bytes of the text.
ghost use Rattle.std.specs.Prelude.{◌≡◌, ◌<◌, ◌≤◌, ◌||◌, IfOk, drop, length, true};
ghost use Rattle.std.specs.Str.{IsCharBoundary};
ghost use Rattle.unicode_segmentation.specs.Grapheme.{graphemes};
ghost use Rattle.bx_paragraph.specs.Layout.{IsLayoutBy};
ghost use Rattle.bx_view.specs.Places.{IsTextPlace};
ghost use Rattle.bx_view.specs.TextRef.{IsViewBy, Keeps, bytes};
ghost use Rattle.bx_view.specs.Words.{first_kind, goes_on, is_of_word, stretch_at, unit_at, unit_start, unit_stop, word_around, word_end};
ghost use Rattle.bx_view.specs.declared.moves.unit_kind.UnitKind.TheVariants.{Other};

use crate::going::unit_end;
use crate::moves::unit_kind::{UnitKind, goes_on, is_of_word};
use crate::moves::words::{kind_at, start_before, unit_at as unit_kind_at};
use crate::{TextRef, View};
use bx_common::{OutOfMemory, Range};
use bx_paragraph::ParagraphLayout;
use bx_ucd::BidiData;

/// Whether a word, the last unit of which is of the kind `last` so far, goes on with a unit of the kind `kind`, which ends at `stop`:
/// it is of a word, or a sign that stands between `last` and the next unit.
fn is_inside<D: BidiData>(
    last: UnitKind,
    kind: UnitKind,
    body: &str,
    stop: usize,
    tables: &D,
) -> bool
    requires { IsCharBoundary body.now stop }
    ensures { result ≡ (is_of_word kind || goes_on last kind (first_kind (D.data tables.now) (graphemes true (drop stop body.now)))) }
{
    if is_of_word(kind) {
        return true;
    }
    goes_on(last, kind, kind_at(body, stop, tables))
}

/// The end of the word that begins at an offset of a body; the offset itself, if no unit of a word begins there.
fn word_end<D: BidiData>(body: &str, begin: usize, tables: &D) -> usize
    requires { IsCharBoundary body.now begin }
    ensures { result ≡ word_end (D.data tables.now) Other begin (graphemes true (drop begin body.now)) }
{
    let mut last = UnitKind::Other;
    let mut at = begin;
    while at < body.len() {
        let (kind, stop) = unit_kind_at(body, at, tables);
        if !is_inside(last, kind, body, stop, tables) {
            return at;
        }
        last = kind;
        at = stop;
    }
    at
}

/// The start and the end of the unit at an offset of a paragraph's body, which is not the body's end.
fn unit_around<D: BidiData>(
    paragraph: &ParagraphLayout,
    offset: usize,
    tables: &D,
) -> (usize, usize)
    requires data { IsLayoutBy (D.data tables.now) paragraph.now }
    requires within { offset < length paragraph.now.body }
    ensures start { result.0 ≡ unit_start paragraph.now.body offset }
    ensures stop { result.1 ≡ unit_stop paragraph.now.body offset }
    ensures own { result.1 ≡ unit_stop paragraph.now.body result.0 }
    ensures order { result.0 ≤ offset }
    ensures within { result.1 ≤ length paragraph.now.body }
{
    // Only the contract names the tables.
    let _ = tables;
    let body = paragraph.body();
    let mut at = paragraph.first(paragraph.row_of(offset));
    let mut stop = unit_end(body, at);
    while stop <= offset {
        at = stop;
        stop = unit_end(body, at);
    }
    (at, stop)
}

/// The start and the end of the word of the unit from `start` to `stop` of a paragraph's body; of the unit alone, if it is of no word.
fn word_around<D: BidiData>(
    paragraph: &ParagraphLayout,
    start: usize,
    stop: usize,
    tables: &D,
) -> (usize, usize)
    requires data { IsLayoutBy (D.data tables.now) paragraph.now }
    requires within { start < length paragraph.now.body }
    requires stop { stop ≡ unit_stop paragraph.now.body start }
    ensures { result ≡ word_around (D.data tables.now) paragraph.now.body start }
{
    let body = paragraph.body();
    // The length is a `usize`, so the start is below the greatest one.
    let _len = body.len();
    let begin = start_before(paragraph, start + 1, tables);
    let end = word_end(body, begin, tables);
    if start < end {
        return (begin, end);
    }
    (start, stop)
}

/// The start and the end of the word of the unit at an offset of a paragraph's body, or of the unit alone; at the body's end those of
/// the last unit.
fn stretch_in<D: BidiData>(paragraph: &ParagraphLayout, offset: usize, tables: &D) -> (usize, usize)
    requires data { IsLayoutBy (D.data tables.now) paragraph.now }
    ensures { result ≡ word_around (D.data tables.now) paragraph.now.body (unit_start paragraph.now.body offset) }
{
    let len = paragraph.body().len();
    if len == 0 {
        return (0, 0);
    }
    let (start, stop) = unit_around(paragraph, offset.min(len - 1), tables);
    word_around(paragraph, start, stop, tables)
}

/// From a place to the end of the unit that begins there; at its body's end from that to that.
pub fn unit_at<D: BidiData>(
    view: &mut View,
    text_ref: &TextRef<'_, D>,
    place: usize,
) -> Result<Range, OutOfMemory>
    requires data { IsViewBy text_ref.now view.old }
    ensures keeps { Keeps text_ref.now view.old view.new }
    ensures unit { IfOk result (λ r. (r.start, r.stop) ≡ unit_at (D.data text_ref.now.tables.now) (bytes text_ref.now) place) }
    ensures start { IfOk result (λ r. r.start ≡ place) }
    ensures order { IfOk result (λ r. r.start ≤ r.stop) }
    ensures text_place { IsTextPlace (D.data text_ref.now.tables.now) (bytes text_ref.now) place
        → IfOk result (λ r. IsTextPlace (D.data text_ref.now.tables.now) (bytes text_ref.now) r.stop) }
{
    let at = view.row_at(text_ref, place)?;
    let paragraph = view.paragraph(text_ref, at.paragraph, at.cached);
    let offset = place - at.start;
    if offset >= paragraph.body().len() {
        return Ok(Range {
            start: place,
            stop: place,
        });
    }
    let (_, stop) = unit_around(paragraph, offset, text_ref.tables);
    Ok(Range {
        start: place,
        stop: at.start + stop,
    })
}

/// The range of the word that has the unit at `place`, or of that unit alone if it belongs to no word. At the end of a body its last
/// unit counts; in an empty body the range is empty.
pub fn stretch_at<D: BidiData>(
    view: &mut View,
    text_ref: &TextRef<'_, D>,
    place: usize,
) -> Result<Range, OutOfMemory>
    requires data { IsViewBy text_ref.now view.old }
    ensures keeps { Keeps text_ref.now view.old view.new }
    ensures stretch { IfOk result (λ r. (r.start, r.stop) ≡ stretch_at (D.data text_ref.now.tables.now) (bytes text_ref.now) place) }
    ensures order { IfOk result (λ r. r.start ≤ r.stop) }
    ensures start_place { IfOk result (λ r. IsTextPlace (D.data text_ref.now.tables.now) (bytes text_ref.now) r.start) }
    ensures stop_place { IfOk result (λ r. IsTextPlace (D.data text_ref.now.tables.now) (bytes text_ref.now) r.stop) }
{
    let at = view.row_at(text_ref, place)?;
    let paragraph = view.paragraph(text_ref, at.paragraph, at.cached);
    let (start, stop) = stretch_in(paragraph, place - at.start, text_ref.tables);
    Ok(Range {
        start: at.start + start,
        stop: at.start + stop,
    })
}
