//! Where the words of a paragraph begin, found from an offset outward, row by row, so that a move in a long paragraph is fast. A
//! word is a run of letters, digits, marks and joiners, with signs that stand between two letters or between two digits. Offsets
//! count bytes of the paragraph's body.
ghost use Rattle.std.specs.Prelude.{◌≡◌, ◌+◌, ◌<◌, ◌≤◌, ◌&&◌, ◌||◌, Bool, true, false, Some, drop, find, length, min, nat_le, nat_lt, reverse, unwrap_or};
ghost use Rattle.std.specs.Str.{IsCharBoundary};
ghost use Rattle.unicode_segmentation.specs.Grapheme.{graphemes};
ghost use Rattle.bx_paragraph.specs.Layout.{IsLayoutBy, IsSound};
ghost use Rattle.bx_view.specs.WordReads.{ReadsAlone};
ghost use Rattle.bx_view.specs.Words.{begins_word, body_words, first_kind, goes_on, is_of_word, is_sign, put_if, word_end, word_starts};
ghost use Rattle.bx_view.specs.declared.moves.unit_kind.UnitKind.{UnitKind};
ghost use Rattle.bx_view.specs.declared.moves.unit_kind.UnitKind.TheVariants.{Mark, Other};

use crate::moves::unit_kind::{UnitKind, begins_word, goes_on, is_of_word, is_sign, kind_of};
use bx_paragraph::ParagraphLayout;
use bx_ucd::BidiData;
use unicode_segmentation::UnicodeSegmentation;

/// What the unit at an offset of a body is to a word, and the offset at which the unit ends.
pub(crate) fn unit_at<D: BidiData>(body: &str, at: usize, tables: &D) -> (UnitKind, usize)
    requires start { IsCharBoundary body.now at }
    requires some { at < length body.now }
    ensures stop { (at < result.1) × IsCharBoundary body.now result.1 }
    ensures kind { first_kind (D.data tables.now) (graphemes true (drop at body.now)) ≡ result.0 }
    ensures starts { (second : UnitKind) (first : UnitKind) → word_starts (D.data tables.now) second first at (graphemes true (drop at body.now))
        ≡ put_if (begins_word second first result.0) at (word_starts (D.data tables.now) first result.0 result.1 (graphemes true (drop result.1 body.now))) }
    ensures end { (last : UnitKind) → word_end (D.data tables.now) last at (graphemes true (drop at body.now))
        ≡ elim (is_of_word result.0 || goes_on last result.0 (first_kind (D.data tables.now) (graphemes true (drop result.1 body.now)))) [
          | true ↦ word_end (D.data tables.now) result.0 result.1 (graphemes true (drop result.1 body.now))
          | false ↦ at
        ] }
{
    match body[at..].graphemes(true).next() {
        Some(unit) => (kind_of(unit, tables), at + unit.len()),
        None => unreachable!(),
    }
}

/// What the unit at an offset of a body is to a word; at the body's end there is none, and it is of no word.
pub(crate) fn kind_at<D: BidiData>(body: &str, at: usize, tables: &D) -> UnitKind
    requires { IsCharBoundary body.now at }
    ensures { result ≡ first_kind (D.data tables.now) (graphemes true (drop at body.now)) }
{
    if at >= body.len() {
        return UnitKind::Other;
    }
    let (kind, _) = unit_at(body, at, tables);
    kind
}

/// The first start of a word at or after `from`, among the units from the one at `start` on, after units of the kind `before`; the
/// body's end, if there is none.
fn first_start<D: BidiData>(
    body: &str,
    start: usize,
    before: UnitKind,
    from: usize,
    tables: &D,
) -> usize
    requires { IsCharBoundary body.now start }
    ensures { result ≡ unwrap_or (find (nat_le from)
        (word_starts (D.data tables.now) before before start (graphemes true (drop start body.now)))) (length body.now) }
{
    let mut second = before;
    let mut first = before;
    let mut at = start;
    while at < body.len() {
        let (kind, stop) = unit_at(body, at, tables);
        if from <= at && begins_word(second, first, kind) {
            return at;
        }
        second = first;
        first = kind;
        at = stop;
    }
    body.len()
}

/// The last start of a word found so far: the offset `at` of this unit if it begins a word, else what was found before it.
fn later(found: Option<usize>, begins: bool, at: usize) -> Option<usize>
    ensures { result ≡ elim begins [ true ↦ Some at | false ↦ found ] }
{
    if begins {
        return Some(at);
    }
    found
}

/// The last start of a word before `bound`, among the units after the one at `start`, which may begin a word or not: the unit
/// before it is not read, and counts as a mark. None if there is none.
fn last_start<D: BidiData>(body: &str, start: usize, bound: usize, tables: &D) -> Option<usize>
    requires { IsCharBoundary body.now start }
    ensures { result ≡ find (λ o. nat_lt o bound)
        (reverse (word_starts (D.data tables.now) Mark Mark start (graphemes true (drop start body.now)))) }
{
    let end = bound.min(body.len());
    let mut at = start;
    let mut second = UnitKind::Mark;
    let mut first = UnitKind::Mark;
    let mut found = None;
    while at < end {
        let (kind, stop) = unit_at(body, at, tables);
        found = later(found, begins_word(second, first, kind), at);
        second = first;
        first = kind;
        at = stop;
    }
    found
}

/// Whether the unit at an offset of a body is a sign, which may be of the word of the units around it.
fn is_sign_at<D: BidiData>(body: &str, at: usize, tables: &D) -> bool
    requires { IsCharBoundary body.now at }
    ensures { result ≡ is_sign (first_kind (D.data tables.now) (graphemes true (drop at body.now))) }
{
    is_sign(kind_at(body, at, tables))
}

/// The last row at or above `row` that begins with no sign, or the body's first row: from there on words can be read without the
/// rows above.
fn row_to_read<D: BidiData>(paragraph: &ParagraphLayout, row: usize, tables: &D) -> usize
    requires data { IsLayoutBy (D.data tables.now) paragraph.now }
    requires sound { IsSound paragraph.now }
    requires within { row < length paragraph.now.starts }
    ensures order { result ≤ row }
    ensures reads { ReadsAlone (D.data tables.now) paragraph.now result }
{
    let body = paragraph.body();
    let mut there = row;
    while there > 0 {
        if !is_sign_at(body, paragraph.first(there), tables) {
            return there;
        }
        there -= 1;
    }
    0
}

/// The first offset after `offset` at which a word begins; the body's end, if there is none.
pub(crate) fn stop_after<D: BidiData>(
    paragraph: &ParagraphLayout,
    offset: usize,
    tables: &D,
) -> usize
    requires data { IsLayoutBy (D.data tables.now) paragraph.now }
    requires within { offset < length paragraph.now.body }
    ensures { result ≡ unwrap_or (find (nat_lt offset) (body_words (D.data tables.now) paragraph.now.body))
        (length paragraph.now.body) }
{
    let body = paragraph.body();
    let row = row_to_read(paragraph, paragraph.row_of(offset), tables);
    let start = paragraph.first(row);
    // Whether the row's first unit begins a word is no matter, since it is not after the offset.
    first_start(body, start, UnitKind::Mark, offset + 1, tables)
}

/// The first offset at which a word begins; the body's end, if there is none.
pub(crate) fn first_stop<D: BidiData>(paragraph: &ParagraphLayout, tables: &D) -> usize
    ensures { result ≡ unwrap_or (find (nat_le 0) (body_words (D.data tables.now) paragraph.now.body))
        (length paragraph.now.body) }
{
    let body = paragraph.body();
    first_start(body, 0, UnitKind::Other, 0, tables)
}

/// The bound for `last_start` in the row above a row that begins at `first`: it may find `first` too, since it has then read the
/// unit before; but nothing at or after `bound`.
fn bound_above(bound: usize, first: usize) -> usize
    ensures { result ≡ min bound (first + 1) }
{
    if first < bound {
        return first + 1;
    }
    bound
}

/// The last offset before `offset` at which a word begins; the body's start, if there is none. Reads the offset's row, and rows
/// above it until a start is found.
pub(crate) fn start_before<D: BidiData>(
    paragraph: &ParagraphLayout,
    offset: usize,
    tables: &D,
) -> usize
    requires { IsLayoutBy (D.data tables.now) paragraph.now }
    ensures { result ≡ unwrap_or (find (λ o. nat_lt o offset) (reverse (body_words (D.data tables.now) paragraph.now.body))) 0 }
{
    let body = paragraph.body();
    let mut row = row_to_read(paragraph, paragraph.row_of(offset), tables);
    let mut bound = offset;
    while row > 0 {
        let start = paragraph.first(row);
        if let Some(found) = last_start(body, start, bound, tables) {
            return found;
        }
        bound = bound_above(bound, start);
        row = row_to_read(paragraph, row - 1, tables);
    }
    // `last_start` leaves out 0, which is the answer where it finds no other.
    last_start(body, 0, bound, tables).unwrap_or(0)
}
