//! Moves from word to word: forward to the next start of a word or end of a body, back to the previous start of a word or a
//! body. `words.rt` finds these in one paragraph; here the move goes on into the next or the previous paragraph.
ghost use Rattle.std.specs.Prelude.{◌≡◌, ◌+◌, ◌-◌, ◌<◌, ◌≤◌, IfOk, MatchOption, find, length, nat_le, nat_lt, reverse, unwrap_or};
ghost use Rattle.bx_view.specs.TextRef.{IsViewBy, Keeps, Stands, body_at, bytes, count, rows, start_at};
ghost use Rattle.bx_view.specs.Moves.{word_towards, word_way};
ghost use Rattle.bx_view.specs.Words.{body_words, step_word};
ghost use Rattle.bx_view.specs.declared.moves.Logical.TheVariants.{Back, Forward};

use crate::moves::placed::reads_on;
use crate::moves::words::{first_stop, start_before, stop_after};
use crate::{Logical, RowAt, TextRef, View, current_span};
use bx_common::OutOfMemory;
use bx_paragraph::Visual;
use bx_ucd::BidiData;

/// The way in text order that leads toward a side: forward if the paragraph is read toward it (`is_read_on`), else back.
fn word_way(is_read_on: bool) -> Logical
    ensures { result ≡ word_way is_read_on }
{
    if is_read_on {
        Logical::Forward
    } else {
        Logical::Back
    }
}

/// In the paragraph after that of `at`: the first place at which a word begins or the body ends. None if there is no such
/// paragraph.
fn stop_below<D: BidiData>(
    view: &mut View,
    text_ref: &TextRef<'_, D>,
    at: RowAt,
) -> Result<Option<usize>, OutOfMemory>
    requires row { Stands text_ref.now view.old at }
    ensures keeps { Keeps text_ref.now view.old view.new }
    ensures stop { IfOk result (λ found. MatchOption found (at.paragraph + 1 ≡ count text_ref.now)
        (λ o. (at.paragraph + 1 < count text_ref.now) × (o ≡ start_at text_ref.now (at.paragraph + 1)
        + unwrap_or (find (nat_le 0) (body_words (D.data text_ref.now.tables.now) (body_at text_ref.now (at.paragraph + 1))))
        (length (body_at text_ref.now (at.paragraph + 1)))))) }
{
    let mut walk = view.walk_from(text_ref, at);
    if !walk.to_next() {
        return Ok(None);
    }
    let span = current_span(text_ref, &walk);
    let cached = view.find(text_ref, span)?;
    let paragraph = view.paragraph(text_ref, span.number, cached);
    let first = first_stop(paragraph, text_ref.tables);
    Ok(Some(span.start + first))
}

/// In the paragraph before that of `at`: the last place before `place` at which a word or the body begins. None if there is no
/// such paragraph.
fn start_above<D: BidiData>(
    view: &mut View,
    text_ref: &TextRef<'_, D>,
    at: RowAt,
    place: usize,
) -> Result<Option<usize>, OutOfMemory>
    requires row { Stands text_ref.now view.old at }
    requires order { at.start ≤ place }
    ensures keeps { Keeps text_ref.now view.old view.new }
    ensures start { IfOk result (λ found. MatchOption found (at.paragraph ≡ 0)
        (λ o. (0 < at.paragraph) × (o ≡ start_at text_ref.now (at.paragraph - 1)
        + unwrap_or (find (λ o. nat_lt o (place - start_at text_ref.now (at.paragraph - 1)))
        (reverse (body_words (D.data text_ref.now.tables.now) (body_at text_ref.now (at.paragraph - 1))))) 0))) }
{
    let mut walk = view.walk_from(text_ref, at);
    if !walk.to_previous() {
        return Ok(None);
    }
    let span = current_span(text_ref, &walk);
    let cached = view.find(text_ref, span)?;
    let paragraph = view.paragraph(text_ref, span.number, cached);
    let last = start_before(paragraph, place - span.start, text_ref.tables);
    Ok(Some(span.start + last))
}

/// The first place after `place` at which a word begins or a body ends; if there is none, `place` itself.
fn word_forward<D: BidiData>(
    view: &mut View,
    text_ref: &TextRef<'_, D>,
    place: usize,
) -> Result<usize, OutOfMemory>
    requires data { IsViewBy text_ref.now view.old }
    ensures keeps { Keeps text_ref.now view.old view.new }
    ensures place { IfOk result (λ o. o ≡ step_word (D.data text_ref.now.tables.now) (bytes text_ref.now) Forward place) }
{
    let at = view.row_at(text_ref, place)?;
    let paragraph = view.paragraph(text_ref, at.paragraph, at.cached);
    let offset = place - at.start;
    if offset < paragraph.body().len() {
        let stop = stop_after(paragraph, offset, text_ref.tables);
        return Ok(at.start + stop);
    }
    let below = stop_below(view, text_ref, at)?;
    Ok(below.unwrap_or(place))
}

/// The last place before `place` at which a word or a body begins; if there is none, `place` itself.
fn word_back<D: BidiData>(
    view: &mut View,
    text_ref: &TextRef<'_, D>,
    place: usize,
) -> Result<usize, OutOfMemory>
    requires data { IsViewBy text_ref.now view.old }
    ensures keeps { Keeps text_ref.now view.old view.new }
    ensures place { IfOk result (λ o. o ≡ step_word (D.data text_ref.now.tables.now) (bytes text_ref.now) Back place) }
{
    let at = view.row_at(text_ref, place)?;
    if at.start < place {
        let paragraph = view.paragraph(text_ref, at.paragraph, at.cached);
        let start = start_before(paragraph, place - at.start, text_ref.tables);
        return Ok(at.start + start);
    }
    let above = start_above(view, text_ref, at, place)?;
    Ok(above.unwrap_or(place))
}

/// The place after a move by a word in text order.
pub(crate) fn step_word<D: BidiData>(
    view: &mut View,
    text_ref: &TextRef<'_, D>,
    way: Logical,
    place: usize,
) -> Result<usize, OutOfMemory>
    requires data { IsViewBy text_ref.now view.old }
    ensures keeps { Keeps text_ref.now view.old view.new }
    ensures place { IfOk result (λ o. o ≡ step_word (D.data text_ref.now.tables.now) (bytes text_ref.now) way place) }
{
    // The proof refers to the place by the name in each arm.
    match way {
        Logical::Forward => {
            let place = word_forward(view, text_ref, place)?;
            Ok(place)
        }
        Logical::Back => {
            let place = word_back(view, text_ref, place)?;
            Ok(place)
        }
    }
}

/// The place after a move by a word toward a side: forward if the place's paragraph is read toward it, else back.
pub(crate) fn word_towards<D: BidiData>(
    view: &mut View,
    text_ref: &TextRef<'_, D>,
    side: Visual,
    place: usize,
) -> Result<usize, OutOfMemory>
    requires data { IsViewBy text_ref.now view.old }
    ensures keeps { Keeps text_ref.now view.old view.new }
    ensures place { IfOk result (λ o. o ≡ word_towards (D.data text_ref.now.tables.now) (bytes text_ref.now) (rows text_ref.now view.old) side place) }
{
    let at = view.row_at(text_ref, place)?;
    let way = word_way(reads_on(&view.row(text_ref, at), side));
    // The proof refers to the place by this name.
    let place = step_word(view, text_ref, way, place)?;
    Ok(place)
}
