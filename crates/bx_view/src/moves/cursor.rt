//! The one public call, which makes any of the cursor's moves.
ghost use Rattle.std.specs.Prelude.{◌≡◌, true, IfOk};
ghost use Rattle.std.specs.Str.{IsCharBoundary};
ghost use Rattle.bx_view.specs.Moved.{is_to_row_end, moved};
ghost use Rattle.bx_view.specs.Places.{IsTextPlace};
ghost use Rattle.bx_view.specs.TextRef.{IsViewBy, Keeps, bytes, rows};

use crate::moves::by_rows::{rows_away, rows_straight};
use crate::moves::row_ends::{row_end, row_home};
use crate::moves::text_order::step_logical;
use crate::moves::visual::step_visual;
use crate::moves::word_moves::{step_word, word_towards};
use crate::{Move, TextRef, View};
use bx_common::OutOfMemory;
use bx_ucd::BidiData;

/// The place that the move `m` leads to from `place`.
fn led_by<D: BidiData>(
    view: &mut View,
    text_ref: &TextRef<'_, D>,
    m: Move,
    place: usize,
) -> Result<usize, OutOfMemory>
    requires data { IsViewBy text_ref.now view.old }
    ensures keeps { Keeps text_ref.now view.old view.new }
    ensures place { IfOk result (λ o. o ≡ moved (D.data text_ref.now.tables.now) (bytes text_ref.now) view.old.w (rows text_ref.now view.old) m place) }
{
    // The proof refers to the place by the name in each arm.
    match m {
        Move::Logical(way) => {
            let place = step_logical(view, text_ref, way, place)?;
            Ok(place)
        }
        Move::Visual(side) => {
            let place = step_visual(view, text_ref, side, place)?;
            Ok(place)
        }
        Move::Rows(way, count) => {
            let place = rows_straight(view, text_ref, way, count, place)?;
            Ok(place)
        }
        Move::RowsIn(way, count, goal) => {
            let place = rows_away(view, text_ref, way, count, goal, place)?;
            Ok(place)
        }
        Move::RowHome => {
            let place = row_home(view, text_ref, place)?;
            Ok(place)
        }
        Move::RowEnd => {
            let place = row_end(view, text_ref, place)?;
            Ok(place)
        }
        Move::Word(way) => {
            let place = step_word(view, text_ref, way, place)?;
            Ok(place)
        }
        Move::WordTowards(side) => {
            let place = word_towards(view, text_ref, side, place)?;
            Ok(place)
        }
        Move::TextStart => Ok(0),
        Move::TextEnd => Ok(text_ref.text.len()),
    }
}

/// The place that the move `m` leads to from `place`; `place` itself if there is nowhere to go.
pub fn moved<D: BidiData>(
    view: &mut View,
    text_ref: &TextRef<'_, D>,
    m: Move,
    place: usize,
) -> Result<usize, OutOfMemory>
    requires data { IsViewBy text_ref.now view.old }
    ensures keeps { Keeps text_ref.now view.old view.new }
    ensures place { IfOk result (λ o. o ≡ moved (D.data text_ref.now.tables.now) (bytes text_ref.now) view.old.w (rows text_ref.now view.old) m place) }
    ensures text_place { IsTextPlace (D.data text_ref.now.tables.now) (bytes text_ref.now) place
        → IfOk result (IsTextPlace (D.data text_ref.now.tables.now) (bytes text_ref.now)) }
    ensures row_place { is_to_row_end m ≡ true → IfOk result (IsTextPlace (D.data text_ref.now.tables.now) (bytes text_ref.now)) }
    ensures boundary { IsCharBoundary (bytes text_ref.now) place → IfOk result (λ o. IsCharBoundary (bytes text_ref.now) o) }
    ensures row_boundary { is_to_row_end m ≡ true → IfOk result (λ o. IsCharBoundary (bytes text_ref.now) o) }
{
    // `width` promises that the width is from 1 to 500.
    let _side = view.width();
    // The proof refers to the place by this name.
    let place = led_by(view, text_ref, m, place)?;
    Ok(place)
}
