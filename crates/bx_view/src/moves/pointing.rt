//! The place that is pointed at.
ghost use Rattle.std.specs.Prelude.{◌≡◌, IfOk};
ghost use Rattle.std.specs.Str.{IsCharBoundary};
ghost use Rattle.bx_view.specs.Places.{IsTextPlace};
ghost use Rattle.bx_view.specs.Top.{pointed_at};
ghost use Rattle.bx_view.specs.TextRef.{IsViewBy, Keeps, bytes, rows};

use crate::moves::by_rows::rows_down;
use crate::moves::placed::entry;
use crate::{TextRef, View};
use bx_common::OutOfMemory;
use bx_ucd::BidiData;

/// The place that is pointed at by a row and a column of the picture, both from 1, where row 0 means 1. The first row that the
/// picture shows is that of the offset `top`. It is the place of the unit that covers the column, else the row's reading end;
/// below the text the text's last row is pointed at.
pub fn pointed_at<D: BidiData>(
    view: &mut View,
    text_ref: &TextRef<'_, D>,
    top: usize,
    row: u16,
    column: u16,
) -> Result<usize, OutOfMemory>
    requires data { IsViewBy text_ref.now view.old }
    ensures keeps { Keeps text_ref.now view.old view.new }
    ensures place { IfOk result (λ o. o ≡ pointed_at view.old.w (rows text_ref.now view.old) top row column) }
    ensures text_place { IfOk result (IsTextPlace (D.data text_ref.now.tables.now) (bytes text_ref.now)) }
    ensures boundary { IfOk result (λ o. IsCharBoundary (bytes text_ref.now) o) }
{
    // `width` promises that the width is from 1 to 500.
    let _side = view.width();
    let first = view.row_at(text_ref, top)?;
    let below = usize::from(row.saturating_sub(1));
    let there = rows_down(view, text_ref, first, below)?;
    let entry = entry(&view.row(text_ref, there), column)?;
    Ok(entry.unwrap_or(0))
}
