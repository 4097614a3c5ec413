//! The units of a row that begin in a part of the text.
ghost use Rattle.std.specs.Prelude.{◌≡◌, ◌&&◌, nat_lt, filter, IfOk};
ghost use Rattle.bx_view.specs.TextRef.{OfRow, Stands};
ghost use Rattle.bx_view.specs.TextParts.{slots_in};
ghost use Rattle.bx_view.specs.Top.{is_in};

use crate::in_row::RowAt;
use crate::text_ref::TextRef;
use crate::view::View;
use bx_common::{OutOfMemory, Range};
use bx_paragraph::Slot;
use bx_ucd::BidiData;

/// Keeps the slots of units that begin from `start` up to `stop`, offsets of the body. The slot of the paragraph's end, the only
/// one without columns, goes.
fn keep_in(slots: &mut Vec<Slot>, start: usize, stop: usize)
    ensures { slots.new.items ≡ filter (λ s. nat_lt 0 s.columns && is_in (start, stop) s.offset) slots.old.items }
{
    slots.retain(|s| s.columns > 0 && start <= s.offset && s.offset < stop);
}

impl View {
    /// The slots of a row's units that begin in a part of the text, from left to right. If the row's paragraph lies outside the
    /// part, nothing is computed.
    pub fn slots_in<D: BidiData>(
        &self,
        text_ref: &TextRef<'_, D>,
        at: RowAt,
        part: Range,
    ) -> Result<Vec<Slot>, OutOfMemory>
        requires row { Stands text_ref.now self.now at }
        ensures { OfRow text_ref.now self.now at (λ r. IfOk result (λ v. v.items ≡ slots_in self.now.w (part.start, part.stop) r)) }
    {
        let row = self.row(text_ref, at);
        let start = part.start.saturating_sub(row.start);
        let stop = part.stop.saturating_sub(row.start);
        if start >= stop || row.paragraph.body().len() < start {
            return Ok(Vec::new(*self.cache.allocator()));
        }
        let mut slots = row.slots()?;
        keep_in(&mut slots, start, stop);
        Ok(slots)
    }
}
