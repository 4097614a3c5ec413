//! Updating a layout after an edit of its body.
ghost use Rattle.std.specs.Prelude.{◌≡◌, ◌≤◌, ◌<◌, All, IfOk, OnErr, OnOk, chars, length, true};
ghost use Rattle.std.specs.List.{splice};
ghost use Rattle.std.specs.Str.{IsCharBoundary};
ghost use Rattle.bx_levels.specs.resolve.Edited.{AreLevelsOf, HasNoFormatting};
ghost use Rattle.bx_paragraph.specs.BodyEdits.{IsEdit, changed};
ghost use Rattle.bx_paragraph.specs.Cuts.{AreAsBefore, IsCounted, IsEditOf};
ghost use Rattle.bx_paragraph.specs.Layout.{IsLayoutBy};

use crate::body_edit::{BodyEdit, changed_from};
use crate::direction::are_unformatted;
use crate::edited_rows::edited_starts;
use crate::in_place::{make_room, replace};
use crate::layout::{ParagraphLayout, starts_up_to};
use crate::text_edit::{TextEdit, follow};
use bx_common::{Base, OutOfMemory};
use bx_levels::Levels;
use bx_rows::RowStart;
use bx_ucd::BidiData;
use std::mem;

/// The edit that replaces the bytes `start..stop` of a body, whose row starts are `starts`. Its near text begins at the row before
/// the edit's row, the last of those that begin at or before `start`.
fn text_edit<'t>(
    body: &'t str,
    starts: &[RowStart],
    start: usize,
    stop: usize,
    inserted: &'t str,
) -> TextEdit<'t>
    requires start { IsCharBoundary body.now start }
    requires stop { IsCharBoundary body.now stop }
    requires order { start ≤ stop }
    requires some { 0 < length starts.now }
    requires counted { All (IsCounted body.now) starts.now }
    ensures { IsEditOf body.now (splice body.now start stop inserted.now) result }
{
    let removed = &body[start..stop];
    let behind = &body[stop..];
    let from = starts[starts_up_to(starts, start).saturating_sub(2)];
    // This holds for the row starts of a body; it is tested, so that it needs no proof.
    if from.offset <= start && body.is_char_boundary(from.offset) {
        return TextEdit {
            front: &body[..from.offset],
            ahead: from.chars,
            near: &body[from.offset..start],
            removed,
            inserted,
            behind,
        };
    }
    TextEdit {
        front: "",
        ahead: 0,
        near: &body[..start],
        removed,
        inserted,
        behind,
    }
}

/// Whether a body has no formatting character and none of class BN. Checks each character unless that is known
/// (`is_unformatted`).
fn has_none<D: BidiData>(is_unformatted: bool, body: &str, tables: &D) -> bool
    requires { is_unformatted ≡ true → HasNoFormatting (D.data tables.now) (chars body.now) }
    ensures { result ≡ true → HasNoFormatting (D.data tables.now) (chars body.now) }
{
    if is_unformatted {
        return true;
    }
    are_unformatted(body, tables)
}

/// Updates the levels of a body for an edit, and returns whether the edited body is known to have no formatting character and
/// none of class BN. If strong characters cut off the edit, only the levels between them are resolved again.
///
/// Errors: `OutOfMemory`, and nothing has changed.
fn edit_levels<D: BidiData>(
    levels: &mut Levels,
    is_unformatted: bool,
    edit: &BodyEdit<'_>,
    tables: &D,
    base: Base,
) -> Result<bool, OutOfMemory>
    requires edit { IsEdit edit.now }
    requires some { 0 < length edit.now.starts.now }
    requires counted { All (IsCounted edit.now.body.now) edit.now.starts.now }
    requires levels { AreLevelsOf (D.data tables.now) base (chars edit.now.body.now) levels.old }
    requires unformatted { is_unformatted ≡ true → HasNoFormatting (D.data tables.now) (chars edit.now.body.now) }
    ensures levels { OnOk result (AreLevelsOf (D.data tables.now) base (chars (changed edit.now)) levels.new) }
    ensures unformatted { IfOk result (λ b. b ≡ true → HasNoFormatting (D.data tables.now) (chars (changed edit.now))) }
    ensures err { OnErr result (AreAsBefore levels.old levels.new) }
{
    let text = text_edit(edit.body, edit.starts, edit.start, edit.stop, edit.inserted);
    if has_none(is_unformatted, edit.body, tables) && follow(levels, tables, &text)? {
        return Ok(true);
    }
    let alloc = *levels.each.allocator();
    let changed = changed_from(alloc, edit, 0)?;
    let body = changed.as_str();
    *levels = bx_levels::levels(alloc, body, tables, base)?;
    Ok(are_unformatted(body, tables))
}

impl ParagraphLayout {
    /// Replaces the bytes `start..stop` of the body with a text. If strong characters cut off the edit (UAX #9), only the
    /// levels between them are resolved again, else those of the whole body. Rewraps from a row well before the edit until
    /// the rows meet the old ones. Changes the body last, in place, in room that is reserved first.
    ///
    /// Errors: `OutOfMemory`, and nothing has changed.
    pub fn edit<D: BidiData>(
        &mut self,
        start: usize,
        stop: usize,
        inserted: &str,
        tables: &D,
    ) -> Result<(), OutOfMemory>
        requires data { IsLayoutBy (D.data tables.now) self.old }
        requires start { IsCharBoundary self.old.body start }
        requires stop { IsCharBoundary self.old.body stop }
        requires order { start ≤ stop }
        ensures body { OnOk result (self.new.body ≡ splice self.old.body start stop inserted.now) }
        ensures base { self.new.base ≡ self.old.base }
        ensures w { self.new.w ≡ self.old.w }
        ensures rows { IsLayoutBy (D.data tables.now) self.new }
        ensures err { OnErr result (self.new ≡ self.old) }
    {
        make_room(&mut self.body, inserted.len())?;
        let edit = BodyEdit {
            body: self.body.as_str(),
            starts: &self.starts,
            w: self.w,
            start,
            stop,
            inserted,
        };
        edited_starts(&mut self.spare, &edit, tables)?;
        self.is_unformatted = edit_levels(
            &mut self.levels,
            self.is_unformatted,
            &edit,
            tables,
            self.base,
        )?;
        replace(&mut self.body, start, stop, inserted);
        mem::swap(&mut self.starts, &mut self.spare);
        Ok(())
    }
}
