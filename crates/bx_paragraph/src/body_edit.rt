//! An edit of a paragraph's body, and its result.
ghost use Rattle.std.specs.Prelude.{◌≡◌, ◌≤◌, IfOk, drop, string_bytes};
ghost use Rattle.std.specs.Str.{IsCharBoundary};
ghost use Rattle.bx_paragraph.specs.BodyEdits.{IsEdit, changed};

use crate::text_edit::joined;
use bx_rows::RowStart;
use std::alloc::{AllocError, Global};

/// An edit that replaces the bytes `start..stop` of a body with the text `inserted`. `starts` are the body's row starts before the
/// edit, in a window of `w` columns.
#[derive(Clone, Copy)]
pub(crate) struct BodyEdit<'t> {
    pub(crate) body: &'t str,
    pub(crate) starts: &'t [RowStart],
    pub(crate) w: u16,
    pub(crate) start: usize,
    pub(crate) stop: usize,
    pub(crate) inserted: &'t str,
}

/// The edited body from an offset before the edit on.
pub(crate) fn changed_from(
    alloc: Global,
    edit: &BodyEdit<'_>,
    from: usize,
) -> Result<String, AllocError>
    requires edit { IsEdit edit.now }
    requires from { IsCharBoundary edit.now.body.now from }
    requires before { from ≤ edit.now.start }
    ensures { IfOk result (λ s. string_bytes s ≡ drop from (changed edit.now)) }
{
    let before = &edit.body[from..edit.start];
    // The proof compares the text, so it has a name.
    let text = joined(alloc, before, edit.inserted, &edit.body[edit.stop..])?;
    Ok(text)
}
