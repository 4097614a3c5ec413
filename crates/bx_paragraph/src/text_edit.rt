//! Edits of a body in parts, and the update of its levels by strong characters that cut an edit off.
ghost use Rattle.std.specs.Prelude.{◌≡◌, ◌≤◌, ◌+◌, ◌++◌, IfOk, OnErr, chars, length, string_bytes, false, true};
ghost use Rattle.bx_levels.specs.resolve.Edited.{HasNoFormatting};
ghost use Rattle.bx_paragraph.specs.Cuts.{AreAsBefore, FollowsEdit, IsStrongIn};

use crate::cut_off::{is_bare_edit, is_cut_off};
use crate::direction::Direction;
use crate::strong::{Strong, first_strong, last_strong};
use bx_common::{OutOfMemory, Range};
use bx_levels::{Levels, follow_between, follow_to_end};
use bx_rows::char_count;
use bx_ucd::BidiData;
use std::alloc::{AllocError, Global};

/// An edit of a body, in parts: the old body is `front`, `near`, `removed` and `behind`, and the new one has `inserted` in place of
/// `removed`.
#[derive(Clone, Copy)]
pub(crate) struct TextEdit<'t> {
    pub(crate) front: &'t str,
    /// The number of characters of `front`.
    pub(crate) ahead: usize,
    /// The text just before the edit, in which the strong character before it is looked for.
    pub(crate) near: &'t str,
    pub(crate) removed: &'t str,
    pub(crate) inserted: &'t str,
    pub(crate) behind: &'t str,
}

/// Three texts joined.
pub(crate) fn joined(
    alloc: Global,
    first: &str,
    middle: &str,
    last: &str,
) -> Result<String, AllocError>
    ensures { IfOk result (λ s. string_bytes s ≡ first.now ++ (middle.now ++ last.now)) }
{
    let room = first.len().saturating_add(middle.len());
    let mut text = String::with_capacity(alloc, room.saturating_add(last.len()))?;
    text.push_str(first)?;
    text.push_str(middle)?;
    text.push_str(last)?;
    Ok(text)
}

/// Updates levels for an edit between the strong characters `before` and `behind`. Returns false, and changes nothing, if they do
/// not cut it off.
fn follow_within<D: BidiData>(
    levels: &mut Levels,
    tables: &D,
    edit: &TextEdit<'_>,
    before: Strong,
    behind: Strong,
) -> Result<bool, OutOfMemory>
    requires low { levels.old.paragraph ≤ 1 }
    requires before { IsStrongIn (D.data tables.now) edit.now.near.now before }
    requires behind { IsStrongIn (D.data tables.now) edit.now.behind.now behind }
    requires ahead { edit.now.ahead ≡ length (chars edit.now.front.now) }
    requires whole { length levels.old.each.items ≡ edit.now.ahead
        + (length (chars edit.now.near.now) + (length (chars edit.now.removed.now) + length (chars edit.now.behind.now))) }
    ensures follows { IfOk result (λ b. b ≡ true → FollowsEdit (D.data tables.now) edit.now levels.old levels.new) }
    ensures unformatted { IfOk result (λ b. b ≡ true → HasNoFormatting (D.data tables.now) (chars edit.now.inserted.now)) }
    ensures none { IfOk result (λ b. b ≡ false → AreAsBefore levels.old levels.new) }
    ensures err { OnErr result (AreAsBefore levels.old levels.new) }
{
    if !is_cut_off(edit, before, behind, tables) {
        return Ok(false);
    }
    let alloc = *levels.each.allocator();
    let from = &edit.near[before.start..];
    let piece = joined(alloc, from, edit.inserted, &edit.behind[..behind.stop])?;
    let start = edit.ahead + before.index;
    let stop = edit.ahead + char_count(edit.near) + char_count(edit.removed) + behind.index + 1;
    follow_between(levels, tables, piece.as_str(), Range { start, stop })?;
    Ok(true)
}

/// Updates levels, from the strong character `before` to the body's end, for an edit without a strong character after it. Returns
/// false, and changes nothing, if one of the characters from there on, old or new, is a bracket, a formatting character or of
/// class BN.
fn follow_behind<D: BidiData>(
    levels: &mut Levels,
    tables: &D,
    edit: &TextEdit<'_>,
    before: Strong,
) -> Result<bool, OutOfMemory>
    requires low { levels.old.paragraph ≤ 1 }
    requires before { IsStrongIn (D.data tables.now) edit.now.near.now before }
    requires ahead { edit.now.ahead ≡ length (chars edit.now.front.now) }
    requires whole { length levels.old.each.items ≡ edit.now.ahead
        + (length (chars edit.now.near.now) + (length (chars edit.now.removed.now) + length (chars edit.now.behind.now))) }
    ensures follows { IfOk result (λ b. b ≡ true → FollowsEdit (D.data tables.now) edit.now levels.old levels.new) }
    ensures unformatted { IfOk result (λ b. b ≡ true → HasNoFormatting (D.data tables.now) (chars edit.now.inserted.now)) }
    ensures none { IfOk result (λ b. b ≡ false → AreAsBefore levels.old levels.new) }
    ensures err { OnErr result (AreAsBefore levels.old levels.new) }
{
    let left = &edit.near[before.stop..];
    if !is_bare_edit(edit, left, edit.behind, Direction::Either, tables) {
        return Ok(false);
    }
    let alloc = *levels.each.allocator();
    let from = &edit.near[before.start..];
    let piece = joined(alloc, from, edit.inserted, edit.behind)?;
    follow_to_end(levels, tables, piece.as_str(), edit.ahead + before.index)?;
    Ok(true)
}

/// Updates levels for an edit that strong characters cut off. Returns false, and changes nothing, if they do not.
///
/// Errors: `OutOfMemory`, and nothing has changed.
pub(crate) fn follow<D: BidiData>(
    levels: &mut Levels,
    tables: &D,
    edit: &TextEdit<'_>,
) -> Result<bool, OutOfMemory>
    requires ahead { edit.now.ahead ≡ length (chars edit.now.front.now) }
    requires whole { length levels.old.each.items ≡ edit.now.ahead
        + (length (chars edit.now.near.now) + (length (chars edit.now.removed.now) + length (chars edit.now.behind.now))) }
    ensures follows { IfOk result (λ b. b ≡ true → FollowsEdit (D.data tables.now) edit.now levels.old levels.new) }
    ensures unformatted { IfOk result (λ b. b ≡ true → HasNoFormatting (D.data tables.now) (chars edit.now.inserted.now)) }
    ensures none { IfOk result (λ b. b ≡ false → AreAsBefore levels.old levels.new) }
    ensures err { OnErr result (AreAsBefore levels.old levels.new) }
{
    // Never so; it is tested, so that it needs no proof.
    if levels.paragraph > 1 {
        return Ok(false);
    }
    let Some(before) = last_strong(edit.near, tables) else {
        return Ok(false);
    };
    match first_strong(edit.behind, tables) {
        Some(behind) => follow_within(levels, tables, edit, before, behind),
        None => follow_behind(levels, tables, edit, before),
    }
}
