//! Whether strong characters (UAX #9, table 4: L, R and AL) on both sides cut off an edit, so that the levels outside them stay.
ghost use Rattle.std.specs.Prelude.{◌≡◌, true, take};
ghost use Rattle.bx_paragraph.specs.Cuts.{are_bare, has_no_bracket, IsBareEdit, IsCutOffEdit, IsOpenEdit, IsStrongIn};

use crate::direction::{Direction, are_bare, direction_between, has_no_bracket};
use crate::strong::Strong;
use crate::text_edit::TextEdit;
use bx_ucd::BidiData;

/// Whether the edit's texts and the texts `left` and `right` of it, up to the strong characters, are of a direction and have no
/// brackets.
pub(crate) fn is_bare_edit<D: BidiData>(
    edit: &TextEdit<'_>,
    left: &str,
    right: &str,
    direction: Direction,
    tables: &D,
) -> bool
    ensures { result ≡ true → IsBareEdit (D.data tables.now) direction edit.now left.now right.now }
{
    if !are_bare(left, direction, tables) || !are_bare(right, direction, tables) {
        return false;
    }
    if !are_bare(edit.removed, direction, tables) {
        return false;
    }
    are_bare(edit.inserted, direction, tables)
}

/// Whether no bracket precedes `before`, the strong character before an edit.
fn is_open_before<D: BidiData>(edit: &TextEdit<'_>, before: Strong, tables: &D) -> bool
    requires { IsStrongIn (D.data tables.now) edit.now.near.now before }
    ensures { result ≡ true → (has_no_bracket (D.data tables.now) edit.now.front.now ≡ true)
        × (has_no_bracket (D.data tables.now) (take before.start edit.now.near.now) ≡ true) }
{
    if !has_no_bracket(&edit.near[..before.start], tables) {
        return false;
    }
    has_no_bracket(edit.front, tables)
}

/// Whether no bracket precedes the first strong character, or none follows the second. Checks the shorter side first.
fn is_open<D: BidiData>(edit: &TextEdit<'_>, before: Strong, behind: Strong, tables: &D) -> bool
    requires before { IsStrongIn (D.data tables.now) edit.now.near.now before }
    requires behind { IsStrongIn (D.data tables.now) edit.now.behind.now behind }
    ensures { result ≡ true → IsOpenEdit (D.data tables.now) edit.now before behind }
{
    if edit.front.len() < edit.behind.len() && is_open_before(edit, before, tables) {
        return true;
    }
    if has_no_bracket(&edit.behind[behind.stop..], tables) {
        return true;
    }
    is_open_before(edit, before, tables)
}

/// Whether the strong characters `before` an edit and `behind` it cut it off: all characters between them are of their direction,
/// or of either direction if no bracket pair can enclose both.
pub(crate) fn is_cut_off<D: BidiData>(
    edit: &TextEdit<'_>,
    before: Strong,
    behind: Strong,
    tables: &D,
) -> bool
    requires before { IsStrongIn (D.data tables.now) edit.now.near.now before }
    requires behind { IsStrongIn (D.data tables.now) edit.now.behind.now behind }
    ensures { result ≡ true → IsCutOffEdit (D.data tables.now) edit.now before behind }
{
    let left = &edit.near[before.stop..];
    let right = &edit.behind[..behind.start];
    let direction = direction_between(before.class, behind.class);
    if is_bare_edit(edit, left, right, direction, tables) {
        return true;
    }
    if !is_bare_edit(edit, left, right, Direction::Either, tables) {
        return false;
    }
    is_open(edit, before, behind, tables)
}
