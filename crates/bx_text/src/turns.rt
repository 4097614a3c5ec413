//! Many steps of the past or the future turned at once, that is, undone or redone.

ghost use Rattle.std.specs.List.{reduce};
ghost use Rattle.std.specs.Prelude.{◌≡◌, ◌+◌, ◌*◌, ◌<◌, ◌≤◌, ◌^◌, OnErr, OnOk, length, map, reverse, take, vec_len, vec_capacity};
ghost use Rattle.bx_text.specs.Edits.{largest_text, merged};
ghost use Rattle.bx_text.specs.Steps.{Apply, CanTurn, HaveTurned, step_change};

use crate::change::Change;
use crate::pieces::{Pieces, Spares};
use crate::step::{Step, Way};
use crate::swap::turn;
use std::alloc::AllocError;

/// One change in place of two, of which `next` was made after `first`.
pub fn merge(first: Change, next: Change) -> Change
    requires between { (first.start + first.added ≤ largest_text) × (next.start + next.removed ≤ largest_text) }
    requires before { first.removed ≤ largest_text }
    requires after { next.added ≤ largest_text }
    ensures { result ≡ merged first next }
{
    let start = first.start.min(next.start);
    let stop = (first.start + first.added).max(next.start + next.removed);
    Change {
        start,
        removed: stop - start + first.removed - first.added,
        added: stop - start + next.added - next.removed,
        place: next.place,
    }
}

/// The one change that the last `n` steps make, or all if there are fewer, applied from the last one back; None if `n` is 0 or
/// there are no steps. Allocates nothing.
pub fn change_of_last(steps: &[Step], n: usize, way: Way) -> Option<Change>
    requires { Apply steps.now }
    ensures { result ≡ reduce merged (map (step_change way) (take n (reverse steps.now))) }
{
    if n == 0 {
        return None;
    }
    let (step, mut rest) = steps.split_last()?;
    let mut whole = step.change(way);
    for _others in 1..n {
        let Some((step, fewer)) = rest.split_last() else {
            return Some(whole);
        };
        whole = merge(whole, step.change(way));
        rest = fewer;
    }
    Some(whole)
}

/// Makes room to turn `n` steps, each with at most two nodes (`swap`). If memory runs out, the steps are unchanged, and no room
/// is lost.
pub fn make_room_to_turn(
    to: &mut Vec<Step>,
    spares: &mut Spares,
    n: usize,
) -> Result<(), AllocError>
    requires few { 2 * n < 2 ^ 64 }
    ensures items { to.new.items ≡ to.old.items }
    ensures len { vec_len to.new ≡ vec_len to.old }
    ensures capacity { vec_capacity to.old ≤ vec_capacity to.new }
    ensures spares { spares.old ≤ spares.new }
    ensures room { OnOk result (vec_len to.new + n ≤ vec_capacity to.new) }
    ensures enough { OnOk result (2 * n ≤ spares.new) }
{
    spares.fill(2 * n)?;
    to.reserve(n)?;
    Ok(())
}

/// Applies the last `n` steps of `from`, one after another, and pushes the steps that reverse them to `to`, in room made
/// before. Allocates nothing.
pub fn turn_times(
    pieces: &mut Pieces,
    from: &mut Vec<Step>,
    to: &mut Vec<Step>,
    spares: &mut Spares,
    n: usize,
)
    requires sound { CanTurn (record { pieces = pieces.old; from = from.old.items; to = to.old.items }) }
    requires steps { n ≤ length from.old.items }
    requires spare { 2 * n ≤ spares.old }
    requires room { vec_len to.old + n ≤ vec_capacity to.old }
    ensures { HaveTurned n
        (record { pieces = pieces.old; from = from.old.items; to = to.old.items })
        (record { pieces = pieces.new; from = from.new.items; to = to.new.items }) }
{
    for _turn in 0..n {
        turn(pieces, from, to, spares);
    }
}
