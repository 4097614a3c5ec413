//! The lengths of the past at which undo groups begin: an undo or a redo of a group ends at one, or where no edit is left.

ghost use Rattle.std.specs.Prelude.{◌≡◌, ◌+◌, ◌-◌, ◌≤◌, [], true, false, take, drop, length, IfOk, OnOk, OnErr};
ghost use Rattle.bx_editor.specs.undo_groups.Groups.{above, below, edited, run_end, run_start};
ghost use Rattle.bx_editor.specs.undo_groups.Model.{Rise};

use bx_common::OutOfMemory;
use std::alloc::Global;
use std::marker::Model;

/// How many of some rising numbers are below `n`.
fn count_below(numbers: &[usize], n: usize) -> usize
    requires { Rise numbers.now }
    ensures bound { result ≤ length numbers.now }
    ensures below { take result numbers.now ≡ below n numbers.now }
{
    numbers.partition_point(|r| *r < n)
}

/// How many of some rising numbers are not above `n`.
fn count_up_to(numbers: &[usize], n: usize) -> usize
    requires { Rise numbers.now }
    ensures bound { result ≤ length numbers.now }
    ensures above { drop result numbers.now ≡ above n numbers.now }
{
    numbers.partition_point(|r| *r <= n)
}

/// The lengths of the past at which undo groups begin. A length counts edits.
#[derive(Drop)]
pub struct UndoGroups {
    // lengths of the past, each above the one before
    numbers: Vec<usize>,
    // whether the next edit allocates nothing
    room: bool,
}

impl Model for UndoGroups {
    ghost use Rattle.bx_editor.specs.undo_groups.Model.{UndoGroupsState};

    ghost Value = { UndoGroupsState };

    ghost use Rattle.bx_editor.specs.undo_groups.Model.{AreUndoGroups, undo_groups_of};

    ghost view = { undo_groups_of };

    ghost invariant = { AreUndoGroups };
}

impl UndoGroups {
    /// No group.
    pub fn new(alloc: Global) -> UndoGroups
        ensures numbers { result.numbers ≡ [] }
        ensures room { result.room ≡ false }
    {
        UndoGroups {
            numbers: Vec::new(alloc),
            room: false,
        }
    }

    /// A copy, in which no room is made.
    ///
    /// Errors: `OutOfMemory`.
    pub fn copy(&self) -> Result<UndoGroups, OutOfMemory>
        ensures { IfOk result (λ r. r.numbers ≡ self.now.numbers) }
    {
        let numbers = self.numbers.clone()?;
        Ok(UndoGroups {
            numbers,
            room: false,
        })
    }

    /// Makes room: after Ok the next `edited` allocates nothing.
    ///
    /// Errors: `OutOfMemory`, and nothing has changed.
    pub fn reserve(&mut self) -> Result<(), OutOfMemory>
        ensures numbers { self.new.numbers ≡ self.old.numbers }
        ensures ok { OnOk result (self.new.room ≡ true) }
        ensures err { OnErr result (self.new ≡ self.old) }
    {
        self.numbers.reserve(1)?;
        self.room = true;
        Ok(())
    }

    /// Takes in an edit that was made at the past's length `n`, and goes on with the group before or begins one.
    pub fn edited(&mut self, n: usize, goes_on: bool)
        requires room { self.old.room ≡ true }
        ensures numbers { self.new.numbers ≡ edited self.old.numbers n goes_on }
        ensures room { self.new.room ≡ false }
    {
        let kept = count_below(&self.numbers, n);
        self.numbers.truncate(kept);
        self.room = false;
        if goes_on {
            return;
        }
        self.numbers.push(n).unwrap();
    }

    /// The length of the past to which an undo of a group goes from the length `n`: the last at which a group begins before it,
    /// or 0.
    pub fn start_before(&self, n: usize) -> usize
        ensures { result ≡ run_start self.now.numbers n }
    {
        let count = count_below(&self.numbers, n);
        if count == 0 {
            return 0;
        }
        self.numbers[count - 1]
    }

    /// How many edits a redo of a group makes again from the past's length `n`, where `left` edits can be made again: those up to
    /// the next at which a group begins, or all.
    pub fn redo_count(&self, n: usize, left: usize) -> usize
        ensures { result ≡ run_end self.now.numbers n (n + left) - n }
    {
        let count = count_up_to(&self.numbers, n);
        if count == self.numbers.len() {
            return left;
        }
        left.min(self.numbers[count].saturating_sub(n))
    }
}
