//! A step: an edit to undo or redo, as the past and the future keep it.

ghost use Rattle.std.specs.Prelude.{◌≡◌, IfOk};
ghost use Rattle.bx_text.specs.Steps.{step_change};

use crate::change::Change;
use crate::pieces::Pieces;
use std::alloc::{AllocError, Global};

/// Where a step leads: back to the text before an edit, or again to the text after it.
#[derive(Clone, Copy)]
pub enum Way {
    Back,
    Again,
}

/// An edit to undo or redo: its position and its replacement. In the past it undoes, in the future it redoes.
#[derive(Drop)]
pub struct Step {
    /// Offset of the first byte to replace.
    pub start: usize,
    /// The replacement.
    pub span: Pieces,
    /// Number of bytes to replace.
    pub len: usize,
    /// The place before the edit: the cursor's offset.
    pub before: usize,
    /// The place after the edit.
    pub after: usize,
}

impl Step {
    /// A copy.
    ///
    /// Errors: `AllocError`.
    pub fn copy(&self, alloc: Global) -> Result<Step, AllocError>
        ensures { IfOk result (λ s. s ≡ self.now) }
    {
        let span = self.span.copy(alloc)?;
        Ok(Step {
            start: self.start,
            span,
            len: self.len,
            before: self.before,
            after: self.after,
        })
    }

    /// The change that the step makes. Allocates nothing.
    pub fn change(&self, way: Way) -> Change
        ensures { result ≡ step_change way self.now }
    {
        let place = match way {
            Way::Back => self.before,
            Way::Again => self.after,
        };
        Change {
            start: self.start,
            removed: self.len,
            added: self.span.len(),
            place,
        }
    }
}
