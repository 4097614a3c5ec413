//! A copy of a text with its past and its future.

ghost use Rattle.std.specs.Prelude.{◌≡◌, None, IfOk};

use crate::pieces::Spares;
use crate::step::Step;
use crate::text::Text;
use std::alloc::{AllocError, Global};

/// Copies of steps.
///
/// Errors: `AllocError`.
fn copies(alloc: Global, steps: &[Step]) -> Result<Vec<Step>, AllocError>
    ensures { IfOk result (λ copies. copies.items ≡ steps.now) }
{
    let mut copied = Vec::with_capacity(alloc, steps.len())?;
    for step in steps {
        copied.push(step.copy(alloc)?)?;
    }
    Ok(copied)
}

impl Text {
    /// A copy of the text with its past and its future. No room is made in it.
    ///
    /// Errors: `AllocError`.
    pub fn copy(&self) -> Result<Text, AllocError>
        ensures { IfOk result (λ t. t ≡ record { edited = self.now.edited; room = None }) }
    {
        let alloc = *self.added.allocator();
        Ok(Text {
            opened: self.opened.clone()?,
            added: self.added.clone()?,
            pieces: self.pieces.copy(alloc)?,
            past: copies(alloc, &self.past)?,
            future: copies(alloc, &self.future)?,
            spares: Spares::new(alloc),
            room: None,
        })
    }
}
