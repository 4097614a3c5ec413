//! Copies of a document's text with its history, and the return to one.
ghost use Rattle.std.specs.Prelude.{◌≡◌, IfOk};
ghost use Rattle.bx_document.specs.Backup.{IsBackup};

use crate::document::Document;
use bx_common::OutOfMemory;
use bx_text::{Index, Text};
use bx_ucd::BidiData;

/// A copy of a text with its past and its future, and the index of it.
#[derive(Drop)]
pub struct Backup {
    pub(crate) text: Text,
    pub(crate) index: Index,
}

impl<D: BidiData + Drop> Document<D> {
    /// A copy of the text with its past and its future, to which the document can return.
    pub fn backup(&self) -> Result<Backup, OutOfMemory>
        ensures text { IfOk result (λ b. b.text.edited ≡ self.now.document.content) }
        ensures is { IfOk result (IsBackup (D.data self.now.tables)) }
    {
        // The proof refers to the copy by this name.
        let backup = self.indexed.backup(self.alloc)?;
        Ok(backup)
    }

    /// Returns to a copy. Allocates nothing.
    pub fn restore(&mut self, backup: Backup)
        requires is { IsBackup (D.data self.old.tables) backup }
        ensures { self.new ≡ record self.old { document = record self.old.document { content = backup.text.edited } } }
    {
        self.indexed.restore(backup);
    }
}
