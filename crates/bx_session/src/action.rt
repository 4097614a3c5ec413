//! What a run does to its device, call by call: the entries of a device's log, by which a law tells the order of a run.

ghost use Rattle.std.specs.Prelude.{◌≡◌, IfOk};

use std::alloc::{AllocError, Global};
use std::marker::Model;

/// The bytes of an action.
#[derive(Drop)]
pub struct ActionBytes {
    items: Vec<u8>,
}

impl Model for ActionBytes {
    ghost use Rattle.std.specs.Prelude.{List, ℕ};

    ghost Value = { List ℕ };

    ghost view = { λ b. b.items.items };
}

impl ActionBytes {
    /// A copy of bytes.
    pub fn copy(alloc: Global, bytes: &[u8]) -> Result<ActionBytes, AllocError>
        ensures { IfOk result (λ copy. copy ≡ bytes.now) }
    {
        let mut items = Vec::new(alloc);
        items.extend_from_slice(bytes)?;
        Ok(ActionBytes { items })
    }

    /// The bytes.
    pub fn as_slice(&self) -> &[u8]
        ensures { result.now ≡ self.now }
    {
        self.items.as_slice()
    }
}

/// A call of a device, with its answer.
#[derive(Drop)]
pub enum Action {
    /// A read gave these bytes; none at the end of the input.
    Read(ActionBytes),
    /// A read failed.
    ReadFailed,
    /// The journal was handed these bytes.
    Append(ActionBytes),
    /// These bytes were written.
    Write(ActionBytes),
    /// These bytes were written, and then the writer failed.
    WriteFailed(ActionBytes),
    /// The writer was flushed.
    Flush,
    /// A flush failed.
    FlushFailed,
}
