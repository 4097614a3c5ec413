//! The trait of stores: what the editor asks of a place to save a text.
ghost use Rattle.std.specs.Prelude.{◌≡◌};

use crate::cause::SaveCause;
use std::alloc::AllocError;
use std::io;
use thiserror::Error;

/// A call of a store failed, with the cause if the store knows it.
#[derive(Clone, Copy, Debug, Error)]
#[error("the store failed")]
pub struct StoreFault {
    /// None if the store does not know it.
    pub cause: Option<SaveCause>,
}

impl From<SaveCause> for StoreFault {
    ghost use Rattle.std.specs.Prelude.{Some};
    ghost use Rattle.bx_store.specs.Stores.{fault};

    ghost from_gives = { λ cause new. new ≡ fault (Some cause) };

    fn from(cause: SaveCause) -> Self {
        StoreFault { cause: Some(cause) }
    }
}

impl From<AllocError> for StoreFault {
    ghost use Rattle.std.specs.Prelude.{Some};
    ghost use Rattle.bx_store.specs.Stores.{fault};
    ghost use Rattle.bx_store.specs.declared.cause.SaveCause.TheVariants.{OutOfMemory};

    ghost from_gives = { λ _ new. new ≡ fault (Some OutOfMemory) };

    fn from(_error: AllocError) -> Self {
        StoreFault {
            cause: Some(SaveCause::OutOfMemory),
        }
    }
}

impl From<io::Error> for StoreFault {
    ghost use Rattle.std.specs.Prelude.{Some};
    ghost use Rattle.std.specs.IoError.{error_kind};
    ghost use Rattle.bx_store.specs.Stores.{cause_of_kind, fault};

    ghost from_gives = { λ error new. new ≡ fault (Some (cause_of_kind (error_kind error))) };

    fn from(error: io::Error) -> Self {
        StoreFault {
            cause: Some(SaveCause::of(error.kind())),
        }
    }
}

/// A place to save a text. A save is `begin`, `put` for each piece of the text, and `commit`. `begin_over` and `begin_as` begin a
/// save too. The contents change only when `commit` returns Ok; they are then the pieces put since the save began, joined. An
/// Err ends the save and counts one failure, with its fault as the latest; counts saturate at the greatest u64.
///
/// A store that finds that another program changed the text answers `begin` with the cause `Changed`, as often as it is asked.
/// A save under a new name, if it succeeds, leads all later saves to that name; if it fails, they go where they went.
pub trait Store {
    ghost use Rattle.std.specs.Prelude.{◌≡◌, ℕ, Bool, true, List, Option, IfErr, OnOk, OnErr};
    ghost use Rattle.bx_store.specs.Stores.{no_bytes, with_bytes};
    ghost use Rattle.bx_store.specs.Faults.{with_fault};
    ghost use Rattle.bx_store.specs.declared.faults.Faults.{Faults};

    /// The stored bytes; None if the store does not model them.
    ghost contents: { Self → Option (List ℕ) };

    /// The bytes put since the save began; None if the store does not model them.
    ghost draft: { Self → Option (List ℕ) };

    /// Whether a save is in progress: it began with Ok, and since then no call failed and no `commit` came.
    ghost has_draft: { Self → Bool };

    /// The failed calls.
    ghost faults: { Self → Faults };

    /// Begins a save and discards the draft of an unfinished one.
    fn begin(&mut self) -> Result<(), StoreFault>
        ensures has_draft { OnOk result (has_draft self.new ≡ true) }
        ensures draft { OnOk result (draft self.new ≡ no_bytes (contents self.old)) }
        ensures stored { contents self.new ≡ contents self.old }
        ensures no_failure { OnOk result (faults self.new ≡ faults self.old) }
        ensures failure { IfErr result (λ fault. faults self.new ≡ with_fault fault (faults self.old)) };

    /// Begins a save, as `begin` does, over the change by another program that was answered last. A later change is answered anew.
    fn begin_over(&mut self) -> Result<(), StoreFault>
        ensures has_draft { OnOk result (has_draft self.new ≡ true) }
        ensures draft { OnOk result (draft self.new ≡ no_bytes (contents self.old)) }
        ensures stored { contents self.new ≡ contents self.old }
        ensures no_failure { OnOk result (faults self.new ≡ faults self.old) }
        ensures failure { IfErr result (λ fault. faults self.new ≡ with_fault fault (faults self.old)) };

    /// Begins a save under a new name. What is there already is never overwritten: the cause is `Exists` then, here or at the
    /// commit.
    fn begin_as(&mut self, name: &str) -> Result<(), StoreFault>
        ensures has_draft { OnOk result (has_draft self.new ≡ true) }
        ensures draft { OnOk result (draft self.new ≡ no_bytes (contents self.old)) }
        ensures stored { contents self.new ≡ contents self.old }
        ensures no_failure { OnOk result (faults self.new ≡ faults self.old) }
        ensures failure { IfErr result (λ fault. faults self.new ≡ with_fault fault (faults self.old)) };

    /// Appends bytes to the draft.
    fn put(&mut self, bytes: &[u8]) -> Result<(), StoreFault>
        requires { has_draft self.old ≡ true }
        ensures has_draft { OnOk result (has_draft self.new ≡ true) }
        ensures draft { OnOk result (draft self.new ≡ with_bytes bytes.now (draft self.old)) }
        ensures stored { contents self.new ≡ contents self.old }
        ensures no_failure { OnOk result (faults self.new ≡ faults self.old) }
        ensures failure { IfErr result (λ fault. faults self.new ≡ with_fault fault (faults self.old)) };

    /// Replaces the contents by the draft, and ends the save.
    fn commit(&mut self) -> Result<(), StoreFault>
        requires { has_draft self.old ≡ true }
        ensures stored { OnOk result (contents self.new ≡ draft self.old) }
        ensures not_stored { OnErr result (contents self.new ≡ contents self.old) }
        ensures no_failure { OnOk result (faults self.new ≡ faults self.old) }
        ensures failure { IfErr result (λ fault. faults self.new ≡ with_fault fault (faults self.old)) };

    /// Number of failed calls, at most the greatest u64.
    fn failures(&self) -> u64
        ensures { result ≡ (faults self.now).count };
}
