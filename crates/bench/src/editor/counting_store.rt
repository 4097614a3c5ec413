//! A store that keeps nothing, so that a measured save is the editor's work alone.

use bx_store::{Store, StoreFault};

/// A store that discards the bytes and counts them. Its calls never fail.
#[derive(Drop)]
pub(crate) struct CountingStore {
    // the number of bytes put, in all saves
    count: usize,
}

impl CountingStore {
    pub(crate) fn new() -> CountingStore {
        CountingStore { count: 0 }
    }

    /// The number of bytes put, in all saves.
    pub(crate) fn count(&self) -> usize {
        self.count
    }
}

impl Store for CountingStore {
    ghost use Rattle.std.specs.Prelude.{None, true};
    ghost use Rattle.bx_store.specs.Stores.{no_faults};

    ghost contents = { λ _. None };

    ghost draft = { λ _. None };

    ghost has_draft = { λ _. true };

    ghost faults = { λ _. no_faults };

    fn begin(&mut self) -> Result<(), StoreFault> {
        Ok(())
    }

    fn begin_over(&mut self) -> Result<(), StoreFault> {
        Ok(())
    }

    fn begin_as(&mut self, _name: &str) -> Result<(), StoreFault> {
        Ok(())
    }

    fn put(&mut self, bytes: &[u8]) -> Result<(), StoreFault> {
        self.count = self.count.wrapping_add(bytes.len());
        Ok(())
    }

    fn commit(&mut self) -> Result<(), StoreFault> {
        Ok(())
    }

    fn failures(&self) -> u64 {
        0
    }
}
