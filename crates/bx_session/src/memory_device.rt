//! A device in memory, which logs its calls: for runs without a terminal, as in tests.

ghost use Rattle.std.specs.Prelude.{◌≡◌, [], Some, IfSome, option_map, vec_items};
ghost use Rattle.bx_store.specs.Stores.{no_faults};
ghost use Rattle.bx_session.specs.InMemory.{DidLog, stored_in};

use crate::action::{Action, ActionBytes};
use crate::device::{Device, DeviceFault};
use crate::session::Session;
use crate::status::{Refused, Status};
use bx_bytes::WriteFault;
use bx_keys::Key;
use bx_store::MemoryStore;
use bx_ucd::BidiData;
use std::alloc::{AllocError, Global};
use std::marker::Model;
use std::mem;

/// A device whose input and store are in memory. It logs each call but `obey`; once memory runs out for the log, there is none. Its
/// calls never fail.
#[derive(Drop)]
pub struct MemoryDevice {
    // the allocator of the logged bytes
    alloc: Global,
    // the bytes that no read gave yet
    input: Vec<u8>,
    // the calls so far, in order; None once memory ran out for them
    log: Option<Vec<Action>>,
    // where a session saves
    store: MemoryStore,
}

impl Model for MemoryDevice {
    ghost use Rattle.std.specs.Prelude.{option_map, vec_items};
    ghost use Rattle.bx_session.specs.InMemory.{DeviceState};

    ghost Value = { DeviceState };

    ghost view = { λ s. record { input = s.input.items; log = option_map vec_items s.log; store = s.store } };
}

impl MemoryDevice {
    /// A device with this input, an empty log and an empty store.
    pub fn new(alloc: Global, input: Vec<u8>) -> Self
        ensures input { result.input ≡ input.items }
        ensures log { result.log ≡ Some [] }
        ensures stored { stored_in result ≡ record { contents = Some []; faults = no_faults } }
    {
        MemoryDevice {
            alloc,
            input,
            log: Some(Vec::new(alloc)),
            store: MemoryStore::new(alloc, None),
        }
    }

    /// The log; None if memory ran out for it.
    pub fn log(&self) -> Option<&[Action]>
        ensures { IfSome result (λ actions. self.now.log ≡ Some actions.now) }
    {
        match &self.log {
            Some(actions) => Some(actions.as_slice()),
            None => None,
        }
    }

    /// Logs an action; an error says that memory ran out for its bytes, and there is no log from then on.
    fn note(&mut self, action: Result<Action, AllocError>)
        ensures input { self.new.input ≡ self.old.input }
        ensures store { self.new.store ≡ self.old.store }
        ensures log { DidLog self.old.log action self.new.log }
    {
        let log = mem::replace(&mut self.log, None);
        self.log = with_action(log, action);
    }
}

/// The log with one action more; None if memory ran out, now or before.
fn with_action(log: Option<Vec<Action>>, action: Result<Action, AllocError>) -> Option<Vec<Action>>
    ensures { DidLog (option_map vec_items log) action (option_map vec_items result) }
{
    match (log, action) {
        (Some(mut log), Ok(action)) => match log.push(action) {
            Ok(()) => Some(log),
            Err(_) => None,
        },
        _ => None,
    }
}

impl Device for MemoryDevice {
    ghost use Rattle.bx_session.specs.InMemory.{DidInMemory, ObeyedInMemory, stored_in};

    ghost did = { DidInMemory };

    ghost obeyed = { λ old before answer new after. ObeyedInMemory old new };

    ghost stored = { stored_in };

    fn read(&mut self, buffer: &mut [u8; 256]) -> Result<usize, DeviceFault> {
        let count = self.input.len().min(256);
        let bytes = &self.input[..count];
        buffer[..count].copy_from_slice(bytes);
        let action = ActionBytes::copy(self.alloc, bytes).map(Action::Read);
        self.input.drain(..count);
        self.note(action);
        Ok(count)
    }

    fn append(&mut self, bytes: &[u8]) {
        let action = ActionBytes::copy(self.alloc, bytes).map(Action::Append);
        self.note(action);
    }

    fn obey<D: BidiData + Drop>(
        &mut self,
        session: &mut Session<D>,
        key: Option<Key>,
    ) -> Result<Status, Refused> {
        session.press(key, &mut self.store)
    }

    fn write(&mut self, bytes: &[u8]) -> Result<(), WriteFault> {
        let action = ActionBytes::copy(self.alloc, bytes).map(Action::Write);
        self.note(action);
        Ok(())
    }

    fn flush(&mut self) -> Result<(), DeviceFault> {
        self.note(Ok(Action::Flush));
        Ok(())
    }
}
