//! A reader, a recorder, a writer and a store as a device: the device of the programs.

ghost use Rattle.std.specs.Prelude.{◌≡◌};

use crate::device::{Device, DeviceFault};
use crate::journal::{Journal, Recorder};
use crate::session::Session;
use crate::status::{Refused, Status};
use bx_bytes::{WriteFault, write_all};
use bx_keys::Key;
use bx_store::Store;
use bx_ucd::BidiData;
use std::io::{Read, Write};

/// A device of a reader, a recorder, a writer and a store.
// One lifetime for all four, since the borrow checker does not cover a call with several where the session's type names `'static`.
#[derive(Drop)]
pub struct Wired<'a, R: Read, J: Journal + Drop, W: Write, S: Store> {
    pub(crate) reader: &'a mut R,
    pub(crate) recorder: &'a mut Recorder<J>,
    pub(crate) writer: &'a mut W,
    pub(crate) store: &'a mut S,
}

impl<'a, R: Read, J: Journal + Drop, W: Write, S: Store> Wired<'a, R, J, W, S> {
    /// A device of these four.
    pub fn new(
        reader: &'a mut R,
        recorder: &'a mut Recorder<J>,
        writer: &'a mut W,
        store: &'a mut S,
    ) -> Self
        ensures reader { result.reader.ghost_name ≡ reader.entry.ghost_name }
        ensures recorder { result.recorder.ghost_name ≡ recorder.entry.ghost_name }
        ensures writer { result.writer.ghost_name ≡ writer.entry.ghost_name }
        ensures store { result.store.ghost_name ≡ store.entry.ghost_name }
        ensures reader_now { result.reader.now ≡ reader.old }
        ensures recorder_now { result.recorder.now ≡ recorder.old }
        ensures writer_now { result.writer.now ≡ writer.old }
        ensures store_now { result.store.now ≡ store.old }
    {
        Wired {
            reader,
            recorder,
            writer,
            store,
        }
    }
}

impl<R: Read, J: Journal + Drop, W: Write, S: Store> Device for Wired<'_, R, J, W, S> {
    ghost use Rattle.bx_session.specs.Session.{store_state};
    ghost use Rattle.bx_session.specs.Wire.{DidWired, ObeyedWired};

    ghost did = { λ old action new. DidWired R.remaining J.contents J.failure_count W.contents old action new };

    ghost obeyed = { λ old before answer new after. ObeyedWired old new };

    ghost stored = { λ device. store_state S.contents S.faults device.store.now };

    fn read(&mut self, buffer: &mut [u8; 256]) -> Result<usize, DeviceFault> {
        match self.reader.read(buffer) {
            Ok(count) => Ok(count),
            Err(_) => Err(DeviceFault),
        }
    }

    fn append(&mut self, bytes: &[u8]) {
        self.recorder.keep(bytes);
    }

    fn obey<D: BidiData + Drop>(
        &mut self,
        session: &mut Session<D>,
        key: Option<Key>,
    ) -> Result<Status, Refused> {
        session.press(key, self.store)
    }

    fn write(&mut self, bytes: &[u8]) -> Result<(), WriteFault> {
        write_all(self.writer, bytes)
    }

    fn flush(&mut self) -> Result<(), DeviceFault> {
        match self.writer.flush() {
            Ok(()) => Ok(()),
            Err(_) => Err(DeviceFault),
        }
    }
}
