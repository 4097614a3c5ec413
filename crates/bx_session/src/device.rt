//! What a run reads, journals, writes and saves through: a reader, a journal, a writer and a store as one, so that the order among
//! them is told.

use crate::session::Session;
use crate::status::{Refused, Status};
use bx_bytes::WriteFault;
use bx_keys::Key;
use bx_ucd::BidiData;
use thiserror::Error;

/// A call of a device failed.
#[derive(Clone, Copy, Debug, Error)]
#[error("the device failed")]
pub struct DeviceFault;

/// A source of input, a journal, an output and a store. `run_device` tells in which order a run calls them.
pub trait Device {
    ghost use Rattle.std.specs.Prelude.{◌≡◌, ◌≤◌, true, IfErr, IfOk, IfSome, OnErr, OnOk, length, take};
    ghost use Rattle.bx_session.specs.declared.action.Action.{Action};
    ghost use Rattle.bx_keys.specs.Decoder.{HasSides};
    ghost use Rattle.bx_session.specs.Session.{Session as SessionValue, StoreState, is_painted_press};
    ghost use Rattle.bx_session.specs.Feeding.{Presses};
    ghost use Rattle.bx_session.specs.Painting.{PressPaints};
    ghost use Rattle.bx_session.specs.Running.{PressAnswer};

    /// Whether a call leads from one state of the device to another.
    ghost did: { Self → Action → Self → Type 0 };

    /// Whether the obeying of a press, with its answer, leads from one state of the device and a session to another.
    ghost obeyed: { Self → SessionValue → PressAnswer → Self → SessionValue → Type 0 };

    /// What the device's store has.
    ghost stored: { Self → StoreState };

    /// Reads at most 256 bytes (`read_size` of specs/Running.antt) to the front of the buffer, and returns their number, which is 0
    /// at the end of the input.
    fn read(&mut self, buffer: &mut [u8; 256]) -> Result<usize, DeviceFault>
        ensures bound { IfOk result (λ count. count ≤ length buffer.new) }
        ensures most { IfOk result (λ count. count ≤ 256) }
        ensures did { IfOk result (λ count. did self.old (Action.Read (take count buffer.new)) self.new) }
        ensures failed { OnErr result (did self.old Action.ReadFailed self.new) }
        ensures stored { stored self.new ≡ stored self.old };

    /// Hands bytes to the journal, which may hold them back until a later call.
    fn append(&mut self, bytes: &[u8])
        ensures did { did self.old (Action.Append bytes.now) self.new }
        ensures stored { stored self.new ≡ stored self.old };

    /// Has a session obey a press, as [`Session::press`] does with the device's store.
    ///
    /// Errors: `Edit` and `Paint` if memory runs out, as there.
    fn obey<D: BidiData + Drop>(
        &mut self,
        session: &mut Session<D>,
        key: Option<Key>,
    ) -> Result<Status, Refused>
        requires sides { IfSome key HasSides }
        ensures obeyed { obeyed self.old session.old.session (key, result) self.new session.new.session }
        ensures after_press { Presses (D.data session.old.tables) session.old.session (stored self.old) key result
            session.new.session (stored self.new) }
        ensures paints { is_painted_press session.old.session key ≡ true →
            OnOk result (PressPaints (D.data session.old.tables) session.old.session key session.new.session) }
        ensures tables { session.new.tables ≡ session.old.tables };

    /// Writes all bytes.
    ///
    /// Errors: `WriteFault`: the first `written` bytes were written.
    fn write(&mut self, bytes: &[u8]) -> Result<(), WriteFault>
        ensures did { OnOk result (did self.old (Action.Write bytes.now) self.new) }
        ensures count { IfErr result (λ fault. fault.written ≤ length bytes.now) }
        ensures failed { IfErr result (λ fault. did self.old (Action.WriteFailed (take fault.written bytes.now)) self.new) }
        ensures stored { stored self.new ≡ stored self.old };

    /// Flushes the output.
    fn flush(&mut self) -> Result<(), DeviceFault>
        ensures did { OnOk result (did self.old Action.Flush self.new) }
        ensures failed { OnErr result (did self.old Action.FlushFailed self.new) }
        ensures stored { stored self.new ≡ stored self.old };
}
