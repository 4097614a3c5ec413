//! Runs of a session over a device: the loop of every run, from the first picture to the end.

ghost use Rattle.std.specs.Prelude.{◌≡◌, List, ℕ, None, [], OnOk, OnErr, IsOk};
ghost use Rattle.bx_ucd.specs.Data.{Data};
ghost use Rattle.bx_session.specs.Log.{AreTaken, HasLogged, IsSending, Step};
ghost use Rattle.bx_session.specs.Running.{EndsWith, Sent};

use crate::device::Device;
use crate::end::{End, RunFault};
use crate::keeping::keep_and_obey;
use crate::session::Session;
use bx_keys::Decoder;
use bx_ucd::BidiData;

/// Writes the pending bytes and flushes.
fn send<D: BidiData + Drop, V: Device>(
    device: &mut V,
    session: &mut Session<D>,
) -> Result<(), RunFault>
    ensures sent { (written : List ℕ) × (steps : List Step) × Sent session.old.session session.new.session None None written
        × ((d : Data) → AreTaken V.did V.obeyed V.stored d device.old session.old.session steps device.new session.new.session)
        × IsSending result written steps }
    ensures stored { V.stored device.new ≡ V.stored device.old }
    ensures tables { session.new.tables ≡ session.old.tables }
    ensures all { OnOk result (session.new.session.pending ≡ []) }
    ensures fault { OnErr result (result ≡ Err RunFault.WriteFault) }
{
    if let Err(fault) = device.write(session.pending()) {
        session.taken(fault.written);
        return Err(RunFault::WriteFault);
    }
    let count = session.pending().len();
    session.taken(count);
    match device.flush() {
        Ok(()) => Ok(()),
        Err(_) => Err(RunFault::WriteFault),
    }
}

/// Runs a session: writes the pending bytes and flushes; then, until the end, reads at most 256 bytes, hands those
/// up to the session's end to the journal and obeys their presses, part by part, writes the pending bytes and flushes. Bytes after the
/// end are dropped, and a refused press does not end the run. `decoder` holds the bytes that wait for more, before and after.
///
/// Errors: `ReadFault`; `WriteFault`: a prefix of the output was written, and the rest is still pending; `ReadLimit` after
/// `limit` reads that each gave a byte.
pub fn run_device<D: BidiData + Drop, V: Device>(
    limit: u64,
    device: &mut V,
    decoder: &mut Decoder,
    session: &mut Session<D>,
) -> Result<End, RunFault>
    ensures logged { HasLogged V.did V.obeyed V.stored (D.data session.old.tables) limit result decoder.old decoder.new
        session.old.session session.new.session device.old device.new }
    ensures tables { session.new.tables ≡ session.old.tables }
    ensures ends { EndsWith result session.new.session None }
{
    send(device, session)?;
    let mut buffer = [0; 256];
    // The label names the loop in its proof.
    'reads: for read in 0..limit {
        if session.ended() {
            return Ok(End::Quit);
        }
        let Ok(count) = device.read(&mut buffer) else {
            return Err(RunFault::ReadFault);
        };
        let bytes = &buffer[..count];
        if count == 0 {
            // No bytes: the journal gets a last chance for those that wait.
            device.append(bytes);
            let changed = session.changed();
            return Ok(End::InputEnded { changed });
        }
        keep_and_obey(decoder, session, bytes, device);
        send(device, session)?;
    }
    if session.ended() {
        Ok(End::Quit)
    } else {
        Err(RunFault::ReadLimit)
    }
}
