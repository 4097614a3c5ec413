//! Runs of a session over a reader, a writer and a store, with a journal or without, for callers that have these apart.

ghost use Rattle.std.specs.Prelude.{◌≡◌, IsErrOf};
ghost use Rattle.bx_session.specs.Journal.{RunsRecorded};
ghost use Rattle.bx_session.specs.Running.{EndsWith, HasRead, Runs};
ghost use Rattle.bx_session.specs.Session.{store_state};

use crate::end::{End, RunFault};
use crate::journal::{Journal, NoJournal, Recorder};
use crate::running::run_device;
use crate::session::Session;
use crate::wired::Wired;
use bx_keys::Decoder;
use bx_store::Store;
use bx_ucd::BidiData;
use std::io::{Read, Write};

/// Runs a session as [`run_recorded`] does, without a journal.
pub fn run<D: BidiData + Drop, R: Read, W: Write, S: Store>(
    limit: u64,
    reader: &mut R,
    writer: &mut W,
    store: &mut S,
    decoder: &mut Decoder,
    session: &mut Session<D>,
) -> Result<End, RunFault>
    ensures runs { Runs (D.data session.old.tables) decoder.old decoder.new session.old.session session.new.session
        (store_state S.contents S.faults store.old) (store_state S.contents S.faults store.new)
        (R.remaining reader.old) (R.remaining reader.new) (W.contents writer.old) (W.contents writer.new) }
    ensures tables { session.new.tables ≡ session.old.tables }
    ensures ends { EndsWith result session.new.session (R.remaining reader.new) }
    ensures limit { IsErrOf result RunFault.ReadLimit → HasRead limit (R.remaining reader.old) (R.remaining reader.new) }
{
    let mut recorder = Recorder::new(*session.queue.allocator(), NoJournal);
    run_recorded(
        limit,
        reader,
        &mut recorder,
        writer,
        store,
        decoder,
        session,
    )
}

/// Runs a session: writes the pending bytes and flushes; then, until the end, reads at most 256 bytes, hands those up to the
/// session's end to the journal and obeys their presses, part by part, writes the pending bytes and flushes. Bytes after the end are
/// dropped, and a refused press does not end the run. `decoder` holds the bytes that wait for more, before and after.
///
/// Errors: `ReadFault`; `WriteFault`: a prefix of the output was written, and the rest is still pending; `ReadLimit` after
/// `limit` reads that each gave a byte.
pub fn run_recorded<D: BidiData + Drop, R: Read, J: Journal + Drop, W: Write, S: Store>(
    limit: u64,
    reader: &mut R,
    recorder: &mut Recorder<J>,
    writer: &mut W,
    store: &mut S,
    decoder: &mut Decoder,
    session: &mut Session<D>,
) -> Result<End, RunFault>
    ensures runs { RunsRecorded J.contents J.failure_count (D.data session.old.tables) decoder.old decoder.new
        session.old.session session.new.session
        (store_state S.contents S.faults store.old) (store_state S.contents S.faults store.new)
        (R.remaining reader.old) (R.remaining reader.new) (W.contents writer.old) (W.contents writer.new) recorder.old recorder.new }
    ensures tables { session.new.tables ≡ session.old.tables }
    ensures ends { EndsWith result session.new.session (R.remaining reader.new) }
    ensures limit { IsErrOf result RunFault.ReadLimit → HasRead limit (R.remaining reader.old) (R.remaining reader.new) }
{
    let mut device = Wired::new(reader, recorder, writer, store);
    run_wired(limit, &mut device, decoder, session)
}

/// Runs a session over the reader, the recorder, the writer and the store of a device, which has the same four afterwards.
fn run_wired<D: BidiData + Drop, R: Read, J: Journal + Drop, W: Write, S: Store>(
    limit: u64,
    device: &mut Wired<'_, R, J, W, S>,
    decoder: &mut Decoder,
    session: &mut Session<D>,
) -> Result<End, RunFault>
    ensures runs { RunsRecorded J.contents J.failure_count (D.data session.old.tables) decoder.old decoder.new
        session.old.session session.new.session
        (store_state S.contents S.faults device.old.store.now) (store_state S.contents S.faults device.new.store.now)
        (R.remaining device.old.reader.now) (R.remaining device.new.reader.now)
        (W.contents device.old.writer.now) (W.contents device.new.writer.now) device.old.recorder.now device.new.recorder.now }
    ensures tables { session.new.tables ≡ session.old.tables }
    ensures ends { EndsWith result session.new.session (R.remaining device.new.reader.now) }
    ensures limit { IsErrOf result RunFault.ReadLimit
        → HasRead limit (R.remaining device.old.reader.now) (R.remaining device.new.reader.now) }
    ensures same_reader { device.new.reader.ghost_name ≡ device.old.reader.ghost_name }
    ensures same_recorder { device.new.recorder.ghost_name ≡ device.old.recorder.ghost_name }
    ensures same_writer { device.new.writer.ghost_name ≡ device.old.writer.ghost_name }
    ensures same_store { device.new.store.ghost_name ≡ device.old.store.ghost_name }
{
    run_device(limit, device, decoder, session)
}
