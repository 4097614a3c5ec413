//! One run of the editor over a device: a reader, a journal, a writer and a store.

ghost use Rattle.std.specs.Prelude.{◌≡◌, [], Option, List, Result, ℕ, IfErr, IfOk, OnErr, OnOk};
ghost use Rattle.bx_command.specs.shared.Tables.{AreOfFiles};
ghost use Rattle.bx_session.specs.Inputs.{rest_from};
ghost use Rattle.bx_session.specs.Painting.{QueuesPicture};
ghost use Rattle.bx_session.specs.Session.{Session as SessionValue, with_painting};
ghost use Rattle.bx_recovery.specs.Beginnings.{IsOpened, beginning_of};
ghost use Rattle.bx_recovery.specs.declared.beginning.Beginning.{Beginning as Given};
ghost use Rattle.bx_recovery.specs.Refusals.{CanOpen};
ghost use Rattle.bidi_edit.specs.Faults.{IsFirstFault, IsLaterFault};
ghost use Rattle.bidi_edit.specs.Run.{EditsAny, Resumes, RunsTo, RunsUnless, outcome_of, replayed};

use crate::fault::ProgramFault;
use bx_keys::Decoder;
use bx_recovery::{Beginning, open, replay};
use bx_session::{Device, End, RunFault, Session, run_device};
use bx_ucd::{BidiData, Tables};

/// The limit of reads in a run (`most_reads` of specs/Run.antt): a proved loop needs one, and no session of a user reaches this.
const READS: u64 = 1_000_000_000;

/// The fate of the changes in a session without a fault.
#[derive(Clone, Copy)]
pub enum Changes {
    /// Nothing is unsaved.
    Saved,
    /// A second Quit discarded them.
    Dropped,
}

/// The fate of the changes, by a run's end and by `changed`: whether there are unsaved changes then.
///
/// Errors: `Run`; `Unsaved` if the input ended with unsaved changes.
fn outcome_of(end: Result<End, RunFault>, changed: bool) -> Result<Changes, ProgramFault<'static>>
    ensures { result ≡ outcome_of end changed }
{
    match end {
        Err(fault) => Err(ProgramFault::Run(fault)),
        Ok(_) if !changed => Ok(Changes::Saved),
        Ok(End::Quit) => Ok(Changes::Dropped),
        Ok(End::InputEnded { .. }) => Err(ProgramFault::Unsaved),
    }
}

/// Replays the bytes `keys` of a journal and paints the result. Returns the decoder with the bytes that wait then.
fn begin<D: BidiData + Drop>(
    session: &mut Session<D>,
    keys: &[u8],
) -> Result<Decoder, ProgramFault<'static>>
    ensures tables { session.new.tables ≡ session.old.tables }
    ensures session { OnOk result (session.new.session ≡ with_painting (D.data session.old.tables)
        (replayed (D.data session.old.tables) session.old.session keys.now)) }
    ensures paints { OnOk result (QueuesPicture (D.data session.old.tables)
        (replayed (D.data session.old.tables) session.old.session keys.now).pending
        (replayed (D.data session.old.tables) session.old.session keys.now).known session.new.session) }
    ensures waits { IfOk result (λ decoder. decoder ≡ rest_from [] keys.now) }
    ensures err { OnErr result (result ≡ Err ProgramFault.OutOfMemory) }
{
    let decoder = replay(session, keys)?;
    session.paint()?;
    Ok(decoder)
}

/// Replays the bytes `keys` of a journal, paints the result, and runs until Quit or the input's end.
fn resume<D: BidiData + Drop, V: Device>(
    device: &mut V,
    session: &mut Session<D>,
    keys: &[u8],
) -> Result<Changes, ProgramFault<'static>>
    ensures runs { RunsUnless result
        (Resumes V.did V.obeyed V.stored (D.data session.old.tables) session.old.session keys.now device.old device.new result)
        (device.new ≡ device.old) }
    ensures refused { IfErr result IsLaterFault }
{
    let mut decoder = begin(session, keys)?;
    let end = run_device(READS, device, &mut decoder, session);
    outcome_of(end, session.changed())
}

/// Reads Unicode's files, and opens a text with the cursor at its line. It does not replay the keys.
///
/// Errors, in this order: `Tables`; `Open`; `OutOfMemory`.
pub fn open_session<'a>(beginning: Beginning<'_>) -> Result<Session<Tables>, ProgramFault<'a>>
    ensures tables { IfOk result (λ s. AreOfFiles (⟦<Tables as BidiData>⟧.data s.tables) beginning.entry.unicode.now) }
    ensures opens { IfOk result (λ s. IsOpened (⟦<Tables as BidiData>⟧.data s.tables) (beginning_of beginning.entry) s.session) }
    ensures openable { OnOk result (CanOpen beginning.entry) }
    ensures refused { IfErr result (IsFirstFault beginning.entry) }
{
    let session = open(beginning)?;
    Ok(session)
}

/// Replays keys in a session that was opened, and runs it until Quit or the input's end, as `run_device` does. Ok is exit status 0,
/// and a fault status 1.
///
/// Errors, in this order: `OutOfMemory` in replaying or painting: nothing was read, written, kept or stored; `Run`; `Unsaved` if the
/// input ended with unsaved changes: what was read was obeyed, and only Saves stored.
pub fn edit<'a, D: BidiData + Drop, V: Device>(
    device: &mut V,
    session: &mut Session<D>,
    keys: &[u8],
) -> Result<Changes, ProgramFault<'a>>
    ensures runs { EditsAny V.did V.obeyed V.stored (D.data session.old.tables) session.old.session keys.now device.old device.new result }
    ensures refused { (b : Given) → CanOpen b → IfErr result (IsFirstFault b) }
{
    let changes = resume(device, session, keys);
    changes
}
