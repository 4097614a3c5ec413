//! Recovery of a text from a journal, without a terminal: the replayed text is stored.

ghost use Rattle.std.specs.Prelude.{◌≡◌, IfErr, IfOk, OnErr, OnOk};
ghost use Rattle.bx_session.specs.Session.{store_state};
ghost use Rattle.bx_recovery.specs.Beginnings.{beginning_of};
ghost use Rattle.bx_recovery.specs.Recovery.{RecoversFrom, Recovers};
ghost use Rattle.bx_recovery.specs.Refusals.{CanOpen, IsLaterCause, IsRecoveryCause};

use crate::beginning::Beginning;
use crate::fault::RecoveryFault;
use crate::opening::open;
use crate::replaying::{Replayed, replay_beside};
use bx_session::Session;
use bx_store::Store;
use bx_ucd::BidiData;

/// Replays the bytes `keys` of a journal in an opened session, compares the bytes `file` with its texts, and stores the replayed
/// text.
fn store_replayed<D: BidiData + Drop, S: Store>(
    store: &mut S,
    session: &mut Session<D>,
    keys: &[u8],
    file: &[u8],
) -> Result<Replayed, RecoveryFault>
    ensures recovers { IfOk result (λ r. RecoversFrom (D.data session.old.tables) session.old.session keys.now file.now r
        (store_state S.contents S.faults store.old) (store_state S.contents S.faults store.new)) }
    ensures stored { OnErr result (S.contents store.new ≡ S.contents store.old) }
    ensures refused { IfErr result (IsLaterCause (S.faults store.old) (S.faults store.new)) }
{
    let replayed = replay_beside(session, keys, file)?;
    match session.copy_to(store) {
        Ok(()) => Ok(replayed),
        Err(_) => Err(RecoveryFault::Unwritten),
    }
}

/// Reads Unicode's files, opens a text, replays the journal's keys and stores the replayed text. Returns what the bytes `file` are,
/// compared with the session's texts, and the number of keys.
///
/// Errors, in this order: `Tables`; `Open`; `OutOfMemory`; `Unwritten` if the store fails. The store's content is unchanged.
pub fn recover<S: Store>(
    store: &mut S,
    beginning: Beginning<'_>,
    file: &[u8],
) -> Result<Replayed, RecoveryFault>
    ensures recovers { IfOk result (λ r. Recovers (beginning_of beginning.entry) beginning.entry.unicode.now file.now r
        (store_state S.contents S.faults store.old) (store_state S.contents S.faults store.new)) }
    ensures stored { OnErr result (S.contents store.new ≡ S.contents store.old) }
    ensures openable { OnOk result (CanOpen beginning.entry) }
    ensures refused { IfErr result (IsRecoveryCause beginning.entry (S.faults store.old) (S.faults store.new)) }
{
    let keys = beginning.keys;
    let mut session = open(beginning)?;
    let replayed = store_replayed(store, &mut session, keys, file);
    drop(session);
    replayed
}
