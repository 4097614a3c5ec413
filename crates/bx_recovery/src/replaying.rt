//! Replay of a journal's keys, and what the edited file holds, compared with the texts that the replay goes through.

ghost use Rattle.std.specs.Prelude.{◌≡◌, ◌<◌, ◌+◌, ◌-◌, ◌⊎◌, ◌↔◌, ◌^◌, IfOk, OnErr, OnOk, IsTrue, IsFalse, true, false, length};
ghost use Rattle.std.specs.Prelude.{[], option_to_list};
ghost use Rattle.bx_session.specs.Inputs.{keys_in, presses_from, rest_from};
ghost use Rattle.bx_session.specs.Laws.{after_journal};
ghost use Rattle.bx_recovery.specs.Recovery.{HoldsBeside};

use crate::fault::RecoveryFault;
use bx_keys::{Decoder, Key};
use bx_session::Session;
use bx_ucd::BidiData;
use std::fmt;

/// A file's content, compared with a session that is replayed over an earlier content of the file.
#[derive(Clone, Copy)]
pub enum FileText {
    /// The replayed text.
    Same,
    /// The opened text, or the text at a key of the journal that stores it: a Save, or an answer.
    Known,
    /// Another text, as of another program.
    Foreign,
}

/// The result of a replay beside a file.
#[derive(Clone, Copy)]
pub struct Replayed {
    /// What the file holds.
    pub held: FileText,
    /// The number of keys in the journal.
    pub keys: u64,
}

// The line that `bidi_edit --to` writes.
impl fmt::Display for Replayed {
    ghost use Rattle.std.specs.Prelude.{Some};
    ghost use Rattle.bx_recovery.specs.Recovery.{line_of};

    ghost output = { λ r. Some (line_of r) };

    fn fmt<W: fmt::Write>(&self, f: &mut fmt::Formatter<W>) -> fmt::Result {
        let keys = self.keys;
        match self.held {
            FileText::Same => write!(f, "same {keys}"),
            FileText::Known => write!(f, "known {keys}"),
            FileText::Foreign => write!(f, "foreign {keys}"),
        }
    }
}

/// Replays the bytes `keys` of a journal without painting. Returns the decoder, by which a run goes on: the journal can end within a key.
///
/// Errors: `OutOfMemory`; the keys before the refused one are applied.
pub fn replay<D: BidiData + Drop>(
    session: &mut Session<D>,
    keys: &[u8],
) -> Result<Decoder, RecoveryFault>
    ensures tables { session.new.tables ≡ session.old.tables }
    ensures replays { OnOk result (session.new.session
        ≡ after_journal (D.data session.old.tables) session.old.session (presses_from [] keys.now)) }
    ensures waits { IfOk result (λ decoder. decoder ≡ rest_from [] keys.now) }
    ensures err { OnErr result (result ≡ Err RecoveryFault.OutOfMemory) }
{
    let mut decoder = Decoder::new();
    for byte in keys {
        let key = decoder.feed(*byte);
        session.press_again(key)?;
    }
    session.end_replay()?;
    Ok(decoder)
}

/// What a replay has met so far.
#[derive(Clone, Copy)]
struct Met {
    /// Whether the file is the text at the start or at a key that stores it.
    is_known: bool,
    /// The number of whole keys in the bytes so far.
    keys: u64,
}

/// What a replay has met once it took a press, with this key, if any, which led to `session`. `stores`: the key stores the text.
fn met_with<D: BidiData + Drop>(
    met: Met,
    session: &Session<D>,
    key: Option<Key>,
    stores: bool,
    file: &[u8],
) -> Met
    requires { met.keys < 2 ^ 64 - 1 }
    ensures known { IsTrue result.is_known ↔ (IsTrue met.is_known
        ⊎ ((stores ≡ true) × (session.now.session.editor.content.text ≡ file.now))) }
    ensures keys { result.keys ≡ met.keys + length (option_to_list key) }
{
    let keys = match key {
        Some(_) => met.keys + 1,
        None => met.keys,
    };
    Met {
        is_known: met.is_known || (stores && session.has_text(file)),
        keys,
    }
}

/// What a file holds: `is_same` if it is the replayed text, `is_known` if it is the text at the start or at a key that stores it.
fn held_by(is_same: bool, is_known: bool) -> FileText
    ensures same { IsTrue is_same → result ≡ FileText.Same }
    ensures known { IsFalse is_same → IsTrue is_known → result ≡ FileText.Known }
    ensures foreign { IsFalse is_same → IsFalse is_known → result ≡ FileText.Foreign }
{
    if is_same {
        FileText::Same
    } else if is_known {
        FileText::Known
    } else {
        FileText::Foreign
    }
}

/// Replays the bytes `keys` of a journal over a text, and compares a file's bytes with the text at the start, at each key that stores
/// it and at the end.
///
/// Errors: `OutOfMemory`, as in [`replay`].
pub fn replay_beside<D: BidiData + Drop>(
    session: &mut Session<D>,
    keys: &[u8],
    file: &[u8],
) -> Result<Replayed, RecoveryFault>
    ensures tables { session.new.tables ≡ session.old.tables }
    ensures replays { OnOk result (session.new.session
        ≡ after_journal (D.data session.old.tables) session.old.session (presses_from [] keys.now)) }
    ensures holds { IfOk result (λ r. HoldsBeside (D.data session.old.tables) session.old.session (presses_from [] keys.now) file.now r.held) }
    ensures keys { IfOk result (λ r. r.keys ≡ length (keys_in (presses_from [] keys.now))) }
    ensures err { OnErr result (result ≡ Err RecoveryFault.OutOfMemory) }
{
    let mut met = Met {
        is_known: session.has_text(file),
        keys: 0,
    };
    let mut decoder = Decoder::new();
    for byte in keys {
        let key = decoder.feed(*byte);
        let stores = session.stores(key);
        session.press_again(key)?;
        met = met_with(met, session, key, stores, file);
    }
    session.end_replay()?;
    Ok(Replayed {
        held: held_by(session.has_text(file), met.is_known),
        keys: met.keys,
    })
}
