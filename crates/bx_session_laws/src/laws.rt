//! Laws of sessions, for any input. The functions are empty: their contracts are the laws.

ghost use Rattle.bx_session_laws.specs.Anew.{AlwaysStaysPainted};
ghost use Rattle.bx_session_laws.specs.Devices.{HasWholeLog, LogsTellParts};
ghost use Rattle.bx_session.specs.Laws.{AlwaysShowsState, HasKeysOfInput, ReplaysKeys};
ghost use Rattle.bx_session_laws.specs.Memory.{MemoryStoresWholeSaves};
ghost use Rattle.bx_session_laws.specs.Parts.{PartsEndAtQuits};
ghost use Rattle.bx_session_laws.specs.Recovery.{JournalsGiveBack, RecoveryGivesBack};

use bx_session::Journal;
use bx_store::Store;
use std::io::{Read, Write};

/// If no painting is owed, the picture last painted is the picture of the session's state.
pub fn paintings_keep_up()
    ensures { AlwaysShowsState }
{}

/// If no painting is owed, another painting changes nothing and sends nothing. So a press without a key needs none.
pub fn painting_anew_sends_nothing()
    ensures { AlwaysStaysPainted }
{}

/// Decoding the input byte by byte gives the keys of the input as a whole.
pub fn keys_are_those_of_input()
    ensures { HasKeysOfInput }
{}

/// A replay of presses applies their keys in order. A Save stores nothing, and a Quit does not end the session.
pub fn replays_apply_keys()
    ensures { ReplaysKeys }
{}

/// A session's presses, replayed over its opened text, restore text, history, runs, place, mark and its softness, presses, held bytes,
/// query, replacement, direction, kept column, window and settings, wherever it saved and even if it quit; a paste that is under way
/// ends. So it is unless the session refused a key for want of memory, which the replay applies; or refused a painting,
/// and after that a key rested on the row shown first; or found at a save that another program had changed the file.
pub fn recovery_gives_back()
    ensures { RecoveryGivesBack }
{}

/// The bytes of a journal that has all of the input, replayed over the opened text, restore the session that was run with it, as
/// [`recovery_gives_back`] says, and leave the same bytes waiting. Keys typed after the session's end do not come back. The session
/// counts as changed wherever it did before.
pub fn journals_give_back<J: Journal + Drop>()
    ensures { JournalsGiveBack J.contents J.failure_count }
{}

/// The log of a device in memory has all calls of the device, in order, unless memory ran out for it.
pub fn devices_log_all()
    ensures { HasWholeLog }
{}

/// The bytes of a read are journaled and obeyed in parts. A part ends with the byte that completes the first Quit, or with the bytes.
pub fn parts_end_at_quits()
    ensures { PartsEndAtQuits }
{}

/// A store in memory has what was put between the begin and the commit of the latest save that succeeded; a failed call stores nothing.
/// After a save under a new name, what the store had before stays under the name before.
pub fn memory_stores_whole_saves()
    ensures { MemoryStoresWholeSaves }
{}

/// A run over a reader, a recorder, a writer and a store has, by its log, read, handed to the recorder, written and stored what
/// [`run_recorded`](bx_session::run_recorded) says: so the journal has all that was obeyed, if the recorder says so.
pub fn logs_tell_of_parts<R: Read, J: Journal + Drop, W: Write, S: Store>()
    ensures { LogsTellParts R.remaining J.contents J.failure_count W.contents S.contents S.faults }
{}
