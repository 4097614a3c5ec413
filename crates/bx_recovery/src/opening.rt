//! The opening of a session from its files, without its journal's keys.

ghost use Rattle.std.specs.Prelude.{◌≡◌, IfErr, IfOk, OnErr, OnOk};
ghost use Rattle.bx_session.specs.Beginning.{after_going_to, changed_if};
ghost use Rattle.bx_session.specs.Session.{clipboard_if};
ghost use Rattle.bx_command.specs.shared.Tables.{AreOfFiles};
ghost use Rattle.bx_recovery.specs.Beginnings.{IsOpened, beginning_of, offset_of};
ghost use Rattle.bx_recovery.specs.Refusals.{CanOpen, IsFirstCause};

use crate::beginning::Beginning;
use crate::fault::RecoveryFault;
use bx_command::start_of_line;
use bx_session::Session;
use bx_ucd::{BidiData, Tables};

/// The offset at which a line, from 1, starts; None if no line is asked for.
fn offset_of(text: &[u8], line: Option<u64>) -> Option<usize>
    ensures { result ≡ offset_of text.now line }
{
    let line = line?;
    Some(start_of_line(text, line))
}

/// Reads Unicode's files, and opens a text with the cursor at its line. It does not replay the keys.
///
/// Errors, in this order: `Tables`; `Open`; `OutOfMemory`.
pub fn open(beginning: Beginning<'_>) -> Result<Session<Tables>, RecoveryFault>
    ensures tables { IfOk result (λ s. AreOfFiles (⟦<Tables as BidiData>⟧.data s.tables) beginning.entry.unicode.now) }
    ensures opens { IfOk result (λ s. IsOpened (⟦<Tables as BidiData>⟧.data s.tables) (beginning_of beginning.entry) s.session) }
    ensures openable { OnOk result (CanOpen beginning.entry) }
    ensures refused { IfErr result (IsFirstCause beginning.entry) }
{
    let alloc = beginning.alloc;
    let (rows, cols, direction) = (beginning.rows, beginning.cols, beginning.direction);
    let (clipboard, unsaved) = (beginning.clipboard, beginning.unsaved);
    let tables = beginning.unicode.tables(alloc)?;
    let text = beginning.text.unwrap_or(Vec::new(alloc));
    let start = offset_of(text.as_slice(), beginning.line);
    let settings = beginning.settings;
    let mut session = Session::open(text, tables, rows, cols, direction)?;
    session.set(settings)?;
    prepare(&mut session, clipboard, start, unsaved)?;
    Ok(session)
}

/// Gives the session a clipboard, if there is one, moves the cursor to an offset, if there is one, and counts an unsaved text as
/// changed.
fn prepare<D: BidiData + Drop>(
    session: &mut Session<D>,
    clipboard: bool,
    offset: Option<usize>,
    unsaved: bool,
) -> Result<(), RecoveryFault>
    ensures ok { OnOk result (session.new ≡ record session.old {
      session = changed_if unsaved (after_going_to (D.data session.old.tables) (clipboard_if clipboard session.old.session) offset);
    }) }
    ensures err { OnErr result (result ≡ Err RecoveryFault.OutOfMemory) }
{
    if clipboard {
        session.use_clipboard();
    }
    if let Some(offset) = offset {
        session.go_to(offset)?;
    }
    if unsaved {
        session.count_as_changed();
    }
    Ok(())
}
