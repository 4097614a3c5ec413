//! What goes to standard error: sentences for a reader, or frames for the host.

ghost use Rattle.std.specs.Prelude.{◌≡◌, OnOk, take};
ghost use Rattle.std.specs.Io.KnownBytes.{Appends};
ghost use Rattle.bx_bytes.specs.Writing.{WritesFront};
ghost use Rattle.bx_command.specs.shared.Ending.{status_after, status_of};
ghost use Rattle.bidi_edit.specs.Ending.{end_of, frame, last_word};
ghost use Rattle.bidi_edit.specs.Telling.{AreNotes, IsTold};

use crate::edit::Changes;
use crate::ending::{end_of, end_of_fault};
use crate::fault::ProgramFault;
use bx_bytes::{WriteFault, write_all};
use bx_command::{FileFault, JournalNotes, Options, TextFault};
use bx_input::{END, FAULT, JOURNAL, OPENED, REPLAYED};
use bx_recovery::Replayed;
use bx_session::OpenError;
use std::alloc::Global;
use std::fmt::{self, Display};
use std::io::Write;
use std::process::ExitCode;

/// The notes on a journal, as sentences.
const SENTENCES: JournalNotes<'static> = JournalNotes {
    lost: "bidi_edit: the journal could not be written\n",
    kept: "bidi_edit: the journal is kept again\n",
};

/// The notes on a journal, as frames with the letter `j`.
const FRAMES: JournalNotes<'static> = JournalNotes {
    lost: "j\0\x04lost",
    kept: "j\0\x04kept",
};

/// The message at the end of a session whose journal is incomplete. A journal that cannot be written does not end a session.
const LOST: &str =
    "bidi_edit: the journal could not be written, so a crash would have lost what was not saved\n";

/// The most bytes of a frame: as many as the host takes for a word.
const MOST: usize = 2047;

/// Writes a frame. What is too long is cut off.
///
/// Errors: `WriteFault`: a first part of the frame was written.
fn write_frame<W: Write>(writer: &mut W, letter: u8, text: &str) -> Result<(), WriteFault>
    ensures all { OnOk result (Appends (W.contents writer.old) (W.contents writer.new) (frame letter (take 2047 text.now))) }
    ensures front { WritesFront (frame letter (take 2047 text.now)) (W.contents writer.old) (W.contents writer.new) }
{
    let bytes = &text.as_bytes()[..MOST.min(text.len())];
    let count = bytes.len();
    let head = [letter, (count / 256) as u8, (count % 256) as u8];
    write_all(writer, &head)?;
    write_all(writer, bytes)
}

/// Writes a frame to standard error. What is too long is cut off.
fn tell(rt: &HostRuntime, letter: u8, text: &str) {
    // if standard error fails, nothing can be reported
    let _ = write_frame(&mut rt.stderr(), letter, text);
}

/// Writes a frame whose bytes are made for it, or, without memory for them, a fault that says so.
///
/// Errors: `WriteFault`: a first part of the frame was written.
fn write_made<T: Display, W: Write>(
    writer: &mut W,
    alloc: Global,
    letter: u8,
    value: &T,
) -> Result<(), WriteFault>
    ensures { OnOk result (IsTold letter (T.output value.now) (W.contents writer.old) (W.contents writer.new)) }
{
    match format!(in alloc; "{value}") {
        Ok(text) => write_frame(writer, letter, text.as_str()),
        Err(_) => write_frame(writer, FAULT, "memory"),
    }
}

/// Writes such a frame to standard error.
fn tell_made<T: Display>(rt: &HostRuntime, letter: u8, value: &T) {
    // if standard error fails, nothing can be reported
    let _ = write_made(&mut rt.stderr(), rt.alloc(), letter, value);
}

/// The notes on a journal, in the form that the options ask for.
pub fn journal_notes(options: &Options<'_>) -> JournalNotes<'static>
    ensures { AreNotes options.now.frames result }
{
    if options.frames { FRAMES } else { SENTENCES }
}

/// Tells that a session has ended whose journal is incomplete.
pub fn tell_lost_journal(rt: &HostRuntime, options: &Options<'_>) {
    if options.frames {
        tell(rt, JOURNAL, "lost");
        return;
    }
    // if standard error fails, nothing can be reported
    let _ = eprint!(rt; "{LOST}");
}

/// Tells the host that the text was read and can be opened.
pub fn tell_opened(rt: &HostRuntime) {
    tell(rt, OPENED, "");
}

/// Tells the host what a file holds compared with a journal.
pub fn tell_replayed(rt: &HostRuntime, replayed: Replayed) {
    tell_made(rt, REPLAYED, &replayed);
}

/// Writes the host's last word of a run, how it ended. Writes nothing if a fault came before the run.
///
/// Errors: `WriteFault`: a first part of the frame was written.
pub fn tell_end<W: Write>(
    errors: &mut W,
    changes: &Result<Changes, ProgramFault<'_>>,
) -> Result<(), WriteFault>
    ensures all { OnOk result (Appends (W.contents errors.old) (W.contents errors.new) (last_word (end_of changes.now))) }
    ensures front { WritesFront (last_word (end_of changes.now)) (W.contents errors.old) (W.contents errors.new) }
{
    match end_of(changes) {
        Some(end) => write_frame(errors, END, end.word()),
        None => Ok(()),
    }
}

/// A fault as a word for the host: its kind, and a value behind some.
#[derive(Clone, Copy)]
struct Word<'f, 'a>(&'f ProgramFault<'a>);

impl fmt::Display for Word<'_, '_> {
    ghost use Rattle.bidi_edit.specs.Telling.{word_of_fault};

    ghost output = { λ w. word_of_fault w.0.now };

    fn fmt<W: fmt::Write>(&self, f: &mut fmt::Formatter<W>) -> fmt::Result {
        let kind = match self.0 {
            ProgramFault::Tables(error) => return write!(f, "tables {error}"),
            ProgramFault::Text(TextFault::NotUtf8(line)) => return write!(f, "not-utf8 {line}"),
            ProgramFault::Open(OpenError::NotUtf8(_)) => "not-utf8",
            ProgramFault::Text(TextFault::TooLong) | ProgramFault::Open(OpenError::TooLong) => {
                "too-long"
            }
            ProgramFault::File(FileFault::Unreadable(_)) => "unreadable",
            ProgramFault::Untold => "output",
            ProgramFault::Unwritten => "unwritten",
            _ => "memory",
        };
        f.write_str(kind)
    }
}

/// Tells the fault, if there is one, and returns the exit status. The host knows a fault that ended a run already.
pub fn finish(rt: &HostRuntime, has_frames: bool, outcome: Result<(), ProgramFault<'_>>) -> ExitCode
    ensures { status_of result ≡ status_after outcome.entry }
{
    let Err(fault) = outcome else {
        return ExitCode::SUCCESS;
    };
    if !has_frames {
        // if standard error fails, nothing can be reported
        let _ = eprintln!(rt; "{fault}");
    } else if end_of_fault(&fault).is_none() {
        tell_made(rt, FAULT, &Word(&fault));
    }
    ExitCode::FAILURE
}
