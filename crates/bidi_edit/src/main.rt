//! A full-screen editor: keys come from standard input, the screen goes to standard output.
//!
//! `bidi_edit [--rows N] [--cols N] [--direction auto|ltr|rtl] [--line N] [--text PATH | --new] [--unsaved] [--journal PATH]
//! [--replay PATH [--to PATH [--against PATH]]] [--before TEXT] [--clipboard] [--view] [--indent] [--spaces N] [--name NAME]
//! [--frames [--saves REQUEST,ANSWER] [--erase XX]] --classes F --brackets F --mirroring F [--joining F --characters F] FILE`. `Options` of
//! `bx_command` says what each option is for.
//! With `--check` it only checks that FILE can be opened. Exit status 0: ended by Quit, or the input ended without unsaved changes,
//! or FILE can be opened; 1: a fault, with a line on standard error; 2: the command line was refused, and standard error says why.
//!
//! With `--before`, TEXT goes to standard output once FILE is read and can be opened. With `--frames`, standard input has frames,
//! and standard error gets some (`bx_input/src/frame.rt`): OPENED once the text was read and can be opened; JOURNAL with `lost` or
//! `kept`; END with a word of `ending.rt`; FAULT with a kind and a value, for a fault before the run; and REPLAYED.
#![tactic(auto)]

ghost use Rattle.std.specs.Prelude.{◌≡◌, ◌++◌, [], ◌∷◌, IfOk, IsTrue, OnOk, option_map, string_bytes};
ghost use Rattle.std.specs.Io.KnownBytes.{Appends};
ghost use Rattle.bx_command.specs.Options.{text_in};
ghost use Rattle.bx_recovery.specs.Recovery.{line_of};
ghost use Rattle.bidi_edit.specs.Check.{IsChecked};
ghost use Rattle.bidi_edit.specs.Start.{BeginsBy};

mod edit;
mod ending;
mod fault;
mod files;
mod telling;

use bx_command::{
    Files, InputFiles, JournalFile, JournalSyncs, Options, command_line, empty_journal, refuse,
    refuse_words, words_of,
};
use bx_input::FrameReader;
use bx_recovery::{Beginning, Replayed, recover};
use bx_session::{Journal, OpenError, Recorder, Session, Settings, Wired, WrittenJournal};
use bx_store::{FileStore, MemoryStore, Store, SystemDisk};
use bx_ucd::Tables;
use edit::{Changes, edit, open_session};
use fault::ProgramFault;
use files::{OutputFiles, SystemOutput, check_file, held_text, host_store};
use std::alloc::{AllocError, Global};
use std::io::{Read, Write};
use std::process::ExitCode;
use telling::{finish, journal_notes, tell_end, tell_lost_journal, tell_opened, tell_replayed};

/// The program's name, at the start of its lines on standard error.
const NAME: &str = "bidi_edit";

/// Edits by a reader, a recorder, a writer and a store.
// The borrow checker does not cover a call of `edit` where the journal's type names a lifetime of its own.
fn edit_over<'a, R: Read, J: Journal + Drop, W: Write, S: Store>(
    session: &mut Session<Tables>,
    keys: &[u8],
    reader: &mut R,
    recorder: &mut Recorder<J>,
    writer: &mut W,
    store: &mut S,
) -> Result<Changes, ProgramFault<'a>> {
    let mut device = Wired::new(reader, recorder, writer, store);
    edit(&mut device, session, keys)
}

/// Edits a file and records the input in the journal. Empties the journal if nothing is unsaved at the end.
fn edit_file<'a, R: Read + Drop, W: Write, S: Store>(
    rt: &HostRuntime,
    options: &Options<'a>,
    session: &mut Session<Tables>,
    keys: &[u8],
    mut reader: R,
    writer: &mut W,
    store: &mut S,
) -> Result<(), ProgramFault<'a>> {
    let syncs = if options.frames {
        JournalSyncs::AtSaves
    } else {
        JournalSyncs::EachSecond
    };
    let journal = JournalFile::open(*rt, options.journal, journal_notes(options), syncs);
    let mut recorder = Recorder::new(rt.alloc(), WrittenJournal::new(journal));
    let changes = edit_over(session, keys, &mut reader, &mut recorder, writer, store);
    if !recorder.has_all() {
        tell_lost_journal(rt, options);
    }
    if let (Ok(Changes::Saved), Some(path)) = (&changes, options.journal) {
        empty_journal(rt, path);
    }
    if options.frames {
        // if standard error fails, nothing can be reported
        let _ = tell_end(&mut rt.stderr(), &changes);
    }
    changes?;
    Ok(())
}

/// Writes what FILE holds compared with a journal, and the number of keys.
fn write_replayed<'a, W: Write>(writer: &mut W, replayed: Replayed) -> Result<(), ProgramFault<'a>>
    ensures { OnOk result (Appends (W.contents writer.old) (W.contents writer.new) (line_of replayed ++ (10 ∷ []))) }
{
    match writeln!(writer, "{replayed}") {
        Ok(()) => Ok(()),
        Err(_) => Err(ProgramFault::Untold),
    }
}

/// Writes the text recovered from a journal to a file, and returns what FILE holds compared with it, and the number of keys.
fn recover_to<'a, F: InputFiles, O: OutputFiles>(
    files: &F,
    output: &mut O,
    options: &Options<'a>,
    beginning: Beginning<'_>,
    to: &str,
) -> Result<Replayed, ProgramFault<'a>> {
    let alloc = beginning.alloc;
    let held = held_text(files, alloc, options)?;
    let mut store = MemoryStore::new(alloc, None);
    let replayed = recover(&mut store, beginning, held.as_slice())?;
    match output.write_text(to, store.contents()) {
        Ok(()) => Ok(replayed),
        Err(_) => Err(ProgramFault::Unwritten),
    }
}

/// Recovers a text from a journal, and tells what FILE holds compared with it.
fn recover_and_tell<'a, W: Write>(
    rt: &HostRuntime,
    options: &Options<'a>,
    beginning: Beginning<'_>,
    writer: &mut W,
    to: &str,
) -> Result<(), ProgramFault<'a>> {
    let replayed = recover_to(rt, &mut SystemOutput(rt), options, beginning, to)?;
    if options.frames {
        tell_replayed(rt, replayed);
        return Ok(());
    }
    write_replayed(writer, replayed)
}

/// The file's name, if the options have one.
fn name_of(alloc: Global, options: &Options<'_>) -> Result<Option<String>, AllocError>
    ensures { IfOk result (λ name. option_map string_bytes name ≡ text_in options.now.name) }
{
    match options.name {
        Some(name) => Ok(Some(String::from_str(alloc, name)?)),
        None => Ok(None),
    }
}

/// The start of a session over these files. `text` is the opened text; None if FILE does not exist.
fn beginning_of<'a>(
    alloc: Global,
    options: &Options<'_>,
    files: &'a Files,
    text: Option<Vec<u8>>,
    name: Option<String>,
) -> Beginning<'a>
    ensures { BeginsBy options.now files.entry.now text name result }
{
    Beginning {
        alloc,
        unicode: &files.unicode,
        text,
        rows: options.rows,
        cols: options.cols,
        direction: options.direction,
        clipboard: options.clipboard,
        settings: Settings {
            read_only: options.view,
            auto_indent: options.indent,
            tab_width: options.spaces,
            name,
        },
        line: options.line,
        unsaved: options.unsaved,
        keys: files.keys.as_slice(),
    }
}

/// Writes what comes before the first painting.
fn write_before<'a, W: Write>(writer: &mut W, text: &str) -> Result<(), ProgramFault<'a>> {
    if writer.write_all(text.as_bytes()).is_err() || writer.flush().is_err() {
        return Err(ProgramFault::Untold);
    }
    Ok(())
}

/// Edits FILE with keys and saves as the options say.
fn edit_by<'a, R: Read + Drop, W: Write>(
    rt: &HostRuntime,
    options: &Options<'a>,
    session: &mut Session<Tables>,
    keys: &[u8],
    reader: R,
    writer: &mut W,
) -> Result<(), ProgramFault<'a>> {
    if !options.frames {
        let disk = SystemDisk::new(rt, rt.alloc());
        let mut store = FileStore::new(disk, rt.alloc(), options.file)?;
        return edit_file(rt, options, session, keys, reader, writer, &mut store);
    }
    let frames = FrameReader::new(rt.alloc(), reader, options.erases_by_delete);
    match options.saves {
        Some(pipes) => {
            let mut store = host_store(rt, pipes)?;
            edit_file(rt, options, session, keys, frames, writer, &mut store)
        }
        None => {
            let disk = SystemDisk::new(rt, rt.alloc());
            let mut store = FileStore::new(disk, rt.alloc(), options.file)?;
            edit_file(rt, options, session, keys, frames, writer, &mut store)
        }
    }
}

/// Edits FILE, or recovers a text from a journal. Nothing is told or written before the session is opened.
fn run<'a, R: Read + Drop, W: Write>(
    rt: &HostRuntime,
    options: &Options<'a>,
    reader: R,
    writer: &mut W,
) -> Result<(), ProgramFault<'a>> {
    let mut files = Files::read(rt, rt.alloc(), options)?;
    let text = files.text.take();
    let name = name_of(rt.alloc(), options)?;
    let beginning = beginning_of(rt.alloc(), options, &files, text, name);
    if let Some(to) = options.to {
        return recover_and_tell(rt, options, beginning, writer, to);
    }
    let mut session = open_session(beginning)?;
    if options.frames {
        tell_opened(rt);
    }
    if let Some(text) = options.before {
        write_before(writer, text)?;
    }
    edit_by(
        rt,
        options,
        &mut session,
        files.keys.as_slice(),
        reader,
        writer,
    )
}

/// The fault with the line that is not UTF-8, where the host or a terminal is told. The opened text is read once more for it: what was
/// opened is gone.
fn with_line<'a>(
    rt: &HostRuntime,
    options: &Options<'a>,
    fault: ProgramFault<'a>,
) -> ProgramFault<'a> {
    let is_told = options.frames || options.before.is_some();
    if !is_told || !matches!(fault, ProgramFault::Open(OpenError::NotUtf8(_))) {
        return fault;
    }
    let path = options.text.unwrap_or(options.file);
    match check_file(rt, rt.alloc(), path) {
        Err(ProgramFault::Text(error)) => ProgramFault::Text(error),
        // the file is another one by now
        _ => fault,
    }
}

/// Carries out the command line.
fn program<'a, R: Read + Drop, W: Write>(
    rt: &HostRuntime,
    options: &Options<'a>,
    reader: R,
    writer: &mut W,
) -> Result<(), ProgramFault<'a>>
    ensures checks { IsTrue options.now.check → IsChecked (⟦<HostRuntime as InputFiles>⟧.answers rt.now) options.now.file.now result }
    ensures writes { IsTrue options.now.check → writer.new ≡ writer.old }
{
    if options.check {
        return check_file(rt, rt.alloc(), options.file);
    }
    match run(rt, options, reader, writer) {
        Ok(()) => Ok(()),
        Err(fault) => Err(with_line(rt, options, fault)),
    }
}

fn main(rt: HostRuntime) -> ExitCode {
    let words = match words_of(&rt) {
        Ok(words) => words,
        Err(error) => return refuse_words(&rt, NAME, error.kind()),
    };
    match command_line(rt.alloc(), words.as_slice()) {
        Ok(options) => {
            let outcome = program(&rt, &options, rt.reader(), &mut rt.stdout());
            finish(&rt, options.frames, outcome)
        }
        Err(error) => refuse(&rt, NAME, &error),
    }
}
