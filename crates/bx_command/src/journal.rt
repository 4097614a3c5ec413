//! The journal's file: keys are appended to it as they are read, and synced.

ghost use Rattle.std.specs.Prelude.{◌≡◌, IfOk};
ghost use Rattle.std.specs.Io.{WritesAtMost};
ghost use Rattle.std.specs.Io.KnownBytes.{WriteAppends};
ghost use Rattle.bx_command.specs.Journal.{contents_of};

use std::fs::{OpenFile, OpenOptions};
use std::io::{self, Eprint, ErrorKind, Write};
use std::os::unix::fs::OpenOptionsExt;
use std::rt::{Clock, Files};
use std::time::Instant;

/// The byte of the key Save, Ctrl-S.
const SAVE: u8 = 0x13;

/// Number of seconds after the last sync at which a flush syncs again, if it goes by the clock.
const WAIT: u64 = 1;

/// The texts that are written to standard error, each with its line end or NUL.
#[derive(Clone, Copy)]
pub struct JournalNotes<'a> {
    /// The journal could not be written.
    pub lost: &'a str,
    /// It is kept again.
    pub kept: &'a str,
}

/// When a flush of a journal syncs it to disk. In either case it does if a Save was written since the last sync, or if there is a
/// fault.
#[derive(Clone, Copy)]
pub enum JournalSyncs {
    /// Also if the last sync was at least a second ago.
    EachSecond,
    /// Not else: another process syncs the file each second, so that no painting waits for the disk.
    AtSaves,
}

/// A file that a journal is appended to. A flush syncs it to disk as [`JournalSyncs`] says.
///
/// The first failed open, write or flush prints a fault to standard error. The caller writes the missing bytes again, so the
/// fault ends with a successful flush after a successful write, which is printed too.
#[derive(Drop)]
pub struct JournalFile<'a, R: Files + Clock + Eprint + Copy + Drop> {
    /// Files, clock and standard error of the system.
    rt: R,
    /// None if no journal is kept.
    path: Option<&'a str>,
    /// What is written to standard error.
    notes: JournalNotes<'a>,
    syncs: JournalSyncs,
    /// None until it is opened.
    file: Option<R::File>,
    /// When it was last synced; None before the first time.
    synced: Option<Instant>,
    /// Whether a Save was written since it was last synced.
    holds_save: bool,
    /// Whether the last write failed, so that bytes are missing.
    lacks_bytes: bool,
    /// Whether a fault was printed and has not ended.
    has_fault: bool,
}

/// Opens a file for appending. A new file gets permissions for its owner alone (0600).
fn open_at_end<R: Files>(rt: &R, path: &str) -> io::Result<R::File> {
    OpenOptions::new()
        .append(true)
        .create(true)
        .mode(0o600)
        .open(rt, path)
}

/// Writes some of the bytes, from the first on. Writing no byte is an error.
fn write_some<W: Write>(file: &mut W, buf: &[u8]) -> io::Result<usize>
    ensures bound { WritesAtMost result buf.now }
    ensures bytes { WriteAppends (W.contents file.old) (W.contents file.new) result buf.now }
{
    match file.write(buf) {
        Ok(0) => Err(ErrorKind::WriteZero.into()),
        answer => answer,
    }
}

impl<'a, R: Files + Clock + Eprint + Copy + Drop> JournalFile<'a, R> {
    /// Opens the file at `path`; without a path all writes are discarded. If opening fails, each write tries again.
    pub fn open(
        rt: R,
        path: Option<&'a str>,
        notes: JournalNotes<'a>,
        syncs: JournalSyncs,
    ) -> JournalFile<'a, R> {
        let mut journal = JournalFile {
            rt,
            path,
            notes,
            syncs,
            file: None,
            synced: None,
            holds_save: false,
            lacks_bytes: false,
            has_fault: false,
        };
        if let Some(path) = path {
            journal.open_first(path);
        }
        journal
    }

    /// Opens the file for the first time.
    fn open_first(&mut self, path: &str) {
        match open_at_end(&self.rt, path) {
            Ok(file) => self.file = Some(file),
            Err(_) => self.tell_fault(),
        }
    }

    /// Appends some of the bytes, from the first on; opens the file if it is not open yet.
    fn append(&mut self, path: &str, buf: &[u8]) -> io::Result<usize>
        ensures bound { WritesAtMost result buf.now }
        ensures bytes { WriteAppends (contents_of R.File.Write.contents self.old.file) (contents_of R.File.Write.contents self.new.file) result buf.now }
        ensures path { self.new.path ≡ self.old.path }
    {
        if let Some(file) = &mut self.file {
            return write_some(file, buf);
        }
        let mut file = open_at_end(&self.rt, path)?;
        let answer = write_some(&mut file, buf);
        self.file = Some(file);
        answer
    }

    /// Whether a flush should sync. If that goes by the clock, it should if the clock cannot be read.
    fn is_due(&self) -> bool {
        if self.holds_save || self.has_fault {
            return true;
        }
        if matches!(self.syncs, JournalSyncs::AtSaves) {
            return false;
        }
        let Some(synced) = &self.synced else {
            return true;
        };
        match synced.elapsed(&self.rt) {
            Ok(elapsed) => elapsed.as_secs() >= WAIT,
            Err(_) => true,
        }
    }

    /// Notes that all bytes written are on disk.
    fn note_synced(&mut self)
        ensures file { self.new.file ≡ self.old.file }
        ensures path { self.new.path ≡ self.old.path }
    {
        self.synced = Instant::now(&self.rt).ok();
        self.holds_save = false;
        if self.has_fault && !self.lacks_bytes {
            self.has_fault = false;
            // if standard error fails, nothing can be reported
            let _ = eprint!(&self.rt; "{}", self.notes.kept);
        }
    }

    /// Notes a fault, and prints it unless one is printed that has not ended.
    fn tell_fault(&mut self)
        ensures file { self.new.file ≡ self.old.file }
        ensures path { self.new.path ≡ self.old.path }
    {
        if !self.has_fault {
            self.has_fault = true;
            // if standard error fails, nothing can be reported
            let _ = eprint!(&self.rt; "{}", self.notes.lost);
        }
    }
}

impl<'a, R: Files + Clock + Eprint + Copy + Drop> Write for JournalFile<'a, R> {
    ghost use Rattle.bx_command.specs.Journal.{contents_if};

    ghost contents = { λ j. contents_if j.path (contents_of R.File.Write.contents j.file) };

    fn write(&mut self, buf: &[u8]) -> io::Result<usize> {
        let Some(path) = self.path else {
            return Ok(buf.len());
        };
        if buf.is_empty() {
            return Ok(0);
        }
        self.holds_save = self.holds_save || buf.contains(&SAVE);
        let answer = self.append(path, buf);
        self.lacks_bytes = answer.is_err();
        if self.lacks_bytes {
            self.tell_fault();
        }
        answer
    }

    fn flush(&mut self) -> io::Result<()> {
        let Some(file) = &self.file else {
            return Ok(());
        };
        if !self.is_due() {
            return Ok(());
        }
        match file.sync_data() {
            Ok(()) => {
                self.note_synced();
                Ok(())
            }
            Err(error) => {
                self.tell_fault();
                Err(error)
            }
        }
    }
}

/// Truncates a journal that is no longer needed. A failure is ignored: the journal then holds keys that nobody needs.
pub fn empty_journal(rt: &HostRuntime, path: &str) {
    let _ = OpenOptions::new().write(true).truncate(true).open(rt, path);
}
