//! The files of a run: the text, what is compared with it, a recovered text, and the host's pipes for saves.

ghost use Rattle.std.specs.Prelude.{◌≡◌, IfErr, OnOk};
ghost use Rattle.bx_command.specs.Check.{Refuses};
ghost use Rattle.bx_recovery.specs.Beginnings.{bytes_of};
ghost use Rattle.bx_recovery.specs.Refusals.{IsText};
ghost use Rattle.bidi_edit.specs.Check.{Checks, IsChecked};
ghost use Rattle.bidi_edit.specs.Files.{HeldAt, IsHeld};

use crate::fault::ProgramFault;
use bx_command::{FileFault, InputFiles, Options, TextFault, check_text, text_of};
use bx_store::{HostStore, SaverPipes};
use std::alloc::Global;
use std::fs::{File, OpenOptions};
use std::io::{self, BufWriter, Write};

/// Size of the buffer of a pipe for requests, in bytes: one piece of a text, so that few writes go to the pipe.
const REQUESTS: usize = 65_538;

/// The store that the host keeps.
pub type HostFile = HostStore<SaverPipes<File, File>>;

/// Checks that a text can be opened. A file that does not exist is an empty text.
fn check_opened(text: &Option<Vec<u8>>) -> Result<(), TextFault>
    ensures checked { OnOk result (IsText (bytes_of text.now)) }
    ensures refused { IfErr result (Refuses (bytes_of text.now)) }
{
    match text {
        Some(bytes) => check_text(bytes.as_slice()),
        None => Ok(()),
    }
}

/// Checks that what was read of FILE can be opened.
fn check_read<'a>(read: Result<Option<Vec<u8>>, FileFault<'a>>) -> Result<(), ProgramFault<'a>>
    ensures { Checks read.entry result }
{
    let text = read?;
    check_opened(&text)?;
    Ok(())
}

/// Checks that FILE can be opened. A file that does not exist can: it is an empty text.
pub fn check_file<'a, F: InputFiles>(
    files: &F,
    alloc: Global,
    path: &'a str,
) -> Result<(), ProgramFault<'a>>
    ensures { IsChecked (F.answers files.now) path.entry.now result }
{
    check_read(text_of(files, alloc, path))
}

/// The bytes at a path, none if there is no path or nothing has it.
fn held_at<'a, F: InputFiles>(
    files: &F,
    alloc: Global,
    path: Option<&'a str>,
) -> Result<Vec<u8>, FileFault<'a>>
    ensures { HeldAt (F.answers files.now) path.entry result }
{
    let Some(path) = path else {
        return Ok(Vec::new(alloc));
    };
    match text_of(files, alloc, path)? {
        Some(bytes) => Ok(bytes),
        None => Ok(Vec::new(alloc)),
    }
}

/// What FILE holds, for a comparison with a journal: empty if it does not exist. The host names the file by --against.
pub fn held_text<'a, F: InputFiles>(
    files: &F,
    alloc: Global,
    options: &Options<'a>,
) -> Result<Vec<u8>, FileFault<'a>>
    ensures { IsHeld (F.answers files.now) options.now result }
{
    if options.frames {
        return held_at(files, alloc, options.against);
    }
    held_at(files, alloc, Some(options.file))
}

/// Where a recovered text is written.
pub trait OutputFiles {
    ghost use Rattle.std.specs.Prelude.{◌≡◌, ◌++◌, [], ◌∷◌, ℕ, List, Option, option_map, OnOk};

    /// The texts that were written, each with its path; None if that is not known.
    ghost texts: { Self → Option (List (List ℕ × List ℕ)) };

    /// Writes a text into the file at a path, over what it has.
    fn write_text(&mut self, path: &str, text: &[u8]) -> io::Result<()>
        ensures { OnOk result (texts self.new ≡ option_map (λ all. all ++ (path.now, text.now) ∷ []) (texts self.old)) };
}

/// The files of the system. Nothing is known of what they have: std states nothing of them.
#[derive(Drop)]
pub struct SystemOutput<'r>(pub &'r HostRuntime);

impl OutputFiles for SystemOutput<'_> {
    ghost use Rattle.std.specs.Prelude.{None};

    ghost texts = { λ _. None };

    fn write_text(&mut self, path: &str, text: &[u8]) -> io::Result<()> {
        let mut file = OpenOptions::new()
            .write(true)
            .create(true)
            .truncate(true)
            .open(self.0, path)?;
        file.write_all(text)
    }
}

/// Opens one of the host's pipes: its path, or the number of a descriptor.
fn open_pipe(rt: &HostRuntime, name: &str, is_written: bool) -> io::Result<File> {
    let is_number = name.bytes().all(|byte| byte.is_ascii_digit());
    let folder = if is_number { "/proc/self/fd/" } else { "" };
    let path = format!(in rt.alloc(); "{folder}{name}")?;
    OpenOptions::new()
        .read(!is_written)
        .write(is_written)
        .open(rt, path.as_str())
}

/// Opens the host's pipes for saves.
fn open_pipes(rt: &HostRuntime, pipes: &str) -> io::Result<HostFile> {
    let (requests, answers) = pipes.split_once(',').unwrap_or((pipes, pipes));
    let requests = open_pipe(rt, requests, true)?;
    let requests = BufWriter::with_capacity(rt.alloc(), REQUESTS, requests)?;
    let answers = open_pipe(rt, answers, false)?;
    Ok(HostStore::new(SaverPipes::new(answers, requests)))
}

/// The store that the host keeps.
pub fn host_store<'a>(rt: &HostRuntime, pipes: &'a str) -> Result<HostFile, ProgramFault<'a>> {
    match open_pipes(rt, pipes) {
        Ok(store) => Ok(store),
        Err(_) => Err(ProgramFault::File(FileFault::Unreadable(pipes))),
    }
}
