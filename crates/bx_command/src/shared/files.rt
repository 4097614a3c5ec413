//! The files that the programs read: texts, and Unicode's.

ghost use Rattle.std.specs.Prelude.{◌≡◌, ◌+◌, IfErr, IfOk, IfSome, take};
ghost use Rattle.std.specs.IoError.{error_kind};
ghost use Rattle.bx_command.specs.shared.Files.{IsFaultOf, ReadsAll, ReadsFound, ReadsText};

use crate::shared::shown::Shown;
use bx_common::LARGEST_TEXT;
use std::alloc::Global;
use std::fs::{self, File};
use std::io::{self, ErrorKind, Read};
use thiserror::Error;

/// Why a file could not be read.
#[derive(Debug, Drop, Error)]
pub enum FileFault<'a> {
    /// The file at this path does not exist or cannot be read.
    #[error("cannot read {}", Shown(.0))]
    Unreadable(&'a str),
    #[error("out of memory")]
    OutOfMemory,
}

/// Why the file at a path could not be read.
fn fault_of<'a>(path: &'a str, kind: ErrorKind) -> FileFault<'a>
    ensures { IsFaultOf path.entry.now kind result }
{
    match kind {
        ErrorKind::OutOfMemory => FileFault::OutOfMemory,
        _ => FileFault::Unreadable(path),
    }
}

/// A file system that is read. While a program reads its input files, nobody else changes them.
pub trait InputFiles {
    ghost use Rattle.std.specs.Prelude.{ℕ, List, Option, None, Some, Result, Ok, Err, IfErr, IfOk};
    ghost use Rattle.std.specs.IoError.{error_kind};
    ghost use Rattle.std.specs.declared.io.ErrorKind.{ErrorKind as Kind};

    /// Whether a read of a path may answer this: the first bytes of the file, at most so many, or all if no number is given; or why
    /// it gives none.
    ghost answers: { Self → List ℕ → Option ℕ → Result (List ℕ) Kind → Type 0 };

    /// All bytes of a file.
    fn read(&self, alloc: Global, path: &str) -> io::Result<Vec<u8>>
        ensures all { IfOk result (λ bytes. answers self.now path.now None (Ok bytes.items)) }
        ensures refused { IfErr result (λ error. answers self.now path.now None (Err (error_kind error))) };

    /// The first bytes of a file, at most so many.
    fn read_front(&self, alloc: Global, path: &str, most: u64) -> io::Result<Vec<u8>>
        ensures front { IfOk result (λ bytes. answers self.now path.now (Some most) (Ok bytes.items)) }
        ensures refused { IfErr result (λ error. answers self.now path.now (Some most) (Err (error_kind error))) };
}

/// The first bytes that a reader has, at most so many.
fn front_of<R: Read + Drop>(alloc: Global, reader: R, most: u64) -> io::Result<Vec<u8>>
    ensures { IfOk result (λ bytes. IfSome (R.remaining reader) (λ all. bytes.items ≡ take most all)) }
{
    let mut bytes = Vec::new(alloc);
    reader.take(most).read_to_end(&mut bytes)?;
    Ok(bytes)
}

/// Nothing is known of the system's files: std states nothing of them.
impl InputFiles for HostRuntime {
    ghost use Rattle.std.specs.Prelude.{⊤};

    ghost answers = { λ _ _ _ _. ⊤ };

    fn read(&self, _alloc: Global, path: &str) -> io::Result<Vec<u8>> {
        fs::read(self, path)
    }

    fn read_front(&self, alloc: Global, path: &str, most: u64) -> io::Result<Vec<u8>> {
        front_of(alloc, File::open(self, path)?, most)
    }
}

/// The bytes of a text file, cut off one byte past the largest text. None if the file does not exist.
///
/// Errors: `Unreadable`; `OutOfMemory`.
pub fn text_of<'a, F: InputFiles>(
    files: &F,
    alloc: Global,
    path: &'a str,
) -> Result<Option<Vec<u8>>, FileFault<'a>>
    ensures { ReadsText (F.answers files.now) path.entry.now result }
{
    match files.read_front(alloc, path, LARGEST_TEXT as u64 + 1) {
        Ok(bytes) => Ok(Some(bytes)),
        Err(error) => match error.kind() {
            ErrorKind::NotFound => Ok(None),
            kind => Err(fault_of(path, kind)),
        },
    }
}

/// The bytes of a text file that must exist, cut off one byte past the largest text.
///
/// Errors: `Unreadable`; `OutOfMemory`.
pub fn found_text<'a, F: InputFiles>(
    files: &F,
    alloc: Global,
    path: &'a str,
) -> Result<Vec<u8>, FileFault<'a>>
    ensures { ReadsFound (F.answers files.now) path.entry.now result }
{
    match files.read_front(alloc, path, LARGEST_TEXT as u64 + 1) {
        Ok(bytes) => Ok(bytes),
        Err(error) => Err(fault_of(path, error.kind())),
    }
}

/// All bytes of a file.
///
/// Errors: `Unreadable`, also if the file does not exist; `OutOfMemory`.
pub fn bytes_of<'a, F: InputFiles>(
    files: &F,
    alloc: Global,
    path: &'a str,
) -> Result<Vec<u8>, FileFault<'a>>
    ensures { ReadsAll (F.answers files.now) path.entry.now result }
{
    match files.read(alloc, path) {
        Ok(bytes) => Ok(bytes),
        Err(error) => Err(fault_of(path, error.kind())),
    }
}
