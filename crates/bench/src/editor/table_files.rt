//! The bytes of Unicode's files: of those that the command line names, or small samples.

use anyhow::{Context, Result};
use bx_command::{JoiningFiles, UnicodeFiles};
use bx_ucd::sample::{BRACKETS, CLASSES, MIRRORING};
use std::alloc::{AllocError, Global};
use std::fs;
use std::rt::Files;

/// Reads the three files at these paths, without the two by which letters are joined.
pub(crate) fn read<R: Files + AllocGlobal>(
    rt: &R,
    classes: &str,
    brackets: &str,
    mirroring: &str,
) -> Result<UnicodeFiles<Vec<u8>>> {
    Ok(UnicodeFiles {
        classes: fs::read(rt, classes).context("classes")?,
        brackets: fs::read(rt, brackets).context("brackets")?,
        mirroring: fs::read(rt, mirroring).context("mirroring")?,
        joining: None,
    })
}

/// Reads the two files by which letters are joined.
pub(crate) fn read_joining<R: Files + AllocGlobal>(
    rt: &R,
    joining: &str,
    characters: &str,
) -> Result<JoiningFiles<Vec<u8>>> {
    Ok(JoiningFiles {
        joining: fs::read(rt, joining).context("joining")?,
        characters: fs::read(rt, characters).context("characters")?,
    })
}

/// The small samples of the files.
pub(crate) fn small(alloc: Global) -> Result<UnicodeFiles<Vec<u8>>, AllocError> {
    Ok(UnicodeFiles {
        classes: String::from_str(alloc, CLASSES)?.into_bytes(),
        brackets: String::from_str(alloc, BRACKETS)?.into_bytes(),
        mirroring: String::from_str(alloc, MIRRORING)?.into_bytes(),
        joining: None,
    })
}
