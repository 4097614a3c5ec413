//! The tables of lines: the program's files or none, with the lines that the field TABLES adds to them.

use crate::fault::Fault;
use bx_ucd::{JoiningFiles, Tables, UcdError};
use player_lines::WordFault;
use std::alloc::{AllocError, Global};
use std::fs;
use std::rt::Files;

/// The bytes of Unicode's files; the last two are empty if the program is not given them.
#[derive(Drop)]
pub struct TableFiles {
    classes: Vec<u8>,
    brackets: Vec<u8>,
    mirroring: Vec<u8>,
    joining: Vec<u8>,
    characters: Vec<u8>,
}

/// Appends a line, with a tab for U+2409 and a carriage return for U+240D.
fn add_line(file: &mut Vec<u8>, line: &str) -> Result<(), WordFault> {
    for c in line.chars() {
        match c {
            '\u{2409}' => file.push(b'\t')?,
            '\u{240d}' => file.push(b'\r')?,
            _ => file.extend_from_slice(c.encode_utf8(&mut [0; 4]).as_bytes())?,
        }
    }
    file.push(b'\n')?;
    Ok(())
}

impl TableFiles {
    /// Reads the files at three paths, or at five.
    pub fn read<R: Files + AllocGlobal>(rt: &R, paths: &[String]) -> Result<TableFiles, Fault> {
        let (three, two) = match paths {
            [classes, brackets, mirroring] => ([classes, brackets, mirroring], None),
            [classes, brackets, mirroring, joining, characters] => {
                ([classes, brackets, mirroring], Some((joining, characters)))
            }
            _ => return Err(Fault::Words),
        };
        let [classes, brackets, mirroring] = three;
        let mut files = TableFiles {
            classes: fs::read(rt, classes.as_str())?,
            brackets: fs::read(rt, brackets.as_str())?,
            mirroring: fs::read(rt, mirroring.as_str())?,
            joining: Vec::new(rt.alloc()),
            characters: Vec::new(rt.alloc()),
        };
        if let Some((joining, characters)) = two {
            files.joining = fs::read(rt, joining.as_str())?;
            files.characters = fs::read(rt, characters.as_str())?;
        }
        Ok(files)
    }

    /// Another copy of the bytes.
    fn copy(&self, alloc: Global) -> Result<TableFiles, AllocError> {
        Ok(TableFiles {
            classes: Vec::from_slice(alloc, &self.classes)?,
            brackets: Vec::from_slice(alloc, &self.brackets)?,
            mirroring: Vec::from_slice(alloc, &self.mirroring)?,
            joining: Vec::from_slice(alloc, &self.joining)?,
            characters: Vec::from_slice(alloc, &self.characters)?,
        })
    }

    /// The tables of the first three files, without joined letters.
    pub fn plain(&self, alloc: Global) -> Result<Tables, UcdError> {
        Tables::read(alloc, &self.classes, &self.brackets, &self.mirroring, None)
    }

    /// The tables of all files.
    pub fn joined(&self, alloc: Global) -> Result<Tables, UcdError> {
        let files = JoiningFiles {
            joining: &self.joining,
            characters: &self.characters,
        };
        Tables::read(
            alloc,
            &self.classes,
            &self.brackets,
            &self.mirroring,
            Some(files),
        )
    }

    /// Appends a line, given as FILE:LINE.
    fn add(&mut self, part: &str) -> Result<(), WordFault> {
        match part.split_once(':') {
            Some(("classes", line)) => add_line(&mut self.classes, line),
            Some(("brackets", line)) => add_line(&mut self.brackets, line),
            Some(("mirroring", line)) => add_line(&mut self.mirroring, line),
            Some(("joining", line)) => add_line(&mut self.joining, line),
            Some(("characters", line)) => add_line(&mut self.characters, line),
            _ => Err(WordFault::Bad("FILE:LINE is wanted in TABLES")),
        }
    }

    /// No lines of any file.
    fn empty(alloc: Global) -> TableFiles {
        TableFiles {
            classes: Vec::new(alloc),
            brackets: Vec::new(alloc),
            mirroring: Vec::new(alloc),
            joining: Vec::new(alloc),
            characters: Vec::new(alloc),
        }
    }

    /// Reads the tables of the field TABLES, with the lines that it adds. The error of a refused table is within the result.
    pub fn with_lines(
        &self,
        alloc: Global,
        field: &str,
    ) -> Result<Result<Tables, UcdError>, WordFault> {
        let mut parts = field.split('|');
        let (mut files, is_joined) = match parts.next() {
            Some("plain") => (self.copy(alloc)?, false),
            Some("joined") => (self.copy(alloc)?, true),
            Some("new") => (TableFiles::empty(alloc), false),
            Some("new-joined") => (TableFiles::empty(alloc), true),
            _ => {
                return Err(WordFault::Bad("TABLES begins with plain, joined, new or new-joined"));
            }
        };
        for part in parts {
            files.add(part)?;
        }
        Ok(if is_joined {
            files.joined(alloc)
        } else {
            files.plain(alloc)
        })
    }
}
