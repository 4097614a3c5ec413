//! Reads the lines of ArabicShaping.txt, the file of joining types.

ghost use Rattle.std.specs.Prelude.{◌≡◌};
ghost use Rattle.bx_ucd.specs.Lines.{fields};
ghost use Rattle.bx_ucd.specs.JoiningFile.{joining_named, joining_entry, joining_line};

use crate::codes::character_of;
use crate::error::Cause;
use crate::file::Entry;
use crate::joining::Joining;
use crate::lines::{before_comment, is_all_blank, trimmed};
use crate::parts::{Parts, cut};

/// A line of the file: a character and its joining type.
#[derive(Clone, Copy)]
pub struct JoiningEntry {
    pub character: char,
    pub joining: Joining,
}

/// The joining type with this short name.
fn joining_named(name: &[u8]) -> Result<Joining, Cause>
    ensures { result ≡ joining_named name.now }
{
    if name == b"R".as_slice() {
        Ok(Joining::R)
    } else if name == b"L".as_slice() {
        Ok(Joining::L)
    } else if name == b"D".as_slice() {
        Ok(Joining::D)
    } else if name == b"C".as_slice() {
        Ok(Joining::C)
    } else if name == b"U".as_slice() {
        Ok(Joining::U)
    } else if name == b"T".as_slice() {
        Ok(Joining::T)
    } else {
        Err(Cause::UnknownValue)
    }
}

/// Reads four fields: the character, its name, its joining type, its group.
fn joining_entry(text: &[u8]) -> Result<JoiningEntry, Cause>
    ensures { result ≡ joining_entry (fields text.now) }
{
    match cut(text, b';') {
        Parts::Four(character, _, joining, _) => {
            let character = character_of(trimmed(character))?;
            let joining = joining_named(trimmed(joining))?;
            Ok(JoiningEntry { character, joining })
        }
        _ => Err(Cause::BadLine),
    }
}

impl Entry for JoiningEntry {
    ghost line_of = { joining_line };

    fn read(line: &[u8]) -> Result<Option<JoiningEntry>, Cause> {
        let text = before_comment(line);
        if is_all_blank(text) {
            return Ok(None);
        }
        Ok(Some(joining_entry(text)?))
    }
}
