//! Reads the lines of BidiMirroring.txt, the file of mirrored characters.

ghost use Rattle.std.specs.Prelude.{◌≡◌};
ghost use Rattle.bx_ucd.specs.Lines.{fields};
ghost use Rattle.bx_ucd.specs.MirroringFile.{mirror_entry, mirror_line};

use crate::codes::character_of;
use crate::error::Cause;
use crate::file::Entry;
use crate::lines::{before_comment, is_all_blank, trimmed};
use crate::parts::{Parts, cut};
use bx_common::is_control;

/// A line of the file: a character and its mirror.
#[derive(Clone, Copy)]
pub struct MirrorEntry {
    pub character: char,
    pub mirror: char,
}

/// Reads two fields: a character and its mirror, neither a control.
fn mirror_entry(text: &[u8]) -> Result<MirrorEntry, Cause>
    ensures { result ≡ mirror_entry (fields text.now) }
{
    match cut(text, b';') {
        Parts::Two(character, mirror) => {
            let character = character_of(trimmed(character))?;
            let mirror = character_of(trimmed(mirror))?;
            if is_control(character) || is_control(mirror) {
                return Err(Cause::ControlInMirror);
            }
            Ok(MirrorEntry { character, mirror })
        }
        _ => Err(Cause::BadLine),
    }
}

impl Entry for MirrorEntry {
    ghost line_of = { mirror_line };

    fn read(line: &[u8]) -> Result<Option<MirrorEntry>, Cause> {
        let text = before_comment(line);
        if is_all_blank(text) {
            return Ok(None);
        }
        Ok(Some(mirror_entry(text)?))
    }
}
