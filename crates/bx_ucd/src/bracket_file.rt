//! Reads the lines of BidiBrackets.txt, the file of paired brackets.

ghost use Rattle.std.specs.Prelude.{◌≡◌};
ghost use Rattle.bx_ucd.specs.Lines.{fields};
ghost use Rattle.bx_ucd.specs.BracketFile.{side_of, bracket_entry, bracket_line};

use crate::codes::character_of;
use crate::data::Side;
use crate::error::Cause;
use crate::file::Entry;
use crate::lines::{before_comment, is_all_blank, trimmed};
use crate::parts::{Parts, cut};

/// A line of the file: a bracket, its counterpart and its side.
#[derive(Clone, Copy)]
pub struct BracketEntry {
    pub bracket: char,
    pub paired: char,
    pub side: Side,
}

/// The side that `o` or `c` names.
fn side_of(name: &[u8]) -> Result<Side, Cause>
    ensures { result ≡ side_of name.now }
{
    if name == b"o".as_slice() {
        Ok(Side::Opener)
    } else if name == b"c".as_slice() {
        Ok(Side::Closer)
    } else {
        Err(Cause::UnknownValue)
    }
}

/// Reads three fields: the bracket, its counterpart, the side.
fn bracket_entry(text: &[u8]) -> Result<BracketEntry, Cause>
    ensures { result ≡ bracket_entry (fields text.now) }
{
    match cut(text, b';') {
        Parts::Three(bracket, paired, side) => {
            let bracket = character_of(trimmed(bracket))?;
            let paired = character_of(trimmed(paired))?;
            let side = side_of(trimmed(side))?;
            Ok(BracketEntry {
                bracket,
                paired,
                side,
            })
        }
        _ => Err(Cause::BadLine),
    }
}

impl Entry for BracketEntry {
    ghost line_of = { bracket_line };

    fn read(line: &[u8]) -> Result<Option<BracketEntry>, Cause> {
        let text = before_comment(line);
        if is_all_blank(text) {
            return Ok(None);
        }
        Ok(Some(bracket_entry(text)?))
    }
}
