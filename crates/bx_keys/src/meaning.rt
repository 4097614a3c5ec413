//! The keys of whole items, by the tables of `specs/Keys.antt`.

ghost use Rattle.std.specs.Prelude.{◌≡◌, ◌<◌, ◌==◌, ◌∷◌, [], ◌++◌, IfSome};
ghost use Rattle.std.specs.List.{slice_split};
ghost use Rattle.bx_keys.specs.Keys as spec;
ghost use Rattle.bx_keys.specs.Decoder.{HasSides, IsSide};
ghost use Rattle.bx_keys.specs.Waiting.{fate};

use crate::key::Key;
use crate::notice::Notice;
use crate::numbers::{first_semicolon, side};
use crate::sequence::ESC;
use bx_bytes::{Fate, character};
use bx_common::is_ascii_printable;

/// The key of the item that `byte` completes, if it has one.
pub fn key_of(waiting: &[u8], byte: u8) -> Option<Key>
    requires { fate (waiting.now ++ byte ∷ []) ≡ Fate.Ends }
    ensures value { result ≡ spec.key_of (waiting.now ++ byte ∷ []) }
    ensures sides { IfSome result HasSides }
{
    match waiting {
        [] => single_key(byte),
        [ESC, sequence @ ..] => sequence_key(sequence, byte),
        _ => Some(Key::Insert(character(waiting, byte))),
    }
}

/// The key of a byte below 80.
fn single_key(byte: u8) -> Option<Key>
    requires { byte < 0x80 }
    ensures value { result ≡ spec.single_key byte }
    ensures sides { IfSome result HasSides }
{
    match byte {
        0x02 => Some(Key::Back),
        0x06 => Some(Key::Forward),
        0x08 | 0x7F => Some(Key::Erase),
        0x09 => Some(Key::Insert('\t')),
        0x0A | 0x0D => Some(Key::Insert('\n')),
        0x0C => Some(Key::Repaint),
        0x11 => Some(Key::Quit),
        0x13 => Some(Key::Save),
        0x19 => Some(Key::RedoEdit),
        0x1A => Some(Key::UndoEdit),
        byte if is_ascii_printable(byte) => Some(Key::Insert(char::from(byte))),
        _ => None,
    }
}

/// The key of a sequence after ESC. Only control sequences have keys.
fn sequence_key(sequence: &[u8], byte: u8) -> Option<Key>
    ensures value { result ≡ spec.key_of (0x1B ∷ (sequence.now ++ byte ∷ [])) }
    ensures sides { IfSome result HasSides }
{
    match sequence {
        [b'[', between @ ..] => control_sequence_key(between, byte),
        _ => None,
    }
}

/// The key of a control sequence, by the bytes between CSI and the last one, and that one.
fn control_sequence_key(between: &[u8], last: u8) -> Option<Key>
    ensures value { result ≡ spec.sequence_key (between.now ++ last ∷ []) }
    ensures sides { IfSome result HasSides }
{
    match between {
        _ if last == b't' => sides_key(between),
        [] => plain_key(last),
        [number] if last == b'~' => numbered_key(*number),
        [first, second] if last == b'~' => two_byte_key(*first, *second),
        [first, second, third] if last == b'~' => three_byte_key(*first, *second, *third),
        _ => None,
    }
}

/// The key of CSI and one byte.
fn plain_key(last: u8) -> Option<Key>
    ensures value { result ≡ spec.sequence_key (last ∷ []) }
    ensures sides { IfSome result HasSides }
{
    match last {
        b'A' => Some(Key::Up),
        b'B' => Some(Key::Down),
        b'C' => Some(Key::Right),
        b'D' => Some(Key::Left),
        b'H' => Some(Key::RowHome),
        b'F' => Some(Key::RowEnd),
        _ => None,
    }
}

/// The key of CSI, one digit and `~`.
fn numbered_key(number: u8) -> Option<Key>
    ensures value { result ≡ spec.sequence_key (number ∷ 0x7E ∷ []) }
    ensures sides { IfSome result HasSides }
{
    match number {
        b'1' => Some(Key::RowHome),
        b'3' => Some(Key::Delete),
        b'4' => Some(Key::RowEnd),
        b'5' => Some(Key::PageUp),
        b'6' => Some(Key::PageDown),
        b'9' => Some(Key::Direction),
        _ => None,
    }
}

/// The key of CSI, two bytes and `~`.
fn two_byte_key(first: u8, second: u8) -> Option<Key>
    ensures value { result ≡ spec.sequence_key (first ∷ second ∷ 0x7E ∷ []) }
    ensures sides { IfSome result HasSides }
{
    match first {
        b'7' => seventies_key(second),
        b'8' => eighties_key(second),
        b'9' => nineties_key(second),
        b'>' => notice_key(second),
        _ => None,
    }
}

/// The key of a notice, by its digit.
fn notice_key(digit: u8) -> Option<Key>
    ensures value { result ≡ spec.sequence_key (0x3E ∷ digit ∷ 0x7E ∷ []) }
    ensures sides { IfSome result HasSides }
{
    match digit {
        b'1' => Some(Key::Notice(Notice::NoSpace)),
        b'2' => Some(Key::Notice(Notice::FolderGone)),
        b'3' => Some(Key::Notice(Notice::NotPermitted)),
        b'4' => Some(Key::Notice(Notice::ReadOnly)),
        b'5' => Some(Key::Notice(Notice::Unkept)),
        b'6' => Some(Key::Notice(Notice::KeptAgain)),
        b'7' => Some(Key::Notice(Notice::Recovered)),
        b'8' => Some(Key::Notice(Notice::RecoveredAside)),
        b'9' => Some(Key::Notice(Notice::InPlace)),
        _ => None,
    }
}

/// The key of a number from 70 to 79.
fn seventies_key(ones: u8) -> Option<Key>
    ensures value { result ≡ spec.sequence_key (0x37 ∷ ones ∷ 0x7E ∷ []) }
    ensures sides { IfSome result HasSides }
{
    match ones {
        b'0' => Some(Key::Find),
        b'1' => Some(Key::FindBack),
        b'2' => Some(Key::Mark),
        b'3' => Some(Key::Copy),
        b'4' => Some(Key::Cut),
        b'5' => Some(Key::Put),
        b'6' => Some(Key::WordLeft),
        b'7' => Some(Key::WordRight),
        b'8' => Some(Key::TextStart),
        b'9' => Some(Key::TextEnd),
        _ => None,
    }
}

/// The key of a number from 80 to 89.
fn eighties_key(ones: u8) -> Option<Key>
    ensures value { result ≡ spec.sequence_key (0x38 ∷ ones ∷ 0x7E ∷ []) }
    ensures sides { IfSome result HasSides }
{
    match ones {
        b'0' => Some(Key::Help),
        b'1' => Some(Key::Select),
        b'2' => Some(Key::Undo),
        b'3' => Some(Key::Redo),
        b'4' => Some(Key::GoTo),
        b'5' => Some(Key::Replace),
        b'6' => Some(Key::Name),
        b'7' => Some(Key::Tell),
        b'8' => Some(Key::EraseWord),
        b'9' => Some(Key::DeleteWord),
        _ => None,
    }
}

/// The key of a number from 90 to 99.
fn nineties_key(ones: u8) -> Option<Key>
    ensures value { result ≡ spec.sequence_key (0x39 ∷ ones ∷ 0x7E ∷ []) }
    ensures sides { IfSome result HasSides }
{
    match ones {
        b'0' => Some(Key::PasteStart),
        b'1' => Some(Key::PasteEnd),
        b'2' => Some(Key::FindNext),
        b'3' => Some(Key::Cancel),
        b'4' => Some(Key::ErasePoint),
        b'5' => Some(Key::NewLine),
        b'6' => Some(Key::LineUp),
        b'7' => Some(Key::LineDown),
        b'8' => Some(Key::PageBack),
        b'9' => Some(Key::PageOn),
        _ => None,
    }
}

/// The key of CSI, three bytes and `~`.
fn three_byte_key(first: u8, second: u8, third: u8) -> Option<Key>
    ensures value { result ≡ spec.sequence_key (first ∷ second ∷ third ∷ 0x7E ∷ []) }
    ensures sides { IfSome result HasSides }
{
    match first {
        b'1' if second == b'0' => hundreds_key(third),
        _ => None,
    }
}

/// The key of a number from 100 to 109.
fn hundreds_key(ones: u8) -> Option<Key>
    ensures value { result ≡ spec.sequence_key (0x31 ∷ 0x30 ∷ ones ∷ 0x7E ∷ []) }
    ensures sides { IfSome result HasSides }
{
    match ones {
        b'0' => Some(Key::SelectAll),
        b'1' => Some(Key::FindPrevious),
        b'2' => Some(Key::Fill),
        b'3' => Some(Key::SaveAs),
        b'4' => Some(Key::ScrollBack),
        b'5' => Some(Key::ScrollOn),
        b'6' => Some(Key::AskOverwrite),
        _ => None,
    }
}

/// The key of two sides, by what is between CSI and `t`: 8;ROWS;COLUMNS, 7;ROW;COLUMN or 9;ROW;COLUMN.
fn sides_key(between: &[u8]) -> Option<Key>
    ensures value { result ≡ spec.sides_key (slice_split (λ b. b == 0x3B) between.now) }
    ensures sides { IfSome result HasSides }
{
    match between {
        [kind, b';', sides @ ..] => key_after_kind(*kind, sides),
        _ => None,
    }
}

/// The key of two sides, by the byte before them and what follows its semicolon.
fn key_after_kind(kind: u8, sides: &[u8]) -> Option<Key>
    ensures value { result ≡ spec.sides_key ((kind ∷ []) ∷ slice_split (λ b. b == 0x3B) sides.now) }
    ensures sides { IfSome result HasSides }
{
    let first = first_semicolon(sides)?;
    key_by_kind(kind, side(&sides[..first])?, side(&sides[first + 1..])?)
}

/// The key of two sides, by the byte before them: a window's rows and columns, or a cell's row and column.
fn key_by_kind(kind: u8, first: u16, second: u16) -> Option<Key>
    requires first { IsSide first }
    requires second { IsSide second }
    ensures value { result ≡ spec.key_by_kind (kind ∷ []) first second }
    ensures sides { IfSome result HasSides }
{
    match kind {
        b'7' => Some(Key::Point(first, second)),
        b'8' => Some(Key::Size(first, second)),
        b'9' => Some(Key::Drag(first, second)),
        _ => None,
    }
}
