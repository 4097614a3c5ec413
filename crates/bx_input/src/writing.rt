//! The bytes by which the session's decoder knows a key.

ghost use Rattle.std.specs.Prelude.{◌≡◌, ◌∷◌, ◌++◌, [], OnOk, decimal, encode_utf8};
ghost use Rattle.bx_input.specs.Heard.{all_bytes};
ghost use Rattle.bx_input.specs.KeyBytes as spec;

use bx_keys::{Key, Notice};
use itoa::Buffer;
use std::alloc::AllocError;

/// The bytes of a notice.
fn notice_bytes(notice: Notice) -> &'static [u8]
    ensures { result.now ≡ spec.notice_bytes notice }
{
    match notice {
        Notice::NoSpace => b"\x1b[>1~",
        Notice::FolderGone => b"\x1b[>2~",
        Notice::NotPermitted => b"\x1b[>3~",
        Notice::ReadOnly => b"\x1b[>4~",
        Notice::Unkept => b"\x1b[>5~",
        Notice::KeptAgain => b"\x1b[>6~",
        Notice::Recovered => b"\x1b[>7~",
        Notice::RecoveredAside => b"\x1b[>8~",
        Notice::InPlace => b"\x1b[>9~",
    }
}

/// Appends the bytes of two sides, by the bytes before them.
fn write_sides(out: &mut Vec<u8>, before: &[u8], first: u16, second: u16) -> Result<(), AllocError>
    ensures { OnOk result (out.new.items ≡ out.old.items ++ (before.now ++ (decimal first ++ 0x3B ∷ (decimal second ++ 0x74 ∷ [])))) }
{
    out.extend_from_slice(before)?;
    out.extend_from_slice(Buffer::new().format(first).as_bytes())?;
    out.push(b';')?;
    out.extend_from_slice(Buffer::new().format(second).as_bytes())?;
    out.push(b't')?;
    Ok(())
}

/// Appends a character.
fn write_character(out: &mut Vec<u8>, c: char) -> Result<(), AllocError>
    ensures { OnOk result (out.new.items ≡ out.old.items ++ encode_utf8 c) }
{
    let mut buffer = [0; 4];
    let text = c.encode_utf8(&mut buffer);
    out.extend_from_slice(text.as_bytes())
}

/// Appends the bytes of a key.
pub(crate) fn write_key(out: &mut Vec<u8>, key: Key) -> Result<(), AllocError>
    ensures { OnOk result (out.new.items ≡ out.old.items ++ spec.key_bytes key) }
{
    match key {
        Key::Insert(c) => write_character(out, c),
        Key::Size(rows, columns) => write_sides(out, b"\x1b[8;", rows, columns),
        Key::Point(row, column) => write_sides(out, b"\x1b[7;", row, column),
        Key::Drag(row, column) => write_sides(out, b"\x1b[9;", row, column),
        Key::Notice(notice) => out.extend_from_slice(notice_bytes(notice)),
        Key::Erase => out.extend_from_slice(b"\x08"),
        Key::Back => out.extend_from_slice(b"\x02"),
        Key::Forward => out.extend_from_slice(b"\x06"),
        Key::Repaint => out.extend_from_slice(b"\x0c"),
        Key::Quit => out.extend_from_slice(b"\x11"),
        Key::Save => out.extend_from_slice(b"\x13"),
        Key::RedoEdit => out.extend_from_slice(b"\x19"),
        Key::UndoEdit => out.extend_from_slice(b"\x1a"),
        Key::Up => out.extend_from_slice(b"\x1b[A"),
        Key::Down => out.extend_from_slice(b"\x1b[B"),
        Key::Right => out.extend_from_slice(b"\x1b[C"),
        Key::Left => out.extend_from_slice(b"\x1b[D"),
        Key::RowHome => out.extend_from_slice(b"\x1b[H"),
        Key::RowEnd => out.extend_from_slice(b"\x1b[F"),
        Key::Delete => out.extend_from_slice(b"\x1b[3~"),
        Key::PageUp => out.extend_from_slice(b"\x1b[5~"),
        Key::PageDown => out.extend_from_slice(b"\x1b[6~"),
        Key::Direction => out.extend_from_slice(b"\x1b[9~"),
        Key::Find => out.extend_from_slice(b"\x1b[70~"),
        Key::FindBack => out.extend_from_slice(b"\x1b[71~"),
        Key::Mark => out.extend_from_slice(b"\x1b[72~"),
        Key::Copy => out.extend_from_slice(b"\x1b[73~"),
        Key::Cut => out.extend_from_slice(b"\x1b[74~"),
        Key::Put => out.extend_from_slice(b"\x1b[75~"),
        Key::WordLeft => out.extend_from_slice(b"\x1b[76~"),
        Key::WordRight => out.extend_from_slice(b"\x1b[77~"),
        Key::TextStart => out.extend_from_slice(b"\x1b[78~"),
        Key::TextEnd => out.extend_from_slice(b"\x1b[79~"),
        Key::Help => out.extend_from_slice(b"\x1b[80~"),
        Key::Select => out.extend_from_slice(b"\x1b[81~"),
        Key::Undo => out.extend_from_slice(b"\x1b[82~"),
        Key::Redo => out.extend_from_slice(b"\x1b[83~"),
        Key::GoTo => out.extend_from_slice(b"\x1b[84~"),
        Key::Replace => out.extend_from_slice(b"\x1b[85~"),
        Key::Name => out.extend_from_slice(b"\x1b[86~"),
        Key::Tell => out.extend_from_slice(b"\x1b[87~"),
        Key::EraseWord => out.extend_from_slice(b"\x1b[88~"),
        Key::DeleteWord => out.extend_from_slice(b"\x1b[89~"),
        Key::PasteStart => out.extend_from_slice(b"\x1b[90~"),
        Key::PasteEnd => out.extend_from_slice(b"\x1b[91~"),
        Key::FindNext => out.extend_from_slice(b"\x1b[92~"),
        Key::Cancel => out.extend_from_slice(b"\x1b[93~"),
        Key::ErasePoint => out.extend_from_slice(b"\x1b[94~"),
        Key::NewLine => out.extend_from_slice(b"\x1b[95~"),
        Key::LineUp => out.extend_from_slice(b"\x1b[96~"),
        Key::LineDown => out.extend_from_slice(b"\x1b[97~"),
        Key::PageBack => out.extend_from_slice(b"\x1b[98~"),
        Key::PageOn => out.extend_from_slice(b"\x1b[99~"),
        Key::SelectAll => out.extend_from_slice(b"\x1b[100~"),
        Key::FindPrevious => out.extend_from_slice(b"\x1b[101~"),
        Key::Fill => out.extend_from_slice(b"\x1b[102~"),
        Key::SaveAs => out.extend_from_slice(b"\x1b[103~"),
        Key::ScrollBack => out.extend_from_slice(b"\x1b[104~"),
        Key::ScrollOn => out.extend_from_slice(b"\x1b[105~"),
        Key::AskOverwrite => out.extend_from_slice(b"\x1b[106~"),
    }
}

/// Appends the bytes of keys.
pub(crate) fn write_keys(out: &mut Vec<u8>, keys: &[Key]) -> Result<(), AllocError>
    ensures { OnOk result (out.new.items ≡ out.old.items ++ all_bytes keys.now) }
{
    for key in keys {
        write_key(out, *key)?;
    }
    Ok(())
}
