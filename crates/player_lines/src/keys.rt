//! The keys of input bytes.

use crate::words::{WordFault, bytes_of, field};
use crate::writing::{add_blank, add_bytes, add_none};
use bx_keys::{Decoder, Key, Notice};
use std::alloc::Global;

/// A key's name.
fn name_of(key: Key) -> &'static str {
    match key {
        Key::Insert(_) => "insert",
        Key::Size(_, _) => "size",
        Key::Point(_, _) => "point",
        Key::Drag(_, _) => "drag",
        Key::Erase => "erase",
        Key::Delete => "delete",
        Key::Back => "back",
        Key::Forward => "forward",
        Key::Up => "up",
        Key::Down => "down",
        Key::Right => "right",
        Key::Left => "left",
        Key::RowHome => "row_home",
        Key::RowEnd => "row_end",
        Key::PageUp => "page_up",
        Key::PageDown => "page_down",
        Key::Save => "save",
        Key::Quit => "quit",
        Key::UndoEdit => "undo",
        Key::RedoEdit => "redo",
        Key::Repaint => "repaint",
        Key::Direction => "direction",
        Key::Mark => "mark",
        Key::Copy => "copy",
        Key::Cut => "cut",
        Key::Put => "put",
        Key::Find => "find",
        Key::FindBack => "find_back",
        Key::WordLeft => "word_left",
        Key::WordRight => "word_right",
        Key::TextStart => "text_start",
        Key::TextEnd => "text_end",
        Key::Help => "help",
        Key::EraseWord => "erase_word",
        Key::DeleteWord => "delete_word",
        Key::FindNext => "find_next",
        Key::Cancel => "cancel",
        Key::ErasePoint => "erase_point",
        Key::NewLine => "new_line",
        Key::LineUp => "line_up",
        Key::LineDown => "line_down",
        Key::PageBack => "page_back",
        Key::PageOn => "page_on",
        Key::Select => "select",
        Key::Undo => "undo_run",
        Key::Redo => "redo_run",
        Key::GoTo => "go_to",
        Key::Replace => "replace",
        Key::Name => "name",
        Key::Tell => "tell",
        Key::SelectAll => "select_all",
        Key::FindPrevious => "find_previous",
        Key::Fill => "fill",
        Key::SaveAs => "save_as",
        Key::ScrollBack => "scroll_back",
        Key::ScrollOn => "scroll_on",
        Key::AskOverwrite => "ask_overwrite",
        Key::PasteStart => "paste_start",
        Key::PasteEnd => "paste_end",
        Key::Notice(notice) => notice_name(notice),
    }
}

/// A notice's name.
fn notice_name(notice: Notice) -> &'static str {
    match notice {
        Notice::NoSpace => "notice/NoSpace",
        Notice::FolderGone => "notice/FolderGone",
        Notice::NotPermitted => "notice/NotPermitted",
        Notice::ReadOnly => "notice/ReadOnly",
        Notice::Unkept => "notice/Unkept",
        Notice::KeptAgain => "notice/KeptAgain",
        Notice::Recovered => "notice/Recovered",
        Notice::RecoveredAside => "notice/RecoveredAside",
        Notice::InPlace => "notice/InPlace",
    }
}

/// Whether bytes wait in a decoder: a letter is not inserted, or bytes that can only go on with a character make one.
fn waits(decoder: Decoder) -> bool {
    let mut next = decoder;
    if !matches!(next.feed(b'A'), Some(Key::Insert('A'))) {
        return true;
    }
    for first in [0x80, 0x90, 0xA0] {
        let mut next = decoder;
        for byte in [first, 0x80, 0x80] {
            if next.feed(byte).is_some() {
                return true;
            }
        }
    }
    false
}

/// The bytes from the last one that begins an item of several bytes: ESC, or the first of a character.
fn last_item(bytes: &[u8]) -> &[u8] {
    let mut start = bytes.len();
    for (index, byte) in bytes.iter().enumerate() {
        if matches!(*byte, 0x1B | 0xC2..=0xF4) {
            start = index;
        }
    }
    match bytes.get(start..) {
        Some(rest) => rest,
        None => bytes,
    }
}

/// Answers a `keys` line.
pub fn keys_line(alloc: Global, fields: &[&str]) -> Result<String, WordFault> {
    let bytes = bytes_of(alloc, field(fields, 0)?)?;
    let mut line = String::new(alloc);
    let mut decoder = Decoder::new();
    for byte in &bytes {
        let Some(key) = decoder.feed(*byte) else {
            continue;
        };
        add_blank(&mut line)?;
        line.push_str(name_of(key))?;
        match key {
            Key::Insert(c) => {
                let code = c as u32;
                write!(line, "/{code:04X}")?;
            }
            Key::Size(rows, columns) => write!(line, "/{rows}/{columns}")?,
            Key::Point(row, column) | Key::Drag(row, column) => write!(line, "/{row}/{column}")?,
            _ => {}
        }
    }
    add_none(&mut line)?;
    line.push('\t')?;
    if waits(decoder) {
        add_bytes(&mut line, last_item(&bytes))?;
    }
    add_none(&mut line)?;
    Ok(line)
}
