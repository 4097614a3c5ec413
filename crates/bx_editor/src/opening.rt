//! Opening a file, and why it is refused.
ghost use Rattle.std.specs.Prelude.{◌≡◌, ◌<◌, ◌≤◌, true, IfErr, IfOk, IsUtf8, OnOk, length, string_bytes};
ghost use Rattle.bx_common.specs.Characters.{largest_text};
ghost use Rattle.bx_grid.specs.Picture.{is_size};
ghost use Rattle.bx_editor.specs.Editor.{Causes, IsLongestUtf8, at_start};

use crate::cursor::{Cursor, Soft};
use crate::editor::Editor;
use crate::past::Past;
use crate::questions::Prompt;
use crate::search_state::{SearchPurpose, SearchState};
use crate::undo_groups::{Typing, UndoGroups};
use bx_common::{Base, LARGEST_TEXT, is_side};
use bx_document::Document;
use bx_ucd::BidiData;
use simdutf8::compat::from_utf8;
use thiserror::Error;

/// Why a file was not opened.
#[derive(Clone, Copy, Debug, Error)]
pub enum OpenError {
    /// The file has more than 16,777,216 bytes.
    #[error("file too long")]
    TooLong,
    /// The file is not UTF-8: its longest UTF-8 prefix has this many bytes.
    #[error("not UTF-8 at byte {0}")]
    NotUtf8(usize),
    /// A side of the window is not from 1 to 500.
    #[error("a side is not from 1 to 500")]
    SizeOutOfRange,
    /// Memory ran out.
    #[error("out of memory")]
    OutOfMemory,
}

/// Converts bytes to a text without copying them. The error is the length of their longest UTF-8 prefix.
fn text_of(bytes: Vec<u8>) -> Result<String, usize>
    ensures text { IfOk result (λ t. string_bytes t ≡ bytes.items) }
    ensures utf8 { OnOk result (IsUtf8 bytes.items) }
    ensures more { IfErr result (λ n. n < length bytes.items) }
    ensures longest { IfErr result (IsLongestUtf8 bytes.items) }
{
    if let Err(error) = from_utf8(bytes.as_slice()) {
        return Err(error.valid_up_to());
    }
    // The bytes are valid UTF-8 here; `String::from_utf8` would check them a second time.
    Ok(unsafe { String::from_utf8_unchecked(bytes) })
}

impl<D: BidiData + Drop> Editor<D> {
    /// Opens a file's bytes with the cursor at their start. An error drops the bytes and the tables.
    ///
    /// Errors, in this order: `TooLong` above 16,777,216 bytes; `NotUtf8` with the length of the longest UTF-8 prefix;
    /// `SizeOutOfRange` if a side is not from 1 to 500; `OutOfMemory`.
    pub fn open(
        bytes: Vec<u8>,
        tables: D,
        height: u16,
        width: u16,
        base: Base,
    ) -> Result<Editor<D>, OpenError>
        ensures ok { IfOk result (λ e. e ≡ record { tables = tables; editor = at_start bytes.items height width base }) }
        ensures short { OnOk result (length bytes.items ≤ largest_text) }
        ensures utf8 { OnOk result (IsUtf8 bytes.items) }
        ensures sized { OnOk result (is_size height width ≡ true) }
        ensures refused { IfErr result (Causes bytes.items height width) }
    {
        if bytes.len() > LARGEST_TEXT {
            return Err(OpenError::TooLong);
        }
        let alloc = *bytes.allocator();
        let text = match text_of(bytes) {
            Ok(text) => text,
            Err(count) => return Err(OpenError::NotUtf8(count)),
        };
        if !is_side(height) || !is_side(width) {
            return Err(OpenError::SizeOutOfRange);
        }
        match Document::open(alloc, text, tables, width, base) {
            Ok(document) => Ok(Editor {
                document,
                cursor: Cursor {
                    place: 0,
                    mark: None,
                    soft: Soft::Off,
                    search_state: SearchState::Off,
                    clicks: None,
                    pressed: None,
                },
                past: Past {
                    undo_groups: UndoGroups::new(alloc),
                    stored: Some(0),
                    changed: false,
                },
                held: String::new(alloc),
                whole_line: false,
                query: String::new(alloc),
                purpose: SearchPurpose::Find,
                origin: 0,
                replacement: String::new(alloc),
                at: 0,
                count: 0,
                prompt: Prompt::Off,
                answer: String::new(alloc),
                input_cursor: 0,
                pasted: None,
                typing: Typing::Off,
                message: None,
                quit_before: false,
                ended: false,
                goal: None,
                height,
                top: 0,
                clipboard: false,
                read_only: false,
                auto_indent: false,
                tab_width: 0,
                name: None,
                home: true,
                drawn_name: None,
            }),
            Err(_) => Err(OpenError::OutOfMemory),
        }
    }
}
