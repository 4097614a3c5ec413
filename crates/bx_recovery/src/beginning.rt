//! Everything that a session starts from, read from its files and from the command line.

ghost use Rattle.std.specs.Prelude.{◌≡◌, true};
ghost use Rattle.bx_common.specs.Characters.{is_side};

use bx_command::UnicodeFiles;
use bx_common::Base;
use bx_session::Settings;
use std::alloc::Global;

/// Everything that a session starts from.
#[derive(Drop)]
pub struct Beginning<'a> {
    /// The allocator of the session.
    pub alloc: Global,
    /// Unicode's files.
    pub unicode: &'a UnicodeFiles<Vec<u8>>,
    /// The text's bytes; None if the file does not exist, which is an empty text.
    pub text: Option<Vec<u8>>,
    /// The window's rows and columns, each from 1 to 500.
    pub rows: u16,
    pub cols: u16,
    /// The base direction of the paragraphs at first.
    pub direction: Base,
    /// Whether text that is copied or cut goes out to the terminal's clipboard too.
    pub clipboard: bool,
    /// How the session works.
    pub settings: Settings,
    /// The line that the cursor is sent to, from 1; None to leave it at the text's start.
    pub line: Option<u64>,
    /// Whether the text counts as changed from the start.
    pub unsaved: bool,
    /// The bytes of the journal to replay, whole keys or not; empty if there is none.
    pub keys: &'a [u8],
    pub ghost has_rows: { is_side rows ≡ true },
    pub ghost has_cols: { is_side cols ≡ true },
}
