//! The parsed command line.

ghost use Rattle.std.specs.Prelude.{◌≡◌, true};
ghost use Rattle.bx_common.specs.Characters.{is_side};

use crate::shared::UnicodeFiles;
use bx_common::Base;

/// The parsed command line.
#[derive(Drop)]
pub struct Options<'a> {
    /// The window's rows, from 1 to 500.
    pub rows: u16,
    /// The window's columns, from 1 to 500.
    pub cols: u16,
    /// The paths of Unicode's files.
    pub unicode: UnicodeFiles<&'a str>,
    /// The path of the edited file, which saves write.
    pub file: &'a str,
    /// The path of the text to open; None to open FILE itself.
    pub text: Option<&'a str>,
    /// Whether the text is empty, since FILE does not exist.
    pub is_new: bool,
    /// Whether FILE is only checked, and not opened.
    pub check: bool,
    /// Whether the text counts as changed from the start.
    pub unsaved: bool,
    /// Whether text that is copied or cut also goes out to the terminal's clipboard.
    pub clipboard: bool,
    /// Whether the text is only looked at.
    pub view: bool,
    /// Whether a new line is indented as the one before.
    pub indent: bool,
    /// To which multiple of units a typed tab's spaces reach, from 1 to 8; 0: it is a tab.
    pub spaces: u8,
    /// The file's name, at most 255 characters; an empty one says that the text has none yet.
    pub name: Option<&'a str>,
    /// The path of the journal that keys are appended to; None if none is kept.
    pub journal: Option<&'a str>,
    /// The path of the journal to replay; None if none is.
    pub replay: Option<&'a str>,
    /// The path to store the replayed text at, without a terminal; None to edit it.
    pub to: Option<&'a str>,
    /// The path of what FILE holds, which is compared with the replayed text; None if FILE does not exist.
    pub against: Option<&'a str>,
    /// The cursor's first line, from 1; None for the first.
    pub line: Option<u64>,
    /// The base direction of the paragraphs at first.
    pub direction: Base,
    /// The text to write to standard output before the first painting; None for none.
    pub before: Option<&'a str>,
    /// Whether standard input has frames of the host, and standard error gets frames for it.
    pub frames: bool,
    /// The host's two pipes for saves, for requests and for answers, divided by a comma: each a descriptor's number or a path. None
    /// if the program saves by itself.
    pub saves: Option<&'a str>,
    /// Whether the terminal's own erase character is DELETE, 7F.
    pub erases_by_delete: bool,
    pub ghost has_rows: { is_side rows ≡ true },
    pub ghost has_cols: { is_side cols ≡ true },
}
