//! The sequences that terminals send for keys, by `specs/Table.antt`, which says whose they are.

ghost use Rattle.std.specs.Prelude.{◌≡◌, map};
ghost use Rattle.bx_input.specs.Models.{row_in};
ghost use Rattle.bx_input.specs.Table as spec;

use bx_keys::Key;

/// A sequence of a terminal, and the editor's keys for it: one, or Select and one.
#[derive(Clone, Copy)]
pub struct Row {
    /// The bytes.
    pub sequence: &'static [u8],
    /// Whether Select comes before the key.
    pub selects: bool,
    /// The key.
    pub key: Key,
}

/// The mark that a terminal puts before a paste, and all rows of the table. In that of 08 the erase character is not DELETE.
static ROWS: [Row; 106] = [
    Row {
        sequence: b"\x1b[200~",
        selects: false,
        key: Key::PasteStart,
    },
    Row {
        sequence: b"\x08",
        selects: false,
        key: Key::ErasePoint,
    },
    Row {
        sequence: b"\x00",
        selects: false,
        key: Key::Mark,
    },
    Row {
        sequence: b"\x01",
        selects: false,
        key: Key::SelectAll,
    },
    Row {
        sequence: b"\x02",
        selects: false,
        key: Key::FindBack,
    },
    Row {
        sequence: b"\x03",
        selects: false,
        key: Key::Copy,
    },
    Row {
        sequence: b"\x06",
        selects: false,
        key: Key::Find,
    },
    Row {
        sequence: b"\x07",
        selects: false,
        key: Key::GoTo,
    },
    Row {
        sequence: b"\x0b",
        selects: false,
        key: Key::Name,
    },
    Row {
        sequence: b"\x0f",
        selects: false,
        key: Key::SaveAs,
    },
    Row {
        sequence: b"\x12",
        selects: false,
        key: Key::FindBack,
    },
    Row {
        sequence: b"\x14",
        selects: false,
        key: Key::Tell,
    },
    Row {
        sequence: b"\x16",
        selects: false,
        key: Key::Put,
    },
    Row {
        sequence: b"\x17",
        selects: false,
        key: Key::Find,
    },
    Row {
        sequence: b"\x18",
        selects: false,
        key: Key::Cut,
    },
    Row {
        sequence: b"\x19",
        selects: false,
        key: Key::Redo,
    },
    Row {
        sequence: b"\x1a",
        selects: false,
        key: Key::Undo,
    },
    Row {
        sequence: b"\x1c",
        selects: false,
        key: Key::Replace,
    },
    Row {
        sequence: b"\x1f",
        selects: false,
        key: Key::Quit,
    },
    Row {
        sequence: b"\x0d",
        selects: false,
        key: Key::NewLine,
    },
    Row {
        sequence: b"\x7f",
        selects: false,
        key: Key::ErasePoint,
    },
    Row {
        sequence: b"\x1b[A",
        selects: false,
        key: Key::LineUp,
    },
    Row {
        sequence: b"\x1b[B",
        selects: false,
        key: Key::LineDown,
    },
    Row {
        sequence: b"\x1b[5~",
        selects: false,
        key: Key::PageBack,
    },
    Row {
        sequence: b"\x1b[6~",
        selects: false,
        key: Key::PageOn,
    },
    Row {
        sequence: b"\x1bOA",
        selects: false,
        key: Key::LineUp,
    },
    Row {
        sequence: b"\x1bOB",
        selects: false,
        key: Key::LineDown,
    },
    Row {
        sequence: b"\x1bOC",
        selects: false,
        key: Key::Right,
    },
    Row {
        sequence: b"\x1bOD",
        selects: false,
        key: Key::Left,
    },
    Row {
        sequence: b"\x1bOH",
        selects: false,
        key: Key::RowHome,
    },
    Row {
        sequence: b"\x1bOF",
        selects: false,
        key: Key::RowEnd,
    },
    Row {
        sequence: b"\x1b[7~",
        selects: false,
        key: Key::RowHome,
    },
    Row {
        sequence: b"\x1b[8~",
        selects: false,
        key: Key::RowEnd,
    },
    Row {
        sequence: b"\x1b[1;2A",
        selects: true,
        key: Key::LineUp,
    },
    Row {
        sequence: b"\x1b[1;2B",
        selects: true,
        key: Key::LineDown,
    },
    Row {
        sequence: b"\x1b[1;2C",
        selects: true,
        key: Key::Right,
    },
    Row {
        sequence: b"\x1b[1;2D",
        selects: true,
        key: Key::Left,
    },
    Row {
        sequence: b"\x1b[1;2H",
        selects: true,
        key: Key::RowHome,
    },
    Row {
        sequence: b"\x1b[1;2F",
        selects: true,
        key: Key::RowEnd,
    },
    Row {
        sequence: b"\x1b[a",
        selects: true,
        key: Key::LineUp,
    },
    Row {
        sequence: b"\x1b[b",
        selects: true,
        key: Key::LineDown,
    },
    Row {
        sequence: b"\x1b[c",
        selects: true,
        key: Key::Right,
    },
    Row {
        sequence: b"\x1b[d",
        selects: true,
        key: Key::Left,
    },
    Row {
        sequence: b"\x1b[7$",
        selects: true,
        key: Key::RowHome,
    },
    Row {
        sequence: b"\x1b[8$",
        selects: true,
        key: Key::RowEnd,
    },
    Row {
        sequence: b"\x1b[2J",
        selects: true,
        key: Key::RowHome,
    },
    Row {
        sequence: b"\x1b[2K",
        selects: true,
        key: Key::RowEnd,
    },
    Row {
        sequence: b"\x1b[1;6D",
        selects: true,
        key: Key::WordLeft,
    },
    Row {
        sequence: b"\x1b[1;6C",
        selects: true,
        key: Key::WordRight,
    },
    Row {
        sequence: b"\x1b[1;6H",
        selects: true,
        key: Key::TextStart,
    },
    Row {
        sequence: b"\x1b[1;6F",
        selects: true,
        key: Key::TextEnd,
    },
    Row {
        sequence: b"\x1b[1;5D",
        selects: false,
        key: Key::WordLeft,
    },
    Row {
        sequence: b"\x1b[1;5C",
        selects: false,
        key: Key::WordRight,
    },
    Row {
        sequence: b"\x1bOd",
        selects: false,
        key: Key::WordLeft,
    },
    Row {
        sequence: b"\x1bOc",
        selects: false,
        key: Key::WordRight,
    },
    Row {
        sequence: b"\x1b[5D",
        selects: false,
        key: Key::WordLeft,
    },
    Row {
        sequence: b"\x1b[5C",
        selects: false,
        key: Key::WordRight,
    },
    Row {
        sequence: b"\x1b[1;5H",
        selects: false,
        key: Key::TextStart,
    },
    Row {
        sequence: b"\x1b[1;5F",
        selects: false,
        key: Key::TextEnd,
    },
    Row {
        sequence: b"\x1b[7^",
        selects: false,
        key: Key::TextStart,
    },
    Row {
        sequence: b"\x1b[8^",
        selects: false,
        key: Key::TextEnd,
    },
    Row {
        sequence: b"\x1b[1;3C",
        selects: false,
        key: Key::Forward,
    },
    Row {
        sequence: b"\x1b[1;3D",
        selects: false,
        key: Key::Back,
    },
    Row {
        sequence: b"\x1b\x1b[C",
        selects: false,
        key: Key::Forward,
    },
    Row {
        sequence: b"\x1b\x1b[D",
        selects: false,
        key: Key::Back,
    },
    Row {
        sequence: b"\x1b[1;4C",
        selects: true,
        key: Key::Forward,
    },
    Row {
        sequence: b"\x1b[1;4D",
        selects: true,
        key: Key::Back,
    },
    Row {
        sequence: b"\x1b[P",
        selects: false,
        key: Key::Delete,
    },
    Row {
        sequence: b"\x1b[3;5~",
        selects: false,
        key: Key::DeleteWord,
    },
    Row {
        sequence: b"\x1b[3^",
        selects: false,
        key: Key::DeleteWord,
    },
    Row {
        sequence: b"\x1b[M",
        selects: false,
        key: Key::DeleteWord,
    },
    Row {
        sequence: b"\x1b\x7f",
        selects: false,
        key: Key::EraseWord,
    },
    Row {
        sequence: b"\x1b\x08",
        selects: false,
        key: Key::EraseWord,
    },
    Row {
        sequence: b"\x1b[27;2;13~",
        selects: false,
        key: Key::NewLine,
    },
    Row {
        sequence: b"\x1b[27;5;13~",
        selects: false,
        key: Key::NewLine,
    },
    Row {
        sequence: b"\x1b[27;6;13~",
        selects: false,
        key: Key::NewLine,
    },
    Row {
        sequence: b"\x1b[27;5;9~",
        selects: false,
        key: Key::Insert('\t'),
    },
    Row {
        sequence: b"\x1bOp",
        selects: false,
        key: Key::Insert('0'),
    },
    Row {
        sequence: b"\x1bOq",
        selects: false,
        key: Key::Insert('1'),
    },
    Row {
        sequence: b"\x1bOr",
        selects: false,
        key: Key::Insert('2'),
    },
    Row {
        sequence: b"\x1bOs",
        selects: false,
        key: Key::Insert('3'),
    },
    Row {
        sequence: b"\x1bOt",
        selects: false,
        key: Key::Insert('4'),
    },
    Row {
        sequence: b"\x1bOu",
        selects: false,
        key: Key::Insert('5'),
    },
    Row {
        sequence: b"\x1bOv",
        selects: false,
        key: Key::Insert('6'),
    },
    Row {
        sequence: b"\x1bOw",
        selects: false,
        key: Key::Insert('7'),
    },
    Row {
        sequence: b"\x1bOx",
        selects: false,
        key: Key::Insert('8'),
    },
    Row {
        sequence: b"\x1bOy",
        selects: false,
        key: Key::Insert('9'),
    },
    Row {
        sequence: b"\x1bOQ",
        selects: false,
        key: Key::Direction,
    },
    Row {
        sequence: b"\x1b[12~",
        selects: false,
        key: Key::Direction,
    },
    Row {
        sequence: b"\x1b[[B",
        selects: false,
        key: Key::Direction,
    },
    Row {
        sequence: b"\x1bOP",
        selects: false,
        key: Key::Help,
    },
    Row {
        sequence: b"\x1b[11~",
        selects: false,
        key: Key::Help,
    },
    Row {
        sequence: b"\x1b[[A",
        selects: false,
        key: Key::Help,
    },
    Row {
        sequence: b"\x1bOR",
        selects: false,
        key: Key::FindNext,
    },
    Row {
        sequence: b"\x1b[13~",
        selects: false,
        key: Key::FindNext,
    },
    Row {
        sequence: b"\x1b[[C",
        selects: false,
        key: Key::FindNext,
    },
    Row {
        sequence: b"\x1b[1;2R",
        selects: false,
        key: Key::FindPrevious,
    },
    Row {
        sequence: b"\x1b[25~",
        selects: false,
        key: Key::FindPrevious,
    },
    Row {
        sequence: b"\x1bO1;2R",
        selects: false,
        key: Key::FindPrevious,
    },
    Row {
        sequence: b"\x1b[18~",
        selects: false,
        key: Key::Find,
    },
    Row {
        sequence: b"\x1b[27;5;39~",
        selects: false,
        key: Key::Find,
    },
    Row {
        sequence: b"\x1bOS",
        selects: false,
        key: Key::Replace,
    },
    Row {
        sequence: b"\x1b[14~",
        selects: false,
        key: Key::Replace,
    },
    Row {
        sequence: b"\x1b[[D",
        selects: false,
        key: Key::Replace,
    },
    Row {
        sequence: b"\x1b[21~",
        selects: false,
        key: Key::Quit,
    },
    Row {
        sequence: b"\x1b[27;5;47~",
        selects: false,
        key: Key::Quit,
    },
];

/// The mark that a terminal puts before a paste, and all rows of the table. In that of 08 the erase character is not DELETE.
pub fn known_rows() -> &'static [Row]
    ensures { map row_in result.now ≡ spec.known_rows }
{
    &ROWS
}

/// All rows of the table but that of 08.
pub fn fixed_rows() -> &'static [Row]
    ensures { map row_in result.now ≡ spec.fixed_rows }
{
    &ROWS[2..]
}

/// The row of 08.
pub fn erase_row(erases_by_delete: bool) -> Row
    ensures { row_in result ≡ spec.erase_row erases_by_delete }
{
    Row {
        sequence: b"\x08",
        selects: false,
        key: if erases_by_delete {
            Key::EraseWord
        } else {
            Key::ErasePoint
        },
    }
}
