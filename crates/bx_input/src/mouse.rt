//! Mouse reports, and their keys, by `specs/Mouse.antt`.

ghost use Rattle.std.specs.Prelude.{◌≡◌, [], ◌∷◌, ◌==◌, option_map};
ghost use Rattle.std.specs.List.{list_all, slice_split};
ghost use Rattle.bx_keys.specs.Keys as keys_are;
ghost use Rattle.bx_input.specs.Mouse as spec;
ghost use Rattle.bx_input.specs.Models.{keys_in, report_in};

use crate::known::Keys;
use bx_bytes::Fate;
use bx_keys::{Key, first_semicolon, number, side};

/// The most bytes that the numbers of a report have: three of three digits, and two semicolons.
const MOST: usize = 11;

/// A mouse report: the number of its button, and the cell's column and row.
#[derive(Clone, Copy)]
pub struct Report {
    button: u16,
    column: u16,
    row: u16,
    is_release: bool,
}

/// Whether the byte is a digit or a semicolon.
fn is_number_byte(byte: u8) -> bool
    ensures { result ≡ spec.is_number_byte byte }
{
    byte.is_ascii_digit() || byte == b';'
}

/// Whether all of the bytes are digits and semicolons.
fn are_numbers(bytes: &[u8]) -> bool
    ensures { result ≡ list_all spec.is_number_byte bytes.now }
{
    bytes.iter().all(|byte| is_number_byte(*byte))
}

/// Whether a report, or a size of the window, may go on from these bytes.
pub(crate) fn begins_report(bytes: &[u8]) -> bool
    ensures { result ≡ spec.begins_report bytes.now }
{
    bytes.len() <= MOST && are_numbers(bytes)
}

/// What the bytes behind CSI < are.
pub fn report_fate(bytes: &[u8]) -> Fate
    ensures { result ≡ spec.report_fate bytes.now }
{
    if report_of(bytes).is_some() {
        Fate::Ends
    } else if begins_report(bytes) {
        Fate::Waits
    } else {
        Fate::Breaks
    }
}

/// The report that the bytes behind CSI < are.
pub fn report_of(bytes: &[u8]) -> Option<Report>
    ensures { option_map report_in result ≡ spec.report_of bytes.now }
{
    let [numbers @ .., last] = bytes else {
        return None;
    };
    match *last {
        b'M' => report_of_numbers(false, numbers),
        b'm' => report_of_numbers(true, numbers),
        _ => None,
    }
}

/// The report of BUTTON;COLUMN;ROW.
fn report_of_numbers(is_release: bool, numbers: &[u8]) -> Option<Report>
    ensures { option_map report_in result ≡ spec.report_of_numbers is_release (slice_split (λ b. b == 0x3B) numbers.now) }
{
    let first = first_semicolon(numbers)?;
    report_of_cell(is_release, &numbers[..first], &numbers[first + 1..])
}

/// The report of a button and COLUMN;ROW.
fn report_of_cell(is_release: bool, button: &[u8], cell: &[u8]) -> Option<Report>
    ensures { option_map report_in result ≡ spec.report_of_numbers is_release (button.now ∷ slice_split (λ b. b == 0x3B) cell.now) }
{
    let second = first_semicolon(cell)?;
    report_of_three(is_release, button, &cell[..second], &cell[second + 1..])
}

/// The report of a button, a column and a row.
fn report_of_three(is_release: bool, button: &[u8], column: &[u8], row: &[u8]) -> Option<Report>
    ensures { option_map report_in result ≡ spec.report_of_numbers is_release (button.now ∷ column.now ∷ row.now ∷ []) }
{
    Some(Report {
        button: number(button)?,
        column: side(column)?,
        row: side(row)?,
        is_release,
    })
}

/// No key.
const NONE: Keys = Keys {
    before: None,
    key: None,
};

/// One key.
fn one(key: Key) -> Keys
    ensures { keys_in result ≡ key ∷ [] }
{
    Keys {
        before: None,
        key: Some(key),
    }
}

/// The keys of a report.
pub fn reported(report: Report) -> Keys
    ensures { keys_in result ≡ spec.reported (report_in report) }
{
    if report.is_release {
        return NONE;
    }
    match report.button {
        0 => one(Key::Point(report.row, report.column)),
        4 => Keys {
            before: Some(Key::Select),
            key: Some(Key::Point(report.row, report.column)),
        },
        32 | 36 => one(Key::Drag(report.row, report.column)),
        64 => one(Key::ScrollBack),
        65 => one(Key::ScrollOn),
        _ => NONE,
    }
}
