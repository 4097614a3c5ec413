//! What is known outside a paste, by `specs/Known.antt`.

ghost use Rattle.std.specs.Prelude.{◌≡◌, ◌≤◌, drop, find, length, nat_eq, option_map};
ghost use Rattle.std.specs.List.{list_any, starts_with};
ghost use Rattle.std.specs.Str.{bytes_eq};
ghost use Rattle.bx_bytes.specs.Pattern.{begins_any, fate_in, matches_any};
ghost use Rattle.bx_input.specs.Known as spec;
ghost use Rattle.bx_input.specs.Models.{keys_in, row_in};
ghost use Rattle.bx_input.specs.Mouse as reports;
ghost use Rattle.bx_input.specs.Mouse.{opens_report};
ghost use Rattle.bx_input.specs.Sizes as sizes;
ghost use Rattle.bx_input.specs.Sizes.{opens_size, sized};
ghost use Rattle.bx_input.specs.Table.{keys_of, row_of, sequences};

use crate::mouse::{report_fate, report_of, reported};
use crate::sizes::{size_fate, size_of};
use crate::table::{Row, erase_row, fixed_rows, known_rows};
use bx_bytes::Fate;
use bx_keys::Key;

/// The control byte ESC, with which each sequence begins.
pub const ESC: u8 = 0x1B;

/// The keys of a known sequence: none, one or two.
#[derive(Clone, Copy)]
pub struct Keys {
    /// The key before the other, mostly Select.
    pub before: Option<Key>,
    /// The key itself.
    pub key: Option<Key>,
}

/// Whether the bytes begin with CSI <.
fn opens_report(bytes: &[u8]) -> bool
    ensures { result ≡ opens_report bytes.now }
{
    match bytes {
        [first, second, third, ..] => *first == ESC && *second == b'[' && *third == b'<',
        _ => false,
    }
}

/// Whether the bytes begin with CSI 8;.
fn opens_size(bytes: &[u8]) -> bool
    ensures { result ≡ opens_size bytes.now }
{
    match bytes {
        [first, second, third, fourth, ..] => {
            *first == ESC && *second == b'[' && *third == b'8' && *fourth == b';'
        }
        _ => false,
    }
}

/// The bytes behind the first `count` of them.
#[tactic(auto, using(crate::proofs::Sequences::all_behind))]
pub fn behind(bytes: &[u8], count: usize) -> &[u8]
    requires { count ≤ length bytes.now }
    ensures { result.now ≡ drop count bytes.now }
{
    &bytes[count..]
}

/// What bytes are: a known sequence (Ends), the beginning of one (Waits), or neither (Breaks).
pub fn fate(bytes: &[u8]) -> Fate
    ensures { result ≡ spec.fate bytes.now }
{
    if opens_report(bytes) {
        report_fate(behind(bytes, 3))
    } else if opens_size(bytes) {
        size_fate(behind(bytes, 4))
    } else {
        table_fate(bytes)
    }
}

/// What bytes are to the table and to a paste's start.
fn table_fate(bytes: &[u8]) -> Fate
    ensures { result ≡ fate_in sequences bytes.now }
{
    if is_sequence(bytes) {
        Fate::Ends
    } else if begins_sequence(bytes) {
        Fate::Waits
    } else {
        Fate::Breaks
    }
}

/// Whether bytes are a sequence of the table, or a paste's start.
fn is_sequence(bytes: &[u8]) -> bool
    ensures { result ≡ matches_any sequences bytes.now }
{
    is_among(known_rows(), bytes)
}

/// Whether bytes begin such a sequence, or are one.
fn begins_sequence(bytes: &[u8]) -> bool
    ensures { result ≡ begins_any sequences bytes.now }
{
    begins_among(known_rows(), bytes)
}

/// Whether bytes are the sequence of one of these rows.
fn is_among(rows: &[Row], bytes: &[u8]) -> bool
    ensures { result ≡ list_any (λ r. bytes_eq (row_in r).sequence bytes.now) rows.now }
{
    rows.iter().any(|row| row.sequence == bytes)
}

/// Whether bytes begin the sequence of one of these rows, or are it.
fn begins_among(rows: &[Row], bytes: &[u8]) -> bool
    ensures { result ≡ list_any (λ r. starts_with nat_eq (row_in r).sequence bytes.now) rows.now }
{
    rows.iter().any(|row| row.sequence.starts_with(bytes))
}

/// The row of these that has the bytes as its sequence.
fn row_among(rows: &[Row], bytes: &[u8]) -> Option<Row>
    ensures { option_map row_in result ≡ option_map row_in (find (λ r. bytes_eq (row_in r).sequence bytes.now) rows.now) }
{
    rows.iter().find(|row| row.sequence == bytes).copied()
}

/// The row that has the bytes as its sequence.
fn row_of(erases_by_delete: bool, bytes: &[u8]) -> Option<Row>
    ensures { option_map row_in result ≡ row_of erases_by_delete bytes.now }
{
    let first = erase_row(erases_by_delete);
    if first.sequence == bytes {
        Some(first)
    } else {
        row_among(fixed_rows(), bytes)
    }
}

/// The keys of a row.
fn keys_of(row: Row) -> Keys
    ensures { keys_in result ≡ keys_of (row_in row) }
{
    Keys {
        before: if row.selects { Some(Key::Select) } else { None },
        key: Some(row.key),
    }
}

/// The keys of a size, which has this key.
fn sized(key: Key) -> Keys
    ensures { keys_in result ≡ sized key }
{
    Keys {
        before: Some(key),
        key: Some(Key::Fill),
    }
}

/// The keys of a known sequence; None of a paste's start.
pub fn known_keys(erases_by_delete: bool, bytes: &[u8]) -> Option<Keys>
    ensures { option_map keys_in result ≡ spec.known_keys erases_by_delete bytes.now }
{
    if opens_report(bytes) {
        report_keys(behind(bytes, 3))
    } else if opens_size(bytes) {
        size_keys(behind(bytes, 4))
    } else {
        row_keys(erases_by_delete, bytes)
    }
}

/// The keys of a mouse report.
fn report_keys(bytes: &[u8]) -> Option<Keys>
    ensures { option_map keys_in result ≡ option_map reports.reported (reports.report_of bytes.now) }
{
    match report_of(bytes) {
        Some(report) => Some(reported(report)),
        None => None,
    }
}

/// The keys of a size.
fn size_keys(bytes: &[u8]) -> Option<Keys>
    ensures { option_map keys_in result ≡ option_map sized (sizes.size_of bytes.now) }
{
    match size_of(bytes) {
        Some(key) => Some(sized(key)),
        None => None,
    }
}

/// The keys of a sequence of the table.
fn row_keys(erases_by_delete: bool, bytes: &[u8]) -> Option<Keys>
    ensures { option_map keys_in result ≡ option_map keys_of (row_of erases_by_delete bytes.now) }
{
    match row_of(erases_by_delete, bytes) {
        Some(row) => Some(keys_of(row)),
        None => None,
    }
}
