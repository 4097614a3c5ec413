//! Sizes of the window that come among the keys, by `specs/Sizes.antt`.

ghost use Rattle.std.specs.Prelude.{◌≡◌, ◌==◌, ◌∷◌, []};
ghost use Rattle.std.specs.List.{slice_split};
ghost use Rattle.bx_input.specs.Sizes as spec;

use crate::mouse::begins_report;
use bx_bytes::Fate;
use bx_keys::{Key, first_semicolon, side};

/// What the bytes behind CSI 8; are.
pub fn size_fate(bytes: &[u8]) -> Fate
    ensures { result ≡ spec.size_fate bytes.now }
{
    if size_of(bytes).is_some() {
        Fate::Ends
    } else if begins_report(bytes) {
        Fate::Waits
    } else {
        Fate::Breaks
    }
}

/// The key of the size that the bytes behind CSI 8; are.
pub fn size_of(bytes: &[u8]) -> Option<Key>
    ensures { result ≡ spec.size_of bytes.now }
{
    let [numbers @ .., last] = bytes else {
        return None;
    };
    if *last == b't' {
        size_of_numbers(numbers)
    } else {
        None
    }
}

/// The key of ROWS;COLUMNS.
fn size_of_numbers(numbers: &[u8]) -> Option<Key>
    ensures { result ≡ spec.size_of_numbers (slice_split (λ b. b == 0x3B) numbers.now) }
{
    let first = first_semicolon(numbers)?;
    size_of_two(&numbers[..first], &numbers[first + 1..])
}

/// The key of rows and columns.
fn size_of_two(rows: &[u8], columns: &[u8]) -> Option<Key>
    ensures { result ≡ spec.size_of_numbers (rows.now ∷ columns.now ∷ []) }
{
    Some(Key::Size(side(rows)?, side(columns)?))
}
