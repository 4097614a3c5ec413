//! Glyphs: the texts that a terminal shows as a whole, and their columns.

ghost use Rattle.std.specs.Prelude.{◌≡◌};
ghost use Rattle.bx_common.specs.Glyphs.{is_one_glyph, run_width};

use crate::characters::{are_ascii_printable, are_printable, is_ascii_printable};
use unicode_width::UnicodeWidthStr;

/// The columns of a run of printable characters, by `unicode_width` with East Asian ambiguous characters narrow.
pub fn run_width(run: &str) -> usize
    ensures { result ≡ run_width run.now }
{
    if are_ascii_printable(run) {
        run.len()
    } else {
        run.width()
    }
}

/// Whether a terminal shows a text as one glyph: a single printable ASCII character, or a text without controls that has
/// a character outside ASCII and takes at least one column.
pub fn is_glyph(text: &str) -> bool
    ensures { result ≡ is_one_glyph text.now }
{
    match text.as_bytes() {
        [byte] if is_ascii_printable(*byte) => true,
        _ => are_printable(text) && !are_ascii_printable(text) && text.width() >= 1,
    }
}
