//! Width of texts in columns, with short ways for the texts that screens show most.
//!
//! The ranges of letters and combining marks are chosen by hand from the table of `unicode_width` (Unicode 18.0.0). They save
//! its look-up for the characters that screens show most; `proofs/Marks.antt` computes their widths from the table.

ghost use Rattle.std.specs.Prelude.{◌≡◌, false, IfSome};
ghost use Rattle.std.specs.List.{list_all};
ghost use Rattle.std.specs.Str.{chars};
ghost use Rattle.bx_grid.specs.Columns.{are_ascii_printable};
ghost use Rattle.bx_common.specs.Glyphs.{run_width};
ghost use Rattle.bx_terminal.specs.Widths.{is_letter, is_mark, is_still, IsBase};
ghost use Rattle.unicode_width.specs.Width.{char_width};

use bx_common::run_width;
use unicode_width::UnicodeWidthChar;

/// Whether a character is a combining mark known without a table look-up.
#[inline(always)]
fn is_mark(c: char) -> bool
    ensures { result ≡ is_mark c }
{
    ('\u{300}' <= c && c <= '\u{36F}')
        || ('\u{591}' <= c && c <= '\u{5BD}')
        || ('\u{5C1}' <= c && c <= '\u{5C2}')
        || ('\u{64B}' <= c && c <= '\u{65F}')
}

/// Whether a character takes no column, and leaves the width of the character before it unchanged, as variation selectors
/// (from U+FE00 on) may not.
#[inline(always)]
#[tactic(auto, using(crate::proofs::Marks::mark_still))]
fn is_still(c: char) -> bool
    ensures { result ≡ is_still c }
{
    if is_mark(c) {
        return true;
    }
    if c <= '\u{A0}' || c >= '\u{FE00}' {
        return false;
    }
    match c.width() {
        Some(columns) => columns == 0,
        None => false,
    }
}

/// Whether all characters are still (`is_still`).
fn are_still(text: &str) -> bool
    ensures { result ≡ list_all is_still (chars text.now) }
{
    text.chars().all(|c| is_still(c))
}

/// The text's first character, if it is above U+00A0 and all that follow are still; else None.
fn base(text: &str) -> Option<char>
    ensures { IfSome result (λ c. IsBase text.now c) }
{
    let mut rest = text.chars();
    if let Some(first) = rest.next() {
        if first > '\u{A0}' && are_still(rest.as_str()) {
            return Some(first);
        }
    }
    None
}

/// Whether a character is a letter of one column known without a table look-up.
#[inline(always)]
fn is_letter(c: char) -> bool
    ensures { result ≡ is_letter c }
{
    ('\u{C0}' <= c && c <= '\u{FF}')
        || ('\u{410}' <= c && c <= '\u{44F}')
        || ('\u{5D0}' <= c && c <= '\u{5FF}')
        || ('\u{620}' <= c && c <= '\u{64A}')
}

/// Width of a character in columns; None for a control.
#[inline(always)]
#[tactic(auto, using(crate::proofs::Marks::letter_narrow))]
fn char_width(c: char) -> Option<usize>
    ensures { result ≡ char_width false c }
{
    if is_letter(c) {
        return Some(1);
    }
    c.width()
}

/// Width in columns of a text that is not all from SPACE to TILDE. A character followed by still ones (`is_still`) takes one
/// look-up.
#[tactic(auto, using(crate::proofs::Still::width_of_base))]
fn other_width(text: &str) -> usize
    requires { are_ascii_printable text.now ≡ false }
    ensures { result ≡ run_width text.now }
{
    if let Some(c) = base(text) {
        if let Some(columns) = char_width(c) {
            return columns;
        }
    }
    run_width(text)
}

/// Width of a run of this text, in columns.
pub fn text_width(text: &str) -> usize
    ensures { result ≡ run_width text.now }
{
    match text.as_bytes() {
        [first, ..] if *first > b'~' => other_width(text),
        _ => run_width(text),
    }
}
