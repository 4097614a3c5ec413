//! The paragraph that begins at an offset of a text: the scan for its separator.

ghost use Rattle.std.specs.Prelude.{◌≡◌, ℕ, ◌<◌, ◌≤◌, ◌+◌, ◌==◌, ◌&&◌, chars, take, drop, false};
ghost use Rattle.std.specs.Prelude.{get_or, length, slice_get, encode_utf8, if◌then◌else◌, IsCharBoundary, IsUtf8, MatchOption};
ghost use Rattle.bx_text.specs.index.Paragraphs.{begins_with_lf, is_separator, lengths};
ghost use Rattle.bx_text.specs.index.Scan.{BeginsAt, HasNone, IsAt, NoneAt, separating};
ghost use Rattle.bx_text.specs.index.Ended.{first};
ghost use Rattle.bx_text.specs.index.LeadBytes.{CoversSeparators};
ghost use Rattle.bx_text.specs.index.ScanRanges.{IsScanRange};

use crate::Text;
use crate::index::lead_bytes::LeadBytes;
use crate::index::lengths::Lengths;
use crate::index::scan_range::ScanRange;
use bx_ucd::{BidiData, Class};

/// Whether a character separates paragraphs. Allocates nothing.
pub fn separates<D: BidiData>(tables: &D, c: char) -> bool
    ensures { result ≡ is_separator ((D.data tables.now).class c) }
{
    matches!(tables.class(c), Class::B)
}

/// The number of characters of a text that separate paragraphs; CR and the LF after it are two. No text has more separators.
/// Allocates nothing.
pub fn separating<D: BidiData>(tables: &D, text: &str) -> usize
    ensures { result ≡ separating (D.data tables.now) text.now }
{
    text.chars().filter(|c| separates(tables, *c)).count()
}

/// The character that begins at an offset of a text.
fn char_at(text: &str, at: usize) -> Option<char>
    requires { IsCharBoundary text.now at }
    ensures { result ≡ slice_get (chars (drop at text.now)) 0 }
{
    text[at..].chars().next()
}

/// The separator that begins at an offset of a piece of text, if one does.
fn separator_at<D: BidiData>(piece: &str, tables: &D, at: usize) -> Option<char>
    ensures { MatchOption result (NoneAt (D.data tables.now) piece.now at) (λ c. BeginsAt (D.data tables.now) piece.now at c) }
{
    if !piece.is_char_boundary(at) {
        return None;
    }
    match char_at(piece, at) {
        Some(c) if separates(tables, c) => Some(c),
        _ => None,
    }
}

/// Offset of the first byte from `from` on that may begin a separator; the number of bytes if none may.
fn next_lead(bytes: &[u8], lead_bytes: &LeadBytes, from: usize) -> usize
    requires { from ≤ length bytes.now }
    ensures order { from ≤ result }
    ensures inside { result ≤ length bytes.now }
    ensures none_between { (at : ℕ) → from ≤ at → at < result → get_or lead_bytes.now.may_separate (get_or bytes.now at 0) false ≡ false }
{
    let mut at = from;
    while at < bytes.len() && !lead_bytes.may_separate[bytes[at] as usize] {
        at += 1;
    }
    at
}

/// The offset of the first paragraph separator of a piece of text, and the separator.
fn separator_in<D: BidiData>(
    piece: &str,
    tables: &D,
    lead_bytes: &LeadBytes,
) -> Option<(usize, char)>
    requires { CoversSeparators (D.data tables.now) lead_bytes.now.may_separate }
    ensures { MatchOption result (HasNone (D.data tables.now) (chars piece.now)) (λ found. IsAt (D.data tables.now) (chars piece.now) found.0 found.1) }
{
    let bytes = piece.as_bytes();
    let mut at = next_lead(bytes, lead_bytes, 0);
    while at < bytes.len() {
        if let Some(c) = separator_at(piece, tables, at) {
            return Some((at, c));
        }
        at = next_lead(bytes, lead_bytes, at + 1);
    }
    None
}

/// Whether a text has, at an offset, an LF that is a separator.
fn goes_on_with_lf<D: BidiData>(text: &Text, tables: &D, at: usize) -> bool
    requires { IsCharBoundary text.now.edited.text at }
    ensures { result ≡ begins_with_lf (D.data tables.now) (chars (drop at text.now.edited.text)) }
{
    match text.piece_at(at) {
        None => false,
        Some(piece) => piece.as_bytes()[0] == b'\n' && separates(tables, '\n'),
    }
}

/// Length in bytes of the separator that begins with the character `c`, which ends at the offset `after`: two if `c` is CR and
/// an LF that is a separator follows.
fn separator_bytes<D: BidiData>(text: &Text, tables: &D, c: char, after: usize) -> u32
    requires { IsCharBoundary text.now.edited.text after }
    ensures { result ≡ (if (c == 13) && begins_with_lf (D.data tables.now) (chars (drop after text.now.edited.text)) then 2 else length (encode_utf8 c)) }
{
    if c == '\r' && goes_on_with_lf(text, tables, after) {
        2
    } else {
        c.len_utf8() as u32
    }
}

/// The text from an offset to the end of the piece that holds it, or to `stop` if that is after the offset and comes
/// first.
fn part_before(text: &Text, at: usize, stop: usize) -> &str
    requires bounds { IsCharBoundary text.now.edited.text at }
    requires inside { at < length text.now.edited.text }
    requires stop { IsCharBoundary text.now.edited.text stop }
    ensures bytes { take (length result.now) (drop at text.now.edited.text) ≡ result.now }
    ensures not_empty { 0 < length result.now }
    ensures next { IsCharBoundary text.now.edited.text (at + length result.now) }
{
    if at < stop {
        return text.part_at(at, stop);
    }
    text.part_at(at, text.len())
}

/// The lengths of the paragraph that begins at the offset `start`, or of its rest if the offset is within it. Reads only the
/// range, and an LF after a CR.
pub fn paragraph_from<D: BidiData>(
    text: &Text,
    tables: &D,
    lead_bytes: &LeadBytes,
    start: usize,
    range: ScanRange,
) -> Lengths
    requires lead_bytes { CoversSeparators (D.data tables.now) lead_bytes.now.may_separate }
    requires range { IsScanRange (D.data tables.now) text.now.edited.text start range }
    ensures first { result ≡ first (lengths (D.data tables.now) (drop start text.now.edited.text)) }
    ensures utf8 { IsUtf8 text.now.edited.text }
{
    let len = text.len();
    let mut at = range.start;
    while at < len {
        if at == range.stop {
            return Lengths {
                body: (at - start + range.body) as u32,
                separator: range.separator as u32,
            };
        }
        let piece = part_before(text, at, range.stop);
        if let Some((before, c)) = separator_in(piece, tables, lead_bytes) {
            let end = at + before;
            return Lengths {
                body: (end - start) as u32,
                separator: separator_bytes(text, tables, c, end + c.len_utf8()),
            };
        }
        at += piece.len();
    }
    Lengths {
        body: (len - start) as u32,
        separator: 0,
    }
}
