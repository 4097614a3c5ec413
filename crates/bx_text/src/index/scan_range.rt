//! The part of a text that a scan for paragraphs reads, so that after an edit it reads little more than the added text.

ghost use Rattle.std.specs.Prelude.{ℕ, IsCharBoundary};
ghost use Rattle.bx_ucd.specs.Data.{Data};
ghost use Rattle.bx_ucd.specs.declared.class.Class.{Class};
ghost use Rattle.bx_text.specs.index.ScanRanges.{IsScanRange};

use crate::Text;

/// The part of a text that a scan for paragraphs has to read. All numbers count bytes. It is no plain range, since the lengths of
/// what follows it in its last paragraph are known.
#[derive(Clone, Copy)]
pub struct ScanRange {
    /// Offset of its start. The paragraph that is scanned begins at or before it, and has no separator before it.
    pub start: usize,
    /// Offset of its end.
    pub stop: usize,
    /// Length of the rest of a paragraph's body after the range, which is known and not read.
    pub body: usize,
    /// Length of the rest of its separator after that, 0 if none is left.
    pub separator: usize,
}

/// The range from an offset to the text's end.
pub fn range_to_end(text: &Text, at: usize) -> ScanRange
    requires { IsCharBoundary text.now.edited.text at }
    ensures { (ucd : Data) → IsScanRange ucd text.now.edited.text at result }
{
    ScanRange {
        start: at,
        stop: text.len(),
        body: 0,
        separator: 0,
    }
}
