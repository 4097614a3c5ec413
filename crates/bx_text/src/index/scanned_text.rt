//! A text with the tables for a scan for its paragraphs.

ghost use Rattle.bx_text.specs.index.LeadBytes.{CoversSeparators};

use crate::Text;
use crate::index::lead_bytes::LeadBytes;
use bx_ucd::BidiData;

/// A text to scan for paragraphs, with the tables that tell its separators and the bytes that may begin one.
#[derive(Drop)]
pub(crate) struct ScannedText<'a, D: BidiData> {
    pub(crate) text: &'a Text,
    pub(crate) tables: &'a D,
    pub(crate) lead_bytes: &'a LeadBytes,
    pub(crate) ghost covers: { CoversSeparators (D.data tables.now) lead_bytes.now.may_separate },
}
