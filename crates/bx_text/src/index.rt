//! The paragraphs of a text: an index that follows its edits.
//!
//! Only functions that return a `Result` allocate.

mod block;
mod blocks;
mod index;
mod laws;
mod lead_bytes;
mod lengths;
mod paragraph_span;
mod rescan;
mod scan;
mod scan_range;
mod scanned_text;
mod splices;
mod spot;
mod text_span;
mod walk;

pub use index::Index;
pub use laws::{bodies_match_spans, paragraphs_join_to_text};
pub use scan::{separates, separating};
pub use text_span::TextSpan;
pub use walk::ParagraphWalk;
