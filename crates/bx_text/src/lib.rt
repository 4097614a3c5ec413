//! A text under edits, with undo and redo: a piece table.
//!
//! Only functions that return a `Result` allocate.
#![tactic(auto)]

mod buffers;
mod change;
mod copying;
mod error;
mod index;
mod pairs;
mod pieces;
mod slices;
mod step;
mod swap;
mod text;
mod times;
mod turns;

pub use change::Change;
pub use error::TextError;
pub use index::{
    Index, ParagraphWalk, TextSpan, bodies_match_spans, paragraphs_join_to_text, separates,
    separating,
};
pub use pairs::EditPlaces;
pub use pieces::{Buffer, Piece, Pieces, Spares};
pub use slices::Slices;
pub use text::Text;
