//! An editable text laid out in a window: cursor moves, edits with the place after each, searches, and rows drawn into a
//! grid.
#![tactic(auto)]

mod backup;
mod copying;
mod document;
mod drawing;
mod drawn_rows;
mod edits;
mod error;
mod first_separator;
mod history;
mod indexed_text;
mod input_line;
mod laws;
mod lines;
mod moves;
mod place_level;
mod points;
mod region;
mod row_cache;
mod scrolled;
mod searching;
mod separating;
mod shown;
mod status_row;
mod swapping;
mod touched;

pub use backup::Backup;
pub use document::Document;
pub use edits::RegionEnd;
pub use error::DocumentError;
pub use history::HistoryStep;
pub use laws::units_have_levels;
pub use shown::Shown;
pub use status_row::{DrawnName, RowEnd, StatusRow};
pub use swapping::Swap;
