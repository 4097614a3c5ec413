//! The rows of one paragraph: its body wrapped in a window, the slots of each row and their columns.
//!
//! Only functions that return a `Result` allocate.
#![tactic(auto)]

mod body_edit;
mod cursor;
mod cut_off;
mod direction;
mod edited;
mod edited_rows;
mod in_place;
mod laws;
mod layout;
mod layout_row_ref;
mod moves;
mod reading;
mod row_edit;
mod row_reading;
mod slots;
mod standing;
mod strong;
mod text_edit;

pub use laws::rows_before_stay;
pub use layout::ParagraphLayout;
pub use layout_row_ref::LayoutRowRef;
pub use moves::{Visual, reading_side};
pub use slots::Slot;
pub use standing::Standing;
