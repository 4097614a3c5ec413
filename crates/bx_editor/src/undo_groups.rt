//! Undo groups: what one press of a key takes back or makes again.
//!
//! Only functions that return a `Result` allocate.

mod groups;
mod laws;
mod typing;

pub use groups::UndoGroups;
pub use laws::{
    begin_where_edits_begin, edit_is_of_its_run, redo_ends_with_a_run, undo_ends_with_a_run,
    undo_then_redo,
};
pub use typing::{Kind, Removal, Typing};
