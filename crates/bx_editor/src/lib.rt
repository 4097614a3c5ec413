//! The editor: a text, the cursor's place, the effect of keys on them, and the picture of the window.
#![tactic(auto)]

mod answer;
mod asking;
mod clicks;
mod clipboard;
mod cursor;
mod editor;
mod erasing;
mod input_line;
mod keys;
mod laws;
mod line_puts;
mod matches;
pub mod message;
mod moving;
mod opening;
mod past;
mod pasting;
mod picture;
mod pointing;
mod putting;
mod query;
mod questions;
mod region;
mod replacement;
mod replacing;
mod replay;
mod saving;
mod scrolling;
mod search_keys;
pub mod search_state;
mod searching;
mod selecting;
mod settings;
mod status;
mod telling;
mod undo_groups;
mod undoing;
mod wrapping;

pub use answer::{Answer, answer_of};
pub use clicks::{Clicks, Extent, Pressed};
pub use cursor::Soft;
pub use editor::Editor;
pub use input_line::{Erasure, InputLine};
pub use laws::{copies_go_out, paste_is_one_edit, paste_is_unseen};
pub use message::Message;
pub use opening::OpenError;
pub use questions::{
    Prompt, Target, asked, asks_code, closing, code_letter, coded, is_code_letter, is_line_letter,
    name_letter, named, told_is_printable, write_told,
};
pub use saving::Saving;
pub use scrolling::Scroll;
pub use search_state::{SearchPurpose, SearchState};
pub use settings::Settings;
pub use undo_groups::{
    Kind, Removal, Typing, UndoGroups, begin_where_edits_begin, edit_is_of_its_run,
    redo_ends_with_a_run, undo_ends_with_a_run, undo_then_redo,
};
