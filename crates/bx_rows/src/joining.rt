//! Joined letters: which letters of a body join, by joining types and levels, and the forms in which they are shown.

mod forms;
mod joined_text;
mod laws;

pub use forms::{LeveledBody, TextAt, has_forms, shown_form};
pub use joined_text::joined_image;
pub use laws::{forms_go_by_joining, joining_is_symmetric};
