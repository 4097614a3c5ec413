//! The lines of the player that need no editor: what is found for characters and rows, keys, command lines.
//!
//! Each call answers the fields of one line. `player` says how its lines are written, and plays those of documents, pictures and scenes.
#![tactic(auto)]

mod characters;
mod class;
mod command;
mod keys;
mod row;
mod rows;
mod words;
mod writing;

pub use characters::{clusters_line, levels_line, order_line};
pub use class::class_line;
pub use command::command_line;
pub use keys::keys_line;
pub use row::row_line;
pub use rows::{RowFault, picture_of};
pub use words::{WordFault, byte_of, bytes_of, call_of, count_of, field, side_of, two_of};
pub use writing::{add_blank, add_bytes, add_none, add_number};
