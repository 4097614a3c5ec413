//! Unicode's data for the bidirectional algorithm and for joined letters, read from its files: of each character the class, the
//! counterpart of a bracket, the mirror, the joining type and the forms.
#![tactic(auto)]

mod blocks;
mod bracket_file;
mod characters_file;
pub mod class;
mod class_file;
mod class_table;
mod code_map;
mod codes;
pub mod data;
pub mod error;
mod file;
mod forms;
mod joined_letters;
mod joining;
mod joining_file;
mod laws;
mod lines;
mod mirroring_file;
mod parts;
pub mod sample;
mod tables;
mod words;

pub use class::Class;
pub use data::{BidiData, Side};
pub use error::{Cause, UcdError, UcdFile};
pub use joined_letters::JoiningFiles;
pub use joining::{Form, Joining};
pub use laws::small_tables_are_read;
pub use sample::sample_tables;
pub use tables::Tables;
