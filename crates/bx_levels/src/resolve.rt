//! The levels of the characters of a paragraph body (UAX #9, 3.3).

mod at_indexes;
mod before;
mod body;
mod brackets;
mod by_rules;
mod edited;
mod formatted;
mod laws;
mod lent_sequence;
mod neutral;
mod one_pass;
mod paragraph;
mod resolve;
mod scratch;
mod splice;
mod uniform;
mod weak;

pub use by_rules::levels_by_rules;
pub use edited::{follow_between, follow_to_end};
pub use laws::{each_in_one_sequence, left_texts_are_flat, letters_keep_direction};
pub use paragraph::{Level, Levels};
pub use resolve::levels;
