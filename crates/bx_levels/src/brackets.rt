//! Bracket pairs and the types they resolve to (UAX #9, 3.1.3 and 3.3.5).

mod laws;
mod library;
mod open_stack;
mod resolve;
mod search;

pub use laws::{neighbours_are_paired, pairs_are_nested};
pub use library::{pairs, resolve_pairs};
pub use search::PairSearch;
