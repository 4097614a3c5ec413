//! Laws of the search, for readers: no program needs them.
#![tactic(auto)]

mod laws;

pub use laws::{first_between_is_first, first_from_is_first, last_before_is_last, spans_follow};
