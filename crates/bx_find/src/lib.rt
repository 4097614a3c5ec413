//! Searches a text for the letters of a query. It needs only characters and their classes.
//!
//! Nothing allocates: a search keeps the places of at most 256 letters, the most that a query has.
#![tactic(auto)]

mod backward;
mod borders;
mod forward;
mod haystack;
mod letters;
mod prefix;
mod query;
mod ring;
mod search;
mod sought;
mod spans;

pub use haystack::Haystack;
pub use letters::{Reading, is_passed_over};
pub use query::Query;
pub use search::{first_between, first_from, last_before, last_from};
pub use spans::{first_span, match_end};
