//! The units of a paragraph's body: its grapheme clusters, each with the face that it shows.
//!
//! Only functions that return a `Result` allocate.

mod ascii_run;
mod by_rules;
mod faces;
mod first_units;
mod fitting;
mod library;
pub mod simple;
mod simple_clusters;
mod unit;

pub use ascii_run::printable_stop;
pub use by_rules::ruled_unit;
pub use faces::{face, only_char, simple_face};
pub use first_units::units_from;
pub use fitting::{is_printable, is_simple_within};
pub use library::units;
pub use simple_clusters::{SimpleCluster, simple_cluster};
pub use unit::{Face, Unit, UnitRange};
