//! The rows of a text as lines of plain bytes, for a pager, mail or a printer.
//!
//! Only functions that return a `Result` allocate.
#![tactic(auto)]

mod error;
mod line;
mod output;
mod paragraph;
mod printing;
mod style;

pub use error::PrintError;
pub use printing::print;
pub use style::{Placeholders, Style};
