//! The bytes that paint a picture on a terminal: all of it, or its changes from the one before; and those that hand a text to
//! the system's clipboard.
#![tactic(auto)]

mod clip;
mod numbers;
mod output;
mod painting;
mod writing;

pub use clip::clip_into;
pub use painting::{changes, changes_into, whole, whole_into};
