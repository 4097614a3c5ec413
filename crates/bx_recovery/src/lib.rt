//! Sessions from their files: a text opened again, the keys of its journal replayed, and what the edited file holds compared with
//! this.
#![tactic(auto)]

mod beginning;
mod fault;
mod opening;
mod recovering;
mod replaying;

pub use beginning::Beginning;
pub use fault::RecoveryFault;
pub use opening::open;
pub use recovering::recover;
pub use replaying::{FileText, Replayed, replay, replay_beside};
