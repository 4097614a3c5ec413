//! An editor session: takes keys, queues bytes for the terminal, saves to a store; and runs over a reader and a writer, whose bytes a
//! decoder beside the session makes keys of.
#![tactic(auto)]

mod action;
mod device;
mod end;
mod feeding;
mod going;
mod journal;
mod keeping;
mod memory_device;
mod open;
mod over_reader;
mod painting;
mod replaying;
mod running;
mod saving;
mod session;
mod status;
mod wired;

pub use action::{Action, ActionBytes};
pub use bx_editor::{OpenError, Prompt, SearchPurpose, SearchState, Settings};
pub use device::{Device, DeviceFault};
pub use end::{End, RunFault};
pub use journal::{Journal, JournalFault, NoJournal, Recorder, WrittenJournal};
pub use memory_device::MemoryDevice;
pub use over_reader::{run, run_recorded};
pub use running::run_device;
pub use session::Session;
pub use status::{Refused, Status};
pub use wired::Wired;
