//! Stores that a text is saved to: the trait, a store in memory, a store in a file, and one that the host keeps.
#![tactic(auto)]

mod cause;
mod change;
mod disk;
mod faults;
mod file_store;
mod host_store;
mod kept;
mod memory_store;
mod save_laws;
mod saver;
mod store;

pub use cause::SaveCause;
pub use disk::{Disk, SystemDisk};
pub use faults::Faults;
pub use file_store::FileStore;
pub use host_store::HostStore;
pub use memory_store::MemoryStore;
pub use save_laws::{bytes_tell_causes, frames_are_obeyed, saves_carry_the_text};
pub use saver::{Answer, Saver, SaverPipes};
pub use store::{Store, StoreFault};
