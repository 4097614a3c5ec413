//! The paragraph level, the explicit levels and the isolating run sequences of a paragraph body (UAX #9, 3.3.1 to 3.3.3).

mod ends;
mod entry;
mod isolates;
mod laws;
mod library;
mod open_chains;
mod paragraph;
mod role;
mod rules;
mod runs;
mod stack;
mod state;
mod walk;

pub use entry::{Explicit, ExplicitChar};
pub use laws::stack_has_room;
pub use library::{Sequence, sequences};
pub use paragraph::{base_level, paragraph_level};
pub use rules::explicit;
pub use stack::MAX_DEPTH;
pub use walk::SequenceWalk;
