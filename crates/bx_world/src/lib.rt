//! The world of a session: bytes in transit, the window and the terminal, under any schedule of steps.
#![tactic(auto)]

mod laws;
mod playing;
mod step;
mod stepping;
mod world;

pub use laws::{
    runs_are_plays, runs_begin_with_keys, runs_keep_headline, turns_are_plays,
    windows_keep_headline,
};
pub use step::{Step, StepFault};
pub use world::World;
