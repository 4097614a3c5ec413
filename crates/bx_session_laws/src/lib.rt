//! Laws of sessions, for readers: no program needs them.
#![tactic(auto)]

mod laws;

pub use laws::{
    devices_log_all, journals_give_back, keys_are_those_of_input, memory_stores_whole_saves,
    painting_anew_sends_nothing, paintings_keep_up, parts_end_at_quits, recovery_gives_back,
    replays_apply_keys,
};
