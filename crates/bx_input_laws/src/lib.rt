//! Laws of the machine of `bx_input`, for readers: no program needs them.
#![tactic(auto)]

mod laws;

pub use laws::{
    events_in_any_pieces, frames_are_heard_in_order, frames_are_read, in_any_pieces, keys_are_read,
    others_pass, passed_are_decoded, pastes_are_clean, pastes_become_text, pastes_insert,
    pastes_keep_characters, reports_add_keys, rows_add_keys, rows_are_known, sizes_add_keys,
    strings_give_nothing, waits_for_fifteen,
};
