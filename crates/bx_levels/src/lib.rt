//! The levels of the characters of a paragraph body (UAX #9, 3.3).
#![tactic(auto)]

mod brackets;
mod embedding;
mod resolve;

pub use brackets::{PairSearch, neighbours_are_paired, pairs, pairs_are_nested, resolve_pairs};
pub use embedding::{
    Explicit, ExplicitChar, MAX_DEPTH, Sequence, SequenceWalk, base_level, explicit,
    paragraph_level, sequences, stack_has_room,
};
pub use resolve::{
    Level, Levels, each_in_one_sequence, follow_between, follow_to_end, left_texts_are_flat,
    letters_keep_direction, levels, levels_by_rules,
};
