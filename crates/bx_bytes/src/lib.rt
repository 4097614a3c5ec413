//! Grammars of bytes, the well-formed byte sequences of UTF-8, and a write of all of some bytes.
//!
//! A reader of a stream asks after each byte whether the bytes so far wait for more, are a whole item, or begin none.
//! [`Fate`] has these three cases, and [`character_fate`] finds the one of a character's bytes.
#![tactic(auto)]

mod fate;
mod laws;
mod utf8;
mod writing;

pub use fate::Fate;
pub use laws::{begins_by_more, characters_are_encodings, none_begins_longer};
pub use utf8::{character, character_fate};
pub use writing::{WriteFault, write_all};
