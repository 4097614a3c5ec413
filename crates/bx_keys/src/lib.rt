//! Keys, decoded from the bytes that a terminal sends.
//!
//! Input is made of items: control characters, characters in UTF-8, and escape sequences (ECMA-35, ECMA-48). No item is
//! a proper prefix of another. The longest prefix of the input that begins an item gives its key if it is an item, waits
//! for more if it is all of the input, and is dropped otherwise, at least one byte. `specs/Keys.antt` defines this, and
//! [`Decoder`] is proved to give those keys, however the input is split.
#![tactic(auto)]

mod decoder;
mod key;
mod laws;
mod meaning;
mod notice;
mod numbers;
mod sequence;

pub use decoder::Decoder;
pub use key::Key;
pub use laws::{in_any_pieces, input_has_parts, items_are_apart, rests_wait};
pub use notice::Notice;
pub use numbers::{first_semicolon, number, side};
