//! Terms that several layers share: kinds of characters, glyphs and their columns, limits of a window and a text, ranges, the allocation error.
#![tactic(auto)]

mod base;
mod characters;
mod glyphs;
mod memory;
mod range;
mod sizes;
mod texts;

pub use base::{Base, UnknownBase};
pub use characters::{
    are_ascii_printable, are_printable, is_ascii_printable, is_control, is_direction_mark,
};
pub use glyphs::{is_glyph, run_width};
pub use memory::OutOfMemory;
pub use range::Range;
pub use sizes::{LARGEST_SIDE, LARGEST_TEXT, is_side};
pub use texts::{are_equal, first_char};
