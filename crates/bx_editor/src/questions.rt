//! Questions to the user and their answers, and what is told of a unit.
//!
//! Only functions that return a `Result` allocate.

mod answers;
mod codes;
mod key_letters;
mod laws;
mod line;
mod names;
mod told;

pub use answers::Prompt;
pub(crate) use answers::{char_count, shortened};
pub use codes::{coded, is_code_letter};
pub use key_letters::{code_letter, name_letter};
pub use laws::told_is_printable;
pub use line::{Target, asked, is_line_letter};
pub use names::{asks_code, closing, named};
pub use told::write_told;
