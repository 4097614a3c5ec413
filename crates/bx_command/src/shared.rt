//! Shared by the programs that lay out a text: command-line options, input files, and exit statuses.

mod arguments;
mod ending;
mod files;
mod shown;
mod unicode;

pub use arguments::{
    direction, direction_of, flag, is_given, missing_value, option, side, side_of, value_of,
    words_of,
};
pub use ending::{finish, refuse, refuse_words};
pub use files::{FileFault, InputFiles, bytes_of, found_text, text_of};
pub use shown::{Inner, Numbered, Shown, Style, style_of};
pub use unicode::{JoiningFiles, UnicodeFiles, paths_of, with_tables};
