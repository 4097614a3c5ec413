//! The editor's command line, the input files of a session, the check of a text before it is opened, the offset of the cursor's
//! first line, and the journal's file.
#![tactic(auto)]

mod check;
mod files;
mod journal;
mod line;
mod parsed;
mod shared;
mod words;

pub use check::{TextFault, check_text};
pub use files::Files;
pub use journal::{JournalFile, JournalNotes, JournalSyncs, empty_journal};
pub use line::start_of_line;
pub use parsed::Options;
pub use shared::{
    FileFault, Inner, InputFiles, JoiningFiles, Numbered, Shown, Style, UnicodeFiles, bytes_of,
    direction, direction_of, finish, flag, found_text, is_given, missing_value, option, paths_of,
    refuse, refuse_words, side, side_of, style_of, text_of, value_of, with_tables, words_of,
};
pub use words::command_line;
