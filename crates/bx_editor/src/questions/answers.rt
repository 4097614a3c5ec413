//! The questions of the status row, and a text without its last character.
ghost use Rattle.std.specs.Prelude.{◌≡◌, ◌≤◌, IfOk, chars, length, string_bytes};
ghost use Rattle.bx_editor.specs.questions.Answers.{shortened};

use std::alloc::{AllocError, Global};

/// What the user is asked.
#[derive(Clone, Copy)]
pub enum Prompt {
    /// Nothing.
    Off,
    /// To which paragraph and unit to go.
    Line,
    /// Which character is put in, by a letter that names it.
    Name,
    /// Which character is put in, by its code.
    Code,
    /// Under which name the text is saved.
    File,
    /// Whether the file, which another program changed, is overwritten.
    Overwrite,
}

/// The number of a text's characters.
pub(crate) fn char_count(text: &str) -> usize
    ensures { result ≡ length (chars text.now) }
{
    text.chars().count()
}

/// A text without its last character, if it has one.
///
/// Errors: `AllocError`.
pub(crate) fn shortened(alloc: Global, answer: &str) -> Result<String, AllocError>
    ensures shorter { IfOk result (λ a. string_bytes a ≡ shortened answer.now) }
    ensures fewer { IfOk result (λ a. length (chars (string_bytes a)) ≤ length (chars answer.now)) }
{
    let mut shorter = String::from_str(alloc, answer)?;
    let _last = shorter.pop();
    Ok(shorter)
}
