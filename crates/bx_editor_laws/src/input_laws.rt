//! Laws of what is typed at a prompt, and of the question whether to overwrite. The functions are empty: their contracts are the laws.

ghost use Rattle.bx_editor_laws.specs.InputLaws.{KeysAreLetters, LineKeysKeepPrompt, OnlyAnswersOverwrite};
ghost use Rattle.bx_editor_laws.specs.LineTextLaws.{InputLineIsText};

/// The key of a letter, under the Hebrew, the Arabic or the Persian layout, answers the question for a character's name, or for its
/// code, as the letter does.
pub fn keys_are_letters()
    ensures { KeysAreLetters }
{}

/// While a prompt shows an input line, no key that edits the line, moves in it, or does nothing there, ends a search or a question, or
/// changes the text: only an Enter that is typed may.
pub fn line_keys_keep_prompt()
    ensures { LineKeysKeepPrompt }
{}

/// No Save stores the text over what another program wrote. Only a letter that confirms that does, in the question whether to overwrite,
/// and a Save ends that question.
pub fn only_answers_overwrite()
    ensures { OnlyAnswersOverwrite }
{}

/// The line of a prompt is edited as a text of one line is, laid out in rows of 500 columns: moves, Delete, the keys that remove a word,
/// and what is typed do what they do in that text, with the cursor at the same place. Erase removes one character alone.
pub fn input_line_is_text()
    ensures { InputLineIsText }
{}
