//! Laws of questions and their answers, and of what is told of a unit. The functions are empty: their contracts are the laws.

ghost use Rattle.bx_editor_laws.specs.AskingLaws.{AnswerIsARun, CodePutsIn, IsolatesRaise, LetterIsolates, LetterPutsIn, LetterWraps, PromptsAreShown, QuestionsChangeThemselves};
ghost use Rattle.bx_editor_laws.specs.AskingLaws.{TellShows, TellsWhatStands, ToldNumbersLeadBack};

/// A question changes nothing but itself: whatever is typed while it is on leaves text, place, held text and mark as they were.
pub fn questions_change_themselves()
    ensures { QuestionsChangeThemselves }
{}

/// The numbers that the status row tells are an answer to GoTo that leads to the place where the cursor is already.
pub fn told_numbers_lead_back()
    ensures { ToldNumbersLeadBack }
{}

/// One Undo takes back all that an answer to Name put in.
pub fn answer_is_a_run()
    ensures { AnswerIsARun }
{}

/// Name and a letter put the character that the letter names in at the place, if there is room and no region to wrap.
pub fn letter_puts_in()
    ensures { LetterPutsIn }
{}

/// Name, a letter that asks for a code, and a character's code put the character in at the place, if there is room.
pub fn code_puts_in()
    ensures { CodePutsIn }
{}

/// Name and a letter wrap the region in two characters, and change no other, if it is in one line and there is room.
pub fn letter_wraps()
    ensures { LetterWraps }
{}

/// What stands in an isolate has levels above the one at which the isolate stands.
pub fn isolates_raise()
    ensures { IsolatesRaise }
{}

/// A region that a letter isolates stands in its paragraph between both characters, with levels above the one around it; no
/// other paragraph changes.
pub fn letter_isolates()
    ensures { LetterIsolates }
{}

/// Whatever was typed over an opened text: an answer is short, and a terminal shows each glyph of a prompt, of its words and of what is
/// typed behind them, in the glyph's columns. What is typed has to be characters: an inserted one a scalar value, which is what the decoder
/// gives, and held text that is put in UTF-8, as it is in every editor of the code.
pub fn prompts_are_shown()
    ensures { PromptsAreShown }
{}

/// Of the unit at the place are told its first character's code and class, and its level; all that is told is printable.
pub fn tells_what_stands()
    ensures { TellsWhatStands }
{}

/// Outside a paste and the question whether to overwrite, Tell shows what is told of the unit at the place on the status row, and leaves text, place, held text and mark.
pub fn tell_shows()
    ensures { TellShows }
{}
