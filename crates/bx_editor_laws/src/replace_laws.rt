//! Laws of replacing matches one by one or all at once. The functions are empty: their contracts are the laws.

ghost use Rattle.bx_editor_laws.specs.ReplaceLaws.{EnterReplaces, FindPassesOver, MatchTakesMarks, ReplaceReplacesAll, ReplacedComesBack};
ghost use Rattle.bx_editor_laws.specs.ReplaceLaws.{SameLettersStay, ShownStands};

/// A match is shown only where the query stands, and the cursor is at its place.
pub fn shown_stands()
    ensures { ShownStands }
{}

/// The end of a line replaces the match that is shown, and nothing else.
pub fn enter_replaces()
    ensures { EnterReplaces }
{}

/// A match that is replaced takes all marks that go with its last letter: the character behind it is no nonspacing mark and no ARABIC
/// TATWEEL.
pub fn match_takes_marks()
    ensures { MatchTakesMarks }
{}

/// Find passes over the match that is shown: nothing is replaced, and the next match is shown.
pub fn find_passes_over()
    ensures { FindPassesOver }
{}

/// Replace replaces the match that is shown and all after it, each once, and nothing else.
pub fn replace_replaces_all()
    ensures { ReplaceReplacesAll }
{}

/// One Undo takes back what a key replaced.
pub fn replaced_comes_back()
    ensures { ReplacedComesBack }
{}

/// If the replacement has the letters of the query, replacing leaves the letters of the text as they were.
pub fn same_letters_stay()
    ensures { SameLettersStay }
{}
