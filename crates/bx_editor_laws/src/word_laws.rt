//! A law of the keys that erase words. The function is empty: its contract is the law.

ghost use Rattle.bx_editor_laws.specs.WordLaws.{WordKeysErase};

/// Outside a search, a question and a paste, without a selection, EraseWord erases what stands between the last start of a word or
/// paragraph and the cursor, DeleteWord what stands between the cursor and the next start of a word or end of a paragraph. They
/// erase nothing else, and one Undo takes this back.
pub fn word_keys_erase()
    ensures { WordKeysErase }
{}
