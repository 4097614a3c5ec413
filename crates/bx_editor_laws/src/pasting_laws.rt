//! Laws of pastes. The functions are empty: their contracts are the laws.

ghost use Rattle.bx_editor_laws.specs.PastingLaws.{KeysEndPastes, PasteComesBack, PasteIsTyping, PastesAreAlone, PastesEndByKeys};

/// A key that ends a paste does what it does once the paste has ended. So what other laws say of keys outside a paste holds in one
/// too, of the text with what the paste has brought.
pub fn keys_end_pastes()
    ensures { KeysEndPastes }
{}

/// A paste that is under way is over after a key exactly if the key is one that ends a paste.
pub fn pastes_end_by_keys()
    ensures { PastesEndByKeys }
{}

/// Whatever was typed over an opened text, a paste into the text is under way only outside a search and a question.
pub fn pastes_are_alone()
    ensures { PastesAreAlone }
{}

/// Outside a search and a question, one Undo takes back all that a paste put in, and puts back the selection that gave way to it;
/// if there was room for the pasted characters, they were put in.
pub fn paste_comes_back()
    ensures { PasteComesBack }
{}

/// Outside a search, a question and a paste, pasted characters, none of which is pasted as CR LF, leave text and place as the same
/// characters do when they are typed one by one, if there is room for all and the place after each is its end.
pub fn paste_is_typing()
    ensures { PasteIsTyping }
{}
