//! Laws of what is refused, and of what fails. The functions are empty: their contracts are the laws.

ghost use Rattle.bx_editor_laws.specs.RefusalLaws.{KindsTellCauses, OpeningHasOneCause, RefusableChangeTexts, UnrefusedKeepTexts, WordsTellCauses, WordsTellMessages};

/// A key that may not be refused for want of memory needs none: it keeps all texts of the editor, and the cursor stays, or goes back
/// to where a search began. Outside a paste, Save and Quit are such keys.
pub fn unrefused_keys_keep_texts()
    ensures { UnrefusedKeepTexts }
{}

/// Each key that may be refused outside a paste changes a text of the editor, or moves the cursor, after some keys typed over some
/// text.
pub fn refusable_keys_change_texts()
    ensures { RefusableChangeTexts }
{}

/// For any bytes and any window, exactly one error tells why the bytes are not opened; that memory ran out is the one where nothing
/// else is in the way.
pub fn opening_has_one_cause()
    ensures { OpeningHasOneCause }
{}

/// Two failed saves have the same message only if they have the same cause, or if neither cause is known.
pub fn words_tell_causes()
    ensures { WordsTellCauses }
{}

/// Two messages have the same words only if they are the same, or if they differ only in how many matches were replaced. What Tell
/// says stands in the place of words.
pub fn words_tell_messages()
    ensures { WordsTellMessages }
{}

/// The system's faults have all causes but those that only the host reports. Two kinds of fault have the same cause exactly if a user
/// sees the same in them, as in a full disk and a used up quota; this leaves out `Other`, the cause of all the rest.
pub fn kinds_tell_causes()
    ensures { KindsTellCauses }
{}
