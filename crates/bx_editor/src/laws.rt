//! Laws of a paste, and of what goes out to a clipboard. The functions are empty: their contracts are the laws.

ghost use Rattle.bx_editor.specs.PasteLaws.{CopiesGoOut, PasteIsOneEdit, PasteIsUnseen};

/// Outside a search and a question, a paste is one edit of all that it brings, or two of one undo group where a selection gives way
/// to it, and the cursor is after it. If the text has no room for all, nothing is put in.
pub fn paste_is_one_edit()
    ensures { PasteIsOneEdit }
{}

/// A character that goes into a paste, and PasteStart once more, leave the picture as it is.
pub fn paste_is_unseen()
    ensures { PasteIsUnseen }
{}

/// With a clipboard, the text that Copy and Cut take goes out, unless it is too long, which the message says. A Copy that cancels a
/// search or a question sends nothing, nor does any other key.
pub fn copies_go_out()
    ensures { CopiesGoOut }
{}
