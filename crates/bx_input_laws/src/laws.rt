//! Laws of typed bytes, for any input and either erase character of the terminal. Each function's contract is a law; its body
//! is empty.

ghost use Rattle.std.specs.Prelude.{Bool};
ghost use Rattle.std.specs.List.{AllByRecursion};
ghost use Rattle.bx_input_laws.specs.Events.{EventsComeInPieces};
ghost use Rattle.bx_input_laws.specs.Hearing.{AreHeardInOrder};
ghost use Rattle.bx_input_laws.specs.Laws.{AddsKeys, AddsReportKeys, AddsSizeKeys, ComesInPieces, GivesRow, OthersPass, PassedAreDecoded, PastesAreClean};
ghost use Rattle.bx_input_laws.specs.Laws.{PastesInsert, PastesKeepCharacters, PastesText, WaitsForFifteen};
ghost use Rattle.bx_input_laws.specs.Reading.{FramesAreRead, KeysAreRead};
ghost use Rattle.bx_input_laws.specs.Strings.{StringsGiveNothing};
ghost use Rattle.bx_input.specs.Table.{rows};

/// However input is cut, its parts are the same.
pub fn in_any_pieces()
    ensures { (erases_by_delete : Bool) → ComesInPieces erases_by_delete }
{}

/// At most fifteen bytes wait, and at most nine that begin no mouse report and no size.
pub fn waits_for_fifteen()
    ensures { (erases_by_delete : Bool) → WaitsForFifteen erases_by_delete }
{}

/// Within a paste only text passes on: no control byte except TAB and LF, up to the PasteEnd that its end gives.
pub fn pastes_are_clean()
    ensures { (erases_by_delete : Bool) → PastesAreClean erases_by_delete }
{}

/// A sequence of the table is known as its row, except within a paste and after an ESC with which it is a longer row.
pub fn rows_are_known()
    ensures { (erases_by_delete : Bool) → AllByRecursion (GivesRow erases_by_delete) (rows erases_by_delete) }
{}

/// Input with no sequence of the table, no paste, no mouse report and no size passes on to the grammar of items.
pub fn others_pass()
    ensures { (erases_by_delete : Bool) → OthersPass erases_by_delete }
{}

/// A paste becomes PasteStart, its text and PasteEnd, up to the first end of a paste.
pub fn pastes_become_text()
    ensures { (erases_by_delete : Bool) → PastesText erases_by_delete }
{}

/// The text of a paste in UTF-8 has the characters of the paste, except control characters other than TAB and new lines.
pub fn pastes_keep_characters()
    ensures { PastesKeepCharacters }
{}

/// Bytes that pass on have the keys of the grammar of items.
pub fn passed_are_decoded()
    ensures { PassedAreDecoded }
{}

/// After any input that ends outside a paste, a sequence of the table gives one key, or Select and one key, and no other: those of
/// its row, or of the longer row that an ESC before it makes.
pub fn rows_add_keys()
    ensures { (erases_by_delete : Bool) → AllByRecursion (AddsKeys erases_by_delete) (rows erases_by_delete) }
{}

/// After any input that ends outside a paste, a mouse report gives the keys that it means, and no other: none, the cell that is
/// pointed at, Select and that cell, the cell to which the pointer is dragged, or a key of the wheel.
pub fn reports_add_keys()
    ensures { (erases_by_delete : Bool) → AddsReportKeys erases_by_delete }
{}

/// After any input that ends outside a paste, a size of the window gives the keys Size and Fill, and no other.
pub fn sizes_add_keys()
    ensures { (erases_by_delete : Bool) → AddsSizeKeys erases_by_delete }
{}

/// After any input that ends outside a paste, a paste only inserts, between PasteStart and PasteEnd: the characters of its text in
/// order, if that is UTF-8.
pub fn pastes_insert()
    ensures { (erases_by_delete : Bool) → PastesInsert erases_by_delete }
{}

/// A control string outside a paste, such as a terminal's answer, gives no key.
pub fn strings_give_nothing()
    ensures { StringsGiveNothing }
{}

/// However events are cut, their keys are the same.
pub fn events_in_any_pieces()
    ensures { EventsComeInPieces }
{}

/// The session reads the frames of the host in their order, however the pipe cuts them.
pub fn frames_are_heard_in_order()
    ensures { AreHeardInOrder }
{}

/// Each key that the machine gives is decoded from its bytes, and nothing waits behind them.
pub fn keys_are_read()
    ensures { KeysAreRead }
{}

/// What the session decodes of the frames of the host are exactly the machine's keys of their events.
pub fn frames_are_read()
    ensures { FramesAreRead }
{}
