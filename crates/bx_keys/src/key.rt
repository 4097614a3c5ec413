//! The keys of the editor.

use crate::notice::Notice;

/// A command of the user, or what the host tells. In a search or a question some keys answer it: `answer_of` in `bx_editor`'s
/// specs/Keys.antt says which.
#[derive(Clone, Copy)]
pub enum Key {
    /// Inserts the character at the place.
    Insert(char),
    /// Removes the unit before the place.
    Erase,
    /// Removes the unit at the place.
    Delete,
    /// One unit back in text order.
    Back,
    /// One unit forward in text order.
    Forward,
    /// One row up.
    Up,
    /// One row down.
    Down,
    /// One step to the right on the screen.
    Right,
    /// One step to the left on the screen.
    Left,
    /// To the row's first offset.
    RowHome,
    /// To the row's end: the paragraph's end in its last row, else the place before the row's last unit.
    RowEnd,
    /// A screen of rows up.
    PageUp,
    /// A screen of rows down.
    PageDown,
    /// Stores the text.
    Save,
    /// Ends the session; asks again where not all is saved.
    Quit,
    /// Takes back the latest edit.
    UndoEdit,
    /// Makes the latest edit again that was taken back.
    RedoEdit,
    /// Paints the whole picture again.
    Repaint,
    /// Switches to the next base direction: Auto, Ltr, Rtl.
    Direction,
    /// Sets the mark at the place, or removes it if it is there.
    Mark,
    /// Copies the region, or the line if the region is empty.
    Copy,
    /// Cuts the region, or the line if the region is empty.
    Cut,
    /// Inserts the copied or cut text at the place.
    Put,
    /// Begins a search; in a search, goes to the next match.
    Find,
    /// Begins a search; in a search, goes to the previous match.
    FindBack,
    /// One word to the left on the screen.
    WordLeft,
    /// One word to the right on the screen.
    WordRight,
    /// To the text's first place.
    TextStart,
    /// To the text's end.
    TextEnd,
    /// Shows the keys in the status row.
    Help,
    /// Removes what stands from the start of the word before the place to the place.
    EraseWord,
    /// Removes what stands from the place to the start of the next word.
    DeleteWord,
    /// Goes to the next match, and no search stays on.
    FindNext,
    /// Gives up a search or a question, or ends replacing; where none is on, removes the mark.
    Cancel,
    /// Removes the last point (a nonspacing mark or zero-width joiner) of the unit before the place, else that unit.
    ErasePoint,
    /// Begins a new line with the text's own line end.
    NewLine,
    /// One row up, in the kept column: the cursor's before the first of LineUp, LineDown, PageBack and PageOn in sequence.
    LineUp,
    /// One row down, in the kept column, which is told at LineUp.
    LineDown,
    /// A screen of rows up, in the kept column, which is told at LineUp.
    PageBack,
    /// A screen of rows down, in the kept column, which is told at LineUp.
    PageOn,
    /// Begins a selection at the place, or goes on with one, so that the next move keeps the mark.
    Select,
    /// Takes back all edits of the latest undo group.
    Undo,
    /// Makes the edits of the next undo group again.
    Redo,
    /// Asks for a line.
    GoTo,
    /// Begins a search for what is to be replaced; in one, asks for the replacement, and then replaces one match after another.
    Replace,
    /// Asks for the name of a character.
    Name,
    /// Tells what stands at the place.
    Tell,
    /// Selects the whole text.
    SelectAll,
    /// Goes to the previous match, and no search stays on.
    FindPrevious,
    /// Moves the top so that no row of the window is left blank that could show text.
    Fill,
    /// Asks for a name to save under.
    SaveAs,
    /// The view three rows back; the place stays while its row is shown.
    ScrollBack,
    /// The view three rows on; the place stays while its row is shown.
    ScrollOn,
    /// Asks whether to overwrite a file that another program changed.
    AskOverwrite,
    /// A paste begins: the characters up to its end are put into the text at once, when it ends.
    PasteStart,
    /// A paste ends.
    PasteEnd,
    /// The window's size in rows and columns, each from 1 to 500.
    Size(u16, u16),
    /// Goes to the cell of the window in this row and column, each from 1 to 500.
    Point(u16, u16),
    /// Selects from what was pointed at to the cell in this row and column, each from 1 to 500.
    Drag(u16, u16),
    /// Shows a notice of the host in the status row.
    Notice(Notice),
}
