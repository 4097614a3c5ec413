//! The commands of a terminal's control sequences and strings that the editor writes, and all else as one.

/// The command of a sequence or a string.
#[derive(Clone, Copy)]
pub enum Command {
    /// To a line and a column, counted from 1 (CSI H).
    Move(u16, u16),
    /// Blanks the screen (CSI 2 J).
    Clear,
    /// Blanks the row from the cursor on (CSI K).
    Erase,
    /// Sets the rendition: negative or normal (CSI 7 m, CSI m).
    Render(bool),
    /// Hands bytes to the system's clipboard, and changes nothing that is seen (OSC 52;c; and base64).
    Clip,
    /// Any other sequence or string: the model says nothing of what it does.
    Other,
}
