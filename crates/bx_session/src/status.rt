//! What a session tells of a call: whether it has ended, or why it refuses.

/// Why a session refuses a call.
#[derive(Clone, Copy, Debug)]
pub enum Refused {
    /// Out of memory while applying a key, scrolling before a key of a journal, or moving the cursor before the first key:
    /// nothing has changed.
    Edit,
    /// Out of memory while painting, or moving the top behind a key of a journal: the key or the size is applied, and the next call that
    /// succeeds paints.
    Paint,
    /// A side of the window is not from 1 to 500: nothing has changed.
    Size,
}

/// Whether a session has ended.
#[derive(Clone, Copy)]
pub enum Status {
    /// It takes more presses.
    Running,
    /// Quit has ended it. Further keys do not count.
    Ended,
}
