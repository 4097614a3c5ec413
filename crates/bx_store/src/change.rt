//! What another program did to the text of a store in memory.

/// Whether another program changed the text, and whether a save was told so.
#[derive(Clone, Copy)]
pub enum Change {
    /// Nobody else changed it since the last save.
    Unchanged,
    /// It was changed, and no save was told.
    Unanswered,
    /// It was changed, and a save was told.
    Answered,
}
