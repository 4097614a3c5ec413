//! Pauses in typing, as far as the machine remembers them.

/// When a pause came.
#[derive(Clone, Copy)]
pub enum Pause {
    /// Long ago, or never.
    No,
    /// Right before an ESC that waits alone in a paste.
    Before,
    /// Right behind the last byte.
    Behind,
}
