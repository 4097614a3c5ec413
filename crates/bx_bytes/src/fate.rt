//! What the bytes read so far are to a grammar.

/// What the bytes read so far are to a grammar.
#[derive(Clone, Copy)]
pub enum Fate {
    /// The bytes begin an item and are not the whole of it: more may follow.
    Waits,
    /// The bytes are a whole item.
    Ends,
    /// The bytes begin no item.
    Breaks,
}
