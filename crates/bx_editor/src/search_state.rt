//! How far a search is, and what it is for.

/// How far a search is: what is asked for, and whether it was typed already.
#[derive(Clone, Copy)]
pub enum SearchState {
    /// No search is on.
    Off,
    /// Find or Replace was pressed, and the query is the latest one. The next letter begins a new query.
    Begun,
    /// The query was typed or sought. The next letter is appended to it.
    Typed,
    /// The replacement is asked for, and it is the latest one. The next letter begins a new one.
    WithBegun,
    /// The replacement was typed. The next letter is appended to it.
    WithTyped,
    /// A match is shown: it is replaced next, or passed over.
    Replacing,
}

/// What a search is for.
#[derive(Clone, Copy)]
pub enum SearchPurpose {
    /// Matches are found: letters are read widely.
    Find,
    /// Matches are replaced: letters are read closely.
    Replace,
}
