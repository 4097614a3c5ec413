//! The texts of a search: the query and the replacement, each of at most 64 characters.
ghost use Rattle.std.specs.Prelude.{◌≡◌, ◌≤◌, chars, length};
ghost use Rattle.bx_editor.specs.InputLines.{line_with};
ghost use Rattle.bx_editor.specs.Search.{as_typed, kept, reading};

use crate::search_state::{SearchPurpose, SearchState};
use bx_find::Reading;

/// The most characters of the query, and of the replacement: `longest_query` and `longest_replacement` of the specs. A choice, which
/// docs/bidi_edit.1 tells; `bx_find/src/query.rt` has room for the letters of so many.
pub(crate) const LONGEST_QUERY: usize = 64;

/// How letters are read: widely to be found, closely to be replaced.
pub(crate) fn reading_of(purpose: SearchPurpose) -> Reading
    ensures { result ≡ reading purpose }
{
    match purpose {
        SearchPurpose::Find => Reading::Wide,
        SearchPurpose::Replace => Reading::Close,
    }
}

/// The line into which a character goes: empty if it was just asked for, so that typing replaces the latest one.
pub(crate) fn kept(search_state: SearchState, line: &str, cursor: usize) -> (&str, usize)
    requires few { length (chars line.now) ≤ 64 }
    ensures kept { line_with result.0.now result.1 ≡ kept search_state (line_with line.now cursor) }
    ensures few { length (chars result.0.now) ≤ 64 }
{
    match search_state {
        SearchState::Begun | SearchState::WithBegun => ("", 0),
        SearchState::Off | SearchState::Typed | SearchState::WithTyped | SearchState::Replacing => {
            (line, cursor)
        }
    }
}

/// How far a search is once its input line was changed, or its cursor moved: what is typed next goes into the line.
pub(crate) fn as_typed(search_state: SearchState) -> SearchState
    ensures { result ≡ as_typed search_state }
{
    match search_state {
        SearchState::Begun => SearchState::Typed,
        SearchState::WithBegun => SearchState::WithTyped,
        search_state => search_state,
    }
}
