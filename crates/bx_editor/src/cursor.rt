//! The cursor, with all that an edit settles, and how fresh a selection is.
ghost use Rattle.std.specs.Prelude.{◌≡◌, None};

use crate::clicks::{Clicks, Pressed};
use crate::search_state::SearchState;

/// How fresh a selection is. It gives way to what is typed.
#[derive(Clone, Copy)]
pub enum Soft {
    /// No selection: there is no mark, or Mark set it.
    Off,
    /// Select was pressed last, but for Repaint: the next move goes on selecting.
    Fresh,
    /// Another key was pressed since: the next move without Select takes the mark off.
    Old,
}

/// The cursor's place and the mark's, in bytes of the text, how fresh a selection is, how far a search is, and what was pressed.
#[derive(Clone, Copy)]
pub(crate) struct Cursor {
    pub(crate) place: usize,
    pub(crate) mark: Option<usize>,
    pub(crate) soft: Soft,
    pub(crate) search_state: SearchState,
    pub(crate) clicks: Option<Clicks>,
    pub(crate) pressed: Option<Pressed>,
}

impl Cursor {
    /// Goes to the place after an edit, which removes the mark, ends the search and forgets what was pressed.
    pub(crate) fn move_after_edit(&mut self, place: usize)
        ensures { self.new ≡ record { place = place; mark = None; soft = Soft.Off; search_state = SearchState.Off; clicks = None; pressed = None } }
    {
        *self = Cursor {
            place,
            mark: None,
            soft: Soft::Off,
            search_state: SearchState::Off,
            clicks: None,
            pressed: None,
        };
    }
}
