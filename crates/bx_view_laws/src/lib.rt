//! Laws of the view, and calls by the numbers of rows. Tests and readers need them, the editor does not.
//!
//! Only functions that return a `Result` allocate.
#![tactic(auto)]

mod laws;
mod library;

pub use laws::{
    far_places_are_centred, filling_is_least, follow_is_least, goals_are_ends, moves_keep_places,
    numbers_lead_back, place_at_is_greatest, place_from_is_least, places_are_boundaries,
    places_have_cells, places_return, pointing_at_own_cell_stays, pointing_takes_units,
    pointing_twice_is_once, rows_go_on, scrolling_keeps_places_visible, steps_go_on, views_return,
    words_go_on,
};
pub use library::{first, follow, row_count, row_of, slots};
