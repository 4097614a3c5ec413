//! Laws of rows, and calls on units in hand. Tests and readers need them, the editor does not.
//!
//! Only functions that return a `Result` allocate.
#![tactic(auto)]

mod laws;
mod library;

pub use laws::{
    forms_change_texts_alone, joined_letters_touch, letters_go_by_joining,
    lowest_levels_order_units, orders_are_permutations, pictures_show_units, rows_are_of_rest,
    rows_cut_units, rows_meet_again, units_make_body,
};
pub use library::{has_one_row, row_levels, wrap};
