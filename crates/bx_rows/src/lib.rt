//! The rows of a paragraph: wrapping, the levels of a row's units, their visual order, and pictures.
//!
//! Only functions that return a `Result` allocate.
#![tactic(auto)]

mod ascii_part;
mod cells;
mod drawn;
mod form_texts;
mod glyphs;
mod joined_text;
mod joining;
mod level_read;
mod lines;
mod mirrors;
mod narrow_run;
mod numbered_row;
mod picture;
mod place;
mod plain_picture;
mod plain_row;
mod row_layout;
mod row_part;
mod row_scan;
mod start_search;
mod unit_levels;
mod visual_order;
mod wrapping;

pub use cells::{
    Face, SimpleCluster, Unit, UnitRange, face, is_printable, is_simple_within, only_char,
    printable_stop, ruled_unit, simple, simple_cluster, simple_face, units, units_from,
};
pub use drawn::{Drawn, RowPicture};
pub use joining::{
    LeveledBody, TextAt, forms_go_by_joining, has_forms, joined_image, joining_is_symmetric,
    shown_form,
};
pub use lines::Lines;
pub use picture::unit_columns;
pub use row_layout::RowLayout;
pub use start_search::{RowStart, row_starts};
pub use unit_levels::{char_count, each_level};
pub use visual_order::visual;
pub use wrapping::{Row, columns_at, is_break};
