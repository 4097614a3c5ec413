//! Grids of columns, and pictures, which the editor draws and the painter shows; and the model of the terminal that shows
//! them.
#![tactic(auto)]

ghost use Rattle.std.specs.Prelude.{◌≡◌, ℕ, List, [], ◌++◌, Ok};
ghost use Rattle.base64.specs.Engines.{standard};
ghost use Rattle.base64.specs.GeneralPurpose.{decode_of};
ghost use Rattle.base64.specs.GeneralPurpose.{encode_of};
ghost use Rattle.base64.specs.GeneralPurpose.{IsBytes};
ghost use Rattle.bx_grid.specs.Tokens.{AreBase64, clip_bytes};
ghost use Rattle.bx_grid.specs.Effects.{effects};
ghost use Rattle.bx_grid.specs.Glyphs.{ShareWholeGlyphs, DifferInWholeGlyphs};
ghost use Rattle.bx_grid.specs.Picture.{IsIdle, PictureState};
ghost use Rattle.bx_grid.specs.Grid.{AreWholeTokens, IsPicture};
ghost use Rattle.bx_grid.specs.Terminal.{Terminal, reads, run_ended};

mod codes;
mod column;
mod columns;
mod command;
mod error;
mod glyph_run;
mod glyph_text;
mod grid;
mod grid_row_ref;
mod picture;
mod rows;
mod turning;

pub use column::{Column, all_same};
pub use columns::{fill_blank, put_glyphs};
pub use command::Command;
pub use error::GridError;
pub use glyph_run::GlyphRun;
pub use glyph_text::GlyphText;
pub use grid::{Cell, Grid};
pub use grid_row_ref::GridRowRef;
pub use picture::Picture;

/// Two pictures of one size differ in whole glyphs: a column that both have belongs to a glyph that both have as a whole,
/// and if a column differs, so do all columns of the glyph that either picture has there.
pub fn pictures_differ_in_whole_glyphs()
    ensures common { (p q : PictureState) → IsPicture p → IsPicture q → p.height ≡ q.height → p.width ≡ q.width
        → ShareWholeGlyphs p.columns q.columns }
    ensures differing { (p q : PictureState) → IsPicture p → IsPicture q → p.height ≡ q.height → p.width ≡ q.width
        → DifferInWholeGlyphs p.columns q.columns × DifferInWholeGlyphs q.columns p.columns }
{}

/// A clip of any bytes changes nothing that is seen: a terminal with nothing half read is as before, with no effect on its
/// columns, and a pending run only ends. A text is base64 exactly if it is the encoding of some bytes, and decoding gives
/// these bytes back.
pub fn clips_change_nothing()
    ensures same { (t : Terminal) (held : List ℕ) → IsIdle t → IsBytes held → reads t (clip_bytes held) ≡ t }
    ensures effects { (t : Terminal) (held : List ℕ) → IsIdle t → IsBytes held → effects t (clip_bytes held) ≡ [] }
    ensures run { (t : Terminal) (held : List ℕ) → t.half_read ≡ [] → IsBytes held → reads t (clip_bytes held) ≡ record (run_ended t) { half_read = [] } }
    ensures tokens { (held : List ℕ) → IsBytes held → AreWholeTokens (clip_bytes held) }
    ensures gives { (held : List ℕ) → IsBytes held → decode_of standard (encode_of standard held) ≡ Ok held }
    ensures base64 { AreBase64 }
{}
