//! A terminal as code, and laws of what it reads. Tests, scenes and worlds call it, the editor does not.
#![tactic(auto)]

ghost use Rattle.std.specs.Prelude.{◌≡◌, ℕ, List, [], ◌++◌, true};
ghost use Rattle.std.specs.Str.{IsUtf8};
ghost use Rattle.bx_bytes.specs.Utf8.{are_printable};
ghost use Rattle.bx_grid.specs.Terminal.{Terminal, reads, after_resize};

mod columns;
mod laws;
mod live;
mod screen;
mod sequence;
mod strings;
mod text;
mod token;
mod width;

pub use laws::reads_tokens;
pub use screen::Screen;

/// Reading bytes piece by piece is the same as reading them at once.
pub fn in_any_pieces()
    ensures { (t : Terminal) (xs ys : List ℕ) → reads t (xs ++ ys) ≡ reads (reads t xs) ys }
{}

/// A change of the window's size keeps the half-read bytes.
pub fn window_keeps_what_is_half_read()
    ensures { (t : Terminal) (height width : ℕ)
        → ((after_resize t height width).run ≡ t.run) × ((after_resize t height width).half_read ≡ t.half_read) }
{}

/// A text of printable characters, read when no token is half read, extends the run, whatever the lengths of its
/// characters in bytes.
pub fn text_goes_on_with_the_run()
    ensures { (t : Terminal) (text : List ℕ) → IsUtf8 text → are_printable text ≡ true → t.half_read ≡ []
        → reads t text ≡ record t { run = t.run ++ text } }
{}
