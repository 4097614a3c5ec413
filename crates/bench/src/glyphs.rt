//! The glyphs of each script that pictures are filled with.

ghost use Rattle.std.specs.Prelude.{◌≡◌, ◌≤◌, true};
ghost use Rattle.bx_common.specs.Glyphs.{is_one_glyph, run_width};

/// What a picture is filled with.
#[derive(Clone, Copy)]
pub enum Script {
    Ascii,
    Hebrew,
    Arabic,
    /// Characters of two columns.
    Wide,
    /// Hebrew letters with two marks each.
    Marked,
}

impl Script {
    /// The script with this name.
    pub fn named(name: &str) -> Option<Script> {
        if name == "ascii" {
            Some(Script::Ascii)
        } else if name == "hebrew" {
            Some(Script::Hebrew)
        } else if name == "arabic" {
            Some(Script::Arabic)
        } else if name == "wide" {
            Some(Script::Wide)
        } else if name == "marked" {
            Some(Script::Marked)
        } else {
            None
        }
    }
}

/// A glyph's text and its width in columns.
#[derive(Clone, Copy)]
pub struct Glyph {
    pub text: &'static str,
    pub columns: u16,
}

impl Glyph {
    /// The script's usual glyph; if `other`, another one.
    pub fn of(script: Script, other: bool) -> Glyph
        ensures glyph { is_one_glyph result.text.now ≡ true }
        ensures counted { result.columns ≡ run_width result.text.now }
        ensures some { 1 ≤ result.columns }
        ensures few { result.columns ≤ 2 }
    {
        let (text, columns) = match (script, other) {
            (Script::Ascii, false) => ("a", 1),
            (Script::Ascii, true) => ("x", 1),
            (Script::Hebrew, false) => ("\u{5D0}", 1),
            (Script::Hebrew, true) => ("\u{5E9}", 1),
            (Script::Arabic, false) => ("\u{628}", 1),
            (Script::Arabic, true) => ("\u{634}", 1),
            (Script::Wide, false) => ("\u{4E16}", 2),
            (Script::Wide, true) => ("\u{754C}", 2),
            (Script::Marked, false) => ("\u{5E9}\u{5C1}\u{5B8}", 1),
            (Script::Marked, true) => ("\u{5E9}\u{5C2}\u{5B8}", 1),
        };
        Glyph { text, columns }
    }
}
