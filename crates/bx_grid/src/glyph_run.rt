//! A run of text in one rendition, measured, to be put into columns.

ghost use Rattle.std.specs.Prelude.{◌≡◌};
ghost use Rattle.bx_common.specs.Glyphs.{run_width};

/// A run of text in one rendition, and its width in columns.
#[derive(Clone, Copy)]
pub struct GlyphRun<'t> {
    /// Characters from SPACE to TILDE, a glyph each, or the text of one glyph.
    pub text: &'t str,
    /// The number of columns.
    pub width: u16,
    /// Whether it is in negative image.
    pub negative: bool,
    pub ghost measured: { width ≡ run_width text.now },
}
