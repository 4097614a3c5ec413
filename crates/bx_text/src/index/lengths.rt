//! The lengths of a paragraph, all that the index keeps of it.

ghost use Rattle.std.specs.Prelude.{◌≡◌};
ghost use Rattle.bx_text.specs.index.Paragraphs.{bytes_of};

/// The lengths of a paragraph, in bytes.
#[derive(Clone, Copy)]
pub struct Lengths {
    /// Length of its body.
    pub body: u32,
    /// Length of the separator that ends it, 0 in the last paragraph.
    pub separator: u32,
}

impl Lengths {
    /// Length of the paragraph with its separator.
    pub fn bytes(self) -> usize
        ensures { result ≡ bytes_of self }
    {
        self.body as usize + self.separator as usize
    }
}
