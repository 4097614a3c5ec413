//! The bytes that wait within a paste.

ghost use Rattle.std.specs.Prelude.{◌≡◌};
ghost use Rattle.bx_input.specs.Paste.{pasted_part};
ghost use Rattle.bx_input.specs.PasteTail.{tail_bytes};

/// The beginnings of the paste's end (CSI 201~), and of a control character of C1 in UTF-8 (C2 and 80 to 9F).
#[derive(Clone, Copy)]
pub enum PasteTail {
    /// No byte waits.
    Nothing,
    /// The byte C2.
    Lead,
    /// ESC
    Escape,
    /// CSI, that is ESC [
    Csi,
    /// CSI 2
    Two,
    /// CSI 20
    Twenty,
    /// CSI 201
    TwoHundredOne,
}

impl PasteTail {
    /// These bytes as text, without ESC.
    pub fn text(self) -> &'static [u8]
        ensures { result.now ≡ pasted_part (tail_bytes self) }
    {
        match self {
            PasteTail::Nothing | PasteTail::Escape => b"",
            PasteTail::Lead => b"\xc2",
            PasteTail::Csi => b"[",
            PasteTail::Two => b"[2",
            PasteTail::Twenty => b"[20",
            PasteTail::TwoHundredOne => b"[201",
        }
    }
}
