//! The properties of characters that the crates above look up, for the bidirectional algorithm and for joined letters.

ghost use Rattle.std.specs.Prelude.{◌≡◌, ℕ, IfSome, false};
ghost use Rattle.bx_ucd.specs.Control.{is_control};
ghost use Rattle.bx_ucd.specs.Data.{Data};
ghost use Rattle.bx_ucd.specs.declared.joining.Form.{Form};

use crate::class::Class;
use crate::joining::{Form, Joining};

/// The side of a paired bracket (the property Bidi_Paired_Bracket_Type).
#[derive(Clone, Copy)]
pub enum Side {
    /// `o` in the file, as `(`.
    Opener,
    /// `c` in the file, as `)`.
    Closer,
}

/// Unicode's properties of a character.
pub trait BidiData {
    ghost data: { Self → Data };

    /// The character's class (the property Bidi_Class).
    fn class(&self, c: char) -> Class
        ensures { result ≡ («data» self.now).class c };

    /// A bracket's side and its counterpart (the properties Bidi_Paired_Bracket_Type and Bidi_Paired_Bracket); `None` for
    /// any other character.
    fn bracket(&self, c: char) -> Option<(Side, char)>
        ensures { result ≡ («data» self.now).bracket c };

    /// The character whose glyph is the mirror image (the property Bidi_Mirroring_Glyph), if any.
    fn mirror(&self, c: char) -> Option<char>
        ensures { result ≡ («data» self.now).mirror c };

    /// The joining type that counts for the character (the property Joining_Type): U in place of R, L and D if it has no form.
    fn joining(&self, c: char) -> Joining
        ensures { result ≡ («data» self.now).joining c };

    /// The character that is this form of a letter, if there is one.
    fn form(&self, c: char, form: Form) -> Option<char>
        ensures { result ≡ («data» self.now).form c form };

    // A law: no mirror is a control character.
    ghost no_mirror_is_control: { (source : Self) (code : ℕ) → IfSome ((«data» source).mirror code) (λ m. is_control m ≡ false) };

    // A law: no form is a control character.
    ghost no_form_is_control: { (source : Self) (code : ℕ) (form : Form) → IfSome ((«data» source).form code form) (λ m. is_control m ≡ false) };
}
