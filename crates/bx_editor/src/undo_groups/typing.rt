//! What the next edit may go on with, so that both are of one group.

ghost use Rattle.std.specs.Prelude.{◌≡◌};
ghost use Rattle.bx_editor.specs.undo_groups.Groups.{after_insertion, after_removal, goes_on, goes_on_removing, kind_of};

use bx_ucd::Class;

/// What the next edit may go on with, as the latest key and edit left it.
#[derive(Clone, Copy)]
pub enum Typing {
    /// Nothing: the next edit begins a group.
    Off,
    /// A letter: letters and blanks go on with it.
    Word,
    /// A blank, maybe after a word: blanks go on with it, and a letter begins a group.
    Blanks,
    /// Characters erased backward.
    Erasing,
    /// Characters deleted forward.
    Deleting,
    /// A paste is being read.
    Paste,
    /// A paste into an input line is being read, and a line end of it came: what is left of it does nothing.
    Spent,
}

/// Kinds of characters that are put in.
#[derive(Clone, Copy)]
pub enum Kind {
    /// A separator of paragraphs: class B.
    Separator,
    /// A blank: class WS or S.
    Blank,
    /// A character of any other class.
    Letter,
}

impl Kind {
    /// The kind of the characters of a class.
    pub fn of(class: Class) -> Kind
        ensures { result ≡ kind_of class }
    {
        match class {
            Class::B => Kind::Separator,
            Class::WS | Class::S => Kind::Blank,
            _ => Kind::Letter,
        }
    }

    /// What the next edit may go on with after an insertion of a character of this kind.
    pub fn typing(self) -> Typing
        ensures { result ≡ after_insertion self }
    {
        match self {
            Kind::Separator => Typing::Off,
            Kind::Blank => Typing::Blanks,
            Kind::Letter => Typing::Word,
        }
    }
}

/// The two ways to remove a character.
#[derive(Clone, Copy)]
pub enum Removal {
    /// Removes the text before the cursor.
    Erase,
    /// Removes the text after the cursor.
    Delete,
}

impl Removal {
    /// What the next edit may go on with after such a removal.
    pub fn typing(self) -> Typing
        ensures { result ≡ after_removal self }
    {
        match self {
            Removal::Erase => Typing::Erasing,
            Removal::Delete => Typing::Deleting,
        }
    }
}

impl Typing {
    /// Whether an insertion of a character of this kind goes on with the group before.
    pub fn goes_on(self, kind: Kind) -> bool
        ensures { result ≡ goes_on self kind }
    {
        match self {
            Typing::Word => kind != Kind::Separator,
            Typing::Blanks => kind == Kind::Blank,
            _ => false,
        }
    }

    /// Whether a removal goes on with the group before.
    pub fn goes_on_removing(self, removal: Removal) -> bool
        ensures { result ≡ goes_on_removing self removal }
    {
        self == removal.typing()
    }
}
