//! The values of the property Bidi_Class (UAX #9, 3.2).

ghost use Rattle.std.specs.Prelude.{◌≡◌};
ghost use Rattle.bx_ucd.specs.Class.{is_initiator, is_strong, is_neutral, is_unlettered, class_name, direction};

/// A bidirectional class, under its short name in the data files. The order of the formatting classes, LRE to PDI without another
/// between them, makes a test for them one range test (`bx_levels/src/resolve/uniform.rt`).
#[derive(Clone, Copy, PartialEq, Eq)]
pub enum Class {
    /// Left_To_Right
    L,
    /// Right_To_Left
    R,
    /// Arabic_Letter
    AL,
    /// European_Number
    EN,
    /// European_Separator
    ES,
    /// European_Terminator
    ET,
    /// Arabic_Number
    AN,
    /// Common_Separator
    CS,
    /// Nonspacing_Mark
    NSM,
    /// Boundary_Neutral
    BN,
    /// Paragraph_Separator
    B,
    /// Segment_Separator
    S,
    /// White_Space
    WS,
    /// Other_Neutral
    ON,
    /// Left_To_Right_Embedding
    LRE,
    /// Left_To_Right_Override
    LRO,
    /// Right_To_Left_Embedding
    RLE,
    /// Right_To_Left_Override
    RLO,
    /// Pop_Directional_Format
    PDF,
    /// Left_To_Right_Isolate
    LRI,
    /// Right_To_Left_Isolate
    RLI,
    /// First_Strong_Isolate
    FSI,
    /// Pop_Directional_Isolate
    PDI,
}

/// Whether the class is an isolate initiator: LRI, RLI or FSI (UAX #9, BD8).
pub fn is_initiator(class: Class) -> bool
    ensures { result ≡ is_initiator class }
{
    matches!(class, Class::LRI | Class::RLI | Class::FSI)
}

/// Whether the class is strong: L, R or AL (UAX #9, table 4).
pub fn is_strong(class: Class) -> bool
    ensures { result ≡ is_strong class }
{
    matches!(class, Class::L | Class::R | Class::AL)
}

/// Whether the class is one of combining marks (NSM), of joiners and control characters (BN), or of formatting characters, which
/// have no letter of their own.
#[inline(always)]
pub fn is_unlettered(class: Class) -> bool
    ensures { result ≡ is_unlettered class }
{
    match class {
        Class::NSM | Class::BN | Class::PDF | Class::PDI => true,
        Class::LRE | Class::RLE | Class::LRO | Class::RLO => true,
        Class::LRI | Class::RLI | Class::FSI => true,
        _ => false,
    }
}

/// Whether the class is neutral or an isolate formatting class, "NI" (UAX #9, N0 to N2).
pub fn is_neutral(class: Class) -> bool
    ensures { result ≡ is_neutral class }
{
    match class {
        Class::B | Class::S | Class::WS | Class::ON => true,
        Class::FSI | Class::LRI | Class::RLI | Class::PDI => true,
        _ => false,
    }
}

/// The direction of a level: L if it is even, R if odd (UAX #9, BD2).
pub fn direction(level: u8) -> Class
    ensures { result ≡ direction level }
{
    if level % 2 == 0 { Class::L } else { Class::R }
}

/// The short name of a class in the data files.
pub fn class_name(class: Class) -> &'static str
    ensures { result.now ≡ class_name class }
{
    match class {
        Class::L => "L",
        Class::R => "R",
        Class::AL => "AL",
        Class::EN => "EN",
        Class::ES => "ES",
        Class::ET => "ET",
        Class::AN => "AN",
        Class::CS => "CS",
        Class::NSM => "NSM",
        Class::BN => "BN",
        Class::B => "B",
        Class::S => "S",
        Class::WS => "WS",
        Class::ON => "ON",
        Class::LRE => "LRE",
        Class::LRO => "LRO",
        Class::RLE => "RLE",
        Class::RLO => "RLO",
        Class::PDF => "PDF",
        Class::LRI => "LRI",
        Class::RLI => "RLI",
        Class::FSI => "FSI",
        Class::PDI => "PDI",
    }
}
