//! Laws of the isolating run sequences of every text, of the levels of a text of class L, and of the directions of all levels.
//! The functions do nothing: their contracts are the laws.

ghost use Rattle.bx_common.specs.declared.base.Base.TheVariants.{Auto, Ltr, Rtl};
ghost use Rattle.bx_levels.specs.resolve.Laws.{HaveEachOnce, LeftTextsHave, LettersKeepDirection, OverridesGiveDirection, TypesKeepDirection};

/// Each character that X9 keeps is in exactly one isolating run sequence (BD13); a removed character is in none.
pub fn each_in_one_sequence()
    ensures { HaveEachOnce }
{}

/// A text of class L alone has level 0 throughout, or level 2 in a right-to-left paragraph, whose level 1 I2 raises.
pub fn left_texts_are_flat()
    ensures auto { LeftTextsHave Auto 0 0 }
    ensures ltr { LeftTextsHave Ltr 0 0 }
    ensures rtl { LeftTextsHave Rtl 1 2 }
{}

/// Characters of class L, EN or AN have even levels, and characters of class R or AL odd ones, in any nesting and base direction.
/// Under an override all characters have levels of its direction.
pub fn letters_keep_direction()
    ensures types { TypesKeepDirection }
    ensures letters { LettersKeepDirection }
    ensures overrides { OverridesGiveDirection }
{}
