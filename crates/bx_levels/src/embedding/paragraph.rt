//! The paragraph level (P2, P3, HL1).
ghost use Rattle.std.specs.Prelude.{◌≡◌, ◌<◌, ◌≤◌};
ghost use Rattle.bx_levels.specs.embedding.ParagraphLevel.{base_level, count_after, level_of_strong, paragraph_level};

use bx_common::Base;
use bx_ucd::Class;

/// The number of open isolates after a character, given the number before it.
fn count_after(isolates: usize, class: Class) -> usize
    requires { isolates < usize.MAX }
    ensures { result ≡ count_after isolates class }
{
    match class {
        Class::LRI | Class::RLI | Class::FSI => isolates + 1,
        Class::PDI => isolates.saturating_sub(1),
        _ => isolates,
    }
}

/// The level of a paragraph whose first strong class is `class` (P3).
fn level_of_strong(class: Class) -> u8
    ensures value { result ≡ level_of_strong class }
    ensures low { result ≤ 1 }
{
    match class {
        Class::R | Class::AL => 1,
        _ => 0,
    }
}

/// The paragraph level, 0 or 1, by the first strong class outside isolates (P2, P3).
#[tactic(auto, using(crate::proofs::embedding_lemmas::Scan::scan_more, crate::proofs::embedding_lemmas::Scan::scan_here, crate::proofs::embedding_lemmas::Scan::scan_all, crate::proofs::embedding_lemmas::Scan::count_after_le))]
pub fn paragraph_level(classes: &[Class]) -> u8
    ensures value { result ≡ paragraph_level classes.now }
    ensures low { result ≤ 1 }
{
    let mut isolates: usize = 0;
    for class in classes {
        if isolates == 0 && bx_ucd::class::is_strong(*class) {
            return level_of_strong(*class);
        }
        isolates = count_after(isolates, *class);
    }
    0
}

/// The paragraph level under a base direction: found from the text, or given (HL1).
pub fn base_level(classes: &[Class], base: Base) -> u8
    ensures value { result ≡ base_level base classes.now }
    ensures low { result ≤ 1 }
{
    match base {
        Base::Auto => paragraph_level(classes),
        Base::Ltr => 0,
        Base::Rtl => 1,
    }
}
