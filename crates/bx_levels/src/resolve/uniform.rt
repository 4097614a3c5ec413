//! Tests of classes, by which `levels` finds that a text has one level throughout, or no formatting character, and needs fewer rules.
ghost use Rattle.std.specs.Prelude.{◌≡◌};
ghost use Rattle.bx_levels.specs.resolve.Uniform.{is_plain, is_plain_right, is_from_right, is_unformatted, all_pass};

use bx_ucd::Class;

/// Whether a class keeps level 0 in a left-to-right text of such classes.
fn is_plain(class: Class) -> bool
    ensures { result ≡ is_plain class }
{
    match class {
        Class::L | Class::EN | Class::ES | Class::ET | Class::CS => true,
        Class::NSM | Class::B | Class::S | Class::WS | Class::ON => true,
        _ => false,
    }
}

/// Whether a class keeps level 1 in a right-to-left text of such classes.
fn is_plain_right(class: Class) -> bool
    ensures { result ≡ is_plain_right class }
{
    match class {
        Class::R | Class::AL | Class::ES | Class::ET | Class::CS => true,
        Class::NSM | Class::B | Class::S | Class::WS | Class::ON => true,
        _ => false,
    }
}

/// Whether a class is none of L, BN and the formatting classes.
fn is_from_right(class: Class) -> bool
    ensures { result ≡ is_from_right class }
{
    match class {
        Class::R | Class::AL | Class::EN | Class::AN => true,
        Class::ES | Class::ET | Class::CS => true,
        Class::NSM | Class::B | Class::S | Class::WS | Class::ON => true,
        _ => false,
    }
}

/// Whether no explicit rule applies to a class. BN is apart from the formatting classes in `Class`, so two `matches!` are each one
/// range test, and the loop over classes vectorizes.
fn is_unformatted(class: Class) -> bool
    ensures { result ≡ is_unformatted class }
{
    let is_boundary = matches!(class, Class::BN);
    let is_formatting = matches!(
        class,
        Class::LRE
            | Class::LRO
            | Class::RLE
            | Class::RLO
            | Class::PDF
            | Class::LRI
            | Class::RLI
            | Class::FSI
            | Class::PDI
    );
    !(is_boundary | is_formatting)
}

/// Whether all classes are plain, so that a left-to-right text of them has level 0 throughout.
#[tactic(auto, using(crate::proofs::resolve_lemmas::PlainLevels::pass_more, crate::proofs::resolve_lemmas::PlainLevels::pass_stop, crate::proofs::resolve_lemmas::PlainLevels::pass_all))]
pub fn are_plain(classes: &[Class]) -> bool
    ensures { result ≡ all_pass is_plain classes.now }
{
    for class in classes {
        if !is_plain(*class) {
            return false;
        }
    }
    true
}

/// Whether all classes are plain right to left, so that a right-to-left text of them has level 1 throughout.
#[tactic(auto, using(crate::proofs::resolve_lemmas::PlainLevels::pass_more, crate::proofs::resolve_lemmas::PlainLevels::pass_stop, crate::proofs::resolve_lemmas::PlainLevels::pass_all))]
pub fn are_plain_right(classes: &[Class]) -> bool
    ensures { result ≡ all_pass is_plain_right classes.now }
{
    for class in classes {
        if !is_plain_right(*class) {
            return false;
        }
    }
    true
}

/// Whether no class is L, BN or a formatting class.
#[tactic(auto, using(crate::proofs::resolve_lemmas::PlainLevels::pass_more, crate::proofs::resolve_lemmas::PlainLevels::pass_stop, crate::proofs::resolve_lemmas::PlainLevels::pass_all))]
pub fn are_from_right(classes: &[Class]) -> bool
    ensures { result ≡ all_pass is_from_right classes.now }
{
    for class in classes {
        if !is_from_right(*class) {
            return false;
        }
    }
    true
}

/// Whether no explicit rule applies to any of the classes. The scan does not stop early, since most texts pass.
#[tactic(auto, using(crate::proofs::resolve_lemmas::PlainLevels::both_pass, crate::proofs::resolve_lemmas::PlainLevels::pass_all))]
pub fn are_unformatted(classes: &[Class]) -> bool
    ensures { result ≡ all_pass is_unformatted classes.now }
{
    let mut all = true;
    for class in classes {
        all &= is_unformatted(*class);
    }
    all
}
