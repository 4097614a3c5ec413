//! The rules for neutral types (N1, N2) and implicit levels (I1, I2).
ghost use Rattle.std.specs.Prelude.{◌≡◌, ◌≤◌, ◌+◌, ◌||◌, All, IfOk, Some};
ghost use Rattle.bx_levels.specs.embedding.Stack.{max_depth};
ghost use Rattle.bx_levels.specs.resolve.Kept.{all_taken, max_level, taken};
ghost use Rattle.bx_levels.specs.resolve.Neutral.{agreed, implicit, implicit_at, n1, n2, rise_even, rise_odd, side, side_of};
ghost use Rattle.bx_levels.specs.resolve.Weak.{is_an, is_en};

use crate::resolve::paragraph::Level;
use bx_ucd::Class;
use bx_ucd::class::is_neutral;
use std::alloc::{AllocError, Global};

/// The direction that a type counts as beside neutrals: numbers count as R.
fn side_of(t: Class) -> Class
    ensures { result ≡ side_of t }
{
    match t {
        Class::L => Class::L,
        _ => Class::R,
    }
}

/// The direction of the first type that is not neutral, or `end`, which is sos or eos.
fn side(end: Class, types: &[Class]) -> Class
    ensures { result ≡ side end types.now }
{
    for t in types {
        if !is_neutral(*t) {
            return side_of(*t);
        }
    }
    end
}

/// The type of a neutral between two directions, by N1.
fn agreed(t: Class, before: Class, after: Class) -> Class
    ensures { result ≡ agreed t before after }
{
    match (before, after) {
        (Class::L, Class::L) => Class::L,
        (Class::R, Class::R) => Class::R,
        _ => t,
    }
}

/// N2: the remaining neutrals take the embedding direction.
pub fn n2(types: &mut [Class], embedding: Class)
    ensures { types.new ≡ n2 embedding types.old }
{
    for t in types.iter_mut() {
        if is_neutral(*t) {
            *t = embedding;
        }
    }
}

/// The type of a neutral between two directions by N1, and by N2 where `embedding` is given.
#[inline(always)]
fn neutral_at(t: Class, before: Class, after: Class, embedding: Option<Class>) -> Class
    ensures { result ≡ taken embedding (agreed t before after) }
{
    let agreed = agreed(t, before, after);
    match embedding {
        Some(embedding) => {
            if is_neutral(agreed) {
                embedding
            } else {
                agreed
            }
        }
        None => agreed,
    }
}

/// N1, and N2 in the same pass where `embedding` is given. Inlined, so that each caller's pass tests no `Option`.
#[inline(always)]
#[tactic(auto, using(crate::proofs::resolve_lemmas::Run::run_write, crate::proofs::resolve_lemmas::Run::run_keep, crate::proofs::resolve_lemmas::Fused::neutral_run, crate::proofs::resolve_lemmas::Run::side_more, crate::proofs::resolve_lemmas::Fused::keeps_other))]
fn resolve_neutrals(types: &mut [Class], sos: Class, eos: Class, embedding: Option<Class>)
    ensures { types.new ≡ all_taken embedding (n1 sos eos types.old) }
{
    // The direction before the run of neutrals, and the one behind it, which only the run's first neutral looks for.
    let mut before = sos;
    let mut known: Option<Class> = None;
    for i in 0..types.len() {
        let t = types[i];
        if is_neutral(t) {
            let after = match known {
                Some(after) => after,
                None => side(eos, &types[i + 1..]),
            };
            known = Some(after);
            types[i] = neutral_at(t, before, after, embedding);
        } else {
            before = side_of(t);
            known = None;
        }
    }
}

/// N1: neutrals between two equal directions take that direction.
pub fn n1(types: &mut [Class], sos: Class, eos: Class)
    ensures { types.new ≡ n1 sos eos types.old }
{
    resolve_neutrals(types, sos, eos, None);
}

/// N1 and N2 in one pass.
pub fn n1_n2(types: &mut [Class], sos: Class, eos: Class, embedding: Class)
    ensures { types.new ≡ n2 embedding (n1 sos eos types.old) }
{
    resolve_neutrals(types, sos, eos, Some(embedding));
}

/// Whether a type is EN or AN.
#[inline(always)]
fn is_en_or_an(t: Class) -> bool
    ensures { result ≡ (is_en t || is_an t) }
{
    let is_european = matches!(t, Class::EN);
    let is_arabic = matches!(t, Class::AN);
    is_european | is_arabic
}

/// How far a type raises an even level (I1). This and `rise_odd` have no branch, so that the loop over types vectorizes.
#[inline(always)]
fn rise_even(t: Class) -> u8
    ensures { result ≡ rise_even t }
{
    let is_right = matches!(t, Class::R);
    u8::from(is_right) + 2 * u8::from(is_en_or_an(t))
}

/// How far a type raises an odd level (I2).
#[inline(always)]
fn rise_odd(t: Class) -> u8
    ensures { result ≡ rise_odd t }
{
    let is_left = matches!(t, Class::L);
    u8::from(is_left | is_en_or_an(t))
}

/// I1 and I2: the level of a character of resolved type `t`, in a sequence at `level`.
#[inline(always)]
pub fn implicit_at(level: u8, t: Class) -> u8
    requires { level ≤ max_depth }
    ensures { result ≡ implicit_at level t }
{
    if level % 2 == 0 {
        level + rise_even(t)
    } else {
        level + rise_odd(t)
    }
}

/// `implicit_at`, as a `Level`.
#[inline(always)]
#[tactic(auto, using(crate::proofs::resolve_lemmas::KeptLevels::implicit_low))]
pub fn found_level(level: u8, t: Class) -> Level
    requires { level ≤ max_depth }
    ensures { result ≡ Some (implicit_at level t) }
{
    Level::of(implicit_at(level, t))
}

/// I1 and I2: the levels of the resolved types of a sequence at `level`.
pub fn implicit(alloc: Global, types: &[Class], level: u8) -> Result<Vec<u8>, AllocError>
    requires { level ≤ max_depth }
    ensures { IfOk result (λ v. v.items ≡ implicit level types.now) }
{
    types.iter().map(|t| implicit_at(level, *t)).collect(alloc)
}
