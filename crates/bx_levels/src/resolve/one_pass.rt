//! The rules for weak types (W1 to W7) in one pass over a sequence.
ghost use Rattle.std.specs.Prelude.{◌≡◌};
ghost use Rattle.bx_levels.specs.resolve.Weak.{weak};

use crate::resolve::before::{Before, is_settled};
use bx_ucd::Class;

/// W1 to W7 in one pass. An inner loop passes over settled types. EN has a branch of its own, so that its inlined call of `take`
/// is compiled for this type alone.
#[tactic(auto, using(crate::proofs::resolve_lemmas::Fused::go_write, crate::proofs::resolve_lemmas::Fused::weak_run, crate::proofs::resolve_lemmas::Fused::settled_keep))]
pub fn weak_in_one_pass(types: &mut [Class], sos: Class)
    ensures { types.new ≡ weak sos types.old }
{
    let mut before = Before::new(sos);
    let mut i = 0;
    // Both loops go by `i`: their labels tell them apart in the proof.
    'types: while i < types.len() {
        let whole: &[Class] = &types[..];
        let t = whole[i];
        if is_settled(t) {
            'settled: while i < types.len() && is_settled(types[i]) {
                before.pass(types[i]);
                i += 1;
            }
        } else if t == Class::EN {
            types[i] = before.take(Class::EN, &whole[i + 1..]);
            i += 1;
        } else {
            types[i] = before.take(t, &whole[i + 1..]);
            i += 1;
        }
    }
}
