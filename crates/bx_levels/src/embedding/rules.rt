//! The explicit levels (X1 to X9).
ghost use Rattle.std.specs.Prelude.{◌≡◌, ◌≤◌, IfOk};
ghost use Rattle.bx_levels.specs.embedding.Explicit.{explicit_levels};

use crate::embedding::entry::{Explicit, ExplicitChar};
use crate::embedding::isolates::isolate_levels;
use crate::embedding::state::State;
use bx_common::OutOfMemory;
use bx_ucd::Class;
use std::alloc::{AllocError, Global};

/// The result for each character, `None` where X9 removes it; `level` is the paragraph level.
#[tactic(auto, using(crate::proofs::embedding_lemmas::Steps::levels_more, crate::proofs::embedding_lemmas::Steps::levels_all, crate::proofs::embedding_lemmas::Steps::total_next))]
fn kept_of(
    alloc: Global,
    classes: &[Class],
    level: u8,
) -> Result<Vec<Option<ExplicitChar>>, AllocError>
    requires { level ≤ 1 }
    ensures { IfOk result (λ v. v.items ≡ explicit_levels level classes.now) }
{
    let firsts = isolate_levels(alloc, classes)?;
    let mut state = State::new(level);
    let mut kept = Vec::with_capacity(alloc, classes.len())?;
    for (i, class) in classes.iter().enumerate() {
        kept.push(state.step(*class, firsts[i]))?;
    }
    Ok(kept)
}

/// The explicit levels of a paragraph body with paragraph level `level` (X1 to X9).
#[tactic(auto, using(crate::proofs::embedding_lemmas::Steps::levels_length, crate::proofs::embedding_lemmas::Bounds::levels_low))]
pub fn explicit(alloc: Global, classes: &[Class], level: u8) -> Result<Explicit, OutOfMemory>
    requires { level ≤ 1 }
    ensures classes { IfOk result (λ e. e.classes.items ≡ classes.now) }
    ensures kept { IfOk result (λ e. e.kept.items ≡ explicit_levels level classes.now) }
    ensures level { IfOk result (λ e. e.level ≡ level) }
{
    let kept = kept_of(alloc, classes, level)?;
    Ok(Explicit {
        classes: classes.to_vec(alloc)?,
        kept,
        level,
    })
}
