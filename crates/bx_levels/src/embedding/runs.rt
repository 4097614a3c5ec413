//! Level runs (BD7).
ghost use Rattle.std.specs.Prelude.{◌≡◌, ◌+◌, ◌<◌, ◌≤◌, IfOk, IfNone, IfSome, OnOk, OnErr, All, [], ◌∷◌, drop, length, reverse, Some, slice_index_or, vec_len};
ghost use Rattle.std.specs.Prelude.{vec_capacity};
ghost use Rattle.bx_levels.specs.embedding.CharLevel.{HasLevel};
ghost use Rattle.bx_levels.specs.embedding.OpenChains.{run_at};
ghost use Rattle.bx_levels.specs.embedding.Sequences.{join_run, run, runs_from};
ghost use Rattle.bx_levels.specs.embedding.Walk.{IsRunWithin};

use crate::embedding::entry::ExplicitChar;
use std::alloc::AllocError;

/// A level run: the kept characters from index `first` to `last`, both included. Characters that X9 removes may be between them.
#[derive(Clone, Copy)]
pub struct Run {
    pub level: u8,
    pub first: usize,
    pub last: usize,
}

/// Reserves room for one more item, where there is one per run. Capacity grows by a quarter and 8, not by doubling, since a text
/// may have a run every few characters.
pub fn make_room<T>(items: &mut Vec<T>) -> Result<(), AllocError>
    ensures same { items.new.items ≡ items.old.items }
    ensures len { vec_len items.new ≡ vec_len items.old }
    ensures room { OnOk result (vec_len items.new < vec_capacity items.new) }
{
    let count = items.len();
    if count >= items.capacity() {
        items.reserve_exact(count / 4 + 8)?;
    }
    Ok(())
}

/// The index of the last character of the run of `level` that begins at index `first`.
#[tactic(auto, using(crate::proofs::embedding_lemmas::RunsAt::begins_at, crate::proofs::embedding_lemmas::RunsAt::goes_on, crate::proofs::embedding_lemmas::RunsAt::ends_before, crate::proofs::embedding_lemmas::RunsAt::ends_last, crate::proofs::embedding_lemmas::LevelRuns::runs_none))]
fn last_of_run(kept: &[Option<ExplicitChar>], first: usize, level: u8) -> usize
    requires within { first < length kept.now }
    requires kept { HasLevel level (slice_index_or kept.now first None) }
    ensures run { runs_from first (drop first kept.now) ≡ run level first result ∷ runs_from (result + 1) (drop (result + 1) kept.now) }
    ensures ordered { first ≤ result }
    ensures within { result < length kept.now }
{
    let mut last = first;
    let mut k = first + 1;
    while k < kept.len() {
        if let Some(c) = kept[k] {
            if c.level != level {
                return last;
            }
            last = k;
        }
        k += 1;
    }
    last
}

/// The first level run at or after index `from`; `None` if no kept character is there.
#[tactic(auto, using(crate::proofs::embedding_lemmas::LevelRuns::runs_none, crate::proofs::embedding_lemmas::RunsAt::no_more, crate::proofs::embedding_lemmas::RunsAt::level_of_some))]
pub fn next_run(kept: &[Option<ExplicitChar>], from: usize) -> Option<Run>
    requires { from ≤ length kept.now }
    ensures none { IfNone result (runs_from from (drop from kept.now) ≡ []) }
    ensures some { IfSome result (λ r. runs_from from (drop from kept.now) ≡ r ∷ runs_from (r.last + 1) (drop (r.last + 1) kept.now)) }
    ensures within { IfSome result (IsRunWithin from (length kept.now)) }
    ensures own { IfSome result (λ r. r ≡ run_at kept.now r.first) }
{
    let mut first = from;
    while first < kept.len() {
        if let Some(c) = kept[first] {
            let last = last_of_run(kept, first, c.level);
            return Some(Run {
                level: c.level,
                first,
                last,
            });
        }
        first += 1;
    }
    None
}
