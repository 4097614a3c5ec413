//! The types at the ends of an isolating run sequence (X10): sos before its first character, eos after its last.
ghost use Rattle.std.specs.Prelude.{◌≡◌, ◌<◌, ◌≤◌, length, reverse};
ghost use Rattle.bx_levels.specs.embedding.Sequences.{direction, level_of_first, start_class, level_after, end_class};

use crate::embedding::entry::{Explicit, ExplicitChar};
use crate::embedding::runs::Run;
use bx_ucd::Class;
use bx_ucd::class::{direction, is_initiator};

/// The level of the last kept character of a text, or the paragraph level if there is none.
#[tactic(auto, using(crate::proofs::embedding_lemmas::Nearest::before_more, crate::proofs::embedding_lemmas::Nearest::before_here))]
fn level_before(paragraph: u8, kept: &[Option<ExplicitChar>]) -> u8
    ensures { result ≡ level_of_first paragraph (reverse kept.now) }
{
    let mut k = kept.len();
    while k > 0 {
        k -= 1;
        if let Some(c) = kept[k] {
            return c.level;
        }
    }
    paragraph
}

/// The level of the first kept character of a text, or the paragraph level if there is none.
#[tactic(auto, using(crate::proofs::embedding_lemmas::Nearest::first_more, crate::proofs::embedding_lemmas::Nearest::first_here, crate::proofs::embedding_lemmas::Nearest::first_none))]
fn level_of_first(paragraph: u8, kept: &[Option<ExplicitChar>]) -> u8
    ensures { result ≡ level_of_first paragraph kept.now }
{
    for c in kept {
        if let Some(c) = *c {
            return c.level;
        }
    }
    paragraph
}

/// The type before a run that begins a sequence, sos (X10).
pub fn start_class(explicit: &Explicit, run: Run) -> Class
    requires { run.first ≤ length explicit.now.kept.items }
    ensures { result ≡ start_class explicit.now.level explicit.now.kept.items run }
{
    let before = level_before(explicit.level, &explicit.kept[..run.first]);
    direction(run.level.max(before))
}

/// The level after a run whose last character is at index `last` (X10); after an initiator it is the paragraph level.
fn level_after(explicit: &Explicit, last: usize) -> u8
    requires { last < length explicit.now.kept.items }
    ensures { result ≡ level_after explicit.now.level explicit.now.classes.items explicit.now.kept.items last }
{
    if is_initiator(explicit.classes[last]) {
        explicit.level
    } else {
        level_of_first(explicit.level, &explicit.kept[last + 1..])
    }
}

/// The type after a run that ends a sequence, eos (X10).
pub fn end_class(explicit: &Explicit, run: Run) -> Class
    requires { run.last < length explicit.now.kept.items }
    ensures { result ≡ end_class explicit.now.level explicit.now.classes.items explicit.now.kept.items run }
{
    direction(run.level.max(level_after(explicit, run.last)))
}
