//! A walk over the isolating run sequences of a paragraph body, in the order in which they end (BD13).
ghost use Rattle.std.specs.Prelude.{◌≡◌, ◌<◌, ◌∷◌, [], ◌≤◌, All, OnErr, IfOk, length, true, false};
ghost use Rattle.bx_levels.specs.embedding.LevelIndexes.{indexes_from};
ghost use Rattle.bx_levels.specs.embedding.OpenChains.{others, newest_sequence};
ghost use Rattle.bx_levels.specs.embedding.Sequences.{sequences};
ghost use Rattle.bx_levels.specs.embedding.Stack.{max_depth};
ghost use Rattle.bx_levels.specs.embedding.Walk.{SequencesLeft, AreGiven, IsToCome, unlent, sequences_left, IsWalk};

use crate::embedding::entry::Explicit;
use crate::embedding::open_chains::OpenChains;
use crate::embedding::runs::{Run, next_run};
use bx_common::OutOfMemory;
use bx_ucd::Class;
use std::alloc::Global;
use std::marker::Model;

/// Takes runs until the newest chain ends; `run` is the next run, `None` after the last. False if no chain is left.
fn end_newest(
    explicit: &Explicit,
    chains: &mut OpenChains<'_>,
    run: &mut Option<Run>,
) -> Result<bool, OutOfMemory>
    requires own { chains.old.explicit ≡ explicit.now }
    requires run { IsToCome explicit.now.kept.items run.old }
    ensures own { chains.new.explicit ≡ explicit.now }
    ensures run { IsToCome explicit.now.kept.items run.new }
    ensures same { sequences_left explicit.now chains.new.chains run.new ≡ sequences_left explicit.now chains.old.chains run.old }
    ensures some { IfOk result (λ b. b ≡ true → 0 < length chains.new.chains) }
    ensures first { IfOk result (λ b. b ≡ true → sequences_left explicit.now chains.new.chains run.new
        ≡ newest_sequence chains.new ∷ sequences_left explicit.now (others chains.new.chains) run.new) }
    ensures none { IfOk result (λ b. b ≡ false → sequences_left explicit.now chains.new.chains run.new ≡ []) }
{
    while let Some(next) = *run {
        if chains.is_over(next) {
            return Ok(true);
        }
        chains.take(next)?;
        *run = next_run(&explicit.kept, next.last + 1);
    }
    Ok(!chains.is_empty())
}

/// A walk that lends the isolating run sequences of a paragraph body one after another, the sequences in an isolate before
/// the one around it. It keeps only the first index of each run.
#[derive(Drop)]
pub struct SequenceWalk<'e> {
    explicit: &'e Explicit,
    chains: OpenChains<'e>,
    /// The next level run; `None` after the last.
    run: Option<Run>,
    /// Whether the newest chain is lent, as a whole sequence. The next `advance` drops it.
    lent: bool,
}

// Contracts see the lent sequence and the sequences left.
impl<'e> Model for SequenceWalk<'e> {
    ghost Value = { SequencesLeft };

    ghost view = { λ w. record {
      explicit = w.explicit.now;
      has_current = w.lent;
      current = newest_sequence w.chains;
      left = sequences_left w.explicit.now (unlent w.lent w.chains.chains) w.run;
    } };

    ghost invariant = { λ w. IsWalk w.explicit.now w.chains w.run w.lent };
}

/// Drops the newest chain, if it is lent.
fn drop_lent(chains: &mut OpenChains<'_>, lent: bool)
    ensures explicit { chains.new.explicit ≡ chains.old.explicit }
    ensures chains { chains.new.chains ≡ unlent lent chains.old.chains }
{
    if lent {
        chains.drop_newest();
    }
}

impl<'e> SequenceWalk<'e> {
    /// Begins a walk, with no sequence lent.
    pub fn new(alloc: Global, explicit: &'e Explicit) -> Self
        ensures explicit { result.explicit ≡ explicit.now }
        ensures given { AreGiven result.left (sequences explicit.now.level explicit.now.classes.items explicit.now.kept.items) }
        ensures few { All (λ s. length s.indexes ≤ length explicit.now.kept.items) result.left }
    {
        SequenceWalk {
            explicit,
            chains: OpenChains::new(alloc, explicit),
            run: next_run(&explicit.kept, 0),
            lent: false,
        }
    }

    /// Lends the next sequence; false if none is left. After an error the same sequences are left.
    pub fn advance(&mut self) -> Result<bool, OutOfMemory>
        ensures explicit { self.new.explicit ≡ self.old.explicit }
        ensures lent { IfOk result (λ b. b ≡ self.new.has_current) }
        ensures next { IfOk result (λ b. b ≡ true → self.old.left ≡ self.new.current ∷ self.new.left) }
        ensures end { IfOk result (λ b. b ≡ false → self.old.left ≡ []) }
        ensures err { OnErr result (self.new.left ≡ self.old.left) }
    {
        drop_lent(&mut self.chains, self.lent);
        self.lent = false;
        self.lent = end_newest(self.explicit, &mut self.chains, &mut self.run)?;
        Ok(self.lent)
    }

    /// The level of the lent sequence.
    pub fn level(&self) -> u8
        requires { self.now.has_current ≡ true }
        ensures value { result ≡ self.now.current.level }
        ensures low { result ≤ max_depth }
    {
        self.chains.level()
    }

    /// The type before the lent sequence, L or R (X10).
    pub fn sos(&self) -> Class
        requires { self.now.has_current ≡ true }
        ensures { result ≡ self.now.current.sos }
    {
        self.chains.sos()
    }

    /// The type after the lent sequence, L or R (X10).
    pub fn eos(&self) -> Class
        requires { self.now.has_current ≡ true }
        ensures { result ≡ self.now.current.eos }
    {
        self.chains.eos()
    }

    /// The first index of each run of the lent sequence, in text order. A run has the kept characters from there on, up to the
    /// next one of another level.
    pub fn firsts(&self) -> &[usize]
        requires { self.now.has_current ≡ true }
        ensures { indexes_from self.now.current.level self.now.explicit.kept.items result.now ≡ self.now.current.indexes }
    {
        self.chains.firsts()
    }
}
