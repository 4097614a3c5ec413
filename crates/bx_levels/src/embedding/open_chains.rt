//! Open chains: chains of level runs (BD13) that a later run may join, while the runs are met in order. A chain that no run can
//! join any more is a whole isolating run sequence.
ghost use Rattle.std.specs.Prelude.{◌≡◌, ◌==◌, ◌<◌, ◌≤◌, ◌-◌, ◌++◌, [], ◌∷◌, OnOk, OnErr, length, reverse, take};
ghost use Rattle.bx_levels.specs.embedding.LevelIndexes.{indexes_from};
ghost use Rattle.bx_levels.specs.embedding.OpenChains.{run_at, is_over, with_run, others, OpenRuns, newest_sequence};
ghost use Rattle.bx_levels.specs.embedding.Stack.{max_depth};
ghost use Rattle.bx_levels.specs.embedding.StoredChains.{open_with, chains_of, AreOpen};

use crate::embedding::ends::{end_class, start_class};
use crate::embedding::entry::Explicit;
use crate::embedding::runs::{Run, make_room};
use bx_common::OutOfMemory;
use bx_ucd::Class;
use bx_ucd::class::is_initiator;
use std::alloc::{AllocError, Global};
use std::marker::Model;

/// An open chain.
#[derive(Clone, Copy)]
pub struct OpenChain {
    /// The level of all its runs.
    pub level: u8,
    /// The index of the last character of its newest run.
    pub last: usize,
    /// Where its runs begin in the list `firsts` of `OpenChains`.
    pub begin: usize,
}

/// The newest chain.
fn newest(chains: &[OpenChain]) -> OpenChain
    requires { 0 < length chains.now }
    ensures { reverse chains.now ≡ result ∷ reverse (take (length chains.now - 1) chains.now) }
{
    chains[chains.len() - 1]
}

/// Appends a run to the newest chain if that has its level, else pushes a new chain, whose runs begin at `begin` in `firsts`.
#[tactic(auto, using(crate::proofs::embedding_lemmas::LevelRuns::reverse_last, crate::proofs::embedding_lemmas::LevelRuns::reverse_set, crate::proofs::embedding_lemmas::LevelRuns::reverse_one))]
fn join_chain(chains: &mut Vec<OpenChain>, run: Run, begin: usize) -> Result<(), AllocError>
    ensures ok { OnOk result (reverse chains.new.items ≡ open_with run begin (reverse chains.old.items)) }
    ensures err { OnErr result (chains.new.items ≡ chains.old.items) }
{
    let n = chains.len();
    if n > 0 && run.level == chains[n - 1].level {
        let begin = chains[n - 1].begin;
        chains[n - 1] = OpenChain {
            level: run.level,
            last: run.last,
            begin,
        };
    } else {
        chains.push(OpenChain {
            level: run.level,
            last: run.last,
            begin,
        })?;
    }
    Ok(())
}

/// Takes a run: as `join_chain`, and appends the run's first index to `firsts`.
fn take_run(
    chains: &mut Vec<OpenChain>,
    firsts: &mut Vec<usize>,
    run: Run,
) -> Result<(), AllocError>
    ensures chains { OnOk result (reverse chains.new.items ≡ open_with run (length firsts.old.items) (reverse chains.old.items)) }
    ensures firsts { OnOk result (firsts.new.items ≡ firsts.old.items ++ run.first ∷ []) }
    ensures same_chains { OnErr result (chains.new.items ≡ chains.old.items) }
    ensures same_firsts { OnErr result (firsts.new.items ≡ firsts.old.items) }
{
    make_room(firsts)?;
    join_chain(chains, run, firsts.len())?;
    firsts.push(run.first)?;
    Ok(())
}

/// The open chains among the level runs met so far. Each run is kept as its first index.
#[derive(Drop)]
pub struct OpenChains<'e> {
    explicit: &'e Explicit,
    /// The index of the first character of each run of all chains, the oldest first.
    firsts: Vec<usize>,
    /// The oldest first. The newest chain has the last runs of `firsts`.
    chains: Vec<OpenChain>,
}

// Contracts see the chains, the newest first, each with its newest run first.
impl<'e> Model for OpenChains<'e> {
    ghost Value = { OpenRuns };

    ghost view = { λ c. record { explicit = c.explicit.now; chains = chains_of c.explicit.now.kept.items (reverse c.chains.items) c.firsts.items } };

    ghost invariant = { λ c. AreOpen c.explicit.now.kept.items (reverse c.chains.items) c.firsts.items };
}

impl<'e> OpenChains<'e> {
    /// No chain yet.
    pub fn new(alloc: Global, explicit: &'e Explicit) -> Self
        ensures explicit { result.explicit ≡ explicit.now }
        ensures none { result.chains ≡ [] }
    {
        OpenChains {
            explicit,
            firsts: Vec::new(alloc),
            chains: Vec::new(alloc),
        }
    }

    /// Whether no chain is open.
    pub fn is_empty(&self) -> bool
        ensures { result ≡ (length self.now.chains == 0) }
    {
        self.chains.is_empty()
    }

    /// Whether the newest chain ends before a run: its level is higher, or it does not end in an isolate initiator.
    pub fn is_over(&self, run: Run) -> bool
        ensures { result ≡ is_over self.now.explicit.classes.items self.now.chains run }
    {
        if self.chains.is_empty() {
            return false;
        }
        let newest = newest(&self.chains);
        run.level < newest.level || !is_initiator(self.explicit.classes[newest.last])
    }

    /// Takes the next run, before which the newest chain must not end: the run joins that chain if they have the same level,
    /// else it begins a chain.
    pub fn take(&mut self, run: Run) -> Result<(), OutOfMemory>
        requires own { run ≡ run_at self.old.explicit.kept.items run.first }
        requires within { run.first < length self.old.explicit.kept.items }
        ensures explicit { self.new.explicit ≡ self.old.explicit }
        ensures chains { OnOk result (self.new.chains ≡ with_run self.old.chains run) }
        ensures err { OnErr result (self.new ≡ self.old) }
    {
        take_run(&mut self.chains, &mut self.firsts, run)?;
        Ok(())
    }

    /// Drops the newest chain, if there is one.
    pub fn drop_newest(&mut self)
        ensures explicit { self.new.explicit ≡ self.old.explicit }
        ensures chains { self.new.chains ≡ others self.old.chains }
    {
        if let Some(newest) = self.chains.pop() {
            self.firsts.truncate(newest.begin);
        }
    }

    /// The level of the newest chain.
    pub fn level(&self) -> u8
        requires { 0 < length self.now.chains }
        ensures value { result ≡ (newest_sequence self.now).level }
        ensures low { result ≤ max_depth }
    {
        newest(&self.chains).level
    }

    /// The type before the newest chain, sos, L or R (X10).
    pub fn sos(&self) -> Class
        requires { 0 < length self.now.chains }
        ensures { result ≡ (newest_sequence self.now).sos }
    {
        let newest = newest(&self.chains);
        let run = Run {
            level: newest.level,
            first: self.firsts[newest.begin],
            last: newest.last,
        };
        start_class(self.explicit, run)
    }

    /// The type after the newest chain, eos, L or R (X10).
    pub fn eos(&self) -> Class
        requires { 0 < length self.now.chains }
        ensures { result ≡ (newest_sequence self.now).eos }
    {
        let newest = newest(&self.chains);
        let run = Run {
            level: newest.level,
            first: self.firsts[self.firsts.len() - 1],
            last: newest.last,
        };
        end_class(self.explicit, run)
    }

    /// The first index of each run of the newest chain, in text order.
    pub fn firsts(&self) -> &[usize]
        requires { 0 < length self.now.chains }
        ensures { indexes_from (newest_sequence self.now).level self.now.explicit.kept.items result.now ≡ (newest_sequence self.now).indexes }
    {
        let newest = newest(&self.chains);
        &self.firsts[newest.begin..]
    }
}
