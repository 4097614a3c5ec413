//! The rules W1 to N2, with buffers that later sequences reuse.
ghost use Rattle.std.specs.Prelude.{◌≡◌, OnOk, length, map};
ghost use Rattle.std.specs.List.{list_any};
ghost use Rattle.bx_ucd.specs.Class.{direction, is_nsm};
ghost use Rattle.bx_levels.specs.brackets.Pairs.{is_on};
ghost use Rattle.bx_levels.specs.brackets.Resolve.{resolve_pairs};
ghost use Rattle.bx_levels.specs.resolve.Weak.{weak};
ghost use Rattle.bx_levels.specs.resolve.Neutral.{n1, n2};

use crate::brackets::PairSearch;
use crate::resolve::neutral::n1_n2;
use crate::resolve::one_pass::weak_in_one_pass;
use bx_ucd::Class;
use bx_ucd::class::direction;
use std::alloc::{AllocError, Global};

/// The level of a sequence, and the types before its first character (sos) and after its last (eos), L or R (X10).
#[derive(Clone, Copy)]
pub struct Ends {
    pub level: u8,
    pub sos: Class,
    pub eos: Class,
}

/// Buffers of a sequence: the search for its bracket pairs, and what N0 needs beside that.
#[derive(Drop)]
pub struct Scratch {
    /// Of each character, whether it was an NSM before W1.
    pub nsms: Vec<bool>,
    pub search: PairSearch,
}

/// Nsms the types that are NSM.
#[tactic(auto, using(crate::proofs::resolve_lemmas::Mapped::mapped_more, crate::proofs::resolve_lemmas::Mapped::mapped_all))]
fn note_each_nsm(nsms: &mut [bool], types: &[Class])
    requires { length nsms.old ≡ length types.now }
    ensures { nsms.new ≡ map is_nsm types.now }
{
    for i in 0..types.len() {
        nsms[i] = matches!(types[i], Class::NSM);
    }
}

/// Notes for each type whether it is NSM. Capacity grows to the need, and by a quarter at least.
fn note_nsms(nsms: &mut Vec<bool>, types: &[Class]) -> Result<(), AllocError>
    ensures { OnOk result (nsms.new.items ≡ map is_nsm types.now) }
{
    nsms.clear();
    let room = nsms.capacity();
    if types.len() > room {
        nsms.reserve_exact(types.len().max(room.saturating_add(room / 4)))?;
    }
    nsms.resize(types.len(), false)?;
    note_each_nsm(nsms.as_mut_slice(), types);
    Ok(())
}

impl Scratch {
    /// Empty buffers.
    pub fn new(alloc: Global) -> Self {
        Scratch {
            nsms: Vec::new(alloc),
            search: PairSearch::new(alloc),
        }
    }

    /// Applies W1 to W7 in place, and records which types were NSM.
    pub fn resolve_weak(&mut self, types: &mut [Class], sos: Class) -> Result<(), AllocError>
        ensures types { OnOk result (types.new ≡ weak sos types.old) }
        ensures nsms { OnOk result (self.new.nsms.items ≡ map is_nsm types.old) }
    {
        note_nsms(&mut self.nsms, types)?;
        weak_in_one_pass(types, sos);
        Ok(())
    }

    /// Resolves the bracket pairs that the search found, in place (N0).
    pub fn resolve_brackets(&self, types: &mut [Class], ends: Ends)
        requires count { length types.old ≡ self.now.search.count }
        requires nsms { length self.now.nsms.items ≡ length types.old }
        ensures { types.new ≡ resolve_pairs (direction ends.level) ends.sos self.now.nsms.items self.now.search.progress.pairs types.old }
    {
        self.search.resolve(types, &self.nsms, ends.level, ends.sos);
    }
}

/// Whether any character may be a bracket: its type is ON.
pub fn may_have_brackets(types: &[Class]) -> bool
    ensures { result ≡ list_any is_on types.now }
{
    types.iter().any(|t| *t == Class::ON)
}

/// Applies N1 and N2 in place.
pub fn resolve_neutral(types: &mut [Class], ends: Ends)
    ensures { types.new ≡ n2 (direction ends.level) (n1 ends.sos ends.eos types.old) }
{
    n1_n2(types, ends.sos, ends.eos, direction(ends.level));
}
