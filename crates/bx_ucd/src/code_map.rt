//! A map from characters to values, for look-ups of each character of a text.

ghost use Rattle.std.specs.Prelude.{◌≡◌, ℕ, ◌%◌, cond, None, Some, IfOk, OnOk, length, slice_index_or, vec_len};
ghost use Rattle.std.specs.Option.{ForSome};
ghost use Rattle.std.proofs.Props.{props};
ghost use Rattle.std.specs.Ordering.{is_eq, nat_cmp};
ghost use Rattle.std.specs.BTreeMap.{get};

use std::alloc::{AllocError, Global};
use std::collections::BTreeMap;

/// The number of slots, a chosen one. Two characters share a slot if their codes differ by a multiple of this number; those below
/// U+2000 never share one with each other.
const SLOTS: usize = 8192;

/// The values of some characters. One look at a slot mostly gives the value, or rules out that there is one.
#[derive(Drop)]
pub struct CodeMap<V: Copy> {
    /// All characters with a value.
    each: BTreeMap<char, V>,
    /// For each remainder of codes by `SLOTS`, the last character with it that was inserted, and its value.
    slots: Vec<Option<(char, V)>>,
    ghost complete: { vec_len slots ≡ 8192 },
    ghost noted: { (code : ℕ) → slice_index_or slots.items (code % 8192) None ≡ None → get nat_cmp each code ≡ None },
    ghost kept: { (k : ℕ) → ForSome (slice_index_or slots.items k None) (λ s. (s.0 % 8192 ≡ k) × (get nat_cmp each s.0 ≡ Some s.1)) } by { Prim.hlevel props },
}

/// `count` slots without a character.
fn no_slots<V: Copy>(alloc: Global, count: usize) -> Result<Vec<Option<(char, V)>>, AllocError>
    ensures count { IfOk result (λ v. length v.items ≡ count) }
    ensures free { IfOk result (λ v. (k : ℕ) → slice_index_or v.items k None ≡ None) }
{
    vec![in alloc; None; count]
}

impl<V: Copy> CodeMap<V> {
    ghost use Rattle.bx_ucd.specs.CodeMap.{value_in};

    /// An empty map.
    pub fn new(alloc: Global) -> Result<CodeMap<V>, AllocError>
        ensures { IfOk result (λ m. (code : ℕ) → value_in m code ≡ None) }
    {
        Ok(CodeMap {
            each: BTreeMap::new(alloc),
            slots: no_slots(alloc, SLOTS)?,
        })
    }

    /// Sets a character's value, and replaces an earlier one.
    pub fn insert(&mut self, c: char, value: V) -> Result<(), AllocError>
        ensures { OnOk result ((code : ℕ) → value_in self.new code ≡ cond (is_eq (nat_cmp c code)) (Some value) (value_in self.old code)) }
    {
        self.each.insert(c, value)?;
        self.slots[c as usize % SLOTS] = Some((c, value));
        Ok(())
    }

    /// The value of a character, if it has one.
    pub fn get(&self, c: char) -> Option<V>
        ensures { result ≡ value_in self.now c }
    {
        let (found, value) = self.slots[c as usize % SLOTS]?;
        if found == c {
            return Some(value);
        }
        self.each.get(&c).copied()
    }
}
