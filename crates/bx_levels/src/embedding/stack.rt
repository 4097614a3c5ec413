//! The directional status stack (X1).
ghost use Rattle.std.specs.Prelude.{◌≡◌, ℕ, ◌<◌, ◌≤◌, List, [], ◌∷◌, reverse, length, false};
ghost use Rattle.bx_levels.specs.declared.embedding.entry.Entry.{Entry};
ghost use Rattle.bx_levels.specs.embedding.Stack.{after_embedding, after_isolate, entry, max_depth, top_of};
ghost use Rattle.bx_levels.specs.embedding.StackCalls.{IsRising, first_of, rest_of, stack_room};

use crate::embedding::entry::{Entry, Override};
use arrayvec::ArrayVec;
use std::marker::Model;

/// The greatest explicit level (BD2).
pub const MAX_DEPTH: u8 = 125;

/// The capacity of the stack: `max_depth` + 2 entries (X1).
const STACK_ROOM: usize = 127;

/// The directional status stack, each entry of a higher level than the one before.
#[derive(Drop)]
pub struct EntryStack {
    entries: ArrayVec<Entry, STACK_ROOM>,
}

// Contracts see the entries, the last one first.
impl Model for EntryStack {
    ghost Value = { List Entry };

    ghost view = { λ s. reverse s.entries.items };

    ghost invariant = { λ s. IsRising (reverse s.entries.items) };
}

impl EntryStack {
    /// A stack of one entry at `level`.
    pub fn new(level: u8) -> Self
        requires { level ≤ max_depth }
        ensures { result ≡ entry level Override.Neutral false ∷ [] }
    {
        let mut entries = ArrayVec::new();
        entries.push(Entry {
            level,
            forced: Override::Neutral,
            isolate: false,
        });
        EntryStack { entries }
    }

    /// The number of entries.
    pub fn len(&self) -> usize
        ensures value { result ≡ length self.now }
        ensures few { result ≤ stack_room }
    {
        self.entries.len()
    }

    /// The last entry.
    pub fn top(&self) -> Entry
        ensures value { result ≡ top_of self.now }
        ensures low { result.level ≤ max_depth }
    {
        match self.entries.as_slice() {
            [] => Entry {
                level: 0,
                forced: Override::Neutral,
                isolate: false,
            },
            [.., last] => *last,
        }
    }

    /// Pushes an entry, whose level must be higher than the last one's.
    pub fn push(&mut self, entry: Entry)
        requires low { entry.level ≤ max_depth }
        requires above { (top_of self.old).level < entry.level }
        ensures { self.new ≡ entry ∷ self.old }
    {
        self.entries.push(entry);
    }

    /// Pops the last entry.
    pub fn pop(&mut self) -> Option<Entry>
        ensures first { result ≡ first_of self.old }
        ensures rest { self.new ≡ rest_of self.old }
    {
        self.entries.pop()
    }

    /// Pops entries through the last isolate (X6a).
    pub fn end_isolate(&mut self)
        ensures { self.new ≡ after_isolate self.old }
    {
        while let Some(entry) = self.pop() {
            if entry.isolate {
                return;
            }
        }
    }

    /// Pops the last entry, unless it is an isolate or the only one (X7).
    pub fn end_embedding(&mut self)
        ensures { self.new ≡ after_embedding self.old }
    {
        if self.len() >= 2 && !self.top().isolate {
            self.pop();
        }
    }
}
