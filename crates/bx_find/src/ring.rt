//! The places of the letters that a search has read as the beginning of a query (`prefix.rt`): a queue in a ring.
ghost use Rattle.std.specs.Prelude.{◌≡◌, ◌≤◌, ◌<◌, ◌-◌, ◌++◌, ◌∷◌, [], None, get_or, length, drop};

use std::marker::Model;

/// The greatest number of places: the greatest number of letters of a query (`ROOM` of `query.rt`).
const ROOM: usize = 256;

/// A queue of places in a ring of slots. A place is the offset, in bytes of the text, of the character whose first letter it is
/// of; a character's later letters have None. Slots and places are not those of a row here.
#[derive(Drop)]
pub struct Ring {
    slots: [Option<usize>; ROOM],
    // the number of the slot, from 0, that has the oldest place
    first: usize,
    // the number of places
    count: usize,
}

// Contracts see the places, the oldest first.
impl Model for Ring {
    ghost use Rattle.std.specs.Prelude.{ℕ, ◌<◌, ◌≤◌, List, Option};
    ghost use Rattle.bx_find.specs.Ring.{window};

    ghost Value = { List (Option ℕ) };

    ghost view = { λ r. window r.first r.count r.slots };

    ghost invariant = { λ r. (r.first < 256) × (r.count ≤ 256) };
}

impl Ring {
    /// An empty queue.
    pub fn new() -> Ring
        ensures { result ≡ [] }
    {
        Ring {
            slots: [None; ROOM],
            first: 0,
            count: 0,
        }
    }

    /// The number of places.
    #[inline(always)]
    pub fn len(&self) -> usize
        ensures { result ≡ length self.now }
    {
        self.count
    }

    /// Appends a place.
    #[inline(always)]
    pub fn push(&mut self, place: Option<usize>)
        requires { length self.old < 256 }
        ensures { self.new ≡ self.old ++ place ∷ [] }
    {
        self.slots[(self.first + self.count) % ROOM] = place;
        self.count += 1;
    }

    /// The oldest place.
    pub fn oldest(&self) -> Option<usize>
        requires { 0 < length self.now }
        ensures { result ≡ get_or self.now 0 None }
    {
        self.slots[self.first]
    }

    /// Drops all but the newest `count` places.
    #[inline(always)]
    pub fn keep_newest(&mut self, count: usize)
        requires { count ≤ length self.old }
        ensures { self.new ≡ drop (length self.old - count) self.old }
    {
        self.first = (self.first + (self.count - count)) % ROOM;
        self.count = count;
    }
}
