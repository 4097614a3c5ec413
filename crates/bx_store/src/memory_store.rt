//! A store in memory. A test can have one of its calls fail, another program take a name, or change the text.
ghost use Rattle.std.specs.Prelude.{◌≡◌, ◌≤◌, ◌↔◌, ◌⊎◌, ◌||◌, true, [], None, Some, option_map, string_bytes, Err, IfErr, OnOk, OnErr, IsErr, IsSome};
ghost use Rattle.bx_store.specs.Stores.{LacksRoom, after_begin, after_begin_as, after_commit, after_failed_begin, after_failure, after_put, with_room};
ghost use Rattle.bx_store.specs.Stores.{cause_of_begin, cause_of_begin_as, cause_of_put, empty_memory, fails_next, fault, is_changed, is_taken, is_unanswered};
ghost use Rattle.bx_store.specs.Stores.{kept_at, renamed, with_draft_stored, with_taken, written_by_another};

use crate::cause::SaveCause;
use crate::change::Change;
use crate::faults::Faults;
use crate::kept::{Kept, has_name, is_among, is_at, text_at};
use crate::store::{Store, StoreFault};
use std::alloc::{AllocError, Global};
use std::marker::Model;
use std::mem;

/// A store that models its bytes. Calls of `begin`, `begin_over`, `begin_as`, `put` and `commit` are counted from 1, and the call
/// with the number `fail_call` fails. Otherwise a `begin` or a `begin_over` fails only if another program changed the text, a
/// `begin_as` only if something has the name or memory for it is missing, a `put` only where the draft's memory has no room for
/// its bytes and cannot grow, and a `commit` only if memory is missing for one more name.
#[derive(Drop)]
pub struct MemoryStore {
    /// The bytes of the last successful save, or what another program wrote over them.
    contents: Vec<u8>,
    /// The bytes put since the save began.
    draft: Vec<u8>,
    /// Whether a save is in progress.
    has_draft: bool,
    /// The name of the contents; None before the first save under a name.
    name: Option<String>,
    /// The new name of the save in progress.
    new_name: Option<String>,
    /// The texts under other names, and what was saved under none.
    elsewhere: Vec<Kept>,
    /// What another program did to the contents.
    change: Change,
    /// Number of calls so far, at most the greatest u64.
    calls: u64,
    /// The failed calls.
    failures: Faults,
    /// The number of the call that fails, from 1; None if none is to fail.
    fail_call: Option<u64>,
}

impl Model for MemoryStore {
    ghost use Rattle.std.specs.Prelude.{map, option_map, string_bytes, vec_capacity};
    ghost use Rattle.bx_store.specs.Kept.{kept_of};
    ghost use Rattle.bx_store.specs.Stores.{MemoryState};

    ghost Value = { MemoryState };

    ghost view = { λ s. record {
      contents = s.contents.items;
      draft = s.draft.items;
      room = vec_capacity s.draft;
      has_draft = s.has_draft;
      name = option_map string_bytes s.name;
      new_name = option_map string_bytes s.new_name;
      elsewhere = map kept_of s.elsewhere.items;
      change = s.change;
      calls = s.calls;
      faults = s.failures;
      fail_call = s.fail_call;
    } };
}

impl MemoryStore {
    /// An empty store.
    pub fn new(alloc: Global, fail_call: Option<u64>) -> Self
        ensures { result ≡ empty_memory fail_call }
    {
        MemoryStore {
            contents: Vec::new(alloc),
            draft: Vec::new(alloc),
            has_draft: false,
            name: None,
            new_name: None,
            elsewhere: Vec::new(alloc),
            change: Change::Unchanged,
            calls: 0,
            failures: Faults::none(),
            fail_call,
        }
    }

    /// The bytes of the last successful save, or what another program wrote over them; empty before both.
    pub fn contents(&self) -> &[u8]
        ensures { result.now ≡ self.now.contents }
    {
        &self.contents
    }

    /// What was saved under a name, or under none; None if nothing was.
    pub fn kept(&self, name: Option<&str>) -> Option<&[u8]>
        ensures { option_map (λ t. t.now) result ≡ kept_at (option_map (λ n. n.now) name.entry) self.now }
    {
        if is_at(name, &self.name) {
            return Some(self.contents.as_slice());
        }
        text_at(name, self.elsewhere.as_slice())
    }

    /// Another program takes a name.
    pub fn take_name(&mut self, name: &str) -> Result<(), AllocError>
        ensures taken { OnOk result (self.new ≡ with_taken name.now self.old) }
        ensures same { OnErr result (self.new ≡ self.old) }
    {
        self.elsewhere.reserve(1)?;
        let alloc = *self.elsewhere.allocator();
        let name = String::from_str(alloc, name)?;
        self.elsewhere.push_reserved(Kept {
            name: Some(name),
            text: Vec::new(alloc),
        });
        Ok(())
    }

    /// Another program writes over the contents.
    pub fn write_by_another(&mut self, bytes: &[u8]) -> Result<(), AllocError>
        ensures written { OnOk result (self.new ≡ written_by_another bytes.now self.old) }
        ensures same { OnErr result (self.new ≡ self.old) }
    {
        let mut contents = Vec::new(*self.contents.allocator());
        contents.extend_from_slice(bytes)?;
        self.contents = contents;
        self.change = Change::Unanswered;
        Ok(())
    }

    /// Whether something has this name.
    fn is_taken(&self, name: &str) -> bool
        ensures { result ≡ is_taken name.now self.now }
    {
        has_name(name, &self.name) || is_among(name, self.elsewhere.as_slice())
    }

    /// Begins a save, if nothing that other programs did is in the way.
    fn begin_if(&mut self, is_in_the_way: bool) -> Result<(), StoreFault>
        ensures ok { OnOk result (self.new ≡ after_begin self.old) }
        ensures err { IfErr result (λ fault. self.new ≡ after_failed_begin fault self.old) }
        ensures fails { IsErr result ↔ (fails_next self.old || is_in_the_way ≡ true) }
        ensures cause { OnErr result (result ≡ Err (fault (cause_of_begin self.old))) }
    {
        if self.fails_next() {
            return Err(self.fail(None));
        }
        if is_in_the_way {
            self.change = Change::Answered;
            return Err(self.fail(Some(SaveCause::Changed)));
        }
        self.draft.clear();
        self.has_draft = true;
        self.new_name = None;
        self.calls = self.calls.saturating_add(1);
        Ok(())
    }

    /// Keeps the contents under their name, and gives the next ones a new name.
    fn move_to(&mut self, name: String) -> Result<(), AllocError>
        ensures moved { OnOk result (self.new ≡ record (renamed (Some (string_bytes name)) self.old) { contents = [] }) }
        ensures same { OnErr result (self.new ≡ self.old) }
    {
        self.elsewhere.reserve(1)?;
        let empty = Vec::new(*self.contents.allocator());
        let name = mem::replace(&mut self.name, Some(name));
        let text = mem::replace(&mut self.contents, empty);
        self.elsewhere.push_reserved(Kept { name, text });
        Ok(())
    }

    /// Replaces the contents by the draft.
    fn store_draft(&mut self)
        ensures { self.new ≡ with_draft_stored self.old }
    {
        let empty = Vec::new(*self.draft.allocator());
        self.contents = mem::replace(&mut self.draft, empty);
        self.has_draft = false;
        self.change = Change::Unchanged;
        self.calls = self.calls.saturating_add(1);
    }

    /// Whether the next call fails.
    fn fails_next(&self) -> bool
        ensures { result ≡ fails_next self.now }
    {
        self.fail_call == Some(self.calls.saturating_add(1))
    }

    /// Counts a failed call and ends the save.
    fn fail(&mut self, cause: Option<SaveCause>) -> StoreFault
        ensures counted { self.new ≡ after_failure (fault cause) self.old }
        ensures told { result ≡ fault cause }
    {
        let fault = StoreFault { cause };
        self.has_draft = false;
        self.new_name = None;
        self.calls = self.calls.saturating_add(1);
        self.failures.add(fault);
        fault
    }
}

impl Store for MemoryStore {
    ghost use Rattle.std.specs.Prelude.{Some};

    ghost contents = { λ s. Some s.contents };

    ghost draft = { λ s. Some s.draft };

    ghost has_draft = { λ s. s.has_draft };

    ghost faults = { λ s. s.faults };

    fn begin(&mut self) -> Result<(), StoreFault>
        ensures ok { OnOk result (self.new ≡ after_begin self.old) }
        ensures err { IfErr result (λ fault. self.new ≡ after_failed_begin fault self.old) }
        ensures fails { IsErr result ↔ (fails_next self.old || is_changed self.old.change ≡ true) }
        ensures cause { OnErr result (result ≡ Err (fault (cause_of_begin self.old))) }
    {
        let is_changed = !matches!(self.change, Change::Unchanged);
        self.begin_if(is_changed)
    }

    fn begin_over(&mut self) -> Result<(), StoreFault>
        ensures ok { OnOk result (self.new ≡ after_begin self.old) }
        ensures err { IfErr result (λ fault. self.new ≡ after_failed_begin fault self.old) }
        ensures fails { IsErr result ↔ (fails_next self.old || is_unanswered self.old.change ≡ true) }
        ensures cause { OnErr result (result ≡ Err (fault (cause_of_begin self.old))) }
    {
        let is_unanswered = matches!(self.change, Change::Unanswered);
        self.begin_if(is_unanswered)
    }

    fn begin_as(&mut self, name: &str) -> Result<(), StoreFault>
        ensures ok { OnOk result (self.new ≡ after_begin_as name.now self.old) }
        ensures err { IfErr result (λ fault. self.new ≡ after_failure fault self.old) }
        ensures fails { fails_next self.old ≡ true → IsErr result }
        ensures taken { is_taken name.now self.old ≡ true → IsErr result }
        ensures cause { OnErr result (result ≡ Err (fault (cause_of_begin_as name.now self.old))) }
    {
        if self.fails_next() {
            return Err(self.fail(None));
        }
        if self.is_taken(name) {
            return Err(self.fail(Some(SaveCause::Exists)));
        }
        match String::from_str(*self.draft.allocator(), name) {
            Ok(name) => self.new_name = Some(name),
            Err(_) => return Err(self.fail(Some(SaveCause::OutOfMemory))),
        }
        self.draft.clear();
        self.has_draft = true;
        self.calls = self.calls.saturating_add(1);
        Ok(())
    }

    fn put(&mut self, bytes: &[u8]) -> Result<(), StoreFault>
        ensures ok { OnOk result (self.new ≡ with_room self.new.room (after_put bytes.now self.old)) }
        ensures err { IfErr result (λ fault. self.new ≡ with_room self.new.room (after_failure fault self.old)) }
        ensures room { self.old.room ≤ self.new.room }
        ensures fails { fails_next self.old ≡ true → IsErr result }
        ensures full { OnErr result ((fails_next self.old ≡ true) ⊎ LacksRoom bytes.now self.old) }
        ensures cause { OnErr result (result ≡ Err (fault (cause_of_put self.old))) }
    {
        if self.fails_next() {
            return Err(self.fail(None));
        }
        if self.draft.extend_from_slice(bytes).is_err() {
            return Err(self.fail(Some(SaveCause::OutOfMemory)));
        }
        self.calls = self.calls.saturating_add(1);
        Ok(())
    }

    fn commit(&mut self) -> Result<(), StoreFault>
        ensures ok { OnOk result (self.new ≡ after_commit self.old) }
        ensures err { IfErr result (λ fault. self.new ≡ after_failure fault self.old) }
        ensures fails { fails_next self.old ≡ true → IsErr result }
        ensures full { OnErr result ((fails_next self.old ≡ true) ⊎ IsSome self.old.new_name) }
        ensures cause { OnErr result (result ≡ Err (fault (cause_of_put self.old))) }
    {
        if self.fails_next() {
            return Err(self.fail(None));
        }
        match self.new_name.take() {
            None => {
                self.store_draft();
                Ok(())
            }
            Some(name) => match self.move_to(name) {
                Ok(()) => {
                    self.store_draft();
                    Ok(())
                }
                Err(_) => Err(self.fail(Some(SaveCause::OutOfMemory))),
            },
        }
    }

    fn failures(&self) -> u64 {
        self.failures.count
    }
}
