//! A store that the host keeps: saves go to its saver as frames.
ghost use Rattle.std.specs.Prelude.{◌≡◌, ◌≤◌, ◌<◌, ◌+◌, ◌++◌, ◌&&◌, ◌⊎◌, [], ◌∷◌, true, false, length, option_map, IfErr, IfOk, OnOk, OnErr};
ghost use Rattle.bx_store.specs.Faults.{with_fault};
ghost use Rattle.bx_store.specs.HostStores.{HasCause, IsAnswered};
ghost use Rattle.bx_store.specs.Stores.{no_bytes, no_faults, with_bytes};
ghost use Rattle.bx_store.specs.Talk.{asked, draft_by, is_begun_by, lost, start_by, started, stored_by, told};
ghost use Rattle.bx_store.specs.declared.saver.Answer.TheVariants.{Done};

use crate::cause::SaveCause;
use crate::faults::Faults;
use crate::saver::{Answer, Saver};
use crate::store::{Store, StoreFault};
use std::io;

/// The most bytes of the text in a frame: its length has two bytes.
const MOST_PIECE: usize = 65_535;

/// The frames of a save, by their letters (`host/frames.h` has the same names).
const BEGIN: u8 = b'B';

/// The first bytes of a begin's frame.
const OVER: &[u8] = b"o";

const AS: &[u8] = b"n";

/// The most bytes of a name.
const MOST_NAME: usize = 65_534;

const PIECE: u8 = b'P';

const COMMIT: u8 = b'C';

/// A store that the host keeps. What it has is the text of the last save whose COMMIT the saver answered by DONE.
///
/// The begin of a save goes to the saver as a frame, and `commit` as one without bytes, and both wait for its answer; the text goes
/// as pieces between them, which are not answered. The bytes of the begin's frame say what the save may do: none, only what a save
/// may always do; `o`, go over the change that the host told last; `n` and a name, save under that name. The host replaces the
/// file only at a commit, and answers whether it did (`host/save.c`).
///
/// After a call of the saver that failed, half a frame may have gone out, or an answer may still come. No later save succeeds.
#[derive(Drop)]
pub struct HostStore<S: Saver + Drop> {
    saver: S,
    /// A call of the saver failed.
    is_lost: bool,
    /// A save is in progress.
    has_draft: bool,
    /// The failed calls.
    failures: Faults,
}

impl<S: Saver + Drop> HostStore<S> {
    /// A store that the saver keeps.
    pub fn new(saver: S) -> Self
        ensures saver { result.saver ≡ saver }
        ensures failures { result.failures ≡ no_faults }
        ensures ready { result.is_lost ≡ false }
    {
        HostStore {
            saver,
            is_lost: false,
            has_draft: false,
            failures: Faults::none(),
        }
    }

    /// Writes a text as pieces.
    fn tell(&mut self, bytes: &[u8]) -> io::Result<()>
        ensures told { OnOk result (S.talk self.new.saver ≡ option_map (told bytes.now) (S.talk self.old.saver)) }
        ensures stored { OnErr result (stored_by (S.talk self.new.saver) ≡ stored_by (S.talk self.old.saver)) }
        ensures lost { self.new.is_lost ≡ self.old.is_lost }
        ensures failures { self.new.failures ≡ self.old.failures }
        ensures draft { self.new.has_draft ≡ self.old.has_draft }
    {
        let mut rest = bytes;
        while !rest.is_empty() {
            let (piece, more) = rest.split_at(rest.len().min(MOST_PIECE));
            self.saver.send(PIECE, b"", piece)?;
            rest = more;
        }
        Ok(())
    }

    /// Sends a frame after all that waits, and reads the answer.
    fn exchange(&mut self, letter: u8, first: &[u8], bytes: &[u8]) -> io::Result<Answer>
        requires { length first.now + length bytes.now ≤ 65535 }
        ensures asked { IfOk result (λ answer. S.talk self.new.saver ≡ option_map (asked letter (first.now ++ bytes.now) answer) (S.talk self.old.saver)) }
        ensures stored { OnErr result (stored_by (S.talk self.new.saver) ≡ stored_by (S.talk self.old.saver)) }
        ensures no_answer { OnErr result (S.talk self.new.saver ≡ option_map lost (S.talk self.new.saver)) }
        ensures lost { self.new.is_lost ≡ self.old.is_lost }
        ensures failures { self.new.failures ≡ self.old.failures }
        ensures draft { self.new.has_draft ≡ self.old.has_draft }
    {
        self.saver.send(letter, first, bytes)?;
        self.saver.flush()?;
        let answer = self.saver.answer()?;
        Ok(answer)
    }

    /// Sends a frame after all that waits, and waits until the saver has obeyed it.
    fn ask(&mut self, letter: u8, first: &[u8], bytes: &[u8]) -> Result<(), StoreFault>
        requires { length first.now + length bytes.now ≤ 65535 }
        ensures done { OnOk result (S.talk self.new.saver ≡ option_map (asked letter (first.now ++ bytes.now) Done) (S.talk self.old.saver)) }
        ensures stored { OnErr result (stored_by (S.talk self.new.saver) ≡ stored_by (S.talk self.old.saver)) }
        ensures cause { IfErr result (λ fault. self.old.is_lost ≡ false → HasCause (S.talk self.new.saver) fault) }
        ensures in_step { OnOk result (self.old.is_lost ≡ false) }
        ensures lost { OnErr result ((self.new.is_lost ≡ true) ⊎ IsAnswered (S.talk self.new.saver)) }
        ensures failures { self.new.failures ≡ self.old.failures }
        ensures draft { self.new.has_draft ≡ self.old.has_draft }
    {
        if self.is_lost {
            return Err(SaveCause::Other.into());
        }
        match self.exchange(letter, first, bytes) {
            Ok(Answer::Done) => Ok(()),
            Ok(Answer::Failed(cause)) => Err(SaveCause::of_byte(cause).into()),
            Err(error) => {
                self.is_lost = true;
                Err(error.into())
            }
        }
    }

    /// Begins a save. The bytes say what it may do.
    fn begin_by(&mut self, first: &[u8], bytes: &[u8]) -> Result<(), StoreFault>
        requires { length first.now + length bytes.now ≤ 65535 }
        ensures done { OnOk result (S.talk self.new.saver ≡ option_map (asked 0x42 (first.now ++ bytes.now) Done) (S.talk self.old.saver)) }
        ensures stored { OnErr result (stored_by (S.talk self.new.saver) ≡ stored_by (S.talk self.old.saver)) }
        ensures cause { IfErr result (λ fault. self.old.is_lost ≡ false → HasCause (S.talk self.new.saver) fault) }
        ensures in_step { OnOk result (self.old.is_lost ≡ false) }
        ensures lost { OnErr result ((self.new.is_lost ≡ true) ⊎ IsAnswered (S.talk self.new.saver)) }
        ensures draft { OnOk result (self.new.has_draft ≡ true) }
        ensures no_failure { OnOk result (self.new.failures ≡ self.old.failures) }
        ensures failure { IfErr result (λ fault. self.new.failures ≡ with_fault fault self.old.failures) }
    {
        match self.ask(BEGIN, first, bytes) {
            Ok(()) => {
                self.has_draft = true;
                Ok(())
            }
            Err(fault) => Err(self.fail(fault)),
        }
    }

    /// Counts a failed call, which ends the save.
    fn fail(&mut self, fault: StoreFault) -> StoreFault
        ensures counted { self.new.failures ≡ with_fault fault self.old.failures }
        ensures told { result ≡ fault }
        ensures saver { self.new.saver ≡ self.old.saver }
        ensures lost { self.new.is_lost ≡ self.old.is_lost }
    {
        self.has_draft = false;
        self.failures.add(fault);
        fault
    }
}

impl<S: Saver + Drop> Store for HostStore<S> {
    ghost use Rattle.std.specs.Prelude.{◌&&◌};
    ghost use Rattle.bx_store.specs.Talk.{draft_by, is_begun_by, stored_by};

    ghost contents = { λ s. stored_by (S.talk s.saver) };

    ghost draft = { λ s. draft_by (S.talk s.saver) };

    ghost has_draft = { λ s. s.has_draft && is_begun_by (S.talk s.saver) };

    ghost faults = { λ s. s.failures };

    fn begin(&mut self) -> Result<(), StoreFault>
        ensures has_draft { OnOk result (self.new.has_draft && is_begun_by (S.talk self.new.saver) ≡ true) }
        ensures draft { OnOk result (draft_by (S.talk self.new.saver) ≡ no_bytes (stored_by (S.talk self.old.saver))) }
        ensures stored { stored_by (S.talk self.new.saver) ≡ stored_by (S.talk self.old.saver) }
        ensures no_failure { OnOk result (self.new.failures ≡ self.old.failures) }
        ensures failure { IfErr result (λ fault. self.new.failures ≡ with_fault fault self.old.failures) }
        ensures start { OnOk result (start_by (S.talk self.new.saver) ≡ started [] (S.talk self.old.saver)) }
        ensures cause { IfErr result (λ fault. self.old.is_lost ≡ false → HasCause (S.talk self.new.saver) fault) }
        ensures in_step { OnOk result (self.old.is_lost ≡ false) }
        ensures lost { OnErr result ((self.new.is_lost ≡ true) ⊎ IsAnswered (S.talk self.new.saver)) }
    {
        self.begin_by(b"", b"")
    }

    fn begin_over(&mut self) -> Result<(), StoreFault>
        ensures has_draft { OnOk result (self.new.has_draft && is_begun_by (S.talk self.new.saver) ≡ true) }
        ensures draft { OnOk result (draft_by (S.talk self.new.saver) ≡ no_bytes (stored_by (S.talk self.old.saver))) }
        ensures stored { stored_by (S.talk self.new.saver) ≡ stored_by (S.talk self.old.saver) }
        ensures no_failure { OnOk result (self.new.failures ≡ self.old.failures) }
        ensures failure { IfErr result (λ fault. self.new.failures ≡ with_fault fault self.old.failures) }
        ensures start { OnOk result (start_by (S.talk self.new.saver) ≡ started (0x6F ∷ []) (S.talk self.old.saver)) }
        ensures cause { IfErr result (λ fault. self.old.is_lost ≡ false → HasCause (S.talk self.new.saver) fault) }
        ensures in_step { OnOk result (self.old.is_lost ≡ false) }
        ensures lost { OnErr result ((self.new.is_lost ≡ true) ⊎ IsAnswered (S.talk self.new.saver)) }
    {
        self.begin_by(OVER, b"")
    }

    fn begin_as(&mut self, name: &str) -> Result<(), StoreFault>
        ensures has_draft { OnOk result (self.new.has_draft && is_begun_by (S.talk self.new.saver) ≡ true) }
        ensures draft { OnOk result (draft_by (S.talk self.new.saver) ≡ no_bytes (stored_by (S.talk self.old.saver))) }
        ensures stored { stored_by (S.talk self.new.saver) ≡ stored_by (S.talk self.old.saver) }
        ensures no_failure { OnOk result (self.new.failures ≡ self.old.failures) }
        ensures failure { IfErr result (λ fault. self.new.failures ≡ with_fault fault self.old.failures) }
        ensures start { OnOk result (start_by (S.talk self.new.saver) ≡ started (0x6E ∷ name.now) (S.talk self.old.saver)) }
        ensures cause { IfErr result (λ fault. self.old.is_lost ≡ false → length name.now ≤ 65534 → HasCause (S.talk self.new.saver) fault) }
        ensures in_step { OnOk result (self.old.is_lost ≡ false) }
        ensures lost { OnErr result ((65534 < length name.now) ⊎ (self.new.is_lost ≡ true) ⊎ IsAnswered (S.talk self.new.saver)) }
    {
        if name.len() > MOST_NAME {
            return Err(self.fail(SaveCause::Other.into()));
        }
        self.begin_by(AS, name.as_bytes())
    }

    fn put(&mut self, bytes: &[u8]) -> Result<(), StoreFault>
        requires { self.old.has_draft && is_begun_by (S.talk self.old.saver) ≡ true }
        ensures has_draft { OnOk result (self.new.has_draft && is_begun_by (S.talk self.new.saver) ≡ true) }
        ensures draft { OnOk result (draft_by (S.talk self.new.saver) ≡ with_bytes bytes.now (draft_by (S.talk self.old.saver))) }
        ensures stored { stored_by (S.talk self.new.saver) ≡ stored_by (S.talk self.old.saver) }
        ensures no_failure { OnOk result (self.new.failures ≡ self.old.failures) }
        ensures failure { IfErr result (λ fault. self.new.failures ≡ with_fault fault self.old.failures) }
        ensures lost { OnErr result (self.new.is_lost ≡ true) }
    {
        match self.tell(bytes) {
            Ok(()) => Ok(()),
            Err(error) => {
                self.is_lost = true;
                Err(self.fail(error.into()))
            }
        }
    }

    fn commit(&mut self) -> Result<(), StoreFault>
        requires { self.old.has_draft && is_begun_by (S.talk self.old.saver) ≡ true }
        ensures stored { OnOk result (stored_by (S.talk self.new.saver) ≡ draft_by (S.talk self.old.saver)) }
        ensures not_stored { OnErr result (stored_by (S.talk self.new.saver) ≡ stored_by (S.talk self.old.saver)) }
        ensures no_failure { OnOk result (self.new.failures ≡ self.old.failures) }
        ensures failure { IfErr result (λ fault. self.new.failures ≡ with_fault fault self.old.failures) }
        ensures cause { IfErr result (λ fault. self.old.is_lost ≡ false → HasCause (S.talk self.new.saver) fault) }
        ensures in_step { OnOk result (self.old.is_lost ≡ false) }
        ensures lost { OnErr result ((self.new.is_lost ≡ true) ⊎ IsAnswered (S.talk self.new.saver)) }
    {
        self.has_draft = false;
        match self.ask(COMMIT, b"", b"") {
            Ok(()) => Ok(()),
            Err(fault) => Err(self.fail(fault)),
        }
    }

    fn failures(&self) -> u64 {
        self.failures.count
    }
}
