//! Saving a text to a store, and comparing one with bytes, piece by piece, without a copy.

ghost use Rattle.std.specs.Prelude.{◌≡◌, ◌≢◌, ◌++◌, ◌↔◌, ℕ, List, IsTrue, MatchOption, true, IfErr, OnErr, OnOk};
ghost use Rattle.bx_store.specs.Stores.{no_bytes, with_bytes};
ghost use Rattle.bx_store.specs.Faults.{with_fault};
ghost use Rattle.bx_session.specs.Session.{store_state, with_text};

use bx_common::are_equal;
use bx_editor::Saving;
use bx_store::{Store, StoreFault};
use bx_text::Slices;

/// Puts all pieces into the store's draft, in order.
fn put_pieces<S: Store>(pieces: Slices<'_>, store: &mut S) -> Result<(), StoreFault>
    requires has_draft { S.has_draft store.old ≡ true }
    ensures has_draft { OnOk result (S.has_draft store.new ≡ true) }
    ensures draft { OnOk result (S.draft store.new ≡ with_bytes pieces.entry (S.draft store.old)) }
    ensures stored { S.contents store.new ≡ S.contents store.old }
    ensures no_failure { OnOk result (S.faults store.new ≡ S.faults store.old) }
    ensures failure { IfErr result (λ fault. S.faults store.new ≡ with_fault fault (S.faults store.old)) }
{
    for piece in pieces {
        store.put(piece.as_bytes())?;
    }
    Ok(())
}

/// Begins a save.
fn begin<S: Store>(saving: Saving<'_>, store: &mut S) -> Result<(), StoreFault>
    ensures has_draft { OnOk result (S.has_draft store.new ≡ true) }
    ensures draft { OnOk result (S.draft store.new ≡ no_bytes (S.contents store.old)) }
    ensures stored { S.contents store.new ≡ S.contents store.old }
    ensures no_failure { OnOk result (S.faults store.new ≡ S.faults store.old) }
    ensures failure { IfErr result (λ fault. S.faults store.new ≡ with_fault fault (S.faults store.old)) }
{
    match saving {
        Saving::Own => store.begin(),
        Saving::Under(name) => store.begin_as(name),
        Saving::Over => store.begin_over(),
    }
}

/// Saves the text of these pieces.
///
/// Errors: `StoreFault` if a call of the store fails; its content is unchanged.
pub fn save_pieces<S: Store>(
    saving: Saving<'_>,
    pieces: Slices<'_>,
    store: &mut S,
) -> Result<(), StoreFault>
    ensures ok { OnOk result (store_state S.contents S.faults store.new ≡ with_text pieces.entry (store_state S.contents S.faults store.old)) }
    ensures stored { OnErr result (S.contents store.new ≡ S.contents store.old) }
    ensures failure { IfErr result (λ fault. S.faults store.new ≡ with_fault fault (S.faults store.old)) }
{
    begin(saving, store)?;
    put_pieces(pieces, store)?;
    store.commit()?;
    Ok(())
}

/// The bytes after `beginning`; None if they do not begin with it.
fn behind<'a>(bytes: &'a [u8], beginning: &[u8]) -> Option<&'a [u8]>
    ensures { MatchOption result ((rest : List ℕ) → beginning.now ++ rest ≢ bytes.now) (λ rest. bytes.now ≡ beginning.now ++ rest.now) }
{
    let (front, rest) = bytes.split_at_checked(beginning.len())?;
    if !are_equal(front, beginning) {
        return None;
    }
    Some(rest)
}

/// Whether the pieces, joined, are these bytes.
pub fn is_text(pieces: Slices<'_>, bytes: &[u8]) -> bool
    ensures { IsTrue result ↔ (pieces.entry ≡ bytes.now) }
{
    let mut rest = bytes;
    for piece in pieces {
        match behind(rest, piece.as_bytes()) {
            Some(after) => rest = after,
            None => return false,
        }
    }
    rest.is_empty()
}
