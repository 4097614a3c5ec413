//! N0 for a sequence: its bracket pairs are searched in the body itself, so that no list of the sequence's characters is made.
ghost use Rattle.std.specs.Prelude.{◌≡◌, ℕ, ◌≤◌, ◌^◌, IfOk, OnOk, chars, length};
ghost use Rattle.bx_ucd.specs.Class.{direction};
ghost use Rattle.bx_levels.specs.brackets.Pairs.{pairs};
ghost use Rattle.bx_levels.specs.brackets.Resolve.{resolve_pairs};
ghost use Rattle.bx_levels.specs.brackets.Search.{pairs_after};
ghost use Rattle.bx_levels.specs.resolve.Levels.{chars_at};
ghost use Rattle.bx_levels.specs.resolve.LevelRuns.{MeetsRun, run_indexes, sequence_indexes};

use crate::brackets::PairSearch;
use crate::resolve::body::Body;
use crate::resolve::lent_sequence::{LentSequence, LevelRun};
use crate::resolve::scratch::{Ends, Scratch, may_have_brackets};
use bx_common::{OutOfMemory, first_char};
use bx_ucd::{BidiData, Class};

/// Passes the characters of a text to a search, each with its type.
#[tactic(auto, using(crate::proofs::resolve_lemmas::TextEnds::chars_none))]
fn meet_text<D: BidiData>(
    search: &mut PairSearch,
    text: &str,
    types: &[Class],
    tables: &D,
) -> Result<(), OutOfMemory>
    requires next { search.old.next ≡ 0 }
    requires count { search.old.count ≡ length types.now }
    ensures pairs { OnOk result (search.new.progress.pairs ≡ pairs_after (D.data tables.now) search.old.progress 0 (chars text.now) types.now) }
    ensures count { search.new.count ≡ search.old.count }
{
    let mut rest = text;
    for index in 0..types.len() {
        let Some((c, behind)) = first_char(rest) else {
            return Ok(());
        };
        search.meet(index, c, types[index], tables)?;
        rest = behind;
    }
    Ok(())
}

/// Passes the characters of a run to a search, each with its type. `types` are those of the whole sequence, and `met` characters
/// of its earlier runs were passed before. Returns the new count.
fn meet_run<D: BidiData>(
    search: &mut PairSearch,
    body: &Body<'_>,
    tables: &D,
    run: LevelRun<'_>,
    types: &[Class],
    met: usize,
) -> Result<usize, OutOfMemory>
    requires as_long { length body.now ≡ length run.kept.now }
    requires next { search.old.next ≤ met }
    requires count { search.old.count ≡ length types.now }
    ensures met { IfOk result (λ m. MeetsRun (D.data tables.now) body.now types.now (run_indexes run.entry)
        search.old.progress met search.new.progress m) }
    ensures next { IfOk result (λ m. search.new.next ≤ m) }
    ensures count { search.new.count ≡ search.old.count }
{
    let (kept, level) = (run.kept, run.level);
    let mut met = met;
    let mut rest = body.rest_from(run.first);
    for k in run.first..kept.len() {
        let Some((c, behind)) = first_char(rest) else {
            return Ok(met);
        };
        match kept[k] {
            None => {}
            Some(given) => {
                if given.level != level {
                    return Ok(met);
                }
                if met >= types.len() {
                    return Ok(met);
                }
                search.meet(met, c, types[met], tables)?;
                met += 1;
            }
        }
        rest = behind;
    }
    Ok(met)
}

/// Passes the characters of a sequence to a search, each with its type.
fn meet_sequence<D: BidiData>(
    search: &mut PairSearch,
    body: &Body<'_>,
    tables: &D,
    sequence: LentSequence<'_>,
    types: &[Class],
) -> Result<(), OutOfMemory>
    requires as_long { length body.now ≡ length sequence.kept.now }
    requires next { search.old.next ≡ 0 }
    requires count { search.old.count ≡ length types.now }
    ensures pairs { OnOk result (search.new.progress.pairs
        ≡ pairs_after (D.data tables.now) search.old.progress 0 (chars_at body.now (sequence_indexes sequence.entry)) types.now) }
    ensures count { search.new.count ≡ search.old.count }
{
    let mut met = 0;
    for first in sequence.firsts {
        met = meet_run(search, body, tables, sequence.run(*first), types, met)?;
    }
    Ok(())
}

/// Resolves the bracket pairs of a body that is one sequence, in place (N0). Reads the body only if one of its characters may
/// be a bracket.
#[tactic(auto, using(crate::proofs::resolve_lemmas::NoBrackets::no_pairs))]
pub(crate) fn resolve_brackets_of<D: BidiData>(
    scratch: &mut Scratch,
    body: &str,
    tables: &D,
    types: &mut [Class],
    ends: Ends,
) -> Result<(), OutOfMemory>
    requires small { length types.old ≤ 2 ^ 32 }
    requires nsms { length scratch.old.nsms.items ≡ length types.old }
    ensures { OnOk result (types.new ≡ resolve_pairs (direction ends.level) ends.sos scratch.old.nsms.items
        (pairs (D.data tables.now) (chars body.now) types.old) types.old) }
{
    if !may_have_brackets(types) {
        return Ok(());
    }
    scratch.search.begin(types.len());
    meet_text(&mut scratch.search, body, types, tables)?;
    scratch.resolve_brackets(types, ends);
    Ok(())
}

/// Resolves the bracket pairs of a sequence in place (N0). Reads its characters only if one of them may be a bracket.
#[tactic(auto, using(crate::proofs::resolve_lemmas::NoBrackets::no_pairs))]
pub(crate) fn resolve_brackets_in<D: BidiData>(
    scratch: &mut Scratch,
    body: &mut Body<'_>,
    tables: &D,
    sequence: LentSequence<'_>,
    types: &mut [Class],
) -> Result<(), OutOfMemory>
    requires as_long { length body.old ≡ length sequence.kept.now }
    requires small { length types.old ≤ 2 ^ 32 }
    requires nsms { length scratch.old.nsms.items ≡ length types.old }
    ensures types { OnOk result (types.new ≡ resolve_pairs (direction sequence.entry.ends.level) sequence.entry.ends.sos scratch.old.nsms.items
        (pairs (D.data tables.now) (chars_at body.old (sequence_indexes sequence.entry)) types.old) types.old) }
    ensures body { body.new ≡ body.old }
{
    if !may_have_brackets(types) {
        return Ok(());
    }
    body.read()?;
    scratch.search.begin(types.len());
    meet_sequence(&mut scratch.search, body, tables, sequence, types)?;
    scratch.resolve_brackets(types, sequence.ends);
    Ok(())
}
