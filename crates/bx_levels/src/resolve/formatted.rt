//! The levels of a paragraph body with formatting characters, sequence by sequence. `each` has a level for each character of the body.
ghost use Rattle.std.specs.Prelude.{◌≡◌, ◌≤◌, ◌<◌, ◌^◌, ◌++◌, All, IfOk, OnOk, None, true, chars, drop, length, map, replicate};
ghost use Rattle.bx_levels.specs.embedding.Stack.{max_depth};
ghost use Rattle.bx_levels.specs.embedding.Sequences.{RunSequence, sequences};
ghost use Rattle.bx_levels.specs.resolve.Neutral.{implicit};
ghost use Rattle.bx_levels.specs.resolve.Levels.{chars_at, sequence_levels, types_at, levels_in, with_levels, with_sequences, paragraph_levels};
ghost use Rattle.bx_levels.specs.resolve.LevelRuns.{WritesRun, run_indexes, sequence_indexes};

use crate::embedding::{Explicit, ExplicitChar, SequenceWalk, explicit};
use crate::resolve::body::Body;
use crate::resolve::brackets::resolve_brackets_in;
use crate::resolve::lent_sequence::{LentSequence, LevelRun};
use crate::resolve::neutral::found_level;
use crate::resolve::paragraph::{Level, Levels};
use crate::resolve::scratch::{Ends, Scratch, resolve_neutral};
use bx_common::OutOfMemory;
use bx_ucd::{BidiData, Class};
use std::alloc::{AllocError, Global};

/// Reserves room for one more type, of at most `left` to come. Capacity grows by a quarter and 8, since doubling may leave half
/// of it unused.
fn make_room(types: &mut Vec<Class>, left: usize) -> Result<(), AllocError>
    ensures { types.new.items ≡ types.old.items }
{
    let count = types.len();
    if count >= types.capacity() {
        types.reserve_exact((count / 4 + 8).min(left))?;
    }
    Ok(())
}

/// Appends the types of a run.
fn gather_types(types: &mut Vec<Class>, run: LevelRun<'_>) -> Result<(), AllocError>
    ensures { OnOk result (types.new.items ≡ types.old.items ++ types_at run.entry.kept.now (run_indexes run.entry)) }
{
    let (kept, level) = (run.kept, run.level);
    let mut k = run.first;
    while k < kept.len() {
        if let Some(c) = kept[k] {
            if c.level != level {
                return Ok(());
            }
            make_room(types, kept.len() - k)?;
            types.push(c.class)?;
        }
        k += 1;
    }
    Ok(())
}

/// Collects the types of a sequence's characters after overrides.
fn sequence_types(types: &mut Vec<Class>, sequence: LentSequence<'_>) -> Result<(), AllocError>
    ensures { OnOk result (types.new.items ≡ types_at sequence.entry.kept.now (sequence_indexes sequence.entry)) }
{
    types.clear();
    for first in sequence.firsts {
        gather_types(types, sequence.run(*first))?;
    }
    Ok(())
}

/// Writes the levels of a run from the resolved types of its whole sequence, of which earlier runs used the first `written`.
/// Returns the new count.
fn write_run(each: &mut Vec<Level>, run: LevelRun<'_>, types: &[Class], written: usize) -> usize
    requires low { run.level ≤ max_depth }
    requires all { length each.old.items ≡ length run.kept.now }
    ensures all { length each.new.items ≡ length run.entry.kept.now }
    ensures written { WritesRun (run_indexes run.entry) (implicit run.entry.level (drop written types.now)) each.old.items
        (implicit run.entry.level (drop result types.now)) each.new.items }
{
    let (kept, level) = (run.kept, run.level);
    let mut written = written;
    let mut k = run.first;
    while k < kept.len() && written < types.len() {
        if let Some(c) = kept[k] {
            if c.level != level {
                return written;
            }
            each[k] = found_level(level, types[written]);
            written += 1;
        }
        k += 1;
    }
    written
}

/// Writes the levels of a sequence from its resolved types.
fn write_levels(each: &mut Vec<Level>, sequence: LentSequence<'_>, types: &[Class])
    requires low { sequence.ends.level ≤ max_depth }
    requires all { length each.old.items ≡ length sequence.kept.now }
    ensures { each.new.items ≡ with_levels (sequence_indexes sequence.entry) (implicit sequence.entry.ends.level types.now) each.old.items }
{
    let mut written = 0;
    for first in sequence.firsts {
        written = write_run(each, sequence.run(*first), types, written);
    }
}

/// Resolves the types of a sequence and writes its levels.
fn write_sequence<D: BidiData>(
    each: &mut Vec<Level>,
    scratch: &mut Scratch,
    body: &mut Body<'_>,
    tables: &D,
    types: &mut [Class],
    sequence: LentSequence<'_>,
) -> Result<(), OutOfMemory>
    requires low { sequence.ends.level ≤ max_depth }
    requires small { length types.old ≤ 2 ^ 32 }
    requires as_long { length body.old ≡ length sequence.kept.now }
    requires all { length each.old.items ≡ length sequence.kept.now }
    ensures written { OnOk result (each.new.items ≡ with_levels (sequence_indexes sequence.entry)
        (sequence_levels (D.data tables.now) sequence.entry.ends.level sequence.entry.ends.sos sequence.entry.ends.eos
        (chars_at body.old (sequence_indexes sequence.entry)) types.old) each.old.items) }
    ensures body { body.new ≡ body.old }
{
    scratch.resolve_weak(types, sequence.ends.sos)?;
    resolve_brackets_in(scratch, body, tables, sequence, types)?;
    resolve_neutral(types, sequence.ends);
    write_levels(each, sequence, types);
    Ok(())
}

/// Buffers reused from sequence to sequence: the body with its offsets, the sequence's types, and what the rules need.
#[derive(Drop)]
struct Buffers<'t> {
    body: Body<'t>,
    types: Vec<Class>,
    scratch: Scratch,
}

/// Writes the levels of the sequence that the walk lends.
fn write_lent<D: BidiData>(
    each: &mut Vec<Level>,
    buffers: &mut Buffers<'_>,
    tables: &D,
    walk: &SequenceWalk<'_>,
    kept: &[Option<ExplicitChar>],
) -> Result<(), OutOfMemory>
    requires lent { walk.now.has_current ≡ true }
    requires same { kept.now ≡ walk.now.explicit.kept.items }
    requires small { length walk.now.current.indexes ≤ 2 ^ 32 }
    requires as_long { length buffers.old.body ≡ length kept.now }
    requires all { length each.old.items ≡ length kept.now }
    ensures written { OnOk result (each.new.items ≡ with_levels walk.now.current.indexes
        (levels_in (D.data tables.now) buffers.old.body kept.now walk.now.current) each.old.items) }
    ensures body { buffers.new.body ≡ buffers.old.body }
{
    let sequence = LentSequence {
        kept,
        firsts: walk.firsts(),
        ends: Ends {
            level: walk.level(),
            sos: walk.sos(),
            eos: walk.eos(),
        },
    };
    sequence_types(&mut buffers.types, sequence)?;
    write_sequence(
        each,
        &mut buffers.scratch,
        &mut buffers.body,
        tables,
        &mut buffers.types,
        sequence,
    )
}

/// Writes the levels of each sequence that the walk has left.
fn write_left<D: BidiData>(
    each: &mut Vec<Level>,
    buffers: &mut Buffers<'_>,
    tables: &D,
    walk: &mut SequenceWalk<'_>,
    kept: &[Option<ExplicitChar>],
) -> Result<(), OutOfMemory>
    requires same { kept.now ≡ walk.old.explicit.kept.items }
    requires few { All (λ (s : RunSequence). length s.indexes ≤ length kept.now) walk.old.left }
    requires small { length kept.now ≤ 2 ^ 32 }
    requires as_long { length buffers.old.body ≡ length kept.now }
    requires all { length each.old.items ≡ length kept.now }
    ensures { OnOk result (each.new.items ≡ with_sequences (D.data tables.now) buffers.old.body kept.now walk.old.left each.old.items) }
{
    while walk.advance()? {
        write_lent(each, buffers, tables, walk, kept)?;
    }
    Ok(())
}

/// The levels of all characters, resolved sequence by sequence.
#[tactic(auto, using(crate::proofs::resolve_lemmas::Apart::given_written))]
fn each_level<D: BidiData>(
    alloc: Global,
    body: &str,
    tables: &D,
    explicit: &Explicit,
) -> Result<Vec<Level>, OutOfMemory>
    requires small { length body.now < 2 ^ 32 }
    requires as_long { length (chars body.now) ≡ length explicit.now.classes.items }
    ensures { IfOk result (λ v. v.items ≡ with_sequences (D.data tables.now) (chars body.now) explicit.now.kept.items
        (sequences explicit.now.level explicit.now.classes.items explicit.now.kept.items) (replicate (length (chars body.now)) None)) }
{
    let mut each = vec![in alloc; Level::none(); explicit.kept.len()]?;
    let mut buffers = Buffers {
        body: Body::new(alloc, body),
        types: Vec::new(alloc),
        scratch: Scratch::new(alloc),
    };
    let mut walk = SequenceWalk::new(alloc, explicit);
    write_left(&mut each, &mut buffers, tables, &mut walk, &explicit.kept)?;
    Ok(each)
}

/// The levels of a paragraph body, given the classes of its characters and the paragraph level.
pub fn formatted_levels<D: BidiData>(
    alloc: Global,
    body: &str,
    tables: &D,
    classes: Vec<Class>,
    paragraph: u8,
) -> Result<Levels, OutOfMemory>
    requires classes { classes.items ≡ map (D.data tables.now).class (chars body.now) }
    requires low { paragraph ≤ 1 }
    requires small { length body.now < 2 ^ 32 }
    ensures paragraph { IfOk result (λ v. v.paragraph ≡ paragraph) }
    ensures each { IfOk result (λ v. v.each.items ≡ paragraph_levels (D.data tables.now) paragraph (chars body.now)) }
{
    let explicit = explicit(alloc, &classes, paragraph)?;
    drop(classes);
    let each = each_level(alloc, body, tables, &explicit)?;
    Ok(Levels { paragraph, each })
}
