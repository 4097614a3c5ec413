//! The levels of a paragraph, with each rule as a pass of its own. The editor does not run this: `levels` takes it only for a
//! body of 4 GiB or more, and the editor's texts are shorter. With it the crate serves by itself as a library.
ghost use Rattle.std.specs.Prelude.{◌≡◌, ◌≤◌, ◌<◌, IfOk, All, None, chars, length, replicate};
ghost use Rattle.bx_levels.specs.embedding.Stack.{max_depth};
ghost use Rattle.bx_levels.specs.embedding.Sequences.{sequences};
ghost use Rattle.bx_levels.specs.resolve.Levels.{levels_in, levels_under, paragraph_level_under, with_sequences};
ghost use Rattle.bx_levels.specs.resolve.Kept.{max_level};

use crate::brackets::{pairs, resolve_pairs};
use crate::embedding::{Explicit, ExplicitChar, Sequence, base_level, explicit, sequences};
use crate::resolve::at_indexes::{chars_at, types_at, write_levels};
use crate::resolve::body::{chars_of, classes_of};
use crate::resolve::neutral::{implicit, n1, n2};
use crate::resolve::paragraph::{Level, Levels};
use crate::resolve::weak::{nsms, w1, w2, w3, w4, w5, w6, w7};
use bx_common::{Base, OutOfMemory};
use bx_ucd::BidiData;
use bx_ucd::class::direction;
use std::alloc::Global;

/// The levels of a sequence's characters: W1 to W7, N0 to N2, I1 and I2.
#[tactic(auto, using(crate::proofs::resolve_lemmas::KeptLevels::all_low_of))]
fn levels_in<D: BidiData>(
    alloc: Global,
    tables: &D,
    chars: &[char],
    kept: &[Option<ExplicitChar>],
    sequence: &Sequence,
) -> Result<Vec<u8>, OutOfMemory>
    requires low { sequence.now.level ≤ max_depth }
    requires within { All (λ p. p < length kept.now) sequence.now.indexes }
    requires as_long { length chars.now ≡ length kept.now }
    ensures levels { IfOk result (λ v. v.items ≡ levels_in (D.data tables.now) chars.now kept.now sequence.now) }
    ensures low { IfOk result (λ v. All (λ n. n ≤ max_level) v.items) }
{
    let (level, sos, eos) = (sequence.level(), sequence.sos(), sequence.eos());
    let chars = chars_at(alloc, chars, sequence.indexes())?;
    let mut types = types_at(alloc, kept, sequence.indexes())?;
    let was_nsm = nsms(alloc, &types)?;
    w1(&mut types, sos);
    w2(&mut types, sos);
    w3(&mut types);
    w4(&mut types);
    w5(&mut types);
    w6(&mut types);
    w7(&mut types, sos);
    let found = pairs(alloc, &chars, &types, tables)?;
    resolve_pairs(&mut types, &was_nsm, &found, level, sos);
    n1(&mut types, sos, eos);
    n2(&mut types, direction(level));
    Ok(implicit(alloc, &types, level)?)
}

/// The levels of all characters, with each rule as a pass of its own.
fn each_by_rules<D: BidiData>(
    alloc: Global,
    tables: &D,
    chars: &[char],
    explicit: &Explicit,
) -> Result<Vec<Level>, OutOfMemory>
    requires as_long { length chars.now ≡ length explicit.now.classes.items }
    ensures { IfOk result (λ v. v.items ≡ with_sequences (D.data tables.now) chars.now explicit.now.kept.items
        (sequences explicit.now.level explicit.now.classes.items explicit.now.kept.items) (replicate (length chars.now) None)) }
{
    let found = sequences(alloc, explicit)?;
    let mut each = vec![in alloc; Level::none(); chars.len()]?;
    for sequence in &found {
        let levels = levels_in(alloc, tables, chars, &explicit.kept, sequence)?;
        write_levels(&mut each, sequence.indexes(), &levels);
    }
    Ok(each)
}

/// The levels of a paragraph body under a base direction, with each rule as a pass of its own.
pub fn levels_by_rules<D: BidiData>(
    alloc: Global,
    body: &str,
    tables: &D,
    base: Base,
) -> Result<Levels, OutOfMemory>
    ensures paragraph { IfOk result (λ v. v.paragraph ≡ paragraph_level_under (D.data tables.now) base (chars body.now)) }
    ensures each { IfOk result (λ v. v.each.items ≡ levels_under (D.data tables.now) base (chars body.now)) }
{
    let chars = chars_of(alloc, body)?;
    let classes = classes_of(alloc, body, tables)?;
    let paragraph = base_level(&classes, base);
    let explicit = explicit(alloc, &classes, paragraph)?;
    let each = each_by_rules(alloc, tables, &chars, &explicit)?;
    Ok(Levels { paragraph, each })
}
