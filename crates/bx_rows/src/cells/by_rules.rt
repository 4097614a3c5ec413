//! A unit by the rules on grapheme cluster breaks (UAX #29, by `unicode_segmentation`), for clusters that are not simple.
ghost use Rattle.std.specs.Prelude.{◌≡◌, ◌<◌, ◌∷◌, length};
ghost use Rattle.std.specs.Str.{IsCharBoundary};
ghost use Rattle.bx_rows.specs.cells.UnitFacts.{units_from};

use crate::cells::faces::face;
use crate::cells::unit::Unit;
use bx_ucd::BidiData;
use unicode_segmentation::UnicodeSegmentation;

/// The unit that begins at byte offset `at`, by the rules on breaks, in a window of `w` columns.
pub fn ruled_unit<D: BidiData>(body: &str, at: usize, tables: &D, w: u16) -> Unit
    requires start { IsCharBoundary body.now at }
    requires some { at < length body.now }
    ensures start { result.start ≡ at }
    ensures units { units_from (D.data tables.now) w body.now at ≡ result ∷ units_from (D.data tables.now) w body.now result.stop }
    ensures stop { (at < result.stop) × IsCharBoundary body.now result.stop }
{
    match body[at..].graphemes(true).next() {
        Some(cluster) => Unit {
            start: at,
            stop: at + cluster.len(),
            face: face(cluster, tables, w),
        },
        None => unreachable!(),
    }
}
