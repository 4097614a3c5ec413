//! A law of the sample files and the small tables. The function does nothing: its contract is the law.

ghost use Rattle.std.specs.Prelude.{◌≡◌, ℕ};
ghost use Rattle.bx_ucd.specs.Reading.{class_in_file, bracket_in_file, mirror_in_file};
ghost use Rattle.bx_ucd.specs.SmallTables.{class, bracket, mirror};
ghost use Rattle.bx_ucd.specs.declared.sample.TheConstants.{CLASSES, BRACKETS, MIRRORING};

/// The small tables, by which the worked examples of the definitions are computed, agree with the lines of the sample files
/// on every code.
pub fn small_tables_are_read()
    ensures classes { (code : ℕ) → class code ≡ class_in_file CLASSES.now code }
    ensures brackets { (code : ℕ) → bracket code ≡ bracket_in_file BRACKETS.now code }
    ensures mirrors { (code : ℕ) → mirror code ≡ mirror_in_file MIRRORING.now code }
{}
