//! Laws of levels. The functions are empty: their contracts are the laws.
ghost use Rattle.std.specs.Prelude.{ℕ, List, IsUtf8};
ghost use Rattle.bx_common.specs.declared.base.Base.{Base};
ghost use Rattle.bx_ucd.specs.Data.{Data};
ghost use Rattle.bx_document.specs.UnitLevels.{UnitsHaveLevels};

/// The place before a unit has the level of the unit's first character with a level, if there is one.
pub fn units_have_levels()
    ensures { (ucd : Data) (base : Base) (text : List ℕ) → IsUtf8 text → UnitsHaveLevels ucd base text }
{}
