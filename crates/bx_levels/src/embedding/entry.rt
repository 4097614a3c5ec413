//! The values of the rules for explicit levels: entries of the stack, and the result for each character.
ghost use Rattle.std.specs.Prelude.{◌≡◌, ◌≤◌, All, length};
ghost use Rattle.bx_levels.specs.embedding.Explicit.{explicit_levels};
ghost use Rattle.bx_levels.specs.embedding.CharLevel.{level_or_0};
ghost use Rattle.bx_levels.specs.embedding.Stack.{max_depth};

use bx_ucd::Class;

/// The directional override status of an entry (X1).
#[derive(Clone, Copy, Default)]
pub enum Override {
    /// No override.
    #[default]
    Neutral,
    /// Characters get the type L.
    Left,
    /// Characters get the type R.
    Right,
}

/// An entry of the directional status stack (X1).
#[derive(Clone, Copy, Default)]
pub struct Entry {
    /// The embedding level.
    pub level: u8,
    /// The directional override status.
    pub forced: Override,
    /// The directional isolate status: whether an isolate initiator pushed the entry.
    pub isolate: bool,
}

/// The level and type of a character after the explicit rules, if X9 keeps it.
#[derive(Clone, Copy)]
pub struct ExplicitChar {
    /// Its explicit level, at most `MAX_DEPTH`.
    pub level: u8,
    /// Its type after overrides.
    pub class: Class,
}

/// The result of the explicit rules for a paragraph body.
#[derive(Drop)]
pub struct Explicit {
    /// The original class of each character.
    pub classes: Vec<Class>,
    /// The result for each character: `None` where X9 removes it.
    pub kept: Vec<Option<ExplicitChar>>,
    /// The paragraph level.
    pub level: u8,
    pub ghost by_rules: { kept.items ≡ explicit_levels level classes.items },
    pub ghost paragraph: { level ≤ 1 },
    pub ghost as_long: { length kept.items ≡ length classes.items },
    pub ghost low: { All (λ k. level_or_0 k ≤ max_depth) kept.items },
}
