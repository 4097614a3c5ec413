//! The state of the rules for explicit levels (X1), with one method per rule.
ghost use Rattle.std.specs.Prelude.{◌≡◌, ◌<◌, ◌≤◌};
ghost use Rattle.bx_levels.specs.embedding.Explicit.{embed, end_embedding, end_isolate, even_above, first_above, forced_class, is_valid, isolate, kept_by, kept_under, odd_above, role_of, start, state_after, top};
ghost use Rattle.bx_levels.specs.embedding.Stack.{max_depth};

use crate::embedding::entry::{Entry, ExplicitChar, Override};
use crate::embedding::role::{Role, role_of};
use crate::embedding::stack::{EntryStack, MAX_DEPTH};
use bx_ucd::Class;

/// The directional status stack and the three counts of X1.
#[derive(Drop)]
pub struct State {
    pub stack: EntryStack,
    /// Open isolates that were not pushed, since their level would exceed `MAX_DEPTH` or something had overflowed before.
    pub overflow_isolates: usize,
    /// Open embeddings and overrides that were not pushed, since their level would exceed `MAX_DEPTH` or another of them had
    /// overflowed; while an isolate has overflowed they are not counted.
    pub overflow_embeddings: usize,
    /// Open isolates that were pushed.
    pub valid_isolates: usize,
}

/// The least odd level above a level (X2, X4, X5a).
pub fn odd_above(level: u8) -> u8
    requires { level ≤ max_depth }
    ensures { result ≡ odd_above level }
{
    level + 1 + level % 2
}

/// The least even level above a level (X3, X5, X5b).
pub fn even_above(level: u8) -> u8
    requires { level ≤ max_depth }
    ensures { result ≡ even_above level }
{
    level + 2 - level % 2
}

/// The type of a character under an override.
pub fn forced_class(forced: Override, class: Class) -> Class
    ensures { result ≡ forced_class forced class }
{
    match forced {
        Override::Neutral => class,
        Override::Left => Class::L,
        Override::Right => Class::R,
    }
}

/// The level of an FSI's isolate whose text has the paragraph level `first`, where the last entry has `level` (X5c).
pub fn first_above(first: u8, level: u8) -> u8
    requires { level ≤ max_depth }
    ensures { result ≡ first_above first level }
{
    if first == 0 {
        even_above(level)
    } else {
        odd_above(level)
    }
}

impl State {
    /// The state before the first character, where `level` is the paragraph level (X1).
    pub fn new(level: u8) -> Self
        requires { level ≤ max_depth }
        ensures { result ≡ start level }
    {
        State {
            stack: EntryStack::new(level),
            overflow_isolates: 0,
            overflow_embeddings: 0,
            valid_isolates: 0,
        }
    }

    /// Whether an entry of this level may be pushed: it does not exceed `MAX_DEPTH`, and nothing has overflowed.
    pub fn is_valid(&self, level: u8) -> bool
        ensures { result ≡ is_valid self.now level }
    {
        level <= MAX_DEPTH && self.overflow_isolates == 0 && self.overflow_embeddings == 0
    }

    /// Begins an embedding or an override of this level (X2 to X5).
    pub fn embed(&mut self, level: u8, forced: Override)
        requires above { (top self.old).level < level }
        requires fits { self.old.overflow_embeddings < usize.MAX }
        ensures { self.new ≡ embed self.old level forced }
    {
        if self.is_valid(level) {
            self.stack.push(Entry {
                level,
                forced,
                isolate: false,
            });
        } else if self.overflow_isolates == 0 {
            self.overflow_embeddings += 1;
        }
    }

    /// Begins an isolate of this level (X5a to X5c).
    pub fn isolate(&mut self, level: u8)
        requires above { (top self.old).level < level }
        requires isolates_fit { self.old.overflow_isolates < usize.MAX }
        requires valid_fit { self.old.valid_isolates < usize.MAX }
        ensures { self.new ≡ isolate self.old level }
    {
        if self.is_valid(level) {
            self.stack.push(Entry {
                level,
                forced: Override::Neutral,
                isolate: true,
            });
            self.valid_isolates += 1;
        } else {
            self.overflow_isolates += 1;
        }
    }

    /// Takes a PDI (X6a).
    pub fn end_isolate(&mut self)
        ensures { self.new ≡ end_isolate self.old }
    {
        if self.overflow_isolates > 0 {
            self.overflow_isolates -= 1;
        } else if self.valid_isolates > 0 {
            self.overflow_embeddings = 0;
            self.stack.end_isolate();
            self.valid_isolates -= 1;
        }
    }

    /// Takes a PDF (X7).
    pub fn end_embedding(&mut self)
        ensures { self.new ≡ end_embedding self.old }
    {
        if self.overflow_isolates == 0 {
            if self.overflow_embeddings > 0 {
                self.overflow_embeddings -= 1;
            } else {
                self.stack.end_embedding();
            }
        }
    }

    /// The result that the last entry gives a character (X6).
    pub fn kept_under(&self, class: Class) -> Option<ExplicitChar>
        ensures { result ≡ kept_under (top self.now) class }
    {
        let top = self.stack.top();
        Some(ExplicitChar {
            level: top.level,
            class: forced_class(top.forced, class),
        })
    }

    /// Takes a character and returns its result, `None` if X9 removes it. For an FSI, `first` is the paragraph level of its
    /// isolate's text; other classes do not use it.
    pub fn step(&mut self, class: Class, first: u8) -> Option<ExplicitChar>
        requires isolates_fit { self.old.overflow_isolates < usize.MAX }
        requires embeddings_fit { self.old.overflow_embeddings < usize.MAX }
        requires valid_fit { self.old.valid_isolates < usize.MAX }
        ensures next { self.new ≡ state_after (role_of class) first self.old }
        ensures kept { result ≡ kept_by (role_of class) class self.old self.new }
    {
        // By the last entry before the character (X5a to X5c, X6). A PDI goes by the one after it (X6a).
        let kept = self.kept_under(class);
        let level = self.stack.top().level;
        match role_of(class) {
            Role::Rle => self.embed(odd_above(level), Override::Neutral),
            Role::Lre => self.embed(even_above(level), Override::Neutral),
            Role::Rlo => self.embed(odd_above(level), Override::Right),
            Role::Lro => self.embed(even_above(level), Override::Left),
            Role::Rli => {
                self.isolate(odd_above(level));
                return kept;
            }
            Role::Lri => {
                self.isolate(even_above(level));
                return kept;
            }
            Role::Fsi => {
                self.isolate(first_above(first, level));
                return kept;
            }
            Role::Other => return kept,
            Role::Pdi => {
                self.end_isolate();
                return self.kept_under(class);
            }
            Role::Pdf => self.end_embedding(),
            Role::Bn => {}
        }
        None
    }
}
