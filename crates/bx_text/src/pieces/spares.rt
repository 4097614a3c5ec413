//! Nodes allocated ahead, so that appending and splitting pieces allocate nothing.

ghost use Rattle.std.specs.Prelude.{◌≡◌, ◌+◌, ◌<◌, ◌≤◌, OnOk, OnErr};

use crate::pieces::tree::Tree;
use std::alloc::{AllocError, Global};
use std::marker::Model;

/// Nodes allocated ahead. Contracts see their number.
#[derive(Drop)]
pub struct Spares {
    trees: Vec<Box<Tree>>,
}

impl Model for Spares {
    ghost use Rattle.std.specs.Prelude.{ℕ, length};

    ghost Value = { ℕ };

    ghost view = { λ s. length s.trees.items };
}

impl Spares {
    /// No node yet.
    pub fn new(alloc: Global) -> Spares
        ensures { result ≡ 0 }
    {
        Spares {
            trees: Vec::new(alloc),
        }
    }

    /// Allocates one more node.
    fn add(&mut self) -> Result<(), AllocError>
        ensures more { OnOk result (self.new ≡ self.old + 1) }
        ensures err { OnErr result (self.new ≡ self.old) }
    {
        let alloc = *self.trees.allocator();
        let tree = Box::new(alloc, Tree::unused())?;
        self.trees.push(tree)?;
        Ok(())
    }

    /// Number of nodes. Allocates nothing.
    pub fn count(&self) -> usize
        ensures { result ≡ self.now }
    {
        self.trees.len()
    }

    /// Allocates nodes until there are `count`. If memory runs out, it keeps those already allocated.
    pub fn fill(&mut self, count: usize) -> Result<(), AllocError>
        ensures enough { OnOk result (count ≤ self.new) }
        ensures no_fewer { self.old ≤ self.new }
    {
        for _made in self.count()..count {
            self.add()?;
        }
        Ok(())
    }

    /// Takes a node, whose content is a placeholder. Allocates nothing.
    pub(crate) fn node(&mut self) -> Box<Tree>
        requires { 0 < self.old }
        ensures { self.new + 1 ≡ self.old }
    {
        self.trees.pop().unwrap()
    }
}
