//! A recursive type: a tree holds a map of trees. Its values are read and inserted along paths.
//!
//! ```
//! let mut tree = Tree::new(alloc);
//! tree.insert(alloc, &[1, 2], 12)?;
//! tree.insert(alloc, &[1], 10)?;
//! (tree.get(&[1, 2]), tree.get(&[1]), tree.get(&[])) // (Some(12), Some(10), None)
//! ```
ghost use Rattle.std.specs.{Prelude.{◌≡◌, ℕ, List, None, OnErr, OnOk, Some, if◌then◌else◌, nat_eq}, Cmp.Lexicographic.pointwise};
ghost use Rattle.vecmap_callers.specs.Trees.{value_at};

use std::alloc::{AllocError, Global};
use vecmap::VecMap;

/// A value, if there is one, and the trees below, each under a number.
#[derive(Debug, PartialEq, Eq, Drop)]
pub struct Tree {
    value: Option<u64>,
    below: VecMap<u32, Tree>,
}

impl Tree {
    /// Creates a tree without values.
    pub fn new(alloc: Global) -> Tree
        ensures { (path : List ℕ) → value_at path result ≡ None }
    {
        Tree {
            value: None,
            below: VecMap::new(alloc),
        }
    }

    /// Returns the value at a path. The empty path leads to the value of the tree itself.
    ///
    /// # Complexity
    ///
    /// At most one comparison for each number of each map on the path.
    pub fn get(&self, path: &[u32]) -> Option<u64>
        ensures { result ≡ value_at path.now self.now }
    {
        match path.split_first() {
            None => self.value,
            Some((first, rest)) => self.below.get(first)?.get(rest),
        }
    }

    /// Sets the value at a path. Trees that are missing on the path are created.
    ///
    /// # Errors
    ///
    /// [`AllocError`] if memory runs out; the tree is then unchanged.
    ///
    /// # Complexity
    ///
    /// At most two comparisons for each number of each map on the path.
    pub fn insert(&mut self, alloc: Global, path: &[u32], value: u64) -> Result<(), AllocError>
        ensures values { OnOk result ((other : List ℕ) → value_at other self.new
            ≡ (if pointwise nat_eq path.now other then Some value else value_at other self.old)) }
        ensures err { OnErr result (self.new ≡ self.old) }
    {
        let Some((first, rest)) = path.split_first() else {
            self.value = Some(value);
            return Ok(());
        };
        if let Some(tree) = self.below.get_mut(first) {
            tree.insert(alloc, rest, value)?;
            return Ok(());
        }
        let mut tree = Tree::new(alloc);
        tree.insert(alloc, rest, value)?;
        self.below.insert(*first, tree)?;
        Ok(())
    }
}
