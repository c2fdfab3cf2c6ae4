//! A symbol table: names that are defined in nested scopes, where an inner scope may hide the names of the outer ones.
//!
//! If `x` is 1, and 3 in a scope that is then entered, it means 3 until that scope is left, and then 1 again.
//!
//! ```
//! let mut table = Scopes::new(alloc)?;
//! table.define('x', 1)?;
//! table.enter(alloc)?;
//! table.define('x', 3)?;
//! table.resolve(&'x') // Some(&3)
//! table.leave() // true
//! table.resolve(&'x') // Some(&1)
//! ```
ghost use Rattle.std.specs.Prelude.{◌≡◌, ◌+◌, ◌<◌, IfErr, IfOk, IsTrue, List, None, OnErr, OnOk, Some, false, if◌then◌else◌, length, option_copied};
ghost use Rattle.vecmap.specs.Contents.{Contents};
ghost use Rattle.vecmap_callers.specs.Scopes.{outer, resolved};

use std::alloc::{AllocError, Global};
use std::marker::Model;
use vecmap::{Refused, VecMap};
use vecmap_laws::maps as laws;

/// Nested scopes of names of any type with `==`. There is always at least one scope. A contract sees the list of their
/// contents, the innermost last.
#[derive(Drop)]
pub struct Scopes<K, V> {
    scopes: Vec<VecMap<K, V>>,
}

impl<K, V> Model for Scopes<K, V> {
    ghost use Rattle.std.specs.Prelude.{◌<◌, List, length};
    ghost use Rattle.vecmap.specs.Contents.{Contents};

    ghost Value = { List (Contents K V) };

    ghost view = { λ table. table.scopes.items };

    ghost invariant = { λ table. 0 < length table.scopes.items };
}

impl<K: Eq + Drop, V: Drop> Scopes<K, V> {
    /// Creates a table of one scope, in which nothing is defined.
    ///
    /// # Errors
    ///
    /// [`AllocError`] if allocation fails.
    pub fn new(alloc: Global) -> Result<Scopes<K, V>, AllocError>
        ensures undefined { IfOk result (λ table. (name : K) → resolved K.eq table name ≡ None) }
        ensures depth { IfOk result (λ table. length table ≡ 1) }
    {
        let mut scopes = Vec::new(alloc);
        scopes.push(VecMap::new(alloc))?;
        Ok(Scopes { scopes })
    }

    /// Enters a new scope. Every name means what it meant before.
    ///
    /// # Errors
    ///
    /// [`AllocError`] if allocation fails; the table is then unchanged.
    pub fn enter(&mut self, alloc: Global) -> Result<(), AllocError>
        ensures outer_scopes { OnOk result (outer self.new ≡ self.old) }
        ensures depth { OnOk result (length self.new ≡ length self.old + 1) }
        ensures nested { OnOk result (1 < length self.new) }
        ensures meanings { OnOk result ((name : K)
            → resolved K.eq self.new name ≡ resolved K.eq self.old name) }
        ensures err { OnErr result (self.new ≡ self.old) }
    {
        self.scopes.push(VecMap::new(alloc))?;
        Ok(())
    }

    /// Leaves the innermost scope, unless it is the only one, and returns whether it did.
    ///
    /// Every name then means what it meant before the scope was entered.
    pub fn leave(&mut self) -> bool
        ensures scopes { IsTrue result → self.new ≡ outer self.old }
        ensures unchanged { result ≡ false → self.new ≡ self.old }
        ensures nested { 1 < length self.old → IsTrue result }
    {
        if self.scopes.len() < 2 {
            return false;
        }
        self.scopes.pop();
        true
    }

    /// Defines a name in the innermost scope.
    ///
    /// Every other name means what it meant, and the outer scopes are unchanged.
    ///
    /// # Errors
    ///
    /// [`Refused`] returns the name and the value if the scope is full and its allocation fails; the table
    /// is then unchanged.
    ///
    /// # Complexity
    ///
    /// At most one comparison for each name of the innermost scope.
    pub fn define(&mut self, name: K, value: V) -> Result<(), Refused<(K, V)>>
        ensures meanings { OnOk result ((other : K)
            → resolved K.eq self.new other
            ≡ (if K.eq name other then Some value else resolved K.eq self.old other)) }
        ensures outer_scopes { outer self.new ≡ outer self.old }
        ensures depth { length self.new ≡ length self.old }
        ensures given { IfErr result (λ refused. refused.given ≡ (name, value)) }
        ensures err { OnErr result (self.new ≡ self.old) }
    {
        laws::insertions_are_found::<K, V>();
        let last = self.scopes.len() - 1;
        self.scopes[last].insert(name, value)?;
        Ok(())
    }

    /// Returns the value of a name in the innermost scope that defines it.
    ///
    /// # Complexity
    ///
    /// At most one comparison for each name of all scopes.
    pub fn resolve(&self, name: &K) -> Option<&V>
        ensures { option_copied result ≡ resolved K.eq self.now name.now }
    {
        let mut index = self.scopes.len();
        while 0 < index {
            index -= 1;
            if let Some(value) = self.scopes[index].get(name) {
                return Some(value);
            }
        }
        None
    }
}
