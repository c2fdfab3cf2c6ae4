//! Options: defaults, and overrides that replace them.
//!
//! With the defaults `port = 80` and `depth = 3` and the override `port = 8080`, `port` is 8080 and `depth` is 3. After
//! `port` is reset, it is 80 again.
//!
//! ```
//! let mut options = Options::new(alloc);
//! options.set_default("port", 80)?;
//! options.set("port", 8080)?;
//! let mut more = Options::new(alloc);
//! more.set("depth", 4)?;
//! options.overlay(&mut more)?;
//! (options.get("port"), options.get("depth")) // (Some(&8080), Some(&4))
//! options.reset(&"port");
//! options.settle()?;
//! options.defaults() // [("port", 80), ("depth", 4)]
//! ```
ghost use Rattle.std.specs.{Prelude.{◌≡◌, IfErr, None, OnErr, OnOk, Some, [], false, if◌then◌else◌, option_copied}, Option.option_or};
ghost use Rattle.vecmap.specs.Pairs.{lookup, lookup_by, put, puts, without_key};
ghost use Rattle.vecmap_callers.specs.Options.{Layers, setting};

use std::alloc::{AllocError, Global};
use std::marker::Model;
use vecmap::{Equivalent, Refused, VecMap};
use vecmap_laws::maps as laws;

/// Values under names of any type with `==`, in two layers. A contract sees the list of each layer.
#[derive(Drop)]
pub struct Options<K: Eq, V> {
    defaults: VecMap<K, V>,
    overrides: VecMap<K, V>,
}

impl<K: Eq, V> Model for Options<K, V> {
    ghost use Rattle.vecmap.specs.Pairs.{HasDistinctKeys};
    ghost use Rattle.vecmap_callers.specs.Options.{Layers};

    ghost Value = { Layers K V };

    ghost view = { λ options. record { defaults = options.defaults.entries; overrides = options.overrides.entries } };

    ghost invariant = { λ options. HasDistinctKeys K.eq options.overrides.entries };
}

impl<K: Eq + Drop, V: Drop> Options<K, V> {
    /// Creates a list without options.
    #[tactic(auto, using(vecmap_laws::proofs::Rules::distinct_keys))]
    pub fn new(alloc: Global) -> Options<K, V>
        ensures { result ≡ record { defaults = []; overrides = [] } }
    {
        Options {
            defaults: VecMap::new(alloc),
            overrides: VecMap::new(alloc),
        }
    }

    /// Returns the defaults, in order.
    pub fn defaults(&self) -> &[(K, V)]
        ensures { result.now ≡ self.now.defaults }
    {
        self.defaults.as_slice()
    }

    /// Returns the overrides, in order.
    pub fn overrides(&self) -> &[(K, V)]
        ensures { result.now ≡ self.now.overrides }
    {
        self.overrides.as_slice()
    }

    /// Returns the value of an option: its override, or else its default.
    ///
    /// # Complexity
    ///
    /// At most one comparison for each override and each default.
    pub fn get<Q: Equivalent<K>>(&self, name: Q) -> Option<&V>
        ensures { option_copied result
            ≡ option_or (lookup_by (Q.equivalent name) self.now.overrides)
            (lookup_by (Q.equivalent name) self.now.defaults) }
    {
        match self.overrides.get(name) {
            Some(value) => Some(value),
            None => self.defaults.get(name),
        }
    }

    /// Sets the default of an option, which replaces an old default.
    ///
    /// An option with an override keeps its value. The defaults keep their order, and a new one is appended.
    ///
    /// # Errors
    ///
    /// [`Refused`] returns the name and the value if the defaults are full and their allocation fails; the
    /// options are then unchanged.
    ///
    /// # Complexity
    ///
    /// At most one comparison for each default.
    pub fn set_default(&mut self, name: K, value: V) -> Result<(), Refused<(K, V)>>
        ensures settings { OnOk result ((q : K)
            → setting K.eq self.new q
            ≡ option_or (lookup K.eq self.old.overrides q)
            (if K.eq name q then Some value else lookup K.eq self.old.defaults q)) }
        ensures defaults { OnOk result (self.new.defaults ≡ put K.eq self.old.defaults name value) }
        ensures overrides { self.new.overrides ≡ self.old.overrides }
        ensures given { IfErr result (λ refused. refused.given ≡ (name, value)) }
        ensures err { OnErr result (self.new ≡ self.old) }
    {
        laws::insertions_are_found::<K, V>();
        self.defaults.insert(name, value)?;
        Ok(())
    }

    /// Overrides an option. Every other option keeps its value.
    ///
    /// The overrides keep their order, and a new one is appended.
    ///
    /// # Errors
    ///
    /// [`Refused`] returns the name and the value if the overrides are full and their allocation fails; the
    /// options are then unchanged.
    ///
    /// # Complexity
    ///
    /// At most one comparison for each override.
    pub fn set(&mut self, name: K, value: V) -> Result<(), Refused<(K, V)>>
        ensures settings { OnOk result ((q : K)
            → setting K.eq self.new q
            ≡ (if K.eq name q then Some value else setting K.eq self.old q)) }
        ensures overrides { OnOk result (self.new.overrides
            ≡ put K.eq self.old.overrides name value) }
        ensures defaults { self.new.defaults ≡ self.old.defaults }
        ensures given { IfErr result (λ refused. refused.given ≡ (name, value)) }
        ensures err { OnErr result (self.new ≡ self.old) }
    {
        laws::insertions_are_found::<K, V>();
        laws::insertion_keeps_keys_distinct::<K, V>();
        self.overrides.insert(name, value)?;
        Ok(())
    }

    /// Removes the override of an option, so that it has its default again. Every other option keeps its value, and the
    /// other overrides keep their order.
    ///
    /// # Complexity
    ///
    /// At most one comparison for each override, and one move for each override behind the removed one.
    pub fn reset(&mut self, name: &K)
        ensures default { setting K.eq self.new name.now ≡ lookup K.eq self.old.defaults name.now }
        ensures others { (other : K) → K.eq name.now other ≡ false
            → setting K.eq self.new other ≡ setting K.eq self.old other }
        ensures overrides { self.new.overrides ≡ without_key K.eq self.old.overrides name.now }
        ensures defaults { self.new.defaults ≡ self.old.defaults }
    {
        laws::removals_are_forgotten::<K, V>();
        laws::removal_keeps_keys_distinct::<K, V>();
        self.overrides.remove(name);
    }

    /// Moves the overrides of `upper` into these options. `upper` keeps its defaults.
    ///
    /// An option that `upper` overrides then has the value of that override. Every other option keeps its value. The
    /// overrides keep their order, and new ones are appended in the order that `upper` has.
    ///
    /// # Errors
    ///
    /// [`AllocError`] if allocation fails; both are then unchanged.
    ///
    /// # Complexity
    ///
    /// One lookup for each override of `upper`.
    #[tactic(auto, using(vecmap_laws::proofs::Rules::distinct_keys))]
    pub fn overlay(&mut self, upper: &mut Options<K, V>) -> Result<(), AllocError>
        ensures settings { OnOk result ((q : K)
            → setting K.eq self.new q
            ≡ option_or (lookup K.eq upper.old.overrides q) (setting K.eq self.old q)) }
        ensures overrides { OnOk result (self.new.overrides
            ≡ puts K.eq self.old.overrides upper.old.overrides) }
        ensures defaults { self.new.defaults ≡ self.old.defaults }
        ensures emptied { OnOk result (upper.new
            ≡ record { defaults = upper.old.defaults; overrides = [] }) }
        ensures err { OnErr result (self.new ≡ self.old) }
        ensures other_err { OnErr result (upper.new ≡ upper.old) }
    {
        self.overrides.append(&mut upper.overrides)?;
        Ok(())
    }

    /// Makes each override the default of its option. Every option keeps its value, and no override is left.
    ///
    /// The defaults keep their order, and new ones are appended in the order of the overrides.
    ///
    /// # Errors
    ///
    /// [`AllocError`] if allocation fails; the options are then unchanged.
    ///
    /// # Complexity
    ///
    /// One lookup for each override.
    #[tactic(auto, using(vecmap_laws::proofs::Rules::distinct_keys))]
    pub fn settle(&mut self) -> Result<(), AllocError>
        ensures settings { OnOk result ((q : K) → setting K.eq self.new q
            ≡ setting K.eq self.old q) }
        ensures defaults { OnOk result (self.new.defaults
            ≡ puts K.eq self.old.defaults self.old.overrides) }
        ensures emptied { OnOk result (self.new.overrides ≡ []) }
        ensures err { OnErr result (self.new ≡ self.old) }
    {
        self.defaults.append(&mut self.overrides)?;
        Ok(())
    }
}
