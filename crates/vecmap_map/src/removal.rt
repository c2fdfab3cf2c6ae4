//! Removal of pairs.
ghost use Rattle.std.specs.{Cmp.IsEquivalence, Prelude.{◌≡◌, ◌-◌, ◌<◌, ◌≤◌, Bool, IfNone, IfOk, IfSome, IsOk, None, OnErr, Some, String, [], false, length, remove, string_eq, true}, Map.IsKeyTest};
ghost use Rattle.vecmap_base.specs.{FnMutCalls.{CallableAtPair, CallableOnEach, CallsAtPair}, Indices.{MovesIndex, ShiftsIndices}, Items.swap_without};
ghost use Rattle.vecmap_base.specs.{Kept.{RetainsPairs, ReturnsAtValue}, Lookups.KeepsFront};
ghost use Rattle.vecmap_base.specs.Pairs.{HasDistinctKeys, has_text, index_by, lookup_by, swap_without_by, without_by};
ghost use Rattle.vecmap_base.specs.Removals.{FindsPair, RemovesAt, RemovesBy, RemovesLast, SplitsAt};

use crate::VecMap;
use std::alloc::AllocError;
use vecmap_base::{Equivalent, find_equivalent, remove_item, retain_pairs};

impl<K, V> VecMap<K, V> {
    /// Drops all pairs. The capacity stays.
    ///
    /// # Examples
    ///
    /// ```
    /// let mut map = vecmap!(alloc; 'a' => 1, 'b' => 2);
    /// map.clear();
    /// map.is_empty() // true
    /// ```
    #[tactic(auto, using(vecmap_base::proofs::DistinctLemmas::distinct_none))]
    pub fn clear(&mut self)
    where
        K: Drop,
        V: Drop,
        ensures list { self.new.entries ≡ [] }
        ensures distinct { (eq : K → K → Bool) → HasDistinctKeys eq self.new.entries }
        ensures capacity { self.new.capacity ≡ self.old.capacity }
    {
        self.pairs.clear();
    }

    /// Keeps the first `len` pairs and drops the others.
    ///
    /// If the map has no more than `len` pairs, nothing changes. The capacity stays.
    ///
    /// # Examples
    ///
    /// ```
    /// let mut map = vecmap!(alloc; 'a' => 1, 'b' => 2, 'c' => 3);
    /// map.truncate(1);
    /// map.as_slice() // [('a', 1)]
    /// ```
    pub fn truncate(&mut self, len: usize)
    where
        K: Drop,
        V: Drop,
        ensures front { KeepsFront len self.old.entries self.new.entries }
        ensures capacity { self.new.capacity ≡ self.old.capacity }
    {
        self.pairs.truncate(len);
    }

    /// Moves the pairs from index `at` on into a new map, and returns that map.
    ///
    /// The pairs before `at` stay, and so does the capacity. If `at` is the number of pairs, the call succeeds and does
    /// not allocate.
    ///
    /// # Errors
    ///
    /// [`AllocError`] if allocation fails; the map is then unchanged.
    ///
    /// # Preconditions
    ///
    /// `at` is at most [`VecMap::len`].
    ///
    /// # Complexity
    ///
    /// One move for each pair of the new map. Allocates memory for these pairs.
    ///
    /// # Examples
    ///
    /// ```
    /// let mut map = vecmap!(alloc; 'a' => 1, 'b' => 2, 'c' => 3);
    /// # assert!(*rt; 1 <= map.len());
    /// let part = map.split_off(1)?;
    /// map.as_slice() // [('a', 1)]
    /// part.as_slice() // [('b', 2), ('c', 3)]
    /// ```
    pub fn split_off(&mut self, at: usize) -> Result<VecMap<K, V>, AllocError>
        requires within { at ≤ length self.old.entries }
        ensures split { IfOk result (λ part. SplitsAt at self.old.entries self.new.entries
            part.entries) }
        ensures capacity { self.new.capacity ≡ self.old.capacity }
        ensures succeeds { at ≡ length self.old.entries → IsOk result }
        ensures err { OnErr result (self.new ≡ self.old) }
    {
        Ok(VecMap {
            pairs: self.pairs.split_off(at)?,
        })
    }

    /// Keeps the pairs for which `f` returns `true`, in their order, each with the value that `f` left in it.
    ///
    /// `f` is called once for each pair, in order, in the state that the calls before have left. The other pairs are
    /// dropped at the end. The capacity stays.
    ///
    /// If `f` only reads what it captures, a proof knows what lookups find afterwards in three cases: what `f` does depends
    /// on the value alone (`selection.lookups`), or `f` leaves the values and returns the same for each key that a query
    /// matches (`selection.selected`), or at the value that it finds (the clauses `stays` and `gone`). If `f` only tests
    /// the pairs, those that are left are a filter (`selection.left`). Distinct keys stay distinct.
    ///
    /// # Preconditions
    ///
    /// `f` can be called with each pair of the map, in the state that the calls before have left.
    ///
    /// # Complexity
    ///
    /// n calls of `f` for n pairs, and at most one swap for each pair after the first that is removed. Does
    /// not allocate.
    ///
    /// # Examples
    ///
    /// ```
    /// let mut map = vecmap!(alloc; 'a' => 1, 'b' => 2, 'c' => 3);
    /// map.retain(|_key, value| *value != 2);
    /// map.as_slice() // [('a', 1), ('c', 3)]
    /// ```
    pub fn retain<F: FnMut(&K, &mut V) -> bool>(&mut self, f: F)
    where
        K: Drop,
        V: Drop,
        F: Drop,
        requires callable { CallableOnEach (CallsAtPair F.FnMut)
            (CallableAtPair F.FnMut) f self.old.entries }
        ensures selection { RetainsPairs (CallsAtPair F.FnMut) f self.old.entries self.new.entries }

        // What a query finds that found `v`, if `f` returns the same for all pairs with this value. A search finds these two
        // as clauses, and not as fields.
        ensures stays { (test : K → Bool) (v : V) → lookup_by test self.old.entries ≡ Some v
            → ReturnsAtValue (CallsAtPair F.FnMut) f v true
            → lookup_by test self.new.entries ≡ Some v }
        ensures gone { (test : K → Bool) (v : V) → lookup_by test self.old.entries ≡ Some v
            → ReturnsAtValue (CallsAtPair F.FnMut) f v false → (eq : K → K → Bool)
            → HasDistinctKeys eq self.old.entries → IsKeyTest eq test
            → lookup_by test self.new.entries ≡ None }
        ensures capacity { self.new.capacity ≡ self.old.capacity }
    {
        retain_pairs(&mut self.pairs, f);
    }

    /// Removes the last pair and returns it, or `None` if the map is empty.
    ///
    /// # Examples
    ///
    /// ```
    /// let mut map = vecmap!(alloc; 'a' => 1, 'b' => 2);
    /// map.pop() // Some(('b', 2))
    /// map.as_slice() // [('a', 1)]
    /// ```
    pub fn pop(&mut self) -> Option<(K, V)>
        ensures removal { RemovesLast self.old.entries result self.new.entries }
        ensures capacity { self.new.capacity ≡ self.old.capacity }
        ensures unchanged { IfNone result (self.new ≡ self.old) }
    {
        self.pairs.pop()
    }

    /// Removes the first pair whose key matches `query` and returns its value; the other pairs keep their order.
    ///
    /// The index of each later pair decreases by one. If no key matches, nothing changes.
    ///
    /// # Complexity
    ///
    /// At most `len` comparisons, and one move for each pair that changes its index.
    ///
    /// # Examples
    ///
    /// ```
    /// let mut map = vecmap!(alloc; 'a' => 1, 'b' => 2, 'c' => 3);
    /// map.remove(&'a') // Some(1)
    /// map.remove(&'a') // None
    /// map.as_slice() // [('b', 2), ('c', 3)]
    /// ```
    #[tactic(auto, using(vecmap_base::proofs::PairsLemmas::ByIndex::by_index))]
    pub fn remove<Q: Equivalent<K>>(&mut self, query: Q) -> Option<V>
    where
        K: Eq + Drop,
        ensures returned { result ≡ lookup_by (Q.equivalent query) self.old.entries }
        ensures removal { RemovesBy K.eq without_by (Q.equivalent query) self.old.entries
            self.new.entries }
        ensures indices { IfSome (index_by (Q.equivalent query) self.old.entries)
            (λ index. ShiftsIndices index self.old.entries self.new.entries) }
        ensures capacity { self.new.capacity ≡ self.old.capacity }
        ensures unchanged { IfNone result (self.new ≡ self.old) }
    {
        let (_key, value) = self.remove_entry(query)?;
        Some(value)
    }

    /// Like [`VecMap::remove`], but also returns the stored key.
    ///
    /// # Examples
    ///
    /// ```
    /// let mut map = vecmap!(alloc; 'a' => 1, 'b' => 2, 'c' => 3);
    /// map.remove_entry(&'a') // Some(('a', 1))
    /// map.as_slice() // [('b', 2), ('c', 3)]
    /// ```
    #[tactic(auto, using(vecmap_base::proofs::PairsLemmas::ByIndex::by_index))]
    pub fn remove_entry<Q: Equivalent<K>>(&mut self, query: Q) -> Option<(K, V)>
    where
        K: Eq,
        ensures item { FindsPair (Q.equivalent query) self.old.entries result }
        ensures removal { RemovesBy K.eq without_by (Q.equivalent query) self.old.entries
            self.new.entries }
        ensures indices { IfSome (index_by (Q.equivalent query) self.old.entries)
            (λ index. ShiftsIndices index self.old.entries self.new.entries) }
        ensures capacity { self.new.capacity ≡ self.old.capacity }
        ensures unchanged { IfNone result (self.new ≡ self.old) }
    {
        let index = find_equivalent(&self.pairs, query)?;
        Some(remove_item(&mut self.pairs, index))
    }

    /// Removes the pair at `index` and returns it; the other pairs keep their order.
    ///
    /// The index of each later pair decreases by one.
    ///
    /// # Preconditions
    ///
    /// `index` is less than [`VecMap::len`].
    ///
    /// # Complexity
    ///
    /// No comparisons, and one move for each pair that changes its index.
    ///
    /// # Examples
    ///
    /// ```
    /// let mut map = vecmap!(alloc; 'a' => 1, 'b' => 2, 'c' => 3);
    /// # assert!(*rt; 0 < map.len());
    /// map.remove_index(0) // ('a', 1)
    /// map.as_slice() // [('b', 2), ('c', 3)]
    /// ```
    pub fn remove_index(&mut self, index: usize) -> (K, V)
        requires within { index < length self.old.entries }
        ensures removal { RemovesAt remove index self.old.entries result self.new.entries }
        ensures indices { ShiftsIndices index self.old.entries self.new.entries }
        ensures distinct { (eq : K → K → Bool) → HasDistinctKeys eq self.old.entries
            → HasDistinctKeys eq self.new.entries }
        ensures capacity { self.new.capacity ≡ self.old.capacity }
    {
        remove_item(&mut self.pairs, index)
    }

    /// Removes the first pair whose key matches `query` and returns its value; the last pair moves to its index.
    ///
    /// If no key matches, nothing changes.
    ///
    /// # Complexity
    ///
    /// At most `len` comparisons, and one move.
    ///
    /// # Examples
    ///
    /// ```
    /// let mut map = vecmap!(alloc; 'a' => 1, 'b' => 2, 'c' => 3);
    /// map.swap_remove(&'a') // Some(1)
    /// map.as_slice() // [('c', 3), ('b', 2)]
    /// ```
    #[tactic(auto, using(vecmap_base::proofs::PairsLemmas::ByIndex::by_index))]
    pub fn swap_remove<Q: Equivalent<K>>(&mut self, query: Q) -> Option<V>
    where
        K: Eq + Drop,
        ensures returned { result ≡ lookup_by (Q.equivalent query) self.old.entries }
        ensures removal { RemovesBy K.eq swap_without_by (Q.equivalent query) self.old.entries
            self.new.entries }
        ensures capacity { self.new.capacity ≡ self.old.capacity }
        ensures unchanged { IfNone result (self.new ≡ self.old) }
    {
        let (_key, value) = self.swap_remove_entry(query)?;
        Some(value)
    }

    /// Like [`VecMap::swap_remove`], but also returns the stored key.
    ///
    /// # Examples
    ///
    /// ```
    /// let mut map = vecmap!(alloc; 'a' => 1, 'b' => 2, 'c' => 3);
    /// map.swap_remove_entry(&'a') // Some(('a', 1))
    /// map.as_slice() // [('c', 3), ('b', 2)]
    /// ```
    #[tactic(auto, using(vecmap_base::proofs::PairsLemmas::ByIndex::by_index))]
    pub fn swap_remove_entry<Q: Equivalent<K>>(&mut self, query: Q) -> Option<(K, V)>
    where
        K: Eq,
        ensures item { FindsPair (Q.equivalent query) self.old.entries result }
        ensures removal { RemovesBy K.eq swap_without_by (Q.equivalent query) self.old.entries
            self.new.entries }
        ensures capacity { self.new.capacity ≡ self.old.capacity }
        ensures unchanged { IfNone result (self.new ≡ self.old) }
    {
        let index = find_equivalent(&self.pairs, query)?;
        Some(self.pairs.swap_remove(index))
    }

    /// Removes the pair at `index` and returns it; the last pair moves to `index`.
    ///
    /// # Preconditions
    ///
    /// `index` is less than [`VecMap::len`].
    ///
    /// # Complexity
    ///
    /// No comparisons, and one move.
    ///
    /// # Examples
    ///
    /// ```
    /// let mut map = vecmap!(alloc; 'a' => 1, 'b' => 2, 'c' => 3);
    /// # assert!(*rt; 0 < map.len());
    /// map.swap_remove_index(0) // ('a', 1)
    /// map.as_slice() // [('c', 3), ('b', 2)]
    /// ```
    pub fn swap_remove_index(&mut self, index: usize) -> (K, V)
        requires within { index < length self.old.entries }
        ensures removal { RemovesAt swap_without index self.old.entries result self.new.entries }
        ensures indices { index < length self.old.entries - 1 → MovesIndex
            (length self.old.entries - 1) index self.old.entries self.new.entries }
        ensures distinct { (eq : K → K → Bool) → IsEquivalence eq
            → HasDistinctKeys eq self.old.entries → HasDistinctKeys eq self.new.entries }
        ensures capacity { self.new.capacity ≡ self.old.capacity }
    {
        self.pairs.swap_remove(index)
    }
}

impl<V> VecMap<String, V> {
    /// Like [`VecMap::remove`], but a key matches if it has the bytes of `text`. Does not allocate.
    ///
    /// # Examples
    ///
    /// ```
    /// let mut map = vecmap!(alloc; String::from_str(alloc, "a")? => 1);
    /// map.remove_str("a") // Some(1)
    /// ```
    pub fn remove_str(&mut self, text: &str) -> Option<V>
        ensures returned { result ≡ lookup_by (has_text text.now) self.old.entries }
        ensures removal { RemovesBy string_eq without_by (has_text text.now) self.old.entries
            self.new.entries }
        ensures indices { IfSome (index_by (has_text text.now) self.old.entries)
            (λ index. ShiftsIndices index self.old.entries self.new.entries) }
        ensures capacity { self.new.capacity ≡ self.old.capacity }
        ensures unchanged { IfNone result (self.new ≡ self.old) }
    {
        self.remove(text)
    }
}
