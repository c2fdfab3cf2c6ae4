//! Calls that return a mutable reference to a value.
ghost use Rattle.std.specs.{Prelude.{◌≡◌, ◌-◌, ◌<◌, ◌↔◌, IfSome, IsSome, Some, length, option_map, slice_get}, Borrow.sem};
ghost use Rattle.std.specs.{Map.Iter.deref_pair_mut, Option.{option_and_then, option_copied_mut}};
ghost use Rattle.vecmap_base.specs.Lookups.{UpdatesAt, WritesBy};
ghost use Rattle.vecmap_base.specs.Pairs.{index_by, lookup_by, lookup_pair_by, value_at, with_value};
ghost use Rattle.vecmap_map.specs.Lends.{lends_value};

use crate::VecMap;
use vecmap_base::Equivalent;

impl<K, V> VecMap<K, V> {
    ghost use Rattle.vecmap_map.specs.Lends.{lends_beside_key, lends_beside_index, lends_value_at, lends_value_if_at, lends_value_if_by, lends_pair_at, lends_pair_if_at};

    /// Returns a mutable reference to the value of the first pair whose key matches `query`, or `None` if no key
    /// matches.
    ///
    /// # Examples
    ///
    /// ```
    /// let mut map = vecmap!(alloc; 'a' => 1, 'b' => 2);
    /// if let Some(value) = map.get_mut(&'b') {
    ///     *value = 3;
    /// }
    /// map.as_slice() // [('a', 1), ('b', 3)]
    /// ```
    #[tactic(auto, using(vecmap_base::proofs::PairsLemmas::ByIndex::by_index))]
    pub fn get_mut<Q: Equivalent<K>>(&mut self, query: Q) -> Option<&mut V>
    where
        K: Eq,

        // `sem 𝓛 (..)` says what a caller knows once the returned reference has ended: here, that the value of the
        // found pair is what was last written, and that nothing else has changed. At `None` the map is unchanged.
        ensures* writes_back { sem 𝓛 (lends_value_if_by K.row V.row self.entry
            (Q.equivalent query) result) }
        ensures value { option_copied_mut result ≡ lookup_by (Q.equivalent query) self.old.entries }
        ensures found { IsSome result ↔ IsSome (index_by (Q.equivalent query) self.old.entries) }

        // What follows for lookups, lengths and indices.
        ensures writes { WritesBy K.eq (Q.equivalent query) self.old.entries }
        ensures stored { option_copied_mut result ≡ option_and_then (value_at self.old.entries)
            (index_by (Q.equivalent query) self.old.entries) }
    {
        match self.get_index_of(query) {
            Some(index) => Some(self.value_mut(index)),
            None => None,
        }
    }

    /// Returns the first pair, with a mutable reference to its value, or `None` if the map is empty.
    ///
    /// If it returns `None`, the map is unchanged. A caller without a proof file knows which pair the reference points
    /// to, but not what the map holds afterwards. [`VecMap::first_value_mut`] and, below a test of the length,
    /// [`VecMap::pair_mut`] say both.
    ///
    /// # Examples
    ///
    /// ```
    /// let mut map = vecmap!(alloc; 'a' => 1, 'b' => 2);
    /// if let Some((_key, value)) = map.first_mut() {
    ///     *value = 3;
    /// }
    /// map.as_slice() // [('a', 3), ('b', 2)]
    /// ```
    pub fn first_mut(&mut self) -> Option<(&K, &mut V)>
        ensures* writes_back { sem 𝓛 (lends_beside_key K.row V.row self.entry 0 result) }
        ensures item { option_map deref_pair_mut result ≡ slice_get self.old.entries 0 }
        ensures found { IsSome result ↔ (0 < length self.old.entries) }
    {
        self.get_index_mut(0)
    }

    /// Returns the last pair, with a mutable reference to its value, or `None` if the map is empty.
    ///
    /// If it returns `None`, the map is unchanged. A caller without a proof file knows which pair the reference points
    /// to, but not what the map holds afterwards. [`VecMap::last_value_mut`] and, below a test of the length,
    /// [`VecMap::pair_mut`] say both.
    ///
    /// # Examples
    ///
    /// ```
    /// let mut map = vecmap!(alloc; 'a' => 1, 'b' => 2);
    /// if let Some((_key, value)) = map.last_mut() {
    ///     *value = 3;
    /// }
    /// map.as_slice() // [('a', 1), ('b', 3)]
    /// ```
    pub fn last_mut(&mut self) -> Option<(&K, &mut V)>
        ensures* writes_back { sem 𝓛 (lends_beside_key K.row V.row self.entry
            (length self.old.entries - 1) result) }
        ensures item { option_map deref_pair_mut result
            ≡ slice_get self.old.entries (length self.old.entries - 1) }
        ensures found { IsSome result ↔ (0 < length self.old.entries) }
    {
        let (index, map) = self.last_index_and_map();
        map.get_index_mut(index)
    }

    /// Returns the index and the stored key of the first pair whose key matches `query`, with a mutable reference to
    /// its value, or `None` if no key matches.
    ///
    /// If it returns `None`, the map is unchanged. A caller without a proof file knows which pair the reference points
    /// to, but not what the map holds afterwards. [`VecMap::get_mut`] and, with the index of the key,
    /// [`VecMap::pair_mut`] say both.
    ///
    /// # Examples
    ///
    /// ```
    /// let mut map = vecmap!(alloc; 'a' => 1, 'b' => 2);
    /// if let Some((_index, _key, value)) = map.get_full_mut(&'b') {
    ///     *value = 3;
    /// }
    /// map.as_slice() // [('a', 1), ('b', 3)]
    /// ```
    pub fn get_full_mut<Q: Equivalent<K>>(&mut self, query: Q) -> Option<(usize, &K, &mut V)>
    where
        K: Eq,
        ensures* writes_back { sem 𝓛 (lends_beside_index K.row V.row self.entry
            (Q.equivalent query) result) }
        ensures index { option_map (λ found. found.0) result
            ≡ index_by (Q.equivalent query) self.old.entries }
        ensures within { IfSome result (λ found. found.0 < length self.old.entries) }
        ensures item { option_map (λ found. (found.1.now, found.2.now)) result
            ≡ lookup_pair_by (Q.equivalent query) self.old.entries }
    {
        let (place, map) = self.index_and_map(query);
        match place {
            Some(index) => Some(map.full_mut(index)),
            None => None,
        }
    }

    /// Returns the pair at `index`, with a mutable reference to its value, or `None` if `index` is out of range.
    ///
    /// If it returns `None`, the map is unchanged. A caller without a proof file knows which pair the reference points
    /// to, but not what the map holds afterwards. [`VecMap::get_value_at_mut`] and, below a test of the index,
    /// [`VecMap::pair_mut`] say both.
    ///
    /// # Examples
    ///
    /// ```
    /// let mut map = vecmap!(alloc; 'a' => 1, 'b' => 2);
    /// if let Some((_key, value)) = map.get_index_mut(0) {
    ///     *value = 3;
    /// }
    /// map.as_slice() // [('a', 3), ('b', 2)]
    /// ```
    pub fn get_index_mut(&mut self, index: usize) -> Option<(&K, &mut V)>
        ensures* writes_back { sem 𝓛 (lends_beside_key K.row V.row self.entry index result) }
        ensures item { option_map deref_pair_mut result ≡ slice_get self.old.entries index }
        ensures found { IsSome result ↔ (index < length self.old.entries) }
    {
        match self.pair_at_mut(index) {
            Some(pair) => Some(key_and_value(pair)),
            None => None,
        }
    }

    /// Returns a mutable reference to the value at `index`, or `None` if `index` is out of range.
    ///
    /// Unlike [`VecMap::get_index_mut`], it returns the value alone, so a proof knows what the map holds after a write.
    ///
    /// # Examples
    ///
    /// ```
    /// let mut map = vecmap!(alloc; 'a' => 1, 'b' => 2);
    /// if let Some(value) = map.get_value_at_mut(1) {
    ///     *value = 3;
    /// }
    /// map.get(&'b') // Some(&3)
    /// ```
    pub fn get_value_at_mut(&mut self, index: usize) -> Option<&mut V>
        ensures* writes_back { sem 𝓛 (lends_value_if_at K.row V.row self.entry index result) }
        ensures value { option_copied_mut result ≡ value_at self.old.entries index }
        ensures found { IsSome result ↔ (index < length self.old.entries) }

        // What follows for lookups, lengths and indices.
        ensures updates { (v : V) → UpdatesAt index self.old.entries
            (with_value self.old.entries index v) v }
    {
        if self.len() <= index {
            return None;
        }
        Some(self.value_mut(index))
    }

    /// Returns the key at `index`, and a mutable reference to its value.
    ///
    /// Unlike [`VecMap::get_index_mut`], it returns no `Option`, so a proof knows what the map holds after a write.
    ///
    /// # Preconditions
    ///
    /// `index` is less than [`VecMap::len`].
    ///
    /// # Examples
    ///
    /// ```
    /// let mut map = vecmap!(alloc; 'a' => 1, 'b' => 2);
    /// # assert!(*rt; 1 < map.len());
    /// let (_key, value) = map.pair_mut(1);
    /// *value = 3;
    /// map.get(&'b') // Some(&3)
    /// ```
    pub fn pair_mut(&mut self, index: usize) -> (&K, &mut V)
        requires within { index < length self.old.entries }
        ensures* writes_back { sem 𝓛 (lends_value_at K.row V.row self.entry index result.1) }
        ensures item { slice_get self.old.entries index ≡ Some (result.0.now, result.1.now) }

        // What follows for lookups, lengths and indices.
        ensures updates { (v : V) → UpdatesAt index self.old.entries
            (with_value self.old.entries index v) v }
    {
        self.parts_at(index)
    }

    /// Returns a mutable reference to the value of the first pair, or `None` if the map is empty.
    ///
    /// Unlike [`VecMap::first_mut`], it returns the value alone, so a proof knows what the map holds after a write.
    ///
    /// # Examples
    ///
    /// ```
    /// let mut map = vecmap!(alloc; 'a' => 1, 'b' => 2);
    /// if let Some(value) = map.first_value_mut() {
    ///     *value = 3;
    /// }
    /// map.get(&'a') // Some(&3)
    /// ```
    pub fn first_value_mut(&mut self) -> Option<&mut V>
        ensures* writes_back { sem 𝓛 (lends_value_if_at K.row V.row self.entry 0 result) }
        ensures value { option_copied_mut result ≡ value_at self.old.entries 0 }
        ensures found { IsSome result ↔ (0 < length self.old.entries) }

        // What follows for lookups, lengths and indices.
        ensures updates { (v : V) → UpdatesAt 0 self.old.entries
            (with_value self.old.entries 0 v) v }
    {
        self.get_value_at_mut(0)
    }

    /// Returns a mutable reference to the value of the last pair, or `None` if the map is empty.
    ///
    /// Unlike [`VecMap::last_mut`], it returns the value alone, so a proof knows what the map holds after a write.
    ///
    /// # Examples
    ///
    /// ```
    /// let mut map = vecmap!(alloc; 'a' => 1, 'b' => 2);
    /// if let Some(value) = map.last_value_mut() {
    ///     *value = 3;
    /// }
    /// map.get(&'b') // Some(&3)
    /// ```
    pub fn last_value_mut(&mut self) -> Option<&mut V>
        ensures* writes_back { sem 𝓛 (lends_value_if_at K.row V.row self.entry
            (length self.old.entries - 1) result) }
        ensures value { option_copied_mut result
            ≡ value_at self.old.entries (length self.old.entries - 1) }
        ensures found { IsSome result ↔ (0 < length self.old.entries) }

        // What follows for lookups, lengths and indices.
        ensures updates { (v : V) → UpdatesAt (length self.old.entries - 1) self.old.entries
            (with_value self.old.entries (length self.old.entries - 1) v) v }
    {
        let last = self.len().saturating_sub(1);
        self.get_value_at_mut(last)
    }

    // Returns the key at `index`, and a mutable reference to its value.
    fn parts_at(&mut self, index: usize) -> (&K, &mut V)
        requires { index < length self.old.entries }
        ensures* writes_back { sem 𝓛 (lends_value_at K.row V.row self.entry index result.1) }
        ensures item { slice_get self.old.entries index ≡ Some (result.0.now, result.1.now) }
    {
        let pair = &mut self.pairs[index];
        (&pair.0, &mut pair.1)
    }

    // Returns a mutable reference to the value at `index`.
    pub(crate) fn value_mut(&mut self, index: usize) -> &mut V
        requires { index < length self.old.entries }
        ensures* writes_back { sem 𝓛 (lends_value_at K.row V.row self.entry index result) }
        ensures value { value_at self.old.entries index ≡ Some result.now }
    {
        &mut self.pairs[index].1
    }

    // Returns a mutable reference to the pair at `index`, if there is one.
    pub(crate) fn pair_at_mut(&mut self, index: usize) -> Option<&mut (K, V)>
        ensures* writes_back { sem 𝓛 (lends_pair_if_at K.row V.row self.entry index result) }
        ensures item { option_copied_mut result ≡ slice_get self.old.entries index }
        ensures found { IsSome result ↔ (index < length self.old.entries) }
    {
        if index < self.len() {
            Some(self.whole_pair_mut(index))
        } else {
            None
        }
    }

    // Returns a mutable reference to the pair at `index`.
    pub(crate) fn whole_pair_mut(&mut self, index: usize) -> &mut (K, V)
        requires { index < length self.old.entries }
        ensures* writes_back { sem 𝓛 (lends_pair_at K.row V.row self.entry index result) }
        ensures item { slice_get self.old.entries index ≡ Some result.now }
    {
        &mut self.pairs[index]
    }

    // Returns `index`, the key at `index`, and a mutable reference to its value.
    fn full_mut(&mut self, index: usize) -> (usize, &K, &mut V)
        requires { index < length self.old.entries }
        ensures* writes_back { sem 𝓛 (lends_value_at K.row V.row self.entry index result.2) }
        ensures index { result.0 ≡ index }
        ensures item { slice_get self.old.entries index ≡ Some (result.1.now, result.2.now) }
    {
        let pair = &mut self.pairs[index];
        (index, &pair.0, &mut pair.1)
    }

    // Returns the index of the first pair whose key matches `query`, and the map itself.
    pub(crate) fn index_and_map<Q: Equivalent<K>>(
        &mut self,
        query: Q,
    ) -> (Option<usize>, &mut VecMap<K, V>)
    where
        K: Eq,
        ensures index { result.0 ≡ index_by (Q.equivalent query) self.old.entries }
        ensures within { IfSome result.0 (λ i. i < length self.old.entries) }
        ensures lender { result.1.ghost_name ≡ self.entry.ghost_name }
        ensures unchanged { result.1.now ≡ self.old }
    {
        (self.get_index_of(query), self)
    }

    // Returns the last index, or 0 if the map is empty, and the map itself.
    fn last_index_and_map(&mut self) -> (usize, &mut VecMap<K, V>)
        ensures index { result.0 ≡ length self.old.entries - 1 }
        ensures lender { result.1.ghost_name ≡ self.entry.ghost_name }
        ensures unchanged { result.1.now ≡ self.old }
    {
        (self.len().saturating_sub(1), self)
    }
}

// Returns the key of a pair, and a mutable reference to its value.
fn key_and_value<K, V>(pair: &mut (K, V)) -> (&K, &mut V)
    ensures* writes_back { sem 𝓛 (lends_value K.row V.row pair.entry result.1) }
    ensures parts { pair.old ≡ (result.0.now, result.1.now) }
{
    (&pair.0, &mut pair.1)
}
