//! Lookups by query and by index.
ghost use Rattle.std.specs.Prelude.{◌≡◌, ◌-◌, ◌<◌, ◌^◌, ◌↔◌, IfSome, IsTrue, Some, is_some, length, nat_lt, option_copied, option_map, slice_get, string_eq};
ghost use Rattle.std.specs.{Map.Iter.deref_pair, Option.option_and_then};
ghost use Rattle.vecmap_base.specs.{Indices.{HasMatchAt, IsFoundAt}, Lookups.FindsIndex};
ghost use Rattle.vecmap_base.specs.Pairs.{HasDistinctKeys, has_text, index_by, lookup_by, lookup_pair_by, value_at};

use crate::VecMap;
use vecmap_base::{Equivalent, find_equivalent, keys_distinct};

impl<K, V> VecMap<K, V> {
    /// Returns `true` if a key of the map matches `query`.
    ///
    /// # Examples
    ///
    /// ```
    /// let map = vecmap!(alloc; 'a' => 1, 'b' => 2);
    /// map.contains_key(&'a') // true
    /// map.contains_key(&'c') // false
    /// ```
    #[tactic(auto, using(vecmap_base::proofs::PairsLemmas::ByIndex::is_some_lookup_by))]
    pub fn contains_key<Q: Equivalent<K>>(&self, query: Q) -> bool
    where
        K: Eq,
        ensures found { result ≡ is_some (index_by (Q.equivalent query) self.now.entries) }
        ensures value { result ≡ is_some (lookup_by (Q.equivalent query) self.now.entries) }
    {
        self.get_index_of(query).is_some()
    }

    /// Returns the first pair, or `None` if the map is empty.
    ///
    /// # Examples
    ///
    /// ```
    /// let map = vecmap!(alloc; 'a' => 1, 'b' => 2);
    /// map.first() // Some((&'a', &1))
    /// ```
    pub fn first(&self) -> Option<(&K, &V)>
        ensures item { option_map deref_pair result ≡ slice_get self.now.entries 0 }

        // What follows for lookups, lengths and indices.
        ensures found { is_some result ≡ nat_lt 0 (length self.now.entries) }
        ensures at { IfSome result (λ pair. IsFoundAt 0 self.now.entries pair.0.now pair.1.now) }
    {
        self.get_index(0)
    }

    /// Returns the last pair, or `None` if the map is empty.
    ///
    /// # Examples
    ///
    /// ```
    /// let map = vecmap!(alloc; 'a' => 1, 'b' => 2);
    /// map.last() // Some((&'b', &2))
    /// ```
    pub fn last(&self) -> Option<(&K, &V)>
        ensures item { option_map deref_pair result
            ≡ slice_get self.now.entries (length self.now.entries - 1) }

        // What follows for lookups, lengths and indices.
        ensures found { is_some result ≡ nat_lt 0 (length self.now.entries) }
        ensures at { IfSome result (λ pair. IsFoundAt (length self.now.entries - 1)
            self.now.entries pair.0.now pair.1.now) }
    {
        let len = self.pairs.len();
        if len == 0 {
            return None;
        }
        self.get_index(len - 1)
    }

    /// Returns the value of the first pair whose key matches `query`, or `None` if no key matches.
    ///
    /// # Examples
    ///
    /// ```
    /// let map = vecmap!(alloc; 'a' => 1, 'b' => 2);
    /// map.get(&'b') // Some(&2)
    /// map.get(&'c') // None
    /// ```
    #[tactic(auto, using(vecmap_base::proofs::PairsLemmas::ByIndex::by_index))]
    pub fn get<Q: Equivalent<K>>(&self, query: Q) -> Option<&V>
    where
        K: Eq,
        ensures returned { option_copied result ≡ lookup_by (Q.equivalent query) self.now.entries }

        // What follows for lookups, lengths and indices.
        ensures found { option_copied result ≡ option_and_then (value_at self.now.entries)
            (index_by (Q.equivalent query) self.now.entries) }
    {
        let index = self.get_index_of(query)?;
        Some(&self.pairs[index].1)
    }

    /// Returns the pair at `index`, or `None` if `index` is out of range.
    ///
    /// # Examples
    ///
    /// ```
    /// let map = vecmap!(alloc; 'a' => 1, 'b' => 2);
    /// map.get_index(1) // Some((&'b', &2))
    /// map.get_index(2) // None
    /// ```
    pub fn get_index(&self, index: usize) -> Option<(&K, &V)>
        ensures item { option_map deref_pair result ≡ slice_get self.now.entries index }

        // What follows for lookups, lengths and indices.
        ensures found { is_some result ≡ nat_lt index (length self.now.entries) }
        ensures at { IfSome result (λ pair. IsFoundAt index self.now.entries pair.0.now
            pair.1.now) }
    {
        let pair = self.pairs.get(index)?;
        Some((&pair.0, &pair.1))
    }

    /// Returns the index, the stored key and the value of the first pair whose key matches `query`, or `None` if no key
    /// matches.
    ///
    /// # Examples
    ///
    /// ```
    /// let map = vecmap!(alloc; 'a' => 1, 'b' => 2);
    /// map.get_full(&'b') // Some((1, &'b', &2))
    /// ```
    #[tactic(auto, using(vecmap_base::proofs::PairsLemmas::ByIndex::by_index))]
    pub fn get_full<Q: Equivalent<K>>(&self, query: Q) -> Option<(usize, &K, &V)>
    where
        K: Eq,
        ensures index { option_map (λ found. found.0) result
            ≡ index_by (Q.equivalent query) self.now.entries }
        ensures within { IfSome result (λ found. found.0 < length self.now.entries) }
        ensures countable { IfSome result (λ found. found.0 < 2 ^ 63) }
        ensures item { option_map (λ found. (found.1.now, found.2.now)) result
            ≡ lookup_pair_by (Q.equivalent query) self.now.entries }

        // What follows for lookups, lengths and indices.
        ensures found { is_some result ≡ is_some (lookup_by (Q.equivalent query) self.now.entries) }
        ensures at { IfSome result (λ found. (slice_get self.now.entries found.0
            ≡ Some (found.1.now, found.2.now))
            × IsTrue (Q.equivalent query found.1.now)
            × (lookup_by (Q.equivalent query) self.now.entries ≡ Some found.2.now)) }
    {
        let index = self.get_index_of(query)?;
        let pair = &self.pairs[index];
        Some((index, &pair.0, &pair.1))
    }

    /// Returns the first pair whose key matches `query`, with the stored key, or `None` if no key matches.
    ///
    /// # Examples
    ///
    /// ```
    /// let map = vecmap!(alloc; 'a' => 1, 'b' => 2);
    /// map.get_key_value(&'b') // Some((&'b', &2))
    /// ```
    pub fn get_key_value<Q: Equivalent<K>>(&self, query: Q) -> Option<(&K, &V)>
    where
        K: Eq,
        ensures item { option_map deref_pair result
            ≡ lookup_pair_by (Q.equivalent query) self.now.entries }

        // What follows for lookups, lengths and indices.
        ensures found { is_some result ≡ is_some (lookup_by (Q.equivalent query) self.now.entries) }
        ensures at { IfSome result (λ pair. IsTrue (Q.equivalent query pair.0.now)
            × (lookup_by (Q.equivalent query) self.now.entries ≡ Some pair.1.now)) }
    {
        let (_index, stored, value) = self.get_full(query)?;
        Some((stored, value))
    }

    /// Returns the index of the first pair whose key matches `query`, or `None` if no key matches.
    ///
    /// # Examples
    ///
    /// ```
    /// let map = vecmap!(alloc; 'a' => 1, 'b' => 2);
    /// map.get_index_of(&'b') // Some(1)
    /// map.get_index_of(&'c') // None
    /// ```
    pub fn get_index_of<Q: Equivalent<K>>(&self, query: Q) -> Option<usize>
    where
        K: Eq,
        ensures index { result ≡ index_by (Q.equivalent query) self.now.entries }
        ensures within { IfSome result (λ i. i < length self.now.entries) }
        ensures countable { IfSome result (λ i. i < 2 ^ 63) }

        // What follows for lookups, lengths and indices.
        ensures found { FindsIndex K.eq (Q.equivalent query) self.now.entries result }
        ensures at { IfSome result (HasMatchAt (Q.equivalent query) self.now.entries) }
    {
        let _len = self.len(); // Bounds the index.
        find_equivalent(&self.pairs, query)
    }

    /// Returns `true` if all keys of the map are distinct: it has no duplicate key.
    ///
    /// # Complexity
    ///
    /// At most n(n-1)/2 comparisons for n pairs. Does not allocate.
    ///
    /// # Examples
    ///
    /// ```
    /// let map = vecmap!(alloc; 'a' => 1, 'b' => 2);
    /// map.has_distinct_keys() // true
    /// ```
    pub fn has_distinct_keys(&self) -> bool
    where
        K: Eq,
        ensures { IsTrue result ↔ HasDistinctKeys K.eq self.now.entries }
    {
        keys_distinct(&self.pairs)
    }
}

impl<V> VecMap<String, V> {
    /// Like [`VecMap::contains_key`], but a key matches if it has the bytes of `text`. Does not allocate.
    ///
    /// # Examples
    ///
    /// ```
    /// let map = vecmap!(alloc; String::from_str(alloc, "a")? => 1);
    /// map.contains_key_str("a") // true
    /// ```
    pub fn contains_key_str(&self, text: &str) -> bool
        ensures found { result ≡ is_some (index_by (has_text text.now) self.now.entries) }
        ensures value { result ≡ is_some (lookup_by (has_text text.now) self.now.entries) }
    {
        self.contains_key(text)
    }

    /// Like [`VecMap::get`], but a key matches if it has the bytes of `text`. Does not allocate.
    ///
    /// # Examples
    ///
    /// ```
    /// let map = vecmap!(alloc; String::from_str(alloc, "a")? => 1);
    /// map.get_str("a") // Some(&1)
    /// ```
    pub fn get_str(&self, text: &str) -> Option<&V>
        ensures returned { option_copied result ≡ lookup_by (has_text text.now) self.now.entries }

        // What follows for lookups, lengths and indices.
        ensures found { option_copied result ≡ option_and_then (value_at self.now.entries)
            (index_by (has_text text.now) self.now.entries) }
    {
        self.get(text)
    }

    /// Like [`VecMap::get_index_of`], but a key matches if it has the bytes of `text`. Does not allocate.
    ///
    /// # Examples
    ///
    /// ```
    /// let map = vecmap!(alloc; String::from_str(alloc, "a")? => 1);
    /// map.get_index_of_str("a") // Some(0)
    /// ```
    pub fn get_index_of_str(&self, text: &str) -> Option<usize>
        ensures index { result ≡ index_by (has_text text.now) self.now.entries }
        ensures within { IfSome result (λ i. i < length self.now.entries) }
        ensures countable { IfSome result (λ i. i < 2 ^ 63) }

        // What follows for lookups, lengths and indices.
        ensures found { FindsIndex string_eq (has_text text.now) self.now.entries result }
        ensures at { IfSome result (HasMatchAt (has_text text.now) self.now.entries) }
    {
        self.get_index_of(text)
    }
}
