//! `map[index]` and `map[&key]`: the value at an index, and the value of a key.
ghost use Rattle.std.specs.{Prelude.{◌≡◌, ◌<◌, IsSome, Some, bytes_eq, length, string_eq}, Borrow.sem};
ghost use Rattle.vecmap_base.specs.Lookups.{UpdatesAt, WritesBy};
ghost use Rattle.vecmap_base.specs.Pairs.{has_text, index_by, lookup, lookup_by, value_at, with_value};

use crate::VecMap;
use std::ops::{Index, IndexMut};
use vecmap_base::Equivalent;

impl<K, V> VecMap<K, V> {
    // Returns the index of the first pair whose key matches `query`. Such a pair must be present.
    #[tactic(auto, using(vecmap_base::proofs::PairsLemmas::ByIndex::is_some_lookup_by))]
    fn present_index<Q: Equivalent<K>>(&self, query: Q) -> usize
    where
        K: Eq,
        requires present { IsSome (lookup_by (Q.equivalent query) self.now.entries) }
        ensures index { index_by (Q.equivalent query) self.now.entries ≡ Some result }
        ensures within { result < length self.now.entries }
        ensures writes { WritesBy K.eq (Q.equivalent query) self.now.entries }
    {
        self.get_index_of(query).unwrap()
    }
}

/// Returns the value at `index`. This is `map[index]`.
///
/// # Preconditions
///
/// The index is less than [`VecMap::len`].
///
/// # Examples
///
/// ```
/// let map = vecmap!(alloc; 'a' => 1, 'b' => 2);
/// # assert!(*rt; 1 < map.len());
/// map[1] // 2
/// ```
impl<K, V> Index<usize> for VecMap<K, V> {
    type Output = V;

    ghost can_index = { λ m i. i < length m.entries };

    ghost index_gives = { λ m i v. value_at m.entries i ≡ Some v };

    fn index(&self, index: usize) -> &V {
        &self.pairs[index].1
    }
}

/// Returns a mutable reference to the value at `index`. This is `map[index] = value`.
///
/// # Preconditions
///
/// The index is less than [`VecMap::len`].
///
/// # Examples
///
/// ```
/// let mut map = vecmap!(alloc; 'a' => 1, 'b' => 2);
/// # assert!(*rt; 1 < map.len());
/// map[1] = 3;
/// map.as_slice() // [('a', 1), ('b', 3)]
/// ```
impl<K, V> IndexMut<usize> for VecMap<K, V> {
    ghost use Rattle.vecmap_map.specs.Lends.{lends_value_at};

    fn index_mut(&mut self, index: usize) -> &mut V
        requires within { index < length self.old.entries }
        ensures* writes_back { sem 𝓛 (lends_value_at K.row V.row self.entry index result) }
        ensures value { value_at self.old.entries index ≡ Some result.now }

        // What follows for lookups, lengths and indices.
        ensures updates { (v : V) → UpdatesAt index self.old.entries
            (with_value self.old.entries index v) v }
    {
        self.value_mut(index)
    }
}

/// Returns the value of the first pair whose key is equal to `key`. This is `map[key]`.
///
/// # Preconditions
///
/// Such a pair is present: [`VecMap::contains_key`] returns `true`.
///
/// # Examples
///
/// ```
/// let map = vecmap!(alloc; 'a' => 1, 'b' => 2);
/// # assert!(*rt; map.contains_key(&'b'));
/// map[&'b'] // 2
/// ```
impl<'q, K: Eq, V> Index<&'q K> for VecMap<K, V> {
    type Output = V;

    ghost can_index = { λ m k. IsSome (lookup K.eq m.entries k.now) };

    ghost index_gives = { λ m k v. lookup K.eq m.entries k.now ≡ Some v };

    #[tactic(auto, using(vecmap_base::proofs::PairsLemmas::ByIndex::by_index))]
    fn index(&self, key: &'q K) -> &V {
        &self.pairs[self.present_index(key)].1
    }
}

/// Returns a mutable reference to the value of the first pair whose key is equal to `key`. This is `map[key] = value`.
///
/// # Preconditions
///
/// Such a pair is present: [`VecMap::contains_key`] returns `true`.
///
/// # Examples
///
/// ```
/// let mut map = vecmap!(alloc; 'a' => 1, 'b' => 2);
/// # assert!(*rt; map.contains_key(&'b'));
/// map[&'b'] = 3;
/// map.as_slice() // [('a', 1), ('b', 3)]
/// ```
impl<'q, K: Eq, V> IndexMut<&'q K> for VecMap<K, V> {
    ghost use Rattle.vecmap_map.specs.Lends.{lends_value_of};

    #[tactic(auto, using(vecmap_base::proofs::PairsLemmas::ByIndex::by_index))]
    fn index_mut(&mut self, key: &'q K) -> &mut V
        requires present { IsSome (lookup K.eq self.old.entries key.now) }
        ensures* writes_back { sem 𝓛 (lends_value_of K.row V.row self.entry K.eq key.now result) }
        ensures value { lookup K.eq self.old.entries key.now ≡ Some result.now }

        // What follows for lookups, lengths and indices.
        ensures writes { WritesBy K.eq (K.eq key.now) self.old.entries }
    {
        let index = self.present_index(key);
        self.value_mut(index)
    }
}

/// Returns the value of the first pair whose key has the bytes of `text`. This is `map[text]`.
///
/// # Preconditions
///
/// Such a pair is present: [`VecMap::contains_key`] returns `true`.
///
/// # Examples
///
/// ```
/// let map = vecmap!(alloc; String::from_str(alloc, "a")? => 1);
/// # assert!(*rt; map.contains_key("a"));
/// map["a"] // 1
/// ```
impl<'q, V> Index<&'q str> for VecMap<String, V> {
    type Output = V;

    ghost can_index = { λ m text. IsSome (lookup_by (has_text text.now) m.entries) };

    ghost index_gives = { λ m text v. lookup_by (has_text text.now) m.entries ≡ Some v };

    #[tactic(auto, using(vecmap_base::proofs::PairsLemmas::ByIndex::by_index))]
    fn index(&self, text: &'q str) -> &V {
        &self.pairs[self.present_index(text)].1
    }
}

/// Returns a mutable reference to the value of the first pair whose key has the bytes of `text`. This is
/// `map[text] = value`.
///
/// # Preconditions
///
/// Such a pair is present: [`VecMap::contains_key`] returns `true`.
///
/// # Examples
///
/// ```
/// let mut map = vecmap!(alloc; String::from_str(alloc, "a")? => 1);
/// # assert!(*rt; map.contains_key("a"));
/// map["a"] = 3;
/// map.get("a") // Some(&3)
/// ```
impl<'q, V> IndexMut<&'q str> for VecMap<String, V> {
    ghost use Rattle.vecmap_map.specs.Lends.{lends_value_by, text_row};

    #[tactic(auto, using(vecmap_base::proofs::PairsLemmas::ByIndex::by_index))]
    fn index_mut(&mut self, text: &'q str) -> &mut V
        requires present { IsSome (lookup_by (has_text text.now) self.old.entries) }
        ensures* writes_back { sem 𝓛 (lends_value_by text_row V.row self.entry
            (has_text text.now) result) }
        ensures value { lookup_by (has_text text.now) self.old.entries ≡ Some result.now }

        // What follows for lookups, lengths and indices.
        ensures writes { WritesBy string_eq (has_text text.now) self.old.entries }
    {
        let index = self.present_index(text);
        self.value_mut(index)
    }
}

/// Returns the value of the first pair whose key, a borrowed text, has the bytes of `query`. This is `map[query]`.
///
/// # Preconditions
///
/// Such a pair is present: [`VecMap::contains_key`] returns `true`.
///
/// # Examples
///
/// ```
/// let map = vecmap!(alloc; "a" => 1, "b" => 2);
/// # assert!(*rt; map.contains_key("b"));
/// map["b"] // 2
/// ```
impl<'q, 'k, V> Index<&'q str> for VecMap<&'k str, V> {
    type Output = V;

    ghost can_index = { λ m query. IsSome (lookup_by (λ k. bytes_eq query.now k.now) m.entries) };

    ghost index_gives = { λ m query v. lookup_by (λ k. bytes_eq query.now k.now) m.entries ≡ Some v };

    #[tactic(auto, using(vecmap_base::proofs::PairsLemmas::ByIndex::by_index))]
    fn index(&self, query: &'q str) -> &V {
        &self.pairs[self.present_index(query)].1
    }
}
