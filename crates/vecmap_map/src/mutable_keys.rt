//! Calls that return mutable references to keys.
ghost use Rattle.std.specs.{Prelude.{◌≡◌, ◌<◌, ◌↔◌, IfSome, IsSome, List, Option, length, option_map, slice_get}, Borrow.sem};
ghost use Rattle.std.specs.Map.{keys_of};
ghost use Rattle.vecmap_base.specs.FnMutCalls.{CallableAtPairMut, CallableOnEach, CallsAtPairMut};
ghost use Rattle.vecmap_base.specs.Iterators.{ShowsAllOf, deref_both_mut, deref_mut, iter_mut2_name, iter_mut2_rest, keys_mut_name, keys_mut_rest};
ghost use Rattle.vecmap_base.specs.{Kept.{KeepsKeys, Kept, Retains, RetainsPairs}, Pairs.{index_by, lookup_pair_by}};
ghost use Rattle.vecmap_map.specs.Lends.{lends_pairs, lends_parts, lends_slice};

use crate::VecMap;
use vecmap_base::{Equivalent, IterMut2, KeysMut, retain_pairs_mut};

mod sealed {
    pub trait Sealed {}
}

impl<K, V> sealed::Sealed for VecMap<K, V> {}

/// Calls that return mutable references to keys.
///
/// No other type can implement this trait. A write may make a key equal to another: the map then has duplicate keys,
/// and lookups find the first of them. The contracts are at the `impl` for `VecMap`, below the trait.
///
/// A caller without a proof file does not know what the map holds after a write through such a reference. It knows
/// what [`MutableKeys::retain2`] leaves, and what is written to the slice of [`MutableKeys::as_mut_slice`].
pub trait MutableKeys: sealed::Sealed {
    /// The type of the keys.
    type Key;

    /// The type of the values.
    type Value;

    // The pairs of a value, from the first to the last.
    ghost pairs: { Self → List (Self.Key × Self.Value) };

    /// Returns the index of the first pair whose key matches `query`, with mutable references to the stored key and the
    /// value, or `None` if no key matches; a write may create duplicate keys.
    ///
    /// # Examples
    ///
    /// ```
    /// let mut map = vecmap!(alloc; 'a' => 1, 'b' => 2);
    /// if let Some((_index, key, _value)) = map.get_full_mut2(&'b') {
    ///     *key = 'c';
    /// }
    /// map.as_slice() // [('a', 1), ('c', 2)]
    /// ```
    fn get_full_mut2<Q: Equivalent<Self::Key>>(
        &mut self,
        query: Q,
    ) -> Option<(usize, &mut Self::Key, &mut Self::Value)>
    where
        Self::Key: Eq;

    /// Returns mutable references to the key and the value at `index`, or `None` if `index` is out of range; a write
    /// may create duplicate keys.
    ///
    /// # Examples
    ///
    /// ```
    /// let mut map = vecmap!(alloc; 'a' => 1, 'b' => 2);
    /// if let Some((key, _value)) = map.get_index_mut2(0) {
    ///     *key = 'c';
    /// }
    /// map.as_slice() // [('c', 1), ('b', 2)]
    /// ```
    fn get_index_mut2(&mut self, index: usize) -> Option<(&mut Self::Key, &mut Self::Value)>;

    /// Keeps the pairs for which `f` returns `true`, in their order, each with the key and the value that `f` left in
    /// it; `f` may create duplicate keys.
    ///
    /// `f` is called once for each pair, in order, in the state that the calls before have left. The other pairs are
    /// dropped at the end. The capacity stays.
    ///
    /// If no call of `f` writes a key, the same is proved as of [`VecMap::retain`].
    ///
    /// # Preconditions
    ///
    /// `f` can be called with each pair of the map, in the state that the calls before have left.
    ///
    /// # Complexity
    ///
    /// n calls of `f` for n pairs, and at most one swap for each pair after the first that is removed. Does not
    /// allocate.
    ///
    /// # Examples
    ///
    /// ```
    /// let mut map = vecmap!(alloc; 'a' => 1, 'b' => 2, 'c' => 3);
    /// map.retain2(|key, _value| *key != 'b');
    /// map.as_slice() // [('a', 1), ('c', 3)]
    /// ```
    fn retain2<F: FnMut(&mut Self::Key, &mut Self::Value) -> bool>(&mut self, f: F)
    where
        Self::Key: Drop,
        Self::Value: Drop,
        F: Drop,
        requires callable { CallableOnEach (CallsAtPairMut F.FnMut) (CallableAtPairMut F.FnMut) f
            (pairs self.old) };

    /// Returns an iterator over the pairs in order, each as `(&mut K, &mut V)`; a write may create duplicate keys.
    ///
    /// A proof loops over [`MutableKeys::as_mut_slice`] instead, as an invariant then says what was written. Of this
    /// iterator it knows that each pair comes as it was at this call, and that the map keeps its length and capacity.
    ///
    /// # Examples
    ///
    /// ```
    /// let mut map = vecmap!(alloc; 'a' => 1, 'b' => 2);
    /// for (key, value) in map.iter_mut2() {
    ///     (*key, *value) = ('c', 3);
    /// }
    /// map.as_slice() // [('c', 3), ('c', 3)]
    /// ```
    fn iter_mut2(&mut self) -> IterMut2<'_, Self::Key, Self::Value>;

    /// Returns an iterator over mutable references to the keys, in order; a write may create duplicate keys.
    ///
    /// A proof loops over [`MutableKeys::as_mut_slice`] instead, as an invariant then says what was written. Of this
    /// iterator it knows that each key comes as it was at this call, and that the map keeps its length and capacity.
    ///
    /// # Examples
    ///
    /// ```
    /// let mut map = vecmap!(alloc; 'a' => 1, 'b' => 2);
    /// for key in map.keys_mut() {
    ///     *key = key.to_ascii_uppercase();
    /// }
    /// map.as_slice() // [('A', 1), ('B', 2)]
    /// ```
    fn keys_mut(&mut self) -> KeysMut<'_, Self::Key, Self::Value>;

    /// Returns the pairs as a mutable slice; a write may create duplicate keys.
    ///
    /// Once the slice is no longer used, the map has the pairs as they were written, and its old length and capacity.
    /// In a loop over `as_mut_slice().iter_mut()`, an invariant can say what was written so far.
    ///
    /// # Examples
    ///
    /// ```
    /// let mut map = VecMap::from_array(alloc, [('a', 1), ('b', 2)])?;
    /// for (key, value) in map.as_mut_slice().iter_mut() {
    ///     *key = key.to_ascii_uppercase();
    ///     *value = 3;
    /// }
    /// map.as_slice() // [('A', 3), ('B', 3)]
    /// ```
    fn as_mut_slice(&mut self) -> &mut [(Self::Key, Self::Value)];
}

impl<K, V> MutableKeys for VecMap<K, V> {
    type Key = K;

    type Value = V;

    ghost pairs = { λ map. map.entries };

    ghost use Rattle.vecmap_map.specs.Lends.{lends_both_at, lends_both_beside_index};

    fn get_full_mut2<Q: Equivalent<K>>(&mut self, query: Q) -> Option<(usize, &mut K, &mut V)>
    where
        K: Eq,

        // `sem 𝓛 (..)` says what a caller knows once both references have ended: here, that the found pair is what was
        // last written, and that nothing else has changed. At `None` the map is unchanged.
        ensures* writes_back { sem 𝓛 (lends_both_beside_index K.row V.row self.entry
            (Q.equivalent query) result) }
        ensures index { option_map (λ found. found.0) result
            ≡ index_by (Q.equivalent query) self.old.entries }
        ensures within { IfSome result (λ found. found.0 < length self.old.entries) }
        ensures item { option_map (λ found. (found.1.now, found.2.now)) result
            ≡ lookup_pair_by (Q.equivalent query) self.old.entries }
    {
        let (place, map) = self.index_and_map(query);
        match place {
            Some(index) => {
                let (key, value) = parts_mut(map.whole_pair_mut(index));
                Some((index, key, value))
            }
            None => None,
        }
    }

    fn get_index_mut2(&mut self, index: usize) -> Option<(&mut K, &mut V)>
        ensures* writes_back { sem 𝓛 (lends_both_at K.row V.row self.entry index result) }
        ensures item { option_map (λ pair. (pair.0.now, pair.1.now)) result
            ≡ slice_get self.old.entries index }
        ensures found { IsSome result ↔ (index < length self.old.entries) }
    {
        match self.pair_at_mut(index) {
            Some(pair) => Some(parts_mut(pair)),
            None => None,
        }
    }

    fn retain2<F: FnMut(&mut K, &mut V) -> bool>(&mut self, f: F)
    where
        K: Drop,
        V: Drop,
        F: Drop,
        requires callable { CallableOnEach (CallsAtPairMut F.FnMut)
            (CallableAtPairMut F.FnMut) f self.old.entries }
        ensures retained { (g : F) × Kept
            (CallsAtPairMut F.FnMut) f self.old.entries self.new.entries g }
        ensures capacity { self.new.capacity ≡ self.old.capacity }

        // What follows for lookups, lengths and indices.
        ensures left { Retains
            (CallsAtPairMut F.FnMut) f self.old.entries self.new.entries }
        ensures selection { KeepsKeys (CallsAtPairMut F.FnMut)
            → RetainsPairs (CallsAtPairMut F.FnMut) f self.old.entries self.new.entries }
    {
        retain_pairs_mut(&mut self.pairs, f);
    }

    fn iter_mut2(&mut self) -> IterMut2<'_, K, V>
        ensures* writes_back { sem 𝓛 (lends_pairs K.row V.row self.entry (iter_mut2_name result)) }
        ensures rest { ShowsAllOf deref_both_mut iter_mut2_rest self.old.entries result }
    {
        IterMut2::over(&mut self.pairs)
    }

    fn keys_mut(&mut self) -> KeysMut<'_, K, V>
        ensures* writes_back { sem 𝓛 (lends_pairs K.row V.row self.entry (keys_mut_name result)) }
        ensures rest { ShowsAllOf deref_mut keys_mut_rest (keys_of self.old.entries) result }
    {
        KeysMut::over(&mut self.pairs)
    }

    fn as_mut_slice(&mut self) -> &mut [(K, V)]
        ensures* writes_back { sem 𝓛 (lends_slice K.row V.row self.entry result) }
        ensures list { result.now ≡ self.old.entries }
    {
        self.pairs.as_mut_slice()
    }
}

// Returns mutable references to the key and the value of a pair.
fn parts_mut<K, V>(pair: &mut (K, V)) -> (&mut K, &mut V)
    ensures* writes_back { sem 𝓛 (lends_parts K.row V.row pair.entry result) }
    ensures parts { pair.old ≡ (result.0.now, result.1.now) }
{
    (&mut pair.0, &mut pair.1)
}
