//! Iterators over the pairs, the keys and the values.
//!
//! A contract sees an iterator as the list of its remaining items, and a mutable one by definitions such as
//! `iter_mut_rest`. Each iterator knows its exact length and yields items from both ends. After its last item it
//! returns only `None`. Creating one takes constant time and does not allocate.
ghost use Rattle.std.specs.{Borrow.sem, Map.{keys_of, values_of}};
ghost use Rattle.std.specs.Map.Iter.{ShowsValuesInOrder, ShowsValuesInReverse, deref, deref_pair, deref_pair_mut};
ghost use Rattle.vecmap_base.specs.Iterators.{GivesAll, ShowsAll, ShowsAllOf, deref_mut, iter_mut_name, iter_mut_rest, values_mut_name, values_mut_rest};
ghost use Rattle.vecmap_map.specs.Lends.{lends_pairs};

use crate::VecMap;
use vecmap_base::{IntoIter, IntoKeys, IntoValues, Iter, IterMut, Keys, Values, ValuesMut};

impl<K, V> VecMap<K, V> {
    /// Returns an iterator over the pairs in order, each as `(&K, &V)`.
    ///
    /// `iter().rev()` iterates backwards.
    ///
    /// # Examples
    ///
    /// ```
    /// let map = vecmap!(alloc; 'a' => 1, 'b' => 2);
    /// map.iter().next() // Some((&'a', &1))
    /// map.iter().next_back() // Some((&'b', &2))
    /// ```
    pub fn iter(&self) -> Iter<'_, K, V>
        ensures rest { ShowsAll deref_pair self.now.entries result
            × ShowsValuesInOrder (deref_pair {K = K} {X = V})
            × ShowsValuesInReverse (deref_pair {K = K} {X = V}) }
    {
        Iter::over(&self.pairs)
    }

    /// Returns an iterator over the pairs in order, each as `(&K, &mut V)`.
    ///
    /// A proof loops over `map.as_mut_slice().iter_mut()` of [`MutableKeys`](crate::MutableKeys) instead: an invariant
    /// then says which keys stay and what was written. Or it calls [`VecMap::update_values`]. Of this iterator it knows
    /// that each value comes as it was at this call, and that the map keeps its length and capacity.
    ///
    /// # Examples
    ///
    /// ```
    /// let mut map = vecmap!(alloc; 'a' => 1, 'b' => 2);
    /// for (_key, value) in map.iter_mut() {
    ///     *value = 3;
    /// }
    /// map.as_slice() // [('a', 3), ('b', 3)]
    /// ```
    pub fn iter_mut(&mut self) -> IterMut<'_, K, V>
        ensures* writes_back { sem 𝓛 (lends_pairs K.row V.row self.entry (iter_mut_name result)) }
        ensures rest { ShowsAllOf deref_pair_mut iter_mut_rest self.old.entries result }
    {
        IterMut::over(&mut self.pairs)
    }

    /// Returns an iterator over the keys, in order.
    ///
    /// # Examples
    ///
    /// ```
    /// let map = vecmap!(alloc; 'a' => 1, 'b' => 2);
    /// map.keys().copied().collect::<Vec<char>>(alloc)?.as_slice() // ['a', 'b']
    /// ```
    pub fn keys(&self) -> Keys<'_, K, V>
        ensures { ShowsAll deref (keys_of self.now.entries) result }
    {
        Keys::over(&self.pairs)
    }

    /// Returns an iterator over the values, in the order of their keys.
    ///
    /// # Examples
    ///
    /// ```
    /// let map = vecmap!(alloc; 'a' => 1, 'b' => 2);
    /// map.values().copied().collect::<Vec<u32>>(alloc)?.as_slice() // [1, 2]
    /// ```
    pub fn values(&self) -> Values<'_, K, V>
        ensures { ShowsAll deref (values_of self.now.entries) result }
    {
        Values::over(&self.pairs)
    }

    /// Returns an iterator over mutable references to the values, in the order of their keys.
    ///
    /// A proof loops over `map.as_mut_slice().iter_mut()` of [`MutableKeys`](crate::MutableKeys) instead: an invariant
    /// then says which keys stay and what was written. Or it calls [`VecMap::update_values`]. Of this iterator it knows
    /// that each value comes as it was at this call, and that the map keeps its length and capacity.
    ///
    /// # Examples
    ///
    /// ```
    /// let mut map = vecmap!(alloc; 'a' => 1, 'b' => 2);
    /// for value in map.values_mut() {
    ///     *value = 3;
    /// }
    /// map.as_slice() // [('a', 3), ('b', 3)]
    /// ```
    pub fn values_mut(&mut self) -> ValuesMut<'_, K, V>
        ensures* writes_back { sem 𝓛 (lends_pairs K.row V.row self.entry (values_mut_name result)) }
        ensures rest { ShowsAllOf deref_mut values_mut_rest (values_of self.old.entries) result }
    {
        ValuesMut::over(&mut self.pairs)
    }

    /// Converts the map into an iterator over its keys, in order. Each value is dropped when its key is returned.
    ///
    /// # Examples
    ///
    /// ```
    /// let map = vecmap!(alloc; 'a' => 1, 'b' => 2);
    /// map.into_keys().next() // Some('a')
    /// ```
    pub fn into_keys(self) -> IntoKeys<K, V>
        ensures { GivesAll (keys_of self.entries) result }
    {
        IntoKeys::over(self.into_vec())
    }

    /// Converts the map into an iterator over its values, in the order of their keys.
    ///
    /// Each key is dropped when its value is returned.
    ///
    /// # Examples
    ///
    /// ```
    /// let map = vecmap!(alloc; 'a' => 1, 'b' => 2);
    /// map.into_values().next() // Some(1)
    /// ```
    pub fn into_values(self) -> IntoValues<K, V>
        ensures { GivesAll (values_of self.entries) result }
    {
        IntoValues::over(self.into_vec())
    }
}

/// Returns an iterator over the pairs, like [`VecMap::iter`]. This is `for (key, value) in &map`.
///
/// # Examples
///
/// ```
/// let map = vecmap!(alloc; 'a' => 1, 'b' => 2);
/// let mut last = ('-', 0);
/// for (key, value) in &map {
///     last = (*key, *value);
/// }
/// last // ('b', 2)
/// ```
impl<'a, K, V> IntoIterator for &'a VecMap<K, V> {
    type Item = (&'a K, &'a V);

    type IntoIter = Iter<'a, K, V>;

    ghost into_iter_gives = { λ map iter. ShowsAll deref_pair map.now.entries iter
        × ShowsValuesInOrder (deref_pair {K = K} {X = V})
        × ShowsValuesInReverse (deref_pair {K = K} {X = V}) };

    fn into_iter(self) -> Iter<'a, K, V> {
        self.iter()
    }
}

/// Returns an iterator over the pairs, like [`VecMap::iter_mut`]. This is `for (key, value) in &mut map`.
///
/// # Examples
///
/// ```
/// let mut map = vecmap!(alloc; 'a' => 1, 'b' => 2);
/// for (_key, value) in &mut map {
///     *value = 3;
/// }
/// map.as_slice() // [('a', 3), ('b', 3)]
/// ```
impl<'a, K, V> IntoIterator for &'a mut VecMap<K, V> {
    type Item = (&'a K, &'a mut V);

    type IntoIter = IterMut<'a, K, V>;

    ghost into_iter_gives = { λ map iter. ShowsAllOf deref_pair_mut iter_mut_rest map.now.entries iter };

    fn into_iter(self) -> IterMut<'a, K, V>
        ensures* writes_back { sem 𝓛 (lends_pairs K.row V.row self.entry (iter_mut_name result)) }
        ensures into_iter_gives { ShowsAllOf deref_pair_mut iter_mut_rest self.old.entries result }
    {
        self.iter_mut()
    }
}

/// Returns an iterator over the pairs by value, in order. This is `for (key, value) in map`.
///
/// # Examples
///
/// ```
/// let map = vecmap!(alloc; 'a' => 1, 'b' => 2);
/// map.into_iter().next() // Some(('a', 1))
/// ```
impl<K: Drop, V: Drop> IntoIterator for VecMap<K, V> {
    type Item = (K, V);

    type IntoIter = IntoIter<K, V>;

    ghost into_iter_gives = { λ map iter. GivesAll map.entries iter
        × ShowsValuesInOrder (λ (p : K × V). p)
        × ShowsValuesInReverse (λ (p : K × V). p) };

    fn into_iter(self) -> IntoIter<K, V> {
        IntoIter::over(self.into_vec())
    }
}
