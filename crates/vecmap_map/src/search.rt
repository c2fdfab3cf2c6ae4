//! Binary searches in sorted pairs. None allocates.
ghost use Rattle.std.specs.Prelude.{◌≡◌, ◌<◌, ◌≤◌, Bool, Contains, IfErr, IfOk, List, Some, false, insert, is_ok, is_some, length, true};
ghost use Rattle.std.specs.{List.{All, HoldsAt}, Map.keys_of, declared.cmp.Ordering.Ordering};
ghost use Rattle.std.specs.List.Sorted.{IsBinarySearchResult, IsPartitionPoint, IsPartitionedBy, IsSearchInRange, IsSorted, IsSortedByKey};
ghost use Rattle.vecmap_base.specs.{FnCalls.{CallableOnPair, ReturnsOnPairs}, Pairs.{HasDistinctKeys, index_of, lookup, value_at}};

use crate::VecMap;
use std::cmp::Ordering;
use vecmap_base::{partition_point, search_by_index};

impl<K, V> VecMap<K, V> {
    /// Searches for a key by binary search, in a map whose keys are in ascending order.
    ///
    /// `Ok` is the index of a pair whose key compares as equal to `key`, any one of them. If there is no such pair,
    /// `Err` is the number of pairs with lesser keys, which is the index at which such a pair can be inserted.
    ///
    /// # Complexity
    ///
    /// For n pairs, log2(n) + 1 comparisons of keys, rounded up: 10 for 512 pairs. If a key has at most 8 bytes, up to
    /// half as many more: 14 for 512 pairs.
    ///
    /// # Examples
    ///
    /// ```
    /// let map = vecmap!(alloc; 'a' => 1, 'b' => 2);
    /// map.binary_search_keys(&'b') // Ok(1)
    /// map.binary_search_keys(&'c') // Err(2)
    /// ```
    pub fn binary_search_keys(&self, key: &K) -> Result<usize, usize>
    where
        K: Ord,
        ensures within { IsSearchInRange result (length self.now.entries) }
        ensures index { IsBinarySearchResult (λ p. K.cmp p.0 key.now) self.now.entries result }

        // What follows for lookups, lengths and indices.
        ensures found { IsSortedByKey (λ p. p.0) K.cmp self.now.entries
            → is_ok result ≡ is_some (lookup K.eq self.now.entries key.now) }
        ensures found_by_keys { IsSorted K.cmp (keys_of self.now.entries)
            → is_ok result ≡ is_some (lookup K.eq self.now.entries key.now) }
        ensures keys_sorted { IfErr result (λ i. IsSorted K.cmp (keys_of self.now.entries)
            → IsSorted K.cmp (insert (keys_of self.now.entries) i key.now)) }
        ensures at { HasDistinctKeys K.eq self.now.entries → IfOk result (λ i.
            (index_of K.eq self.now.entries key.now ≡ Some i)
            × (value_at self.now.entries i ≡ lookup K.eq self.now.entries key.now)) }
    {
        let pairs = self.pairs.as_slice();
        search_by_index::<K, _, _>(
            pairs,
            |index: usize| -> Ordering
                requires { index < length pairs.now }
                ensures { HoldsAt (λ p. result ≡ K.cmp p.0 key.entry.now) pairs.entry.now index }
            { pairs[index].0.cmp(key) },
        )
    }

    /// Searches the pairs by binary search, with the comparison `f`.
    ///
    /// `f` returns how a pair compares with what is sought: `Less` for the first pairs, then `Equal`, then `Greater`.
    /// `Ok` is the index of an equal pair, any one of them. If there is no such pair, `Err` is the number of pairs that
    /// are less. If the pairs are in another order, `Ok` is still the index of an equal pair, but `Err` says nothing.
    ///
    /// # Preconditions
    ///
    /// `f` can be called with each pair of the map. It is called with no others, so it may index a table by a stored
    /// value.
    ///
    /// # Complexity
    ///
    /// As many calls of `f` as [`VecMap::binary_search_keys`] makes comparisons.
    ///
    /// # Examples
    ///
    /// ```
    /// let map = vecmap!(alloc; 'a' => 1, 'b' => 2);
    /// map.binary_search_by(|_key, value| value.cmp(&2)) // Ok(1)
    /// ```
    pub fn binary_search_by<'a, F: Fn(&'a K, &'a V) -> Ordering>(
        &'a self,
        f: F,
    ) -> Result<usize, usize>
        requires callable { All (CallableOnPair F.Fn f) self.now.entries }
        ensures within { IsSearchInRange result (length self.now.entries) }
        ensures index { (ord : K × V → Ordering) → ReturnsOnPairs F.Fn ord f self.now.entries
            → IsBinarySearchResult ord self.now.entries result }
    {
        let pairs = self.pairs.as_slice();
        search_by_index::<K, _, _>(
            pairs,
            |index: usize| -> Ordering
                requires callable { All (CallableOnPair F.Fn f) pairs.now }
                requires within { index < length pairs.now }
                ensures { (ord : K × V → Ordering) → ReturnsOnPairs F.Fn ord f pairs.entry.now
                    → HoldsAt (λ p. result ≡ ord p) pairs.entry.now index }
            {
                let pair = &pairs[index];
                f(&pair.0, &pair.1)
            },
        )
    }

    /// Searches the pairs by binary search for the sort key `key`, where `f` returns the sort key of a pair.
    ///
    /// The sort keys are in ascending order. `Ok` and `Err` are as for [`VecMap::binary_search_by`].
    ///
    /// # Preconditions
    ///
    /// `f` can be called with each pair of the map.
    ///
    /// # Complexity
    ///
    /// As many calls of `f`, and comparisons, as [`VecMap::binary_search_keys`] makes comparisons.
    ///
    /// # Examples
    ///
    /// ```
    /// let map = vecmap!(alloc; 'a' => 1, 'b' => 2);
    /// map.binary_search_by_key(&2, |_key, value| *value) // Ok(1)
    /// ```
    pub fn binary_search_by_key<'a, B: Ord + Drop, F: Fn(&'a K, &'a V) -> B>(
        &'a self,
        key: &B,
        f: F,
    ) -> Result<usize, usize>
        requires callable { All (CallableOnPair F.Fn f) self.now.entries }
        ensures within { IsSearchInRange result (length self.now.entries) }
        ensures index { (key_of : K × V → B) → ReturnsOnPairs F.Fn key_of f self.now.entries
            → IsBinarySearchResult (λ p. B.cmp (key_of p) key.now) self.now.entries result }
    {
        let pairs = self.pairs.as_slice();
        search_by_index::<K, _, _>(
            pairs,
            |index: usize| -> Ordering
                requires callable { All (CallableOnPair F.Fn f) pairs.now }
                requires within { index < length pairs.now }
                ensures { (key_of : K × V → B) → ReturnsOnPairs F.Fn key_of f pairs.entry.now
                    → HoldsAt (λ p. result ≡ B.cmp (key_of p) key.entry.now) pairs.entry.now index }
            {
                let pair = &pairs[index];
                f(&pair.0, &pair.1).cmp(key)
            },
        )
    }

    /// Returns the number of pairs for which `pred` returns `true`, if these pairs come first.
    ///
    /// If they do not, the result is only known to be at most `len`.
    ///
    /// # Preconditions
    ///
    /// `pred` can be called with each pair of the map.
    ///
    /// # Complexity
    ///
    /// As many calls of `pred` as [`VecMap::binary_search_keys`] makes comparisons.
    ///
    /// # Examples
    ///
    /// ```
    /// let map = vecmap!(alloc; 'a' => 1, 'b' => 2);
    /// map.partition_point(|key, _value| *key < 'b') // 1
    /// ```
    pub fn partition_point<P: Fn(&K, &V) -> bool>(&self, pred: P) -> usize
        requires callable { All (CallableOnPair P.Fn pred) self.now.entries }
        ensures within { result ≤ length self.now.entries }
        ensures index { (p : K × V → Bool) → ReturnsOnPairs P.Fn p pred self.now.entries
            → IsPartitionedBy p self.now.entries
            → IsPartitionPoint (λ x. p x ≡ true) (λ x. p x ≡ false) self.now.entries result }
    {
        partition_point::<K, _, _>(
            &self.pairs,
            |pair: &(K, V)| -> bool
                requires { CallableOnPair P.Fn pred pair.now }
                ensures { (p : K × V → Bool) (l : List (K × V)) → ReturnsOnPairs P.Fn p pred l
                    → Contains l pair.now → result ≡ p pair.now }
            { pred(&pair.0, &pair.1) },
        )
    }
}
