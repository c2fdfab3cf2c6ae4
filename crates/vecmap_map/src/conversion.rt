//! Conversions of a vector into a map, which keep the vector, and of an array; clones of the pairs in a new vector.
ghost use Rattle.std.specs.{Prelude.{◌≡◌, ◌≤◌, IfOk, length, vec_capacity}, Map.keys_of};
ghost use Rattle.vecmap_base.specs.{Clones.ArePairClones, Comparisons.comparisons, Lookups.MakesPairs, Pairs.HasDistinctKeys};

use crate::VecMap;
use std::alloc::{AllocError, Global};
use vecmap_base::{Steps, dedup_keep_last_value};

/// Converts a vector into a map, in the same memory, and removes pairs with duplicate keys.
///
/// Among duplicate keys the first is kept, with the last of their values. The capacity stays.
///
/// # Complexity
///
/// As many comparisons as [`VecMap::from_vec_counted`]. Does not allocate.
///
/// # Examples
///
/// ```
/// let map = VecMap::from(vec![in alloc; ('a', 1), ('b', 2), ('a', 3)]?);
/// map.as_slice() // [('a', 3), ('b', 2)]
/// ```
impl<K: Eq + Drop, V: Drop> From<Vec<(K, V)>> for VecMap<K, V> {
    ghost from_gives = { λ pairs map. MakesPairs K.eq pairs.items map.entries
        × (map.capacity ≡ vec_capacity pairs) };

    fn from(pairs: Vec<(K, V)>) -> VecMap<K, V> {
        let (map, _count) = VecMap::from_vec_counted(pairs);
        map
    }
}

impl<K, V> VecMap<K, V> {
    /// Like `From<Vec<(K, V)>>`, but also returns the number of comparisons.
    ///
    /// # Complexity
    ///
    /// Each key is compared with the keys before it that stay, up to the first equal one. These are at most n(n-1)/2
    /// comparisons for n pairs, and exactly as many if all keys are distinct (`key_comparisons_are_bounded` of
    /// `vecmap_laws`).
    ///
    /// # Examples
    ///
    /// ```
    /// let (map, comparisons) = VecMap::from_vec_counted(vec![in alloc; ('a', 1), ('b', 2), ('a', 3)]?);
    /// comparisons // 2
    /// map.as_slice() // [('a', 3), ('b', 2)]
    /// ```
    pub fn from_vec_counted(mut pairs: Vec<(K, V)>) -> (VecMap<K, V>, u128)
    where
        K: Eq + Drop,
        V: Drop,
        ensures insertion { MakesPairs K.eq pairs.items result.0.entries }
        ensures capacity { result.0.capacity ≡ vec_capacity pairs }
        ensures counted { result.1 ≡ comparisons K.eq (keys_of pairs.items) }
    {
        let mut steps = Steps::new();
        dedup_keep_last_value(&mut pairs, &mut steps);
        (VecMap { pairs }, steps.count())
    }

    /// Creates a map and inserts the pairs of an array, in order.
    ///
    /// This is Rust's `From<[(K, V); N]>`. Among duplicate keys the first is kept, with the last of their values.
    ///
    /// # Errors
    ///
    /// [`AllocError`] if allocation fails; the pairs are then dropped, and no map is created.
    ///
    /// # Complexity
    ///
    /// As many comparisons as [`VecMap::from_vec_counted`], and one allocation.
    ///
    /// # Examples
    ///
    /// ```
    /// let map = VecMap::from_array(alloc, [('a', 1), ('b', 2), ('a', 3)])?;
    /// map.as_slice() // [('a', 3), ('b', 2)]
    /// ```
    pub fn from_array<const N: usize>(
        alloc: Global,
        pairs: [(K, V); N],
    ) -> Result<VecMap<K, V>, AllocError>
    where
        K: Eq + Drop,
        V: Drop,
        ensures insertion { IfOk result (λ map. MakesPairs K.eq pairs map.entries) }
        ensures at_least { IfOk result (λ map. N ≤ map.capacity) }

        // What follows for lookups, lengths and indices.
        ensures len { IfOk result (λ map. length map.entries ≤ N) }
    {
        Ok(VecMap::from(Vec::from_array(alloc, pairs)?))
    }

    /// Converts a vector into a map, in the same memory, without a search for duplicate keys.
    ///
    /// # Preconditions
    ///
    /// All keys are distinct: `keys_distinct` returns `true`.
    ///
    /// # Examples
    ///
    /// ```
    /// let pairs = vec![in alloc; ('a', 1), ('b', 2)]?;
    /// # assert!(*rt; keys_distinct(&pairs));
    /// let map = VecMap::from_vec_unchecked(pairs);
    /// map.as_slice() // [('a', 1), ('b', 2)]
    /// ```
    pub fn from_vec_unchecked(pairs: Vec<(K, V)>) -> VecMap<K, V>
    where
        K: Eq,
        requires distinct { HasDistinctKeys K.eq pairs.items }
        ensures list { result.entries ≡ pairs.items }
        ensures distinct { HasDistinctKeys K.eq result.entries }
        ensures capacity { result.capacity ≡ vec_capacity pairs }
    {
        VecMap { pairs }
    }

    /// Returns a vector of clones of the pairs, in order.
    ///
    /// # Errors
    ///
    /// [`AllocError`] if allocation fails, or if the clone of a key or a value fails; no vector is created.
    ///
    /// # Complexity
    ///
    /// One clone of each key and of each value, one allocation for the pairs, and no comparisons.
    ///
    /// # Examples
    ///
    /// ```
    /// let map = vecmap!(alloc; 'a' => 1, 'b' => 2);
    /// map.to_vec()?.as_slice() // [('a', 1), ('b', 2)]
    /// ```
    pub fn to_vec(&self) -> Result<Vec<(K, V)>, AllocError>
    where
        K: Clone,
        V: Clone,
        ensures { IfOk result
            (λ pairs. ArePairClones K.is_clone V.is_clone self.now.entries pairs.items) }
    {
        self.pairs.clone()
    }
}
