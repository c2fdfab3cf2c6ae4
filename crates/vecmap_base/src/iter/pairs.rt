//! The iterators over a map's pairs: by reference, by mutable reference and by value.
ghost use Rattle.std.specs.{Prelude.{◌≡◌}, Map.Iter.{ShowsValuesInOrder, ShowsValuesInReverse, deref_pair, deref_pair_mut}};
ghost use Rattle.vecmap_base.specs.Iterators.{GivesAll, ShowsAll, ShowsAllOf, deref_both_mut, iter_mut2_name, iter_mut2_rest, iter_mut_name, iter_mut_rest};

use crate::iter::{IntoIterOf, IterMutOf, IterOf};
use crate::projection::{Pair, PairMut};

/// An iterator over the pairs of a map, each as `(&K, &V)`, in their order.
///
/// `VecMap::iter` and `(&map).into_iter()` create it.
///
/// # Examples
///
/// ```
/// let map = vecmap!(alloc; 'a' => 1, 'b' => 2);
/// let mut pairs = map.iter();
/// pairs.next() // Some((&'a', &1))
/// pairs.len() // 1
/// ```
pub type Iter<'a, K, V> = IterOf<'a, (K, V), (K, V), Pair>;

impl<'a, K, V> Iter<'a, K, V> {
    /// Creates an iterator over the pairs of a slice, from the first to the last.
    ///
    /// # Examples
    ///
    /// ```
    /// let mut pairs = Iter::over(&[('a', 1), ('b', 2)]);
    /// pairs.next_back() // Some((&'b', &2))
    /// ```
    pub fn over(pairs: &'a [(K, V)]) -> Iter<'a, K, V>
        ensures rest { ShowsAll deref_pair pairs.now result }
        ensures values_run { ShowsValuesInOrder (deref_pair {K = K} {X = V}) }
        ensures values_run_back { ShowsValuesInReverse (deref_pair {K = K} {X = V}) }
    {
        Iter::over_items(pairs)
    }
}

/// An iterator over the pairs of a map, each as `(&K, &mut V)`, in their order.
///
/// `VecMap::iter_mut` and `(&mut map).into_iter()` create it.
///
/// # Examples
///
/// ```
/// let mut map = vecmap!(alloc; 'a' => 1, 'b' => 2);
/// let mut pairs = map.iter_mut();
/// if let Some((_key, value)) = pairs.next_back() {
///     *value = 3;
/// }
/// map.as_slice() // [('a', 1), ('b', 3)]
/// ```
pub type IterMut<'a, K, V> = IterMutOf<'a, (K, V), (K, V), Pair>;

impl<'a, K, V> IterMut<'a, K, V> {
    /// Creates an iterator over the pairs of a slice, from the first to the last, with mutable values.
    ///
    /// # Examples
    ///
    /// ```
    /// let mut pairs = [('a', 1), ('b', 2)];
    /// if let Some((_key, value)) = IterMut::over(&mut pairs).next() {
    ///     *value = 3;
    /// }
    /// pairs[0] // ('a', 3)
    /// ```
    pub fn over(pairs: &'a mut [(K, V)]) -> IterMut<'a, K, V>
        ensures lender { iter_mut_name result ≡ pairs.entry.ghost_name }
        ensures rest { ShowsAllOf deref_pair_mut iter_mut_rest pairs.old result }
    {
        IterMut::over_items(pairs)
    }
}

/// An iterator over the pairs of a map, each as `(&mut K, &mut V)`, in their order.
///
/// A key that is written may become equal to another.
///
/// # Examples
///
/// ```
/// let mut map = vecmap!(alloc; 'a' => 1, 'b' => 2);
/// let mut pairs = map.iter_mut2();
/// if let Some((key, _value)) = pairs.next() {
///     *key = 'c';
/// }
/// map.as_slice() // [('c', 1), ('b', 2)]
/// ```
pub type IterMut2<'a, K, V> = IterMutOf<'a, (K, V), (K, V), PairMut>;

impl<'a, K, V> IterMut2<'a, K, V> {
    /// Creates an iterator over the pairs of a slice, from the first to the last, with mutable keys and values.
    ///
    /// # Examples
    ///
    /// ```
    /// let mut pairs = [('a', 1), ('b', 2)];
    /// if let Some((key, _value)) = IterMut2::over(&mut pairs).next() {
    ///     *key = 'c';
    /// }
    /// pairs[0] // ('c', 1)
    /// ```
    pub fn over(pairs: &'a mut [(K, V)]) -> IterMut2<'a, K, V>
        ensures lender { iter_mut2_name result ≡ pairs.entry.ghost_name }
        ensures rest { ShowsAllOf deref_both_mut iter_mut2_rest pairs.old result }
    {
        IterMut2::over_items(pairs)
    }
}

/// An iterator over the pairs of a map, each as `(K, V)`, in their order.
///
/// `map.into_iter()` creates it. If the iterator is dropped, the pairs that are left are dropped too.
///
/// # Examples
///
/// ```
/// let map = vecmap!(alloc; 'a' => 1, 'b' => 2);
/// let mut pairs = map.into_iter();
/// pairs.next_back() // Some(('b', 2))
/// pairs.len() // 1
/// ```
pub type IntoIter<K, V> = IntoIterOf<(K, V), (K, V), Pair>;

impl<K, V> IntoIter<K, V> {
    /// Creates an iterator over the pairs of a vector, from the first to the last. Does not allocate.
    ///
    /// # Examples
    ///
    /// ```
    /// let map = vecmap!(alloc; 'a' => 1, 'b' => 2);
    /// let mut pairs = IntoIter::over(map.into_vec());
    /// pairs.next() // Some(('a', 1))
    /// ```
    pub fn over(pairs: Vec<(K, V)>) -> IntoIter<K, V>
        ensures rest { GivesAll pairs.items result }
        ensures values_run { ShowsValuesInOrder (λ (p : K × V). p) }
        ensures values_run_back { ShowsValuesInReverse (λ (p : K × V). p) }
    {
        IntoIter::over_items(pairs)
    }
}
