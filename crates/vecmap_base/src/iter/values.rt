//! The iterators over a map's values: by reference, by mutable reference and by value.
ghost use Rattle.std.specs.{Prelude.{◌≡◌}, Map.values_of, Map.Iter.deref};
ghost use Rattle.vecmap_base.specs.Iterators.{GivesAll, ShowsAll, ShowsAllOf, deref_mut, values_mut_name, values_mut_rest};

use crate::iter::{IntoIterOf, IterMutOf, IterOf};
use crate::projection::Value;

/// An iterator over the values of a map, each as `&V`, in the order of their keys.
///
/// `VecMap::values` creates it.
///
/// # Examples
///
/// ```
/// let map = vecmap!(alloc; 'a' => 1, 'b' => 2);
/// let mut values = map.values();
/// values.next() // Some(&1)
/// values.len() // 1
/// ```
pub type Values<'a, K, V> = IterOf<'a, (K, V), V, Value>;

impl<'a, K, V> Values<'a, K, V> {
    /// Creates an iterator over the values of a slice of pairs, from the first to the last.
    ///
    /// # Examples
    ///
    /// ```
    /// let mut values = Values::over(&[('a', 1), ('b', 2)]);
    /// values.next_back() // Some(&2)
    /// ```
    pub fn over(pairs: &'a [(K, V)]) -> Values<'a, K, V>
        ensures { ShowsAll deref (values_of pairs.now) result }
    {
        Values::over_items(pairs)
    }
}

/// An iterator over the values of a map, each as `&mut V`, in the order of their keys.
///
/// `VecMap::values_mut` creates it.
///
/// # Examples
///
/// ```
/// let mut map = vecmap!(alloc; 'a' => 1, 'b' => 2);
/// let mut values = map.values_mut();
/// if let Some(value) = values.next() {
///     *value = 3;
/// }
/// map.as_slice() // [('a', 3), ('b', 2)]
/// ```
pub type ValuesMut<'a, K, V> = IterMutOf<'a, (K, V), V, Value>;

impl<'a, K, V> ValuesMut<'a, K, V> {
    /// Creates an iterator over the values of a slice of pairs, from the first to the last, each of them mutable.
    ///
    /// # Examples
    ///
    /// ```
    /// let mut pairs = [('a', 1), ('b', 2)];
    /// if let Some(value) = ValuesMut::over(&mut pairs).next() {
    ///     *value = 3;
    /// }
    /// pairs[0] // ('a', 3)
    /// ```
    pub fn over(pairs: &'a mut [(K, V)]) -> ValuesMut<'a, K, V>
        ensures lender { values_mut_name result ≡ pairs.entry.ghost_name }
        ensures rest { ShowsAllOf deref_mut values_mut_rest (values_of pairs.old) result }
    {
        ValuesMut::over_items(pairs)
    }
}

/// An iterator over the values of a map, each as `V`, in the order of their keys.
///
/// `VecMap::into_values` creates it. If the iterator is dropped, the pairs that are left are dropped too.
///
/// # Examples
///
/// ```
/// let map = vecmap!(alloc; 'a' => 1, 'b' => 2);
/// let mut values = map.into_values();
/// values.next_back() // Some(2)
/// values.len() // 1
/// ```
pub type IntoValues<K, V> = IntoIterOf<(K, V), V, Value>;

impl<K, V> IntoValues<K, V> {
    /// Creates an iterator over the values of a vector of pairs, from the first to the last. Does not allocate.
    ///
    /// # Examples
    ///
    /// ```
    /// let map = vecmap!(alloc; 'a' => 1, 'b' => 2);
    /// let mut values = IntoValues::over(map.into_vec());
    /// values.next() // Some(1)
    /// ```
    pub fn over(pairs: Vec<(K, V)>) -> IntoValues<K, V>
        ensures { GivesAll (values_of pairs.items) result }
    {
        IntoValues::over_items(pairs)
    }
}
