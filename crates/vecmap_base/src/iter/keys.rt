//! The iterators over a map's keys: by reference, by mutable reference and by value.
ghost use Rattle.std.specs.{Prelude.{◌≡◌}, Map.keys_of, Map.Iter.deref};
ghost use Rattle.vecmap_base.specs.Iterators.{GivesAll, ShowsAll, ShowsAllOf, deref_mut, keys_mut_name, keys_mut_rest};

use crate::iter::{IntoIterOf, IterMutOf, IterOf};
use crate::projection::Key;

/// An iterator over the keys of a map, each as `&K`, in their order.
///
/// `VecMap::keys` creates it.
///
/// # Examples
///
/// ```
/// let map = vecmap!(alloc; 'a' => 1, 'b' => 2);
/// let mut keys = map.keys();
/// keys.next() // Some(&'a')
/// keys.len() // 1
/// ```
pub type Keys<'a, K, V> = IterOf<'a, (K, V), K, Key>;

impl<'a, K, V> Keys<'a, K, V> {
    /// Creates an iterator over the keys of a slice of pairs, from the first to the last.
    ///
    /// # Examples
    ///
    /// ```
    /// let mut keys = Keys::over(&[('a', 1), ('b', 2)]);
    /// keys.next_back() // Some(&'b')
    /// ```
    pub fn over(pairs: &'a [(K, V)]) -> Keys<'a, K, V>
        ensures { ShowsAll deref (keys_of pairs.now) result }
    {
        Keys::over_items(pairs)
    }
}

/// An iterator over the keys of a map, each as `&mut K`, in their order.
///
/// A key that is written may become equal to another.
///
/// # Examples
///
/// ```
/// let mut map = vecmap!(alloc; 'a' => 1, 'b' => 2);
/// let mut keys = map.keys_mut();
/// if let Some(key) = keys.next() {
///     *key = 'c';
/// }
/// map.as_slice() // [('c', 1), ('b', 2)]
/// ```
pub type KeysMut<'a, K, V> = IterMutOf<'a, (K, V), K, Key>;

impl<'a, K, V> KeysMut<'a, K, V> {
    /// Creates an iterator over the keys of a slice of pairs, from the first to the last, each of them mutable.
    ///
    /// # Examples
    ///
    /// ```
    /// let mut pairs = [('a', 1), ('b', 2)];
    /// if let Some(key) = KeysMut::over(&mut pairs).next() {
    ///     *key = 'c';
    /// }
    /// pairs[0] // ('c', 1)
    /// ```
    pub fn over(pairs: &'a mut [(K, V)]) -> KeysMut<'a, K, V>
        ensures lender { keys_mut_name result ≡ pairs.entry.ghost_name }
        ensures rest { ShowsAllOf deref_mut keys_mut_rest (keys_of pairs.old) result }
    {
        KeysMut::over_items(pairs)
    }
}

/// An iterator over the keys of a map, each as `K`, in their order.
///
/// `VecMap::into_keys` creates it. If the iterator is dropped, the pairs that are left are dropped too.
///
/// # Examples
///
/// ```
/// let map = vecmap!(alloc; 'a' => 1, 'b' => 2);
/// let mut keys = map.into_keys();
/// keys.next_back() // Some('b')
/// keys.len() // 1
/// ```
pub type IntoKeys<K, V> = IntoIterOf<(K, V), K, Key>;

impl<K, V> IntoKeys<K, V> {
    /// Creates an iterator over the keys of a vector of pairs, from the first to the last. Does not allocate.
    ///
    /// # Examples
    ///
    /// ```
    /// let map = vecmap!(alloc; 'a' => 1, 'b' => 2);
    /// let mut keys = IntoKeys::over(map.into_vec());
    /// keys.next() // Some('a')
    /// ```
    pub fn over(pairs: Vec<(K, V)>) -> IntoKeys<K, V>
        ensures { GivesAll (keys_of pairs.items) result }
    {
        IntoKeys::over_items(pairs)
    }
}
