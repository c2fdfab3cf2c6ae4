//! Tests whether a list has duplicates.
ghost use Rattle.std.specs.{Prelude.{◌↔◌, IsTrue}, List.IsDistinct};
ghost use Rattle.vecmap_base.specs.Pairs.{HasDistinctKeys};

use crate::lookup::{find, find_item};

/// Returns `true` if all keys are distinct: there is no duplicate key.
///
/// Compares each key with the keys after it, and stops at the first duplicate.
///
/// # Complexity
///
/// At most n(n-1)/2 comparisons for n pairs. Does not allocate.
///
/// # Examples
///
/// ```
/// keys_distinct(&[('a', 1), ('b', 1)]) // true
/// keys_distinct(&[('a', 1), ('a', 2)]) // false
/// ```
pub fn keys_distinct<K: Eq, V>(pairs: &[(K, V)]) -> bool
    ensures { IsTrue result ↔ HasDistinctKeys K.eq pairs.now }
{
    for i in 0..pairs.len() {
        if find(&pairs[i + 1..], &pairs[i].0).is_some() {
            return false;
        }
    }
    true
}

/// Returns `true` if all items are distinct: there is no duplicate.
///
/// Compares each item with the items after it, and stops at the first duplicate.
///
/// # Complexity
///
/// At most n(n-1)/2 comparisons for n items. Does not allocate.
///
/// # Examples
///
/// ```
/// items_distinct(&['a', 'b']) // true
/// items_distinct(&['a', 'a']) // false
/// ```
pub fn items_distinct<T: Eq>(items: &[T]) -> bool
    ensures { IsTrue result ↔ IsDistinct T.eq items.now }
{
    for i in 0..items.len() {
        if find_item(&items[i + 1..], &items[i]).is_some() {
            return false;
        }
    }
    true
}
