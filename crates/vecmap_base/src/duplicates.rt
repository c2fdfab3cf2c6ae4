//! Removal of duplicates in place. Nothing is shifted, and one truncation at the end removes the duplicates.
//!
//! Each item is compared with the kept items before it, in order, up to the first equal one. So n items need at most
//! n(n-1)/2 comparisons, and exactly as many if all are distinct (a law of `vecmap_laws`).
ghost use Rattle.std.specs.{Prelude.{◌≡◌, ◌+◌, ◌<◌, ◌≤◌, [], IfSome, length, swap, take, vec_capacity}, List.Sorted.IsPermutation};
ghost use Rattle.std.specs.{Map.{keys_of, values_of}, Set.is_member};
ghost use Rattle.vecmap_base.specs.{Items.adds, Pairs.{index_of, puts}, Comparisons.{comparisons, cost, search_cost}};

use crate::steps::Steps;
use std::mem;

// Returns `true` if an element of `front` is equal to `item`. Counts each comparison, and stops at the first equal
// element.
fn contains_counted<T: Eq>(front: &[T], item: &T, steps: &mut Steps) -> bool
    requires bounded { steps.old + length front.now ≤ u128.MAX }
    ensures found { result ≡ is_member T.eq front.now item.now }
    ensures counted { steps.new ≡ steps.old + search_cost T.eq front.now item.now }
{
    for stored in front {
        if steps.same(item, stored) {
            return true;
        }
    }
    false
}

// Returns the index of the first pair of `front` whose key is equal to `key`. Counts each comparison, and stops at this
// pair.
fn find_counted<K: Eq, V>(front: &[(K, V)], key: &K, steps: &mut Steps) -> Option<usize>
    requires bounded { steps.old + length front.now ≤ u128.MAX }
    ensures index { result ≡ index_of K.eq front.now key.now }
    ensures within { IfSome result (λ i. i < length front.now) }
    ensures counted { steps.new ≡ steps.old + search_cost K.eq (keys_of front.now) key.now }
{
    for (index, pair) in front.iter().enumerate() {
        if steps.same(key, &pair.0) {
            return Some(index);
        }
    }
    None
}

// Swaps the values of two pairs.
fn swap_values<K, V>(pairs: &mut [(K, V)], i: usize, j: usize)
    requires before { i < j }
    requires within { j < length pairs.old }
    ensures keys { keys_of pairs.new ≡ keys_of pairs.old }
    ensures values { values_of pairs.new ≡ swap (values_of pairs.old) i j }
{
    let (front, back) = pairs.split_at_mut(j);
    mem::swap(&mut front[i].1, &mut back[0].1);
}

/// Moves the first pair of each key to the front, with the last value of that key, and returns their number.
///
/// The pairs at the front keep their order. They are the pairs that a map has after the insertion of all pairs, in
/// order. All keys and all values stay in the slice, rearranged.
///
/// # Preconditions
///
/// The count of `steps`, plus n(n-1)/2 for n pairs, is at most `u128::MAX`. This always holds for a new [`Steps`].
///
/// # Complexity
///
/// Compares each key with the kept keys before it, up to the first equal one: at most n(n-1)/2 comparisons for n pairs,
/// and exactly as many if all keys are distinct. Does not allocate.
///
/// # Examples
///
/// ```
/// let mut pairs = [('a', 1), ('b', 2), ('a', 3)];
/// gather_pairs(&mut pairs, &mut Steps::new()) // 2
/// pairs.as_slice() // [('a', 3), ('b', 2), ('a', 1)]
/// ```
pub fn gather_pairs<K: Eq, V>(pairs: &mut [(K, V)], steps: &mut Steps) -> usize
    requires bounded { steps.old + cost (length pairs.old) ≤ u128.MAX }
    ensures count { result ≡ length (puts K.eq [] pairs.old) }
    ensures front { take result pairs.new ≡ puts K.eq [] pairs.old }
    ensures keys { IsPermutation (keys_of pairs.old) (keys_of pairs.new) }
    ensures values { IsPermutation (values_of pairs.old) (values_of pairs.new) }
    ensures counted { steps.new ≡ steps.old + comparisons K.eq (keys_of pairs.old) }
{
    let mut kept = 0;
    for i in 0..pairs.len() {
        let shared = &pairs[..];
        match find_counted(&shared[..kept], &shared[i].0, steps) {
            Some(index) => swap_values(pairs, index, i),
            None => {
                pairs.swap(kept, i);
                kept += 1;
            }
        }
    }
    kept
}

/// Moves each item that is equal to no earlier item to the front, and returns their number.
///
/// The items at the front keep their order. All items stay in the slice, rearranged.
///
/// # Preconditions
///
/// The count of `steps`, plus n(n-1)/2 for n items, is at most `u128::MAX`. This always holds for a new [`Steps`].
///
/// # Complexity
///
/// Compares each item with the kept items before it, up to the first equal one: at most n(n-1)/2 comparisons for n
/// items, and exactly as many if all are distinct. Does not allocate.
///
/// # Examples
///
/// ```
/// let mut items = [1, 1, 2];
/// gather_items(&mut items, &mut Steps::new()) // 2
/// items.as_slice() // [1, 2, 1]
/// ```
pub fn gather_items<T: Eq>(items: &mut [T], steps: &mut Steps) -> usize
    requires bounded { steps.old + cost (length items.old) ≤ u128.MAX }
    ensures count { result ≡ length (adds T.eq [] items.old) }
    ensures front { take result items.new ≡ adds T.eq [] items.old }
    ensures list { IsPermutation items.old items.new }
    ensures counted { steps.new ≡ steps.old + comparisons T.eq items.old }
{
    let mut kept = 0;
    for i in 0..items.len() {
        let shared = &items[..];
        if !contains_counted(&shared[..kept], &shared[i], steps) {
            items.swap(kept, i);
            kept += 1;
        }
    }
    kept
}

/// Removes pairs with duplicate keys: keeps the first pair of each key, with the last value of that key.
///
/// The kept pairs keep their order. They are the pairs that a map has after the insertion of all pairs, in order. The
/// other keys and values are dropped, none of them before the last comparison.
///
/// # Preconditions
///
/// The count of `steps`, plus n(n-1)/2 for n pairs, is at most `u128::MAX`. This always holds for a new [`Steps`].
///
/// # Complexity
///
/// Compares each key with the kept keys before it, up to the first equal one: at most n(n-1)/2 comparisons for n pairs,
/// and exactly as many if all keys are distinct. Does not allocate.
///
/// # Examples
///
/// ```
/// let mut pairs = vec![in alloc; ('a', 1), ('b', 2), ('a', 3)]?;
/// dedup_keep_last_value(&mut pairs, &mut Steps::new());
/// pairs.as_slice() // [('a', 3), ('b', 2)]
/// ```
pub fn dedup_keep_last_value<K: Eq + Drop, V: Drop>(pairs: &mut Vec<(K, V)>, steps: &mut Steps)
    requires bounded { steps.old + cost (length pairs.old.items) ≤ u128.MAX }
    ensures list { pairs.new.items ≡ puts K.eq [] pairs.old.items }
    ensures capacity { vec_capacity pairs.new ≡ vec_capacity pairs.old }
    ensures counted { steps.new ≡ steps.old + comparisons K.eq (keys_of pairs.old.items) }
{
    let kept = gather_pairs(pairs, steps);
    pairs.truncate(kept);
}

/// Removes duplicates: keeps the items that are equal to no earlier item.
///
/// The kept items keep their order. The other items are dropped, none of them before the last comparison.
///
/// # Preconditions
///
/// The count of `steps`, plus n(n-1)/2 for n items, is at most `u128::MAX`. This always holds for a new [`Steps`].
///
/// # Complexity
///
/// Compares each item with the kept items before it, up to the first equal one: at most n(n-1)/2 comparisons for n
/// items, and exactly as many if all are distinct. Does not allocate.
///
/// # Examples
///
/// ```
/// let mut items = vec![in alloc; 2, 1, 2]?;
/// dedup_keep_first(&mut items, &mut Steps::new());
/// items.as_slice() // [2, 1]
/// ```
pub fn dedup_keep_first<T: Eq + Drop>(items: &mut Vec<T>, steps: &mut Steps)
    requires bounded { steps.old + cost (length items.old.items) ≤ u128.MAX }
    ensures list { items.new.items ≡ adds T.eq [] items.old.items }
    ensures capacity { vec_capacity items.new ≡ vec_capacity items.old }
    ensures counted { steps.new ≡ steps.old + comparisons T.eq items.old.items }
{
    let kept = gather_items(items, steps);
    items.truncate(kept);
}
