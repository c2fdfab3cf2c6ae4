//! Searches of a slice for the first key or item that is equal to one, has the bytes of a text, or matches a query.
//!
//! Three functions return whether an item is present. `contains_equivalent` takes a query. `contains_item` takes an item,
//! and `contains_item_inline` differs in speed alone: it inlines the loop over few items.
//!
//! Each makes at most as many comparisons as the slice has items, and does not allocate.
ghost use Rattle.std.specs.{Prelude.{◌≡◌, ◌<◌, ◌≤◌, IfSome, IsTrue, length, position}, List.list_any};
ghost use Rattle.std.specs.{Set.is_member};
ghost use Rattle.vecmap_base.specs.{Items.item_index, Pairs.{has_text, index_by, index_of}};

use crate::equivalent::Equivalent;
use crate::unrolled::{
    find_by_eights, find_item_unrolled, find_pair_unrolled, is_any_from, is_any_in_blocks, is_small,
};

// The least length of a list of small items for which `is_any_in_blocks` is faster than a plain loop.
pub(crate) const MIN_LENGTH_FOR_BLOCKS: usize = 4;

// The least length of a list of small items for which `find_item_unrolled` is faster.
const MIN_LENGTH_FOR_FOURS: usize = 8;

// The least length of a list of small items for which `find_by_eights` is faster.
const MIN_LENGTH_FOR_EIGHTS: usize = 32;

// The least length of a list for which a test whether an item is present is worth a call.
pub(crate) const MIN_LENGTH_FOR_CALL: usize = 8;

/// Returns the index of the first pair whose key is equal to `key`.
///
/// # Examples
///
/// ```
/// find(&[('a', 1), ('b', 2)], &'b') // Some(1)
/// ```
pub fn find<K: Eq, V>(pairs: &[(K, V)], key: &K) -> Option<usize>
    ensures index { result ≡ index_of K.eq pairs.now key.now }
    ensures within { IfSome result (λ i. i < length pairs.now) }
{
    find_equivalent(pairs, key)
}

/// Returns the index of the first item that is equal to `item`.
///
/// # Examples
///
/// ```
/// find_item(&['a', 'b'], &'b') // Some(1)
/// ```
pub fn find_item<T: Eq>(items: &[T], item: &T) -> Option<usize>
    ensures index { result ≡ item_index T.eq items.now item.now }
    ensures within { IfSome result (λ i. i < length items.now) }
{
    find_item_equivalent(items, item)
}

/// Returns the index of the first pair whose key has the bytes of `text`.
///
/// # Examples
///
/// ```
/// let pairs = vec![in alloc; (String::from_str(alloc, "a")?, 1)]?;
/// find_str(&pairs, "a") // Some(0)
/// ```
pub fn find_str<V>(pairs: &[(String, V)], text: &str) -> Option<usize>
    ensures index { result ≡ index_by (has_text text.now) pairs.now }
    ensures within { IfSome result (λ i. i < length pairs.now) }
{
    find_equivalent(pairs, text)
}

/// Returns the index of the first item that has the bytes of `text`.
///
/// # Examples
///
/// ```
/// let items = vec![in alloc; String::from_str(alloc, "a")?]?;
/// find_item_str(&items, "a") // Some(0)
/// ```
pub fn find_item_str(items: &[String], text: &str) -> Option<usize>
    ensures index { result ≡ position (has_text text.now) items.now }
    ensures within { IfSome result (λ i. i < length items.now) }
{
    find_item_equivalent(items, text)
}

/// Returns `true` if one of `items` is equal to `item`.
///
/// # Examples
///
/// ```
/// contains_item(&['a', 'b'], &'c') // false
/// ```
pub fn contains_item<T: Eq>(items: &[T], item: &T) -> bool
    ensures { result ≡ is_member T.eq items.now item.now }
{
    contains_equivalent(items, item)
}

/// Like [`contains_item`], but the loop over few items is inlined.
///
/// # Examples
///
/// ```
/// contains_item_inline(&['a', 'b'], &'c') // false
/// ```
#[inline(always)]
pub fn contains_item_inline<T: Eq>(items: &[T], item: &T) -> bool
    ensures { result ≡ is_member T.eq items.now item.now }
{
    if items.len() < MIN_LENGTH_FOR_CALL {
        return is_any_in_order(items, item);
    }
    contains_item(items, item)
}

// Returns `true` if an item matches `query`. It is the fastest for few items, as it is inlined.
#[inline(always)]
pub(crate) fn is_any_in_order<T: Eq, Q: Equivalent<T>>(items: &[T], query: Q) -> bool
    ensures { result ≡ list_any (Q.equivalent query) items.now }
{
    items.iter().any(|item| query.equivalent(item))
}

// Returns `true` if `items` has at least `least` items, and these are small.
#[inline(always)]
pub(crate) fn are_small<T>(items: &[T], least: usize) -> bool
    ensures { IsTrue result → least ≤ length items.now }
{
    is_small::<T>() && items.len() >= least
}

/// Returns the index of the first pair whose key matches `query`.
///
/// # Complexity
///
/// Compares the keys up to the first that matches, in order.
///
/// # Examples
///
/// ```
/// find_equivalent(&[("a", 1), ("b", 2)], "b") // Some(1)
/// ```
#[inline(always)]
#[tactic(auto, using(crate::proofs::PairsLemmas::ByIndex::index_by_is))]
pub fn find_equivalent<K: Eq, V, Q: Equivalent<K>>(pairs: &[(K, V)], query: Q) -> Option<usize>
    ensures index { result ≡ index_by (Q.equivalent query) pairs.now }
    ensures within { IfSome result (λ i. i < length pairs.now) }
{
    if is_small::<K>() {
        return find_pair_unrolled(pairs, query);
    }
    find_by_loop(pairs, query)
}

// Like `find_pair_unrolled`, by a plain loop.
#[inline(always)]
fn find_by_loop<K: Eq, V, Q: Equivalent<K>>(pairs: &[(K, V)], query: Q) -> Option<usize>
    ensures index { result ≡ position (λ pair. Q.equivalent query pair.0) pairs.now }
    ensures within { IfSome result (λ i. i < length pairs.now) }
{
    for (index, pair) in pairs.iter().enumerate() {
        if query.equivalent(&pair.0) {
            return Some(index);
        }
    }
    None
}

/// Returns the index of the first item that matches `query`.
///
/// # Complexity
///
/// Compares the items up to the first that matches, in order. Among 32 items or more, of at most 8 bytes each, up to seven
/// comparisons come after the match.
///
/// # Examples
///
/// ```
/// find_item_equivalent(&["a", "b"], "b") // Some(1)
/// ```
#[inline(always)]
pub fn find_item_equivalent<T: Eq, Q: Equivalent<T>>(items: &[T], query: Q) -> Option<usize>
    ensures index { result ≡ position (Q.equivalent query) items.now }
    ensures within { IfSome result (λ i. i < length items.now) }
{
    if !are_small(items, MIN_LENGTH_FOR_FOURS) {
        return find_item_by_loop(items, query);
    }

    // The `?` takes each result apart, and `Some` makes a new one. If the result of either call were returned as it is,
    // LLVM would keep it as one value, and each caller would test again whether an item was found.
    let index = if items.len() >= MIN_LENGTH_FOR_EIGHTS {
        find_item_of_many(items, query)?
    } else {
        find_item_unrolled(items, query)?
    };
    Some(index)
}

// Like `find_item_unrolled`, by a plain loop.
#[inline(always)]
fn find_item_by_loop<T: Eq, Q: Equivalent<T>>(items: &[T], query: Q) -> Option<usize>
    ensures index { result ≡ position (Q.equivalent query) items.now }
    ensures within { IfSome result (λ i. i < length items.now) }
{
    for (index, item) in items.iter().enumerate() {
        if query.equivalent(item) {
            return Some(index);
        }
    }
    None
}

// Like `find_item_equivalent`, for many small items. It is not inlined, so that the search of a short list is.
#[inline(never)]
fn find_item_of_many<T: Eq, Q: Equivalent<T>>(items: &[T], query: Q) -> Option<usize>
    ensures index { result ≡ position (Q.equivalent query) items.now }
    ensures within { IfSome result (λ i. i < length items.now) }
{
    find_by_eights(items, query)
}

/// Returns `true` if one of `items` matches `query`.
///
/// # Complexity
///
/// Compares the items up to the first that matches, in order. Among four items or more, of at most 8 bytes each, up to
/// seven comparisons come after the match.
///
/// # Examples
///
/// ```
/// contains_equivalent(&["a", "b"], "c") // false
/// ```
#[inline(always)]
pub fn contains_equivalent<T: Eq, Q: Equivalent<T>>(items: &[T], query: Q) -> bool
    ensures { result ≡ list_any (Q.equivalent query) items.now }
{
    if are_small(items, MIN_LENGTH_FOR_BLOCKS) {
        return is_any_in_blocks(items, query);
    }

    // With two or three items, this loop is faster than std's `any`.
    is_any_from(items, 0, query)
}
