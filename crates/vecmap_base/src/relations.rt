//! Relations of two lists of items, seen as sets.
ghost use Rattle.std.specs.{Prelude.{◌≡◌, ◌↔◌, IfSome, IsTrue, []}, List.list_any, Set.is_member};
ghost use Rattle.vecmap_base.specs.{Equality.is_within, Items.both};

use crate::lookup::{
    MIN_LENGTH_FOR_BLOCKS, MIN_LENGTH_FOR_CALL, are_small, contains_item, is_any_in_order,
};
use crate::unrolled::is_any_in_blocks;

/// Returns `true` if each of `items` is equal to one of `others`.
///
/// Looks the items up in order, and stops at the first that is not found.
///
/// # Complexity
///
/// At most as many comparisons as the product of the lengths, and two more for each item. Among eight others or more,
/// an item is first compared with the two behind the one that was met before. So for lists in the same order, or
/// almost, the number is linear.
///
/// # Examples
///
/// ```
/// is_subset_of(&[2, 1], &[1, 2, 3]) // true
/// ```
#[inline(always)]
pub fn is_subset_of<T: Eq>(items: &[T], others: &[T]) -> bool
    ensures { result ≡ is_within T.eq items.now others.now }
{
    if others.len() >= MIN_LENGTH_FOR_CALL {
        return is_subset_around(items, others);
    }
    items.iter().all(|item| is_any_in_order(others, item))
}

/// Returns `true` if none of `items` is equal to one of `others`.
///
/// Looks the items up in order, and stops at the first that is found.
///
/// # Complexity
///
/// At most as many comparisons as the product of the lengths.
///
/// # Examples
///
/// ```
/// are_disjoint(&[2, 1], &[3, 4]) // true
/// ```
pub fn are_disjoint<T: Eq>(items: &[T], others: &[T]) -> bool
    ensures disjoint { IsTrue result ↔ (both T.eq items.now others.now ≡ []) }
    ensures from_other_side { IsTrue result ↔ (both T.eq others.now items.now ≡ []) }
{
    !overlap(items, others)
}

// Returns `true` if one of `items` is equal to one of `others`.
#[inline(always)]
fn overlap<T: Eq>(items: &[T], others: &[T]) -> bool
    ensures { result ≡ list_any (is_member T.eq others.now) items.now }
{
    if are_small(others, MIN_LENGTH_FOR_BLOCKS) {
        return overlap_blocks(items, others);
    }
    items.iter().any(|item| is_any_in_order(others, item))
}

// The same as `is_subset_of`, for others that are not few. It is not inlined, so that its loop does not depend on the
// code around it.
#[inline(never)]
fn is_subset_around<T: Eq>(items: &[T], others: &[T]) -> bool
    ensures { result ≡ is_within T.eq items.now others.now }
{
    let mut next = 0;
    for at in 0..items.len() {
        match behind_near(others, next, &items[at]) {
            Some(behind) => next = behind,
            None => {
                if !contains_item(others, &items[at]) {
                    return false;
                }
            }
        }
    }
    true
}

// Returns the index behind one of `others` that is equal to `item`, if that is the one at `next` or the one behind it.
#[inline(always)]
#[tactic(auto, using(crate::proofs::IndexLemmas::list_any_position))]
fn behind_near<T: Eq>(others: &[T], next: usize, item: &T) -> Option<usize>
    ensures { IfSome result (λ _. IsTrue (is_member T.eq others.now item.now)) }
{
    if next < others.len() {
        if *item == others[next] {
            return Some(next + 1);
        }
        if next + 1 < others.len() && *item == others[next + 1] {
            return Some(next + 2);
        }
    }
    None
}

// The same as `overlap`, for small others. It is not inlined, either. The inner loop is.
#[inline(never)]
fn overlap_blocks<T: Eq>(items: &[T], others: &[T]) -> bool
    ensures { result ≡ list_any (is_member T.eq others.now) items.now }
{
    items.iter().any(|item| is_any_in_blocks(others, item))
}
