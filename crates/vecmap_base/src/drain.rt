//! The moves of items in a vector that drains are built from.
ghost use Rattle.std.specs.{Prelude.{◌≡◌, ◌++◌, ◌-◌, ◌≤◌, drop, length, reverse, slice_range, take, vec_capacity}, List.remove_range};
ghost use Rattle.vecmap_base.specs.Ranges.{IsRangeWithin};

use std::mem::size_of_val;

// The largest size, in bytes, of a range and the items behind it that is moved by two reversals. A larger one is moved
// by a rotation and a reversal.
const MAX_BYTES_FOR_REVERSALS: usize = 2048;

/// Moves the items of `start..end` behind the others, in reverse order, and returns the number of the others.
///
/// The others keep their order.
///
/// # Preconditions
///
/// `start` is at most `end`, and `end` is at most `items.len()`.
///
/// # Complexity
///
/// A number of moves that is linear in the number of items from `start` on. Does not allocate.
///
/// # Examples
///
/// ```
/// let mut items = vec![in alloc; 1, 2, 3, 4]?;
/// # assert!(*rt; items.len() == 4);
/// move_range_last(&mut items, 0, 2) // 2
/// items.as_slice() // [3, 4, 2, 1]
/// ```
#[inline(never)]
pub fn move_range_last<T>(items: &mut Vec<T>, start: usize, end: usize) -> usize
    requires within { IsRangeWithin start end (length items.old.items) }
    ensures count { result ≡ length items.old.items - (end - start) }
    ensures list { items.new.items
        ≡ remove_range items.old.items start end
        ++ reverse (slice_range items.old.items start end) }
    ensures capacity { vec_capacity items.new ≡ vec_capacity items.old }
{
    let count = end - start;
    let keep = items.len() - count;
    if size_of_val(&items[start..]) <= MAX_BYTES_FOR_REVERSALS {
        reverse_from(items, start);
        reverse_between(items, start, keep);
    } else {
        items[start..].rotate_left(count);
        items[keep..].reverse();
    }
    keep
}

/// Reverses the items from `start` on.
///
/// # Preconditions
///
/// `start` is at most `items.len()`.
///
/// # Complexity
///
/// Half as many swaps as there are items from `start` on.
///
/// # Examples
///
/// ```
/// let mut items = vec![in alloc; 1, 2, 3]?;
/// # assert!(*rt; 1 <= items.len());
/// reverse_from(&mut items, 1);
/// items.as_slice() // [1, 3, 2]
/// ```
pub fn reverse_from<T>(items: &mut Vec<T>, start: usize)
    requires within { start ≤ length items.old.items }
    ensures list { items.new.items
        ≡ take start items.old.items ++ reverse (drop start items.old.items) }
    ensures capacity { vec_capacity items.new ≡ vec_capacity items.old }
{
    items[start..].reverse();
}

// Reverses the items of `start..end`.
fn reverse_between<T>(items: &mut Vec<T>, start: usize, end: usize)
    requires within { IsRangeWithin start end (length items.old.items) }
    ensures list { items.new.items
        ≡ take start items.old.items
        ++ reverse (slice_range items.old.items start end)
        ++ drop end items.old.items }
    ensures capacity { vec_capacity items.new ≡ vec_capacity items.old }
{
    items[start..end].reverse();
}
