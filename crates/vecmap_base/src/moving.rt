//! Moves of items within a slice or a vector.
ghost use Rattle.std.specs.Prelude.{◌≡◌, ◌<◌, ◌≤◌, Some, insert, length, remove, slice_get, slice_index_or, vec_capacity};
ghost use Rattle.std.specs.List.Sorted.{IsPermutation};
ghost use Rattle.vecmap_base.specs.Items.{moved};

use std::mem::{replace, size_of_val};

// The largest size, in bytes, of items that are carried one by one, and not by a rotation.
const MAX_BYTES_FOR_CARRYING: usize = 24;

// The largest lengths of a part of a list whose items are carried one by one, to the left and to the right.
const MAX_CARRIED_LEFT: usize = 8;

const MAX_CARRIED_RIGHT: usize = 32;

// The largest size, in bytes, of an item that `remove_item` moves by a rotation.
const MAX_BYTES_FOR_ROTATION: usize = 16;

// The largest size, in bytes, of an item that `remove_item` moves by one rotation for each part of the list.
const MAX_BYTES_FOR_PARTS: usize = 160;

// The size of such a part.
const BYTES_OF_PART: usize = 2048;

/// Replaces the item at `from`, moves the new item to `to`, and returns the old one.
///
/// The items between the two indices shift by one index.
///
/// # Preconditions
///
/// Both `from` and `to` are less than `items.len()`.
///
/// # Complexity
///
/// Linear in the distance between the two indices. Does not allocate.
///
/// # Examples
///
/// ```
/// let mut items = vec![in alloc; 'a', 'b', 'c']?;
/// # assert!(*rt; 2 < items.len());
/// replace_and_move(&mut items, 0, 2, 'd') // 'a'
/// items.as_slice() // ['b', 'c', 'd']
/// ```
pub fn replace_and_move<T>(items: &mut Vec<T>, from: usize, to: usize, item: T) -> T
    requires from_within { from < length items.old.items }
    requires to_within { to < length items.old.items }
    ensures item { slice_get items.old.items from ≡ Some result }
    ensures list { items.new.items ≡ insert (remove items.old.items from) to item }
    ensures capacity { vec_capacity items.new ≡ vec_capacity items.old }
{
    let is_small = size_of_val(&item) <= MAX_BYTES_FOR_CARRYING;
    if is_small && from <= to && to - from < MAX_CARRIED_LEFT {
        return carry_left(items, from, to + 1, item);
    }
    if is_small && to < from && from - to < MAX_CARRIED_RIGHT {
        return carry_right(items, to, from + 1, item);
    }
    replace_and_rotate(items, from, to, item)
}

/// Moves the item at `from` to `to`.
///
/// The items between the two indices shift by one index.
///
/// # Preconditions
///
/// Both `from` and `to` are less than `items.len()`.
///
/// # Complexity
///
/// Linear in the distance between the two indices. Does not allocate.
///
/// # Examples
///
/// ```
/// let mut items = vec![in alloc; 'a', 'b', 'c']?;
/// # assert!(*rt; 2 < items.len());
/// move_to(&mut items, 0, 2);
/// items.as_slice() // ['b', 'c', 'a']
/// ```
pub fn move_to<T>(items: &mut Vec<T>, from: usize, to: usize)
    requires from_within { from < length items.old.items }
    requires to_within { to < length items.old.items }
    ensures list { items.new.items ≡ moved items.old.items from to }
    ensures rearranged { IsPermutation items.old.items items.new.items }
    ensures capacity { vec_capacity items.new ≡ vec_capacity items.old }
{
    move_item(items, from, to);
}

/// Removes and returns the item at `index`.
///
/// The items after it shift by one index to the left.
///
/// # Preconditions
///
/// `index` is less than `items.len()`.
///
/// # Complexity
///
/// Linear in the number of items after `index`. Does not allocate.
///
/// # Examples
///
/// ```
/// let mut items = vec![in alloc; 'a', 'b', 'c']?;
/// # assert!(*rt; 0 < items.len());
/// remove_item(&mut items, 0) // 'a'
/// items.as_slice() // ['b', 'c']
/// ```
#[inline(always)]
pub fn remove_item<T>(items: &mut Vec<T>, index: usize) -> T
    requires within { index < length items.old.items }
    ensures item { slice_get items.old.items index ≡ Some result }
    ensures list { items.new.items ≡ remove items.old.items index }
    ensures capacity { vec_capacity items.new ≡ vec_capacity items.old }
{
    // If one item follows, it moves to the index of the removed item. If none follows, nothing moves.
    let count = items.len() - index;
    if count <= 2 {
        return items.swap_remove(index);
    }
    if count <= MAX_CARRIED_LEFT && size_of_val(&items[index]) <= MAX_BYTES_FOR_CARRYING {
        return remove_and_carry(items, index);
    }
    let at = move_by_parts(items, index);
    remove_and_shift(items, at)
}

/// Inserts an item at `index` into a vector that has spare capacity.
///
/// The items from `index` on shift by one index to the right.
///
/// # Preconditions
///
/// `index` is at most `items.len()`. The vector has spare capacity for one more item.
///
/// # Complexity
///
/// Linear in the number of items from `index` on. Does not allocate.
///
/// # Examples
///
/// ```
/// let mut items = vec![in alloc; 'a', 'b', 'c']?;
/// items.reserve(1)?;
/// # assert!(*rt; 1 <= items.len() && items.len() != items.capacity());
/// insert_reserved(&mut items, 1, 'd');
/// items.as_slice() // ['a', 'd', 'b', 'c']
/// ```
pub fn insert_reserved<T>(items: &mut Vec<T>, index: usize, item: T)
    requires within { index ≤ length items.old.items }
    requires room { length items.old.items < vec_capacity items.old }
    ensures list { items.new.items ≡ insert items.old.items index item }
    ensures capacity { vec_capacity items.new ≡ vec_capacity items.old }
{
    if size_of_val(&item) <= MAX_BYTES_FOR_CARRYING && items.len() - index <= MAX_CARRIED_RIGHT {
        let end = items.len();
        let last = carry_right(items, index, end, item);
        items.push_reserved(last);
        return;
    }
    items.push_reserved(item);
    items[index..].rotate_right(1);
}

// Like `remove_item`, by taking the last item, and carrying it to the left.
#[inline]
fn remove_and_carry<T>(items: &mut Vec<T>, index: usize) -> T
    requires within { index < length items.old.items }
    ensures item { slice_get items.old.items index ≡ Some result }
    ensures list { items.new.items ≡ remove items.old.items index }
    ensures capacity { vec_capacity items.new ≡ vec_capacity items.old }
{
    let last = items.take_last();
    let end = items.len();
    carry_left(items, index, end, last)
}

// Like `remove_item`, by one rotation of the item and the items after it. Large items move by `Vec::remove`.
#[inline]
fn remove_and_shift<T>(items: &mut Vec<T>, index: usize) -> T
    requires within { index < length items.old.items }
    ensures item { slice_get items.old.items index ≡ Some result }
    ensures list { items.new.items ≡ remove items.old.items index }
    ensures capacity { vec_capacity items.new ≡ vec_capacity items.old }
{
    if size_of_val(&items[index]) > MAX_BYTES_FOR_ROTATION {
        return items.remove(index);
    }
    let last = items.len() - 1;
    move_item(items, index, last);
    items.pop().unwrap()
}

// Moves the item at `from` towards the end, by one rotation for each part of the list, and returns its new index. At
// most one part then follows it. The kit moves all items in such parts, too, but as it knows the length of a part, LLVM
// copies each item by itself.
fn move_by_parts<T>(items: &mut [T], from: usize) -> usize
    requires { from < length items.old }
    ensures within { result < length items.new }
    ensures item { slice_get items.new result ≡ slice_get items.old from }
    ensures list { remove items.new result ≡ remove items.old from }
{
    let size = size_of_val(&items[from]);
    if size <= MAX_BYTES_FOR_ROTATION || MAX_BYTES_FOR_PARTS < size {
        return from;
    }
    let part = (BYTES_OF_PART / size).max(1);
    let mut at = from;
    while part < items.len() - 1 - at {
        move_item_not_inlined(items, at, at + part);
        at += part;
    }
    at
}

// Shifts the items of `from..end` by one index to the left, appends `item` to them, and returns the item that was at
// `from`. If `from` is `end`, returns `item`.
fn carry_left<T>(items: &mut [T], from: usize, end: usize, item: T) -> T
    requires order { from ≤ end }
    requires within { end ≤ length items.old }
    ensures list { insert items.new from result ≡ insert items.old end item }
    ensures count { length items.new ≡ length items.old }
{
    let mut carried = item;
    for step in 0..end - from {
        carried = replace(&mut items[end - 1 - step], carried);
    }
    carried
}

// Shifts the items of `from..end` by one index to the right, stores `item` at `from`, and returns the item that was
// last. If `from` is `end`, returns `item`.
fn carry_right<T>(items: &mut [T], from: usize, end: usize, item: T) -> T
    requires order { from ≤ end }
    requires within { end ≤ length items.old }
    ensures list { insert items.new end result ≡ insert items.old from item }
    ensures count { length items.new ≡ length items.old }
{
    let mut carried = item;
    for at in from..end {
        carried = replace(&mut items[at], carried);
    }
    carried
}

// Like `replace_and_move`, by one rotation.
fn replace_and_rotate<T>(items: &mut Vec<T>, from: usize, to: usize, item: T) -> T
    requires from_within { from < length items.old.items }
    requires to_within { to < length items.old.items }
    ensures item { slice_get items.old.items from ≡ Some result }
    ensures list { items.new.items ≡ insert (remove items.old.items from) to item }
    ensures capacity { vec_capacity items.new ≡ vec_capacity items.old }
{
    let old = replace(&mut items[from], item);
    move_item(items, from, to);
    old
}

// Moves the item at `from` to `to`. The items between the two indices shift by one index.
fn move_item<T>(items: &mut [T], from: usize, to: usize)
    requires from_within { from < length items.old }
    requires to_within { to < length items.old }
    ensures { (d : T) → items.new
        ≡ insert (remove items.old from) to (slice_index_or items.old from d) }
{
    if from < to {
        items[from..to + 1].rotate_left(1);
    } else if to < from {
        items[to..from + 1].rotate_right(1);
    }
}

// The same as `move_item`. It is not inlined: where LLVM knows the number of items, it copies them one by one.
#[inline(never)]
fn move_item_not_inlined<T>(items: &mut [T], from: usize, to: usize)
    requires from_within { from < length items.old }
    requires to_within { to < length items.old }
    ensures { (d : T) → items.new
        ≡ insert (remove items.old from) to (slice_index_or items.old from d) }
{
    move_item(items, from, to);
}
