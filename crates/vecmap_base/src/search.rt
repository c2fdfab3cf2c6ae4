//! Binary searches of a sorted slice, by what a closure returns for its items. No search allocates.
//!
//! Among several items, the first call of the closure leaves a part whose length is a power of two, so that its halves
//! are equal. The last call is for the one item that is left. In between, a call halves the part, or three calls
//! quarter it. Quarters are faster if what is compared has at most 8 bytes: the three calls do not depend on each
//! other. How often the closure is called depends on the number of items and on this size, and not on what it returns.
//! It takes an index: the borrow checker does not cover one that passes an item on to a closure that may keep it.
ghost use Rattle.std.specs.{Prelude.{◌≡◌, ℕ, ◌+◌, ◌^◌, ◌<◌, ◌≤◌, Bool, false, if◌then◌else◌, length, true}, List.{All, HoldsAt}};
ghost use Rattle.std.specs.List.Sorted.{IsBinarySearchResult, IsPartitionPoint, IsPartitionedBy, IsSearchInRange};
ghost use Rattle.std.specs.declared.cmp.Ordering.{Ordering};
ghost use Rattle.vecmap_base.specs.FnCalls.{CallableBelow, CallableOnItem, ReturnsAtIndex, ReturnsOnItems, side};

use crate::unrolled::is_small;
use std::cmp::Ordering;

/// Searches `items` with `f`, which compares the item at an index with what is sought.
///
/// `f` returns `Less` for the first items, then `Equal`, then `Greater`. `Ok` holds the index of an equal item, any one
/// of them. If there is none, `Err` holds the number of items that are less. If the items are in another order, `Ok` is
/// still the index of an equal item, but `Err` says nothing.
///
/// `C` decides only how often `f` is called: it is the type of the items or, for pairs, of the keys.
///
/// # Preconditions
///
/// `f` can be called for each index of `items`.
///
/// # Complexity
///
/// For n items, log2(n) + 1 calls of `f`, rounded up: 10 for 512 items. If a `C` has at most 8 bytes, up to half as many
/// more: 14 for 512 items. No call for an empty slice. Does not allocate.
///
/// # Examples
///
/// ```
/// let pairs = [('a', 1), ('b', 2)];
/// search_by_index::<char, _, _>(&pairs, |index| pairs[index].0.cmp(&'b')) // Ok(1)
/// ```
#[inline]
pub fn search_by_index<C, T, F: Fn(usize) -> Ordering>(items: &[T], f: F) -> Result<usize, usize>
    requires callable { CallableBelow F.Fn f (length items.now) }
    ensures within { IsSearchInRange result (length items.now) }
    ensures index { (ord : T → Ordering) → ReturnsAtIndex F.Fn ord f items.now
        → IsBinarySearchResult ord items.now result }
{
    let len = items.len();
    if len == 0 {
        return Err(0);
    }
    let mut size = power_within(len);
    let start = len - size;
    let mut base = start * usize::from(start > 0 && f(start).is_le());
    let by_quarters = is_small::<C>();
    while by_quarters && size >= 4 {
        let quarter = size / 4;
        let first = f(base + quarter).is_le();
        let second = f(base + 2 * quarter).is_le();
        let third = f(base + 3 * quarter).is_le();
        base += times(quarter, first, second, third);
        size = quarter;
    }
    // Quarters leave one item or two.
    if by_quarters && size > 1 {
        base += usize::from(f(base + 1).is_le());
        size = 1;
    }
    while size > 1 {
        let half = size / 2;
        base += zero_unless(f(base + half).is_le(), half);
        size = half;
    }
    match f(base) {
        Ordering::Less => Err(base + 1),
        Ordering::Equal => Ok(base),
        Ordering::Greater => Err(base),
    }
}

/// Returns the number of items for which `pred` returns `true`.
///
/// If these items do not come before all others, the result is only known to be at most `items.len()`. As in
/// [`search_by_index`], `C` decides only how often `pred` is called.
///
/// # Preconditions
///
/// `pred` can be called for each item.
///
/// # Complexity
///
/// As many calls of `pred` as [`search_by_index`] makes of `f`. Does not allocate.
///
/// # Examples
///
/// ```
/// partition_point::<u64, _, _>(&[1, 3], |item| *item < 2) // 1
/// ```
#[inline]
pub fn partition_point<C, T, P: Fn(&T) -> bool>(items: &[T], pred: P) -> usize
    requires callable { All (CallableOnItem P.Fn pred) items.now }
    ensures within { result ≤ length items.now }
    ensures index { (p : T → Bool) → ReturnsOnItems P.Fn p pred items.now
        → IsPartitionedBy p items.now
        → IsPartitionPoint (λ x. p x ≡ true) (λ x. p x ≡ false) items.now result }
{
    let found = search_by_index::<C, _, _>(
        items,
        |index: usize| -> Ordering
            requires callable { All (CallableOnItem P.Fn pred) items.now }
            requires within { index < length items.now }
            ensures { (p : T → Bool) → ReturnsOnItems P.Fn p pred items.entry.now
                → HoldsAt (λ x. result ≡ side (p x)) items.entry.now index }
        {
            if pred(&items[index]) {
                Ordering::Less
            } else {
                Ordering::Greater
            }
        },
    );
    match found {
        Ok(index) => index,
        Err(index) => index,
    }
}

// Returns `n` times the number of conditions that hold.
#[inline]
fn times(n: usize, first: bool, second: bool, third: bool) -> usize
    requires { n + n + n < 2 ^ 64 }
    ensures { result ≡ (if first then n else 0) + (if second then n else 0) + (if third then n else 0) }
{
    n * (usize::from(first) + usize::from(second) + usize::from(third))
}

// Returns a power of two that is at most `len`, and at least half of it.
#[inline]
fn power_within(len: usize) -> usize
    requires { 0 < len }
    ensures power { (k : ℕ) × (result ≡ 2 ^ k) }
    ensures within { result ≤ len }
    ensures half { len ≤ result + result }
{
    1 << (len - 1).max(1).ilog2()
}

// Returns `n` if `condition` holds, and 0 otherwise. In a loop, LLVM makes a branch of a product, but not of the minimum
// of two numbers. A branch would be predicted wrongly in every second iteration of a search.
#[inline]
fn zero_unless(condition: bool, n: usize) -> usize
    ensures { result ≡ (if condition then n else 0) }
{
    n.min(0usize.wrapping_sub(usize::from(condition)))
}
