//! Equality of lists of pairs as maps, where the order of the pairs makes no difference.
ghost use Rattle.std.specs.{Prelude.{◌≡◌, ◌<◌, ◌≤◌, ◌&&◌, drop, length, nat_eq, not, take, true}, List.AllZip};
ghost use Rattle.vecmap_base.specs.Equality.{FirstDiffer, count, counts_agree, has_same_counts, same_pair};

use crate::matching::{is_same, pairs_match_by_marks, pairs_match_crosswise};

// The largest numbers of pairs for which marks are made.
const MARKS_SMALL: usize = 8;

const MARKS_MEDIUM: usize = 128;

const MARKS_LARGE: usize = 1024;

const MARKS_HUGE: usize = 16384;

/// Returns `true` if each pair of either list, by its key and its value, occurs equally often in both.
///
/// A pair whose value differs from itself, such as a NaN, is equal to no pair. A list with such a pair is equal to no
/// list.
///
/// If the lengths differ, nothing is compared. Otherwise, the call skips the equal pairs at the front of both lists. It
/// then matches the remaining pairs one to one, each pair with the first pair that has the same key and value and is
/// still free.
///
/// # Complexity
///
/// For two lists of n pairs that are equal in the same order, n comparisons of keys. If at most 16,384 pairs remain,
/// each is first compared with the pair behind the one that was matched before, so if few pairs have another place, the
/// number stays linear. In any order, at most n(n + 1) comparisons, and at most n(n + 3)/2 if the lists are equal and
/// their keys are distinct. If more remain, the call counts each pair in both lists, with at most 2n² + 1 comparisons.
/// Does not allocate. For more than 1,024 pairs in another order, it needs 16 KiB of the stack.
///
/// # Examples
///
/// ```
/// pairs_equal(&[('a', 1), ('b', 2)], &[('b', 2), ('a', 1)]) // true
/// ```
pub fn pairs_equal<K: Eq, V: PartialEq>(a: &[(K, V)], b: &[(K, V)]) -> bool
    ensures { result ≡ has_same_counts K.eq V.eq a.now b.now }
{
    if a.len() != b.len() {
        return false;
    }
    let start = equal_front(a, b);
    if start == a.len() {
        return true;
    }
    rests_equal(&a[start..], &b[start..])
}

// Returns `true` if each pair of `a` occurs equally often in both lists. The first pairs differ. Up to two pairs need
// no marks, and marks for a few pairs cost less to make than marks for many.
fn rests_equal<K: Eq, V: PartialEq>(a: &[(K, V)], b: &[(K, V)]) -> bool
    requires as_long { length a.now ≡ length b.now }
    requires not_empty { 0 < length a.now }
    requires first_differ { FirstDiffer K.eq V.eq a.now b.now }
    ensures { result ≡ counts_agree K.eq V.eq a.now a.now b.now }
{
    if b.len() <= 2 {
        return pairs_match_crosswise(a, b);
    }
    if b.len() <= MARKS_SMALL {
        return pairs_match_by_marks::<MARKS_SMALL, K, V>(a, b);
    }
    if b.len() <= MARKS_MEDIUM {
        return pairs_match_by_marks::<MARKS_MEDIUM, K, V>(a, b);
    }
    if b.len() <= MARKS_LARGE {
        return pairs_match_by_marks::<MARKS_LARGE, K, V>(a, b);
    }
    if b.len() <= MARKS_HUGE {
        return pairs_match_by_marks::<MARKS_HUGE, K, V>(a, b);
    }
    counts_equal(a, b)
}

// Returns the number of indices, from the front on, at which both lists hold equal pairs.
fn equal_front<K: Eq, V: PartialEq>(a: &[(K, V)], b: &[(K, V)]) -> usize
    requires { length a.now ≡ length b.now }
    ensures within { result ≤ length a.now }
    ensures equal { AllZip (λ p q. same_pair K.eq V.eq p q ≡ true) (take result a.now)
        (take result b.now) }
    ensures differ { result < length a.now
        → FirstDiffer K.eq V.eq (drop result a.now) (drop result b.now) }
{
    for i in 0..a.len() {
        if !is_same(&a[i], &b[i]) {
            return i;
        }
    }
    a.len()
}

// Returns `true` if each pair of `a` occurs equally often in both lists. A pair that differs from itself has the count
// 0.
fn counts_equal<K: Eq, V: PartialEq>(a: &[(K, V)], b: &[(K, V)]) -> bool
    ensures { result ≡ counts_agree K.eq V.eq a.now a.now b.now }
{
    a.iter().all(|pair| occurs_equally_often(pair, a, b))
}

// Returns `true` if a pair occurs in `a`, and equally often in both lists.
fn occurs_equally_often<K: Eq, V: PartialEq>(pair: &(K, V), a: &[(K, V)], b: &[(K, V)]) -> bool
    ensures { result ≡ (not (nat_eq (count K.eq V.eq a.now pair.now) 0)
        && nat_eq (count K.eq V.eq a.now pair.now) (count K.eq V.eq b.now pair.now)) }
{
    let own = count_pairs(a, pair);
    own != 0 && own == count_pairs(b, pair)
}

// Returns the number of pairs with the key and the value of `pair`.
fn count_pairs<K: Eq, V: PartialEq>(pairs: &[(K, V)], pair: &(K, V)) -> usize
    ensures { result ≡ count K.eq V.eq pairs.now pair.now }
{
    pairs.iter().filter(|stored| is_same(pair, stored)).count()
}
