//! Searches that test several items in each round of the loop, in order, and each item at most once.
//!
//! They are faster if a comparison costs no more than a round of a loop. With up to four items in a round, a search for
//! an index stops at the first item that passes. With eight, and in a test for an item, it tests a whole block of eight
//! or four items and then branches once, so that the compiler compares vectors. So it tests at most seven items after
//! the first that passes.
ghost use Rattle.std.specs.{Prelude.{◌≡◌, ◌+◌, ◌<◌, ◌≤◌, ◌||◌, IfSome, None, Some, false, length, position, take}, List.list_any};

use crate::equivalent::Equivalent;
use std::mem::{ManuallyDrop, align_of_val, size_of_val};

// The size of a word in bytes.
const WORD: usize = 8;

// Returns `true` if an item of this type is no larger than a word, as a `u64` is and a text is not. It takes no item, so
// the compiler knows the result, and removes the branch that is not taken. The tag of an option takes as many bytes as
// the alignment of its item.
#[inline(always)]
pub(crate) fn is_small<T>() -> bool {
    let absent: Option<ManuallyDrop<T>> = None;
    size_of_val(&absent) <= align_of_val(&absent).saturating_add(WORD)
}

// Returns the index of the first pair whose key matches `query`.
pub(crate) fn find_pair_unrolled<K: Eq, V, Q: Equivalent<K>>(
    pairs: &[(K, V)],
    query: Q,
) -> Option<usize>
    ensures index { result ≡ position (λ pair. Q.equivalent query pair.0) pairs.now }
    ensures within { IfSome result (λ i. i < length pairs.now) }
{
    let twos = pairs.len() / 2;
    for two in 0..twos {
        let at = 2 * two;
        if query.equivalent(&pairs[at].0) {
            return Some(at);
        }
        if query.equivalent(&pairs[at + 1].0) {
            return Some(at + 1);
        }
    }
    let last = 2 * twos;
    if last < pairs.len() && query.equivalent(&pairs[last].0) {
        return Some(last);
    }
    None
}

// Returns the index of the first item that matches `query`.
pub(crate) fn find_item_unrolled<T: Eq, Q: Equivalent<T>>(items: &[T], query: Q) -> Option<usize>
    ensures index { result ≡ position (Q.equivalent query) items.now }
    ensures within { IfSome result (λ i. i < length items.now) }
{
    let fours = items.len() / 4;
    for four in 0..fours {
        let at = 4 * four;
        if query.equivalent(&items[at]) {
            return Some(at);
        }
        if query.equivalent(&items[at + 1]) {
            return Some(at + 1);
        }
        if query.equivalent(&items[at + 2]) {
            return Some(at + 2);
        }
        if query.equivalent(&items[at + 3]) {
            return Some(at + 3);
        }
    }
    find_from(items, 4 * fours, query)
}

// Returns the index of the first item that matches `query`. It compares eight items before it branches.
pub(crate) fn find_by_eights<T: Eq, Q: Equivalent<T>>(items: &[T], query: Q) -> Option<usize>
    ensures index { result ≡ position (Q.equivalent query) items.now }
    ensures within { IfSome result (λ i. i < length items.now) }
{
    let eights = items.len() / 8;
    for eight in 0..eights {
        let found = find_of_eight(items, 8 * eight, query);
        if found.is_some() {
            return found;
        }
    }
    find_from(items, 8 * eights, query)
}

// Returns the index of the first of the eight items from `at` on that matches `query`. It compares each of them once.
// No item before `at` matches.
fn find_of_eight<T: Eq, Q: Equivalent<T>>(items: &[T], at: usize, query: Q) -> Option<usize>
    requires within { at + 8 ≤ length items.now }
    requires none_before { position (Q.equivalent query) (take at items.now) ≡ None }
    ensures index { IfSome result (λ i. position (Q.equivalent query) items.now ≡ Some i) }
    ensures within { IfSome result (λ i. i < length items.now) }
    ensures none { result ≡ None
        → position (Q.equivalent query) (take (at + 8) items.now) ≡ None }
{
    let a = query.equivalent(&items[at]);
    let b = query.equivalent(&items[at + 1]);
    let c = query.equivalent(&items[at + 2]);
    let d = query.equivalent(&items[at + 3]);
    let e = query.equivalent(&items[at + 4]);
    let f = query.equivalent(&items[at + 5]);
    let g = query.equivalent(&items[at + 6]);
    let h = query.equivalent(&items[at + 7]);
    if !(a | b | c | d | e | f | g | h) {
        return None;
    }
    if a {
        return Some(at);
    }
    if b {
        return Some(at + 1);
    }
    if c {
        return Some(at + 2);
    }
    if d {
        return Some(at + 3);
    }
    if e {
        return Some(at + 4);
    }
    if f {
        return Some(at + 5);
    }
    if g {
        return Some(at + 6);
    }
    Some(at + 7)
}

// Returns the index of the first item that matches `query`. No item before `from` matches.
fn find_from<T: Eq, Q: Equivalent<T>>(items: &[T], from: usize, query: Q) -> Option<usize>
    requires within { from ≤ length items.now }
    requires none_before { position (Q.equivalent query) (take from items.now) ≡ None }
    ensures index { result ≡ position (Q.equivalent query) items.now }
    ensures within { IfSome result (λ i. i < length items.now) }
{
    for index in from..items.len() {
        if query.equivalent(&items[index]) {
            return Some(index);
        }
    }
    None
}

// Returns `true` if an item matches `query`. It compares eight items before it branches, then four, and the others one
// by one.
#[inline(always)]
pub(crate) fn is_any_in_blocks<T: Eq, Q: Equivalent<T>>(items: &[T], query: Q) -> bool
    ensures found { result ≡ list_any (Q.equivalent query) items.now }
{
    let eights = items.len() / 8;
    for eight in 0..eights {
        if is_any_of_eight(items, 8 * eight, query) {
            return true;
        }
    }
    let mut from = 8 * eights;
    if 4 <= items.len() - from {
        if is_any_of_four(items, from, query) {
            return true;
        }
        from += 4;
    }
    is_any_from(items, from, query)
}

// Returns `true` if one of the eight items from `at` on matches `query`. It compares each of them once.
fn is_any_of_eight<T: Eq, Q: Equivalent<T>>(items: &[T], at: usize, query: Q) -> bool
    requires { at + 8 ≤ length items.now }
    ensures found { list_any (Q.equivalent query) (take (at + 8) items.now)
        ≡ (list_any (Q.equivalent query) (take at items.now) || result) }
{
    is_any_of_four(items, at, query) | is_any_of_four(items, at + 4, query)
}

// The same of the four items from `at` on.
fn is_any_of_four<T: Eq, Q: Equivalent<T>>(items: &[T], at: usize, query: Q) -> bool
    requires { at + 4 ≤ length items.now }
    ensures found { list_any (Q.equivalent query) (take (at + 4) items.now)
        ≡ (list_any (Q.equivalent query) (take at items.now) || result) }
{
    let a = query.equivalent(&items[at]);
    let b = query.equivalent(&items[at + 1]);
    let c = query.equivalent(&items[at + 2]);
    let d = query.equivalent(&items[at + 3]);
    a | b | c | d
}

// Returns `true` if an item matches `query`. No item before `from` matches.
pub(crate) fn is_any_from<T: Eq, Q: Equivalent<T>>(items: &[T], from: usize, query: Q) -> bool
    requires within { from ≤ length items.now }
    requires none_before { list_any (Q.equivalent query) (take from items.now) ≡ false }
    ensures found { result ≡ list_any (Q.equivalent query) items.now }
{
    for index in from..items.len() {
        if query.equivalent(&items[index]) {
            return true;
        }
    }
    false
}
