//! A one-to-one match of the pairs of two lists. A matched pair is marked, so that no other pair is matched with it.
ghost use Rattle.std.specs.{Prelude.{◌≡◌, ◌<◌, ◌≤◌, ◌^◌, IfSome, None, false, length, replicate, slice_index_or, true}, List.list_any};
ghost use Rattle.vecmap_base.specs.Equality.{FirstDiffer, counts_agree, free, same_pair};

use crate::lookup::find;

// Like `pairs_match`, with `N` marks. It is a separate function, because a function creates all its arrays when it
// begins, also the arrays of branches that are not executed.
#[inline(never)]
pub(crate) fn pairs_match_by_marks<const N: usize, K: Eq, V: PartialEq>(
    a: &[(K, V)],
    b: &[(K, V)],
) -> bool
    requires as_long { length a.now ≡ length b.now }
    requires countable { N < 2 ^ 63 }
    requires enough { length b.now ≤ N }
    requires not_empty { 0 < length a.now }
    requires first_differ { FirstDiffer K.eq V.eq a.now b.now }
    ensures { result ≡ counts_agree K.eq V.eq a.now a.now b.now }
{
    pairs_match(a, b, &mut [false; N])
}

// Returns `true` if each pair of `a` is matched with a pair of `b` that has an equal key and an equal value. `taken`
// has no marks yet. The first pairs are known to differ, and are not compared with each other again.
fn pairs_match<K: Eq, V: PartialEq>(a: &[(K, V)], b: &[(K, V)], taken: &mut [bool]) -> bool
    requires as_long { length a.now ≡ length b.now }
    requires enough { length b.now ≤ length taken.old }
    requires unmarked { taken.old ≡ replicate (length taken.old) false }
    requires not_empty { 0 < length a.now }
    requires first_differ { FirstDiffer K.eq V.eq a.now b.now }
    ensures { result ≡ counts_agree K.eq V.eq a.now a.now b.now }
{
    let Some(first) = find_free(&b[1..], &taken[1..], &a[0]) else {
        return false;
    };
    taken[1 + first] = true;
    let mut next = first + 2;
    for i in 1..a.len() {
        match find_free_near(b, taken, next, &a[i]) {
            Some(index) => {
                taken[index] = true;
                next = index + 1;
            }
            None => return false,
        }
    }
    true
}

// Like `pairs_match`, for at most two pairs. As the first pairs differ, the pairs can only match crosswise, which needs
// no marks.
pub(crate) fn pairs_match_crosswise<K: Eq, V: PartialEq>(a: &[(K, V)], b: &[(K, V)]) -> bool
    requires as_long { length a.now ≡ length b.now }
    requires not_empty { 0 < length a.now }
    requires at_most_two { length a.now ≤ 2 }
    requires first_differ { FirstDiffer K.eq V.eq a.now b.now }
    ensures { result ≡ counts_agree K.eq V.eq a.now a.now b.now }
{
    if a.len() == 1 {
        return false;
    }
    is_same(&a[0], &b[1]) && is_same(&a[1], &b[0])
}

// Returns the index of a pair without a mark that has the same key and the same value as `pair`: `guess`, if that one
// is such a pair, and else the first. The pair behind the one that was found before is a good guess: pairs that differ
// in their place often keep their order.
fn find_free_near<K: Eq, V: PartialEq>(
    pairs: &[(K, V)],
    taken: &[bool],
    guess: usize,
    pair: &(K, V),
) -> Option<usize>
    requires enough { length pairs.now ≤ length taken.now }
    ensures within { IfSome result (λ i. i < length pairs.now) }
    ensures unmarked { IfSome result (λ i. slice_index_or taken.now i true ≡ false) }
    ensures equal { IfSome result (λ i. same_pair K.eq V.eq pair.now
        (slice_index_or pairs.now i pair.now) ≡ true) }
    ensures none { result ≡ None
        → list_any (same_pair K.eq V.eq pair.now) (free pairs.now taken.now) ≡ false }
{
    if guess < pairs.len() && !taken[guess] && is_same(pair, &pairs[guess]) {
        return Some(guess);
    }
    find_free(pairs, taken, pair)
}

// Returns the index of the first pair without a mark that has the same key and the same value as `pair`.
fn find_free<K: Eq, V: PartialEq>(pairs: &[(K, V)], taken: &[bool], pair: &(K, V)) -> Option<usize>
    requires enough { length pairs.now ≤ length taken.now }
    ensures within { IfSome result (λ i. i < length pairs.now) }
    ensures unmarked { IfSome result (λ i. slice_index_or taken.now i true ≡ false) }
    ensures equal { IfSome result (λ i. same_pair K.eq V.eq pair.now
        (slice_index_or pairs.now i pair.now) ≡ true) }
    ensures none { result ≡ None
        → list_any (same_pair K.eq V.eq pair.now) (free pairs.now taken.now) ≡ false }
{
    let first = find(pairs, &pair.0)?;
    if !taken[first] && pair.1 == pairs[first].1 {
        return Some(first);
    }
    for at in first + 1..pairs.len() {
        if !taken[at] && is_same(pair, &pairs[at]) {
            return Some(at);
        }
    }
    None
}

// Returns `true` if the keys of two pairs are equal, and their values too.
pub(crate) fn is_same<K: Eq, V: PartialEq>(p: &(K, V), q: &(K, V)) -> bool
    ensures { result ≡ same_pair K.eq V.eq p.now q.now }
{
    p.0 == q.0 && p.1 == q.1
}
