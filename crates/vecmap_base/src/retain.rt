//! Functions that retain the items for which a closure returns `true`. Nothing is shifted, and one truncation at the
//! end removes the others.
ghost use Rattle.std.specs.{Prelude.{◌≡◌, ◌+◌, ◌<◌, ◌≤◌, ◌&&◌, Bool, length, vec_capacity}, Fn.TakesAt, List.{SwappedAt, list_any}};
ghost use Rattle.vecmap_base.specs.FnMutCalls.{CallableAtPair, CallableAtPairMut, CallableOnEach, CallsAtItem, CallsAtPair, CallsAtPairMut};
ghost use Rattle.vecmap_base.specs.Kept.{KeepsKeys, Kept, KeptSoFar, RetainsPairs, ReturnsAt};

use std::mem::swap;

/// Retains only the pairs for which `f` returns `true`, each with the value as `f` left it.
///
/// Calls `f` once for each pair, in order, in the state that the calls before have left. The capacity does not change.
/// The other pairs are dropped at the end.
///
/// # Preconditions
///
/// `f` can be called for each pair, in the state that the calls before have left.
///
/// # Complexity
///
/// For n pairs, n calls of `f`, and at most one swap for each pair after the first that is removed. Does not allocate.
///
/// # Examples
///
/// ```
/// let mut pairs = vec![in alloc; ('a', 1), ('b', 2)]?;
/// retain_pairs(&mut pairs, |_key, value| *value != 1);
/// pairs.as_slice() // [('b', 2)]
/// ```
pub fn retain_pairs<K: Drop, V: Drop, F: FnMut(&K, &mut V) -> bool + Drop>(
    pairs: &mut Vec<(K, V)>,
    f: F,
)
    requires callable { CallableOnEach (CallsAtPair F.FnMut)
        (CallableAtPair F.FnMut) f pairs.old.items }
    ensures selection { RetainsPairs (CallsAtPair F.FnMut) f pairs.old.items pairs.new.items }
    ensures capacity { vec_capacity pairs.new ≡ vec_capacity pairs.old }
{
    retain::<_, PairForm, _>(pairs, f);
}

/// Like [`retain_pairs`], but `f` can also write the key.
///
/// If no call of `f` writes a key, the same is proved as of [`retain_pairs`].
///
/// # Preconditions
///
/// `f` can be called for each pair, in the state that the calls before have left.
///
/// # Examples
///
/// ```
/// let mut pairs = vec![in alloc; ('a', 1), ('b', 2)]?;
/// retain_pairs_mut(&mut pairs, |key, _value| *key != 'a');
/// pairs.as_slice() // [('b', 2)]
/// ```
pub fn retain_pairs_mut<K: Drop, V: Drop, F: FnMut(&mut K, &mut V) -> bool + Drop>(
    pairs: &mut Vec<(K, V)>,
    f: F,
)
    requires callable { CallableOnEach (CallsAtPairMut F.FnMut)
        (CallableAtPairMut F.FnMut) f pairs.old.items }
    ensures retained { (g : F) × Kept (CallsAtPairMut F.FnMut) f pairs.old.items pairs.new.items g }
    ensures selection { KeepsKeys (CallsAtPairMut F.FnMut)
        → RetainsPairs (CallsAtPairMut F.FnMut) f pairs.old.items pairs.new.items }
    ensures capacity { vec_capacity pairs.new ≡ vec_capacity pairs.old }
{
    retain::<_, PairMutForm, _>(pairs, f);
}

/// Retains only the items for which `f` returns `true`.
///
/// Calls `f` once for each item, in order, in the state that the calls before have left. The capacity does not change.
/// The other items are dropped at the end.
///
/// # Preconditions
///
/// `f` can be called for each item, in the state that the calls before have left.
///
/// # Complexity
///
/// For n items, n calls of `f`, and at most one swap for each item after the first that is removed. Does not allocate.
///
/// # Examples
///
/// ```
/// let mut items = vec![in alloc; 1, 2, 3]?;
/// retain_items(&mut items, |item| *item != 2);
/// items.as_slice() // [1, 3]
/// ```
pub fn retain_items<T: Drop, F: FnMut(&T) -> bool + Drop>(items: &mut Vec<T>, f: F)
    requires callable { CallableOnEach (CallsAtItem F.FnMut) (TakesAt F.FnMut) f items.old.items }
    ensures matches { (query : T → Bool) (kept : Bool) → ReturnsAt (CallsAtItem F.FnMut) f query kept
        → list_any query items.new.items ≡ (list_any query items.old.items && kept) }
    ensures retained { (g : F) × Kept (CallsAtItem F.FnMut) f items.old.items items.new.items g }
    ensures capacity { vec_capacity items.new ≡ vec_capacity items.old }
{
    retain::<_, ItemForm, _>(items, f);
}

// A closure that decides whether an item stays. `Form` says how the item is passed to it.
trait Predicate<X, Form>: Drop {
    // It can be called with this item.
    ghost accepts: { Self → X → Type 0 };

    // A call at this item may return this, and leave this item and this closure.
    ghost step: { Self → X → Bool → X → Self → Type 0 };

    fn keeps(&mut self, item: &mut X) -> bool
        requires { accepts self.old item.old }
        ensures { step self.old item.old result item.new self.new };

    // Exchanges two items. A key and a value are exchanged each by itself: LLVM keeps each in a register, but a pair on the
    // stack.
    fn exchange(a: &mut X, b: &mut X)
        ensures first { a.new ≡ b.old }
        ensures second { b.new ≡ a.old };
}

// A key and its value are passed, and the closure can write the value.
struct PairForm;

// A key and its value are passed, and the closure can write both.
struct PairMutForm;

// An item is passed, and the closure writes nothing.
struct ItemForm;

impl<K, V, F: FnMut(&K, &mut V) -> bool + Drop> Predicate<(K, V), PairForm> for F {
    ghost accepts = { CallableAtPair F.FnMut };

    ghost step = { CallsAtPair F.FnMut };

    #[inline]
    fn keeps(&mut self, pair: &mut (K, V)) -> bool {
        self(&pair.0, &mut pair.1)
    }

    #[inline]
    fn exchange(a: &mut (K, V), b: &mut (K, V)) {
        swap(&mut a.0, &mut b.0);
        swap(&mut a.1, &mut b.1);
    }
}

impl<K, V, F: FnMut(&mut K, &mut V) -> bool + Drop> Predicate<(K, V), PairMutForm> for F {
    ghost accepts = { CallableAtPairMut F.FnMut };

    ghost step = { CallsAtPairMut F.FnMut };

    #[inline]
    fn keeps(&mut self, pair: &mut (K, V)) -> bool {
        self(&mut pair.0, &mut pair.1)
    }

    #[inline]
    fn exchange(a: &mut (K, V), b: &mut (K, V)) {
        swap(&mut a.0, &mut b.0);
        swap(&mut a.1, &mut b.1);
    }
}

impl<T, F: FnMut(&T) -> bool + Drop> Predicate<T, ItemForm> for F {
    ghost accepts = { TakesAt F.FnMut };

    ghost step = { CallsAtItem F.FnMut };

    #[inline]
    fn keeps(&mut self, item: &mut T) -> bool {
        self(item)
    }

    #[inline]
    fn exchange(a: &mut T, b: &mut T) {
        swap(a, b);
    }
}

// Retains the items that `asked` keeps. No item moves before the first that is rejected.
fn retain<X: Drop, Form, A: Predicate<X, Form>>(items: &mut Vec<X>, mut asked: A)
    requires callable { CallableOnEach A.step A.accepts asked items.old.items }
    ensures retained { (g : A) × Kept A.step asked items.old.items items.new.items g }
    ensures capacity { vec_capacity items.new ≡ vec_capacity items.old }
{
    let rejected = find_rejected(items, &mut asked);
    let mut kept = rejected;
    for i in rejected + 1..items.len() {
        if asked.keeps(&mut items[i]) {
            swap_apart::<X, Form, A>(items, kept, i);
            kept += 1;
        }
    }
    items.truncate(kept);
}

// Swaps the items at two indices, of which `low` comes first, by `exchange`.
#[inline]
fn swap_apart<X, Form, A: Predicate<X, Form>>(items: &mut Vec<X>, low: usize, high: usize)
    requires order { low < high }
    requires within { high < length items.old.items }
    ensures len { length items.new.items ≡ length items.old.items }
    ensures swapped { SwappedAt items.old.items items.new.items low high }
    ensures capacity { vec_capacity items.new ≡ vec_capacity items.old }
{
    let (front, back) = items.as_mut_slice().split_at_mut(high);
    A::exchange(&mut front[low], &mut back[0]);
}

// Calls the closure with the items in order, up to the first that it rejects, and returns the index of that item. If it
// keeps all items, returns their number.
fn find_rejected<X, Form, A: Predicate<X, Form>>(items: &mut Vec<X>, asked: &mut A) -> usize
    requires callable { CallableOnEach A.step A.accepts asked.old items.old.items }
    ensures retained { KeptSoFar A.step asked.old asked.new items.old.items items.new.items
        result (result + 1) }
    ensures within { result ≤ length items.old.items }
    ensures capacity { vec_capacity items.new ≡ vec_capacity items.old }
{
    for i in 0..items.len() {
        if !asked.keeps(&mut items[i]) {
            return i;
        }
    }
    items.len()
}
