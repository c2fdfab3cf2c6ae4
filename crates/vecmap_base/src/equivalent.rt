//! Queries that match keys or elements.
ghost use Rattle.std.proofs.lemmas.Bool.{and_parts};
ghost use Rattle.std.specs.{Prelude.{◌≡◌, ◌&&◌, Bool, bytes_eq, string_bytes}, Arc.{arc_slice_items, arc_str_bytes}, Cow.cow_str_bytes};
ghost use Rattle.std.specs.{Box.{boxed_slice_items, boxed_str_bytes}, Cmp.Lexicographic.{lists_equiv, nat_list_eq_equiv, pointwise}};
ghost use Rattle.std.specs.{Map.IsKeyTest, Rc.{rc_slice_items, rc_str_bytes}};
ghost use Rattle.vecmap_base.specs.Pairs.{has_text};

use std::borrow::CowStr;
use std::boxed::{BoxedSlice, BoxedStr};
use std::ops::Deref;
use std::rc::{Rc, RcSlice, RcStr};
use std::sync::{Arc, ArcSlice, ArcStr};

/// A query that may match keys, or elements.
///
/// A `&K` matches the keys that are equal to it, and a `&T` also each `Box`, `Rc` and `Arc` whose value is equal to it.
/// A `&str` matches the texts with the same bytes, whatever type holds them. A `&[T]` matches the vectors, and the
/// boxed and shared slices, whose items are equal to its own. A pair of queries matches the pairs of keys whose parts
/// they match.
///
/// Other types can implement this trait. If a query matches a key, it must match the keys that are equal to that key,
/// and no others.
///
/// # Examples
///
/// ```
/// let key = String::from_str(alloc, "a")?;
/// "a".equivalent(&key) // true
/// ```
pub trait Equivalent<K: Eq>: Copy {
    // What `equivalent` returns.
    ghost equivalent: { Self → K → Bool };

    /// Returns `true` if the query matches `key`.
    fn equivalent(&self, key: &K) -> bool
        ensures { result ≡ equivalent self.now key.now };

    // If a query matches a key, it matches the keys that are equal to that key, and no others.
    ghost respects_eq: { (query : Self) → IsKeyTest K.eq (equivalent query) };
}

/// Matches the keys that are equal to the query.
impl<K: Eq> Equivalent<K> for &K {
    ghost equivalent = { λ query. K.eq query.now };

    #[inline]
    fn equivalent(&self, key: &K) -> bool {
        **self == *key
    }

    ghost respects_eq = { λ query. K.Eq.laws.congr query.now };
}

/// Matches each `String` with the same bytes.
impl Equivalent<String> for &str {
    ghost equivalent = { λ query. has_text query.now };

    #[inline]
    fn equivalent(&self, key: &String) -> bool {
        **self == *key.as_str()
    }

    ghost respects_eq = { λ query x y.
        nat_list_eq_equiv.congr query.now (string_bytes x) (string_bytes y) };
}

/// Matches each borrowed text with the same bytes.
impl<'b> Equivalent<&'b str> for &str {
    ghost equivalent = { λ query key. bytes_eq query.now key.now };

    #[inline]
    fn equivalent(&self, key: &&'b str) -> bool {
        **self == **key
    }

    ghost respects_eq = { λ query x y. nat_list_eq_equiv.congr query.now x.now y.now };
}

/// Matches each `BoxedStr` with the same bytes.
impl Equivalent<BoxedStr> for &str {
    ghost equivalent = { λ query key. bytes_eq query.now (boxed_str_bytes key) };

    #[inline]
    fn equivalent(&self, key: &BoxedStr) -> bool {
        **self == *key.as_str()
    }

    ghost respects_eq = { λ query x y.
        nat_list_eq_equiv.congr query.now (boxed_str_bytes x) (boxed_str_bytes y) };
}

/// Matches each `RcStr` with the same bytes.
impl Equivalent<RcStr> for &str {
    ghost equivalent = { λ query key. bytes_eq query.now (rc_str_bytes key) };

    #[inline]
    fn equivalent(&self, key: &RcStr) -> bool {
        **self == *key.as_str()
    }

    ghost respects_eq = { λ query x y.
        nat_list_eq_equiv.congr query.now (rc_str_bytes x) (rc_str_bytes y) };
}

/// Matches each `ArcStr`, which threads may share, with the same bytes.
impl Equivalent<ArcStr> for &str {
    ghost equivalent = { λ query key. bytes_eq query.now (arc_str_bytes key) };

    #[inline]
    fn equivalent(&self, key: &ArcStr) -> bool {
        **self == *key.as_str()
    }

    ghost respects_eq = { λ query x y.
        nat_list_eq_equiv.congr query.now (arc_str_bytes x) (arc_str_bytes y) };
}

/// Matches each `CowStr` with the same bytes, borrowed or owned.
impl<'b> Equivalent<CowStr<'b>> for &str {
    ghost equivalent = { λ query key. bytes_eq query.now (cow_str_bytes key) };

    #[inline]
    fn equivalent(&self, key: &CowStr<'b>) -> bool {
        **self == *key.as_str()
    }

    ghost respects_eq = { λ query x y.
        nat_list_eq_equiv.congr query.now (cow_str_bytes x) (cow_str_bytes y) };
}

/// Matches each vector whose items are equal to the items of the query, index by index.
impl<T: Eq> Equivalent<Vec<T>> for &[T] {
    ghost equivalent = { λ query key. pointwise T.eq query.now key.items };

    #[inline]
    fn equivalent(&self, key: &Vec<T>) -> bool {
        **self == *key.as_slice()
    }

    ghost respects_eq = { λ query x y. (lists_equiv T.Eq.laws).congr query.now x.items y.items };
}

/// Matches each boxed slice whose items are equal to the items of the query, index by index.
impl<T: Eq> Equivalent<BoxedSlice<T>> for &[T] {
    ghost equivalent = { λ query key. pointwise T.eq query.now (boxed_slice_items key) };

    #[inline]
    fn equivalent(&self, key: &BoxedSlice<T>) -> bool {
        **self == *key.as_slice()
    }

    ghost respects_eq = { λ query x y.
        (lists_equiv T.Eq.laws).congr query.now (boxed_slice_items x) (boxed_slice_items y) };
}

/// Matches each `RcSlice` whose items are equal to the items of the query, index by index.
impl<T: Eq> Equivalent<RcSlice<T>> for &[T] {
    ghost equivalent = { λ query key. pointwise T.eq query.now (rc_slice_items key) };

    #[inline]
    fn equivalent(&self, key: &RcSlice<T>) -> bool {
        **self == *key.as_slice()
    }

    ghost respects_eq = { λ query x y.
        (lists_equiv T.Eq.laws).congr query.now (rc_slice_items x) (rc_slice_items y) };
}

/// Matches each `ArcSlice`, which threads may share, whose items are equal to the items of the query, index by index.
impl<T: Eq> Equivalent<ArcSlice<T>> for &[T] {
    ghost equivalent = { λ query key. pointwise T.eq query.now (arc_slice_items key) };

    #[inline]
    fn equivalent(&self, key: &ArcSlice<T>) -> bool {
        **self == *key.as_slice()
    }

    ghost respects_eq = { λ query x y.
        (lists_equiv T.Eq.laws).congr query.now (arc_slice_items x) (arc_slice_items y) };
}

/// Matches each `Box` whose value is equal to the value of the query.
impl<T: Eq> Equivalent<Box<T>> for &T {
    ghost equivalent = { λ query key. T.eq query.now key.value };

    #[inline]
    fn equivalent(&self, key: &Box<T>) -> bool {
        **self == *key.deref()
    }

    ghost respects_eq = { λ query x y. T.Eq.laws.congr query.now x.value y.value };
}

/// Matches each `Rc` whose value is equal to the value of the query.
impl<T: Eq> Equivalent<Rc<T>> for &T {
    ghost equivalent = { λ query key. T.eq query.now key.value };

    #[inline]
    fn equivalent(&self, key: &Rc<T>) -> bool {
        **self == *key.deref()
    }

    ghost respects_eq = { λ query x y. T.Eq.laws.congr query.now x.value y.value };
}

/// Matches each `Arc`, which threads may share, whose value is equal to the value of the query.
impl<T: Eq> Equivalent<Arc<T>> for &T {
    ghost equivalent = { λ query key. T.eq query.now key.value };

    #[inline]
    fn equivalent(&self, key: &Arc<T>) -> bool {
        **self == *key.deref()
    }

    ghost respects_eq = { λ query x y. T.Eq.laws.congr query.now x.value y.value };
}

/// Matches each pair of keys whose first key matches the first query, and whose second key matches the second query.
///
/// So two texts find a key `(String, String)`.
///
/// # Examples
///
/// ```
/// let key = (String::from_str(alloc, "Ada")?, 1);
/// ("Ada", &1).equivalent(&key) // true
/// ("Ada", &2).equivalent(&key) // false
/// ```
impl<A: Eq, B: Eq, P: Equivalent<A>, Q: Equivalent<B>> Equivalent<(A, B)> for (P, Q) {
    ghost equivalent = { λ query key. P.equivalent query.0 key.0 && Q.equivalent query.1 key.1 };

    #[inline]
    fn equivalent(&self, key: &(A, B)) -> bool {
        self.0.equivalent(&key.0) && self.1.equivalent(&key.1)
    }

    // Each of the two queries respects the equality of its own keys.
    ghost respects_eq = { λ query x y h.
        let both = and_parts (P.equivalent query.0 x.0) (Q.equivalent query.1 x.1) h
        in λ j. P.respects_eq query.0 x.0 y.0 both.0 j
        && Q.respects_eq query.1 x.1 y.1 both.1 j };
}
