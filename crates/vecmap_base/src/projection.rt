//! Projections: which part of each item an iterator yields.
//!
//! Each iterator with an exact length, except drains, is one of three types: [`IterOf`](crate::IterOf) yields
//! references, [`IterMutOf`](crate::IterMutOf) mutable references, and [`IntoIterOf`](crate::IntoIterOf) values. The
//! last type parameters of each are the type of the part and a projection, as `K` and `Key` in `Keys<'a, K, V>`, which
//! is `IterOf<'a, (K, V), K, Key>`. With an associated type for the part, the iterators would be invariant.
ghost use Rattle.std.specs.{Prelude.{◌≡◌}, Map.Iter.{deref, deref_pair, deref_pair_mut}};
ghost use Rattle.vecmap_base.specs.Iterators.{deref_both_mut, deref_mut};

/// A part, of type `T`, of each item of type `X`.
pub trait Projection<X, T> {
    ghost part: { X → T };

    /// Returns a reference to the part of an item.
    ///
    /// # Examples
    ///
    /// ```
    /// Key::of(&('a', 1)) // &'a'
    /// ```
    fn of(item: &X) -> &T
        ensures { result.now ≡ part item.now };
}

/// A part that an iterator over references can yield.
pub trait PartRef<'a, X, T>: Projection<X, T> {
    /// The type of a reference to the part.
    type Ref;

    // The part to which a reference points.
    ghost shows: { Self.Ref → T };

    /// Returns the part of an item by reference, in the form that [`IterOf`](crate::IterOf) yields: of a pair
    /// `(&K, &V)`, where `of` returns `&(K, V)`.
    ///
    /// # Examples
    ///
    /// ```
    /// Pair::of_ref(&('a', 1)) // (&'a', &1)
    /// ```
    fn of_ref(item: &'a X) -> Self::Ref
        ensures { shows result ≡ Self.part item.now };
}

/// A part that an iterator over mutable references can yield.
pub trait PartMut<'a, X, T>: Projection<X, T> {
    /// The type of a mutable reference to the part.
    type RefMut;

    // The part to which a reference pointed at first.
    ghost shows: { Self.RefMut → T };

    /// Returns the part of an item by mutable reference, in the form that [`IterMutOf`](crate::IterMutOf) yields.
    ///
    /// # Examples
    ///
    /// ```
    /// let mut pair = ('a', 1);
    /// *Value::of_mut(&mut pair) = 2;
    /// pair // ('a', 2)
    /// ```
    fn of_mut(item: &'a mut X) -> Self::RefMut
        ensures { shows result ≡ Self.part item.old };
}

/// A part that can be moved out of its item.
pub trait IntoPart<X, T>: Projection<X, T> {
    /// Returns the part of an item, and drops the rest of the item.
    ///
    /// # Examples
    ///
    /// ```
    /// Value::into_part(('a', 1)) // 1
    /// ```
    fn into_part(item: X) -> T
        ensures { result ≡ Self.part item };
}

/// A part that is cloned if its item is cloned.
pub trait ClonePart<X: Clone, T: Clone>: Projection<X, T> {
    // A clone of an item has a clone of the part.
    ghost clones: { (x y : X) → X.is_clone x y → T.is_clone (Self.part x) (Self.part y) };
}

/// The key of a pair.
#[derive(Drop)]
pub struct Key;

/// The value of a pair.
#[derive(Drop)]
pub struct Value;

/// The whole pair. Mutable references lead to its value alone.
#[derive(Drop)]
pub struct Pair;

/// The whole pair, with a mutable key.
#[derive(Drop)]
pub struct PairMut;

/// The whole element of a set.
#[derive(Drop)]
pub struct Element;

impl<K, V> Projection<(K, V), K> for Key {
    ghost part = { λ pair. pair.0 };

    fn of(pair: &(K, V)) -> &K {
        &pair.0
    }
}

impl<K, V> Projection<(K, V), V> for Value {
    ghost part = { λ pair. pair.1 };

    fn of(pair: &(K, V)) -> &V {
        &pair.1
    }
}

impl<K, V> Projection<(K, V), (K, V)> for Pair {
    ghost part = { λ pair. pair };

    fn of(pair: &(K, V)) -> &(K, V) {
        pair
    }
}

impl<K, V> Projection<(K, V), (K, V)> for PairMut {
    ghost part = { λ pair. pair };

    fn of(pair: &(K, V)) -> &(K, V) {
        pair
    }
}

impl<T> Projection<T, T> for Element {
    ghost part = { λ element. element };

    fn of(element: &T) -> &T {
        element
    }
}

impl<'a, K: 'a, V> PartRef<'a, (K, V), K> for Key {
    type Ref = &'a K;

    ghost shows = { deref };

    fn of_ref(pair: &'a (K, V)) -> &'a K {
        &pair.0
    }
}

impl<'a, K, V: 'a> PartRef<'a, (K, V), V> for Value {
    type Ref = &'a V;

    ghost shows = { deref };

    fn of_ref(pair: &'a (K, V)) -> &'a V {
        &pair.1
    }
}

impl<'a, K: 'a, V: 'a> PartRef<'a, (K, V), (K, V)> for Pair {
    type Ref = (&'a K, &'a V);

    ghost shows = { deref_pair };

    fn of_ref(pair: &'a (K, V)) -> (&'a K, &'a V) {
        (&pair.0, &pair.1)
    }
}

impl<'a, T: 'a> PartRef<'a, T, T> for Element {
    type Ref = &'a T;

    ghost shows = { deref };

    fn of_ref(element: &'a T) -> &'a T {
        element
    }
}

impl<'a, K: 'a, V> PartMut<'a, (K, V), K> for Key {
    type RefMut = &'a mut K;

    ghost shows = { deref_mut };

    fn of_mut(pair: &'a mut (K, V)) -> &'a mut K {
        &mut pair.0
    }
}

impl<'a, K, V: 'a> PartMut<'a, (K, V), V> for Value {
    type RefMut = &'a mut V;

    ghost shows = { deref_mut };

    fn of_mut(pair: &'a mut (K, V)) -> &'a mut V {
        &mut pair.1
    }
}

impl<'a, K: 'a, V: 'a> PartMut<'a, (K, V), (K, V)> for Pair {
    type RefMut = (&'a K, &'a mut V);

    ghost shows = { deref_pair_mut };

    fn of_mut(pair: &'a mut (K, V)) -> (&'a K, &'a mut V) {
        (&pair.0, &mut pair.1)
    }
}

impl<'a, K: 'a, V: 'a> PartMut<'a, (K, V), (K, V)> for PairMut {
    type RefMut = (&'a mut K, &'a mut V);

    ghost shows = { deref_both_mut };

    fn of_mut(pair: &'a mut (K, V)) -> (&'a mut K, &'a mut V) {
        (&mut pair.0, &mut pair.1)
    }
}

impl<K, V: Drop> IntoPart<(K, V), K> for Key {
    fn into_part(pair: (K, V)) -> K {
        let (key, _) = pair;
        key
    }
}

impl<K: Drop, V> IntoPart<(K, V), V> for Value {
    fn into_part(pair: (K, V)) -> V {
        let (_, value) = pair;
        value
    }
}

impl<K, V> IntoPart<(K, V), (K, V)> for Pair {
    fn into_part(pair: (K, V)) -> (K, V) {
        pair
    }
}

impl<T> IntoPart<T, T> for Element {
    fn into_part(element: T) -> T {
        element
    }
}

impl<K: Clone, V: Clone> ClonePart<(K, V), K> for Key {
    ghost clones = { λ x y is. is.0 };
}

impl<K: Clone, V: Clone> ClonePart<(K, V), V> for Value {
    ghost clones = { λ x y is. is.1 };
}

impl<K: Clone, V: Clone> ClonePart<(K, V), (K, V)> for Pair {
    ghost clones = { λ x y is. is };
}

impl<T: Clone> ClonePart<T, T> for Element {
    ghost clones = { λ x y is. is };
}
