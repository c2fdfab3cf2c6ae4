//! The iterator that yields a part of each item by reference.
//!
//! In contracts it is the list of the parts that it has left. `next` removes the first of them and returns it, and
//! `next_back` the last, in constant time. Once the list is empty, both return `None`. No call allocates.
ghost use Rattle.std.specs.{Prelude.{◌≡◌, ⊤, length, map}, Iterator.at_most, Map.Iter.{TakesFirst, TakesLast}};
ghost use Rattle.vecmap_base.specs.Iterators.{HintsExactly, ShowsAll};

use crate::projection::{PartRef, Projection};
use std::alloc::AllocError;
use std::iter::FusedIterator;
use std::marker::{Model, PhantomData};
use std::{fmt, slice};

/// An iterator over a slice that yields a reference to the part `P` of each item, in their order.
///
/// `Iter`, `Keys` and `Values` of a map and `Iter` of a set are this type.
#[derive(Drop)]
pub struct IterOf<'a, X, T, P: Projection<X, T>> {
    items: slice::Iter<'a, X>,
    part: PhantomData<P>,
    // Holds nothing, and names `T`. With a `PhantomData<T>` in its place, a proof takes the struct as invariant in `T`.
    none: [&'a T; 0],
}

impl<'a, X, T, P: Projection<X, T>> Model for IterOf<'a, X, T, P> {
    ghost use Rattle.std.specs.{Prelude.{List, map}, Slice.Iter.iter_rest};

    ghost Value = { List T };

    ghost view = { λ a. map P.part (iter_rest a.items) };
}

impl<'a, X, T, P: Projection<X, T>> IterOf<'a, X, T, P> {
    /// Returns another iterator over what is left.
    ///
    /// # Complexity
    ///
    /// Does not allocate.
    ///
    /// # Examples
    ///
    /// ```
    /// let map = vecmap!(alloc; 'a' => 1, 'b' => 2);
    /// let mut keys = map.keys();
    /// keys.next() // Some(&'a')
    /// keys.clone().next() // Some(&'b')
    /// keys.len() // 1
    /// ```
    pub fn clone(&self) -> IterOf<'a, X, T, P>
        ensures { result ≡ self.now }
    {
        IterOf {
            items: self.items.as_slice().iter(),
            part: PhantomData,
            none: [],
        }
    }
}

impl<'a, X, T, P: PartRef<'a, X, T>> IterOf<'a, X, T, P> {
    pub(super) fn over_items(items: &'a [X]) -> IterOf<'a, X, T, P>
        ensures { ShowsAll P.shows (map P.part items.now) result }
    {
        IterOf {
            items: items.iter(),
            part: PhantomData,
            none: [],
        }
    }
}

impl<'a, X, T, P: PartRef<'a, X, T>> Iterator for IterOf<'a, X, T, P> {
    type Item = P::Ref;

    ghost next_gives = { TakesFirst P.shows };

    ghost remaining = { λ s. at_most (length s) };

    fn next(&mut self) -> Option<P::Ref> {
        let item = self.items.next()?;
        Some(P::of_ref(item))
    }

    /// Returns the number of items left, as both bounds.
    fn size_hint(&self) -> (usize, Option<usize>)
        ensures exact { HintsExactly (length self.now) result }
    {
        let len = self.len();
        (len, Some(len))
    }
}

impl<'a, X, T, P: PartRef<'a, X, T>> DoubleEndedIterator for IterOf<'a, X, T, P> {
    ghost next_back_gives = { TakesLast P.shows };

    fn next_back(&mut self) -> Option<P::Ref> {
        let item = self.items.next_back()?;
        Some(P::of_ref(item))
    }
}

impl<'a, X, T, P: PartRef<'a, X, T>> ExactSizeIterator for IterOf<'a, X, T, P> {
    /// Returns the number of items left.
    fn len(&self) -> usize {
        self.items.len()
    }
}

impl<'a, X, T, P: PartRef<'a, X, T>> FusedIterator for IterOf<'a, X, T, P> {}

/// Returns another iterator over what is left, like the inherent [`IterOf::clone`]. It never fails.
impl<'a, X, T, P: Projection<X, T>> Clone for IterOf<'a, X, T, P> {
    ghost is_clone = { λ iter copy. copy ≡ iter };

    ghost is_infallible = { λ _. ⊤ };

    fn clone(&self) -> Result<IterOf<'a, X, T, P>, AllocError> {
        Ok(self.clone())
    }
}

/// Prints what is left, as std prints a list.
impl<'a, X, T: fmt::Debug, P: Projection<X, T>> fmt::Debug for IterOf<'a, X, T, P> {
    fn fmt<W: fmt::Write>(&self, f: &mut fmt::Formatter<W>) -> fmt::Result {
        let mut list = f.debug_list();
        for item in self.items.as_slice() {
            list.entry(P::of(item));
        }
        list.finish()
    }
}
