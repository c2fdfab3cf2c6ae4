//! The iterator that yields a part of each item by value.
//!
//! In contracts it is the list of the parts that it has left. `next` removes the first of them and returns it, and
//! `next_back` the last, in constant time. Once the list is empty, both return `None`. Only `clone` allocates, and its
//! time is linear in the length of the list.
ghost use Rattle.std.specs.{Prelude.{◌≡◌, IfOk, length, map}, Iterator.at_most, Map.Iter.{TakesFirst, TakesLast}};
ghost use Rattle.vecmap_base.specs.{Clones.AreClones, Iterators.{GivesAll, HintsExactly}};

use crate::projection::{ClonePart, IntoPart, Projection};
use std::alloc::AllocError;
use std::collections::VecDeque;
use std::fmt;
use std::iter::FusedIterator;
use std::marker::{Model, PhantomData};

/// An iterator over a vector that yields the part `P` of each item by value, in their order.
///
/// `IntoIter`, `IntoKeys` and `IntoValues` of a map and `IntoIter` of a set are this type. If the iterator is dropped,
/// the items that are left are dropped too.
pub struct IntoIterOf<X, T, P: Projection<X, T>> {
    // Uses the memory of the vector. The clone of a `vec::IntoIter` would promise its length alone.
    items: VecDeque<X>,
    part: PhantomData<(T, P)>,
}

impl<X, T, P: Projection<X, T>> Model for IntoIterOf<X, T, P> {
    ghost use Rattle.std.specs.Prelude.{List, map};

    ghost Value = { List T };

    ghost view = { λ a. map P.part a.items.items };
}

// Not derived, so that the proof of a loop that ends early still knows which items were taken, and so that a recursion
// over a map that is moved is proved to end.
impl<X: Drop, T, P: Projection<X, T>> Drop for IntoIterOf<X, T, P> {
    fn drop(self) {
        let IntoIterOf { items, part: _ } = self;
        drop(items);
    }
}

impl<X, T, P: Projection<X, T>> IntoIterOf<X, T, P> {
    pub(super) fn over_items(items: Vec<X>) -> IntoIterOf<X, T, P>
        ensures { GivesAll (map P.part items.items) result }
    {
        IntoIterOf {
            items: VecDeque::from_vec(items),
            part: PhantomData,
        }
    }
}

impl<X, T, P: Projection<X, T>> IntoIterOf<X, T, P> {
    /// Returns an iterator over clones of what is left, in the same order.
    ///
    /// Whole items are cloned: a clone of `IntoKeys` clones the values too.
    ///
    /// # Errors
    ///
    /// [`AllocError`] if an allocation fails, or if the clone of an item fails; this iterator then still has all items
    /// that it had left.
    ///
    /// # Complexity
    ///
    /// One clone of each item that is left, and one allocation.
    ///
    /// # Examples
    ///
    /// ```
    /// let map = vecmap!(alloc; 'a' => 1, 'b' => 2);
    /// let mut values = map.into_values();
    /// values.next() // Some(1)
    /// values.clone()?.next() // Some(2)
    /// values.len() // 1
    /// ```
    pub fn clone(&self) -> Result<IntoIterOf<X, T, P>, AllocError>
    where
        X: Clone,
        T: Clone,
        P: ClonePart<X, T>,
        ensures { IfOk result (λ copy. AreClones T.is_clone self.now copy) }
    {
        Ok(IntoIterOf {
            items: self.items.clone()?,
            part: PhantomData,
        })
    }
}

impl<X: Drop, T, P: IntoPart<X, T>> Iterator for IntoIterOf<X, T, P> {
    type Item = T;

    ghost next_gives = { TakesFirst (λ part. part) };

    ghost remaining = { λ s. at_most (length s) };

    fn next(&mut self) -> Option<T> {
        let item = self.items.pop_front()?;
        Some(P::into_part(item))
    }

    /// Returns the number of items left, as both bounds.
    fn size_hint(&self) -> (usize, Option<usize>)
        ensures exact { HintsExactly (length self.now) result }
    {
        let len = self.len();
        (len, Some(len))
    }
}

impl<X: Drop, T, P: IntoPart<X, T>> DoubleEndedIterator for IntoIterOf<X, T, P> {
    ghost next_back_gives = { TakesLast (λ part. part) };

    fn next_back(&mut self) -> Option<T> {
        let item = self.items.pop_back()?;
        Some(P::into_part(item))
    }
}

impl<X: Drop, T, P: IntoPart<X, T>> ExactSizeIterator for IntoIterOf<X, T, P> {
    /// Returns the number of items left.
    fn len(&self) -> usize {
        self.items.len()
    }
}

impl<X: Drop, T, P: IntoPart<X, T>> FusedIterator for IntoIterOf<X, T, P> {}

/// Prints what is left, as std prints a list.
impl<X, T: fmt::Debug, P: Projection<X, T>> fmt::Debug for IntoIterOf<X, T, P> {
    fn fmt<W: fmt::Write>(&self, f: &mut fmt::Formatter<W>) -> fmt::Result {
        let mut list = f.debug_list();
        for item in &self.items {
            list.entry(P::of(item));
        }
        list.finish()
    }
}
