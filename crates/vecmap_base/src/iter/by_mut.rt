//! The iterator that yields a part of each item by mutable reference.
//!
//! In contracts it has a list of the parts that it has left (`rest_of`), as they were when the iterator was created.
//! `next` removes the first of them and returns it, and `next_back` the last, in constant time. Once the list is empty,
//! both return `None`. No call allocates.
//!
//! The iterator also has the name of its borrow (`name_of`), by which a contract says what the collection holds once
//! the borrow ends.
ghost use Rattle.std.specs.{Prelude.{◌≡◌, length, map}, Iterator.at_most};
ghost use Rattle.vecmap_base.specs.Iterators.{HintsExactly, ShowsAllOf, TakesFirstOf, TakesLastOf, name_of, rest_of};

use crate::projection::{PartMut, Projection};
use std::iter::FusedIterator;
use std::marker::PhantomData;
use std::{fmt, slice};

/// An iterator over a slice that yields a mutable reference to the part `P` of each item, in their order.
///
/// `IterMut`, `IterMut2`, `KeysMut` and `ValuesMut` of a map are this type.
#[derive(Drop)]
pub struct IterMutOf<'a, X, T, P> {
    items: slice::IterMut<'a, X>,
    part: PhantomData<(T, P)>,
}

impl<'a, X, T, P: PartMut<'a, X, T>> IterMutOf<'a, X, T, P> {
    pub(super) fn over_items(items: &'a mut [X]) -> IterMutOf<'a, X, T, P>
        ensures lender { name_of result ≡ items.entry.ghost_name }
        ensures rest { ShowsAllOf P.shows (rest_of P.part) (map P.part items.old) result }
    {
        IterMutOf {
            items: items.iter_mut(),
            part: PhantomData,
        }
    }
}

impl<'a, X, T, P: PartMut<'a, X, T>> Iterator for IterMutOf<'a, X, T, P> {
    type Item = P::RefMut;

    ghost next_gives = { TakesFirstOf P.shows (rest_of P.part) };

    ghost remaining = { λ s. at_most (length (rest_of P.part s)) };

    fn next(&mut self) -> Option<P::RefMut> {
        let item = self.items.next()?;
        Some(P::of_mut(item))
    }

    /// Returns the number of items left, as both bounds.
    fn size_hint(&self) -> (usize, Option<usize>)
        ensures exact { HintsExactly (length (rest_of P.part self.now)) result }
    {
        let len = self.len();
        (len, Some(len))
    }
}

impl<'a, X, T, P: PartMut<'a, X, T>> DoubleEndedIterator for IterMutOf<'a, X, T, P> {
    ghost next_back_gives = { TakesLastOf P.shows (rest_of P.part) };

    fn next_back(&mut self) -> Option<P::RefMut> {
        let item = self.items.next_back()?;
        Some(P::of_mut(item))
    }
}

impl<'a, X, T, P: PartMut<'a, X, T>> ExactSizeIterator for IterMutOf<'a, X, T, P> {
    /// Returns the number of items left.
    fn len(&self) -> usize {
        self.items.len()
    }
}

impl<'a, X, T, P: PartMut<'a, X, T>> FusedIterator for IterMutOf<'a, X, T, P> {}

/// Prints what is left, as std prints a list.
impl<'a, X, T: fmt::Debug, P: Projection<X, T>> fmt::Debug for IterMutOf<'a, X, T, P> {
    fn fmt<W: fmt::Write>(&self, f: &mut fmt::Formatter<W>) -> fmt::Result {
        let mut list = f.debug_list();
        for item in self.items.as_slice() {
            list.entry(P::of(item));
        }
        list.finish()
    }
}
