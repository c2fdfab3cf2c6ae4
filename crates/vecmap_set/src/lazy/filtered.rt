//! The iterator over the elements of one list that another list has, or that it lacks.
ghost use Rattle.std.specs.{Prelude.{◌≡◌, ⊤, Bool, false, length, true}, Iterator.at_most};
ghost use Rattle.vecmap_base.specs.Iterators.{IsHintFor};
ghost use Rattle.vecmap_set.specs.Lazy.{FiltersAll, FiltersFirst, FiltersLast, filtered_of, filtered_rest, presence};

use super::{filtered_back, filtered_front};
use std::alloc::AllocError;
use std::iter::FusedIterator;
use std::marker::{Model, PhantomData};
use std::{fmt, slice};

/// Whether the other list has the elements that a [`FilteredOf`] yields: [`Present`] or [`Absent`].
pub trait Presence {
    ghost IS_WITHIN: { Bool };

    /// Whether the other list has the elements.
    const IS_WITHIN: bool;
}

/// The other list has the elements, as of an [`Intersection`].
#[derive(Drop)]
pub struct Present;

/// The other list lacks the elements, as of a [`Difference`].
#[derive(Drop)]
pub struct Absent;

impl Presence for Present {
    ghost IS_WITHIN = { true };

    const IS_WITHIN: bool = true;
}

impl Presence for Absent {
    ghost IS_WITHIN = { false };

    const IS_WITHIN: bool = false;
}

/// An iterator over the elements of one list that another list has, or that it lacks, in order.
///
/// [`Difference`] and [`Intersection`] are this type. A contract sees the elements that are not yet visited, and the
/// elements of the other list.
#[derive(Drop)]
pub struct FilteredOf<'a, T: Eq, P: Presence> {
    items: slice::Iter<'a, T>,
    other: &'a [T],
    presence: PhantomData<P>,
}

/// An iterator over the elements of one set that another lacks, in order.
/// [`VecSet::difference`](crate::VecSet::difference) creates one, without comparisons.
///
/// # Complexity
///
/// Each call of `next` or `next_back` looks up elements of the first set in the other, up to the next that is not
/// found. It makes no other comparisons.
///
/// # Examples
///
/// ```
/// let set = vecset!(alloc; 1, 2, 3);
/// let other = vecset!(alloc; 2, 3);
/// set.difference(&other).size_hint() // (0, Some(3))
/// ```
pub type Difference<'a, T: Eq> = FilteredOf<'a, T, Absent>;

/// An iterator over the elements of the shorter of two sets that the other has, in order.
/// [`VecSet::intersection`](crate::VecSet::intersection) creates one, without comparisons.
///
/// # Complexity
///
/// Each call of `next` or `next_back` looks up elements of the shorter set in the other, up to the next that is found.
/// It makes no other comparisons.
///
/// # Examples
///
/// ```
/// let set = vecset!(alloc; 1, 2, 3);
/// let other = vecset!(alloc; 2, 3);
/// set.intersection(&other).next() // Some(&2)
/// set.intersection(&other).size_hint() // (0, Some(2))
/// ```
pub type Intersection<'a, T: Eq> = FilteredOf<'a, T, Present>;

impl<'a, T: Eq, P: Presence> Model for FilteredOf<'a, T, P> {
    ghost use Rattle.std.specs.Slice.Iter.{iter_rest};
    ghost use Rattle.vecmap_set.specs.Lazy.{Filtered};

    ghost Value = { Filtered T };

    ghost view = { λ a. record { ahead = iter_rest a.items; other = a.other.now } };
}

impl<'a, T: Eq, P: Presence> FilteredOf<'a, T, P> {
    // Creates an iterator over the elements of `items` whose presence in `other` is `P`.
    pub(crate) fn over(items: &'a [T], other: &'a [T]) -> FilteredOf<'a, T, P>
        ensures { FiltersAll (presence T.eq P.IS_WITHIN) (filtered_of items.now other.now) result }
    {
        FilteredOf {
            items: items.iter(),
            other,
            presence: PhantomData,
        }
    }

    /// Returns an iterator over the same remaining elements. It always succeeds, and does not allocate.
    ///
    /// # Examples
    ///
    /// ```
    /// let set = vecset!(alloc; 1, 2, 3);
    /// let other = vecset!(alloc; 2, 3);
    /// let mut items = set.difference(&other);
    /// items.next() // Some(&1)
    /// items.clone().next() // None
    /// items.next() // None
    /// ```
    pub fn clone(&self) -> FilteredOf<'a, T, P>
        ensures { result ≡ self.now }
    {
        FilteredOf {
            items: self.items.as_slice().iter(),
            other: self.other,
            presence: PhantomData,
        }
    }
}

impl<'a, T: Eq, P: Presence> Iterator for FilteredOf<'a, T, P> {
    type Item = &'a T;

    ghost next_gives = { FiltersFirst (presence T.eq P.IS_WITHIN) };

    ghost remaining = { λ s. at_most (length (filtered_rest (presence T.eq P.IS_WITHIN) s)) };

    fn next(&mut self) -> Option<&'a T> {
        filtered_front(&mut self.items, self.other, P::IS_WITHIN)
    }

    /// Returns 0 and the number of elements that are not yet visited.
    #[tactic(auto, using(crate::proofs::LazyLemmas::length_filter))]
    fn size_hint(&self) -> (usize, Option<usize>)
        ensures bounds { IsHintFor (length (filtered_rest (presence T.eq P.IS_WITHIN) self.now)) result }
        ensures hint { result ≡ (0, Some (length self.now.ahead)) }
    {
        (0, Some(self.items.len()))
    }
}

impl<'a, T: Eq, P: Presence> DoubleEndedIterator for FilteredOf<'a, T, P> {
    ghost next_back_gives = { FiltersLast (presence T.eq P.IS_WITHIN) };

    fn next_back(&mut self) -> Option<&'a T> {
        filtered_back(&mut self.items, self.other, P::IS_WITHIN)
    }
}

impl<T: Eq, P: Presence> FusedIterator for FilteredOf<'_, T, P> {}

/// Returns an iterator over the same remaining elements, like the inherent [`FilteredOf::clone`]. It never fails.
impl<'a, T: Eq, P: Presence> Clone for FilteredOf<'a, T, P> {
    ghost is_clone = { λ iter copy. copy ≡ iter };

    ghost is_infallible = { λ _. ⊤ };

    fn clone(&self) -> Result<FilteredOf<'a, T, P>, AllocError> {
        Ok(self.clone())
    }
}

/// Prints the remaining elements in order, as std prints lists: `[element, ..]`.
impl<T: Eq + fmt::Debug, P: Presence> fmt::Debug for FilteredOf<'_, T, P> {
    fn fmt<W: fmt::Write>(&self, f: &mut fmt::Formatter<W>) -> fmt::Result {
        f.debug_list().entries(self.clone()).finish()
    }
}
