//! An iterator over the elements of one set, and then the elements of another that it lacks.
ghost use Rattle.std.specs.{Prelude.{◌≡◌, ⊤, ◌+◌, length}, Iterator.at_most};
ghost use Rattle.vecmap_base.specs.Iterators.{IsHintFor};
ghost use Rattle.vecmap_set.specs.Lazy.{IsBound, JoinsFirst, JoinsLast, union_parts, union_rest};

use super::{Difference, add_bounds};
use std::alloc::AllocError;
use std::iter::FusedIterator;
use std::marker::Model;
use std::{fmt, slice};

/// An iterator over the elements that at least one of two sets has. [`VecSet::union`](crate::VecSet::union) creates
/// one, without comparisons.
///
/// It yields the elements of the longer set, and then the elements of the other set that it lacks, each part in order.
/// A contract sees what is left of both parts.
///
/// # Complexity
///
/// The elements of the longer set are yielded without comparisons. Each further call of `next` or `next_back` looks up
/// elements of the other set in the longer one, up to the next that is not found.
///
/// # Examples
///
/// ```
/// let set = vecset!(alloc; 1, 2);
/// let other = vecset!(alloc; 2, 3);
/// set.union(&other).size_hint() // (2, Some(4))
/// ```
#[derive(Drop)]
pub struct Union<'a, T: Eq> {
    first: slice::Iter<'a, T>,
    second: Difference<'a, T>,
}

impl<'a, T: Eq> Model for Union<'a, T> {
    ghost use Rattle.std.specs.{Prelude.List, Slice.Iter.iter_rest};
    ghost use Rattle.vecmap_set.specs.Lazy.{Filtered, Parts};

    ghost Value = { Parts (List T) (Filtered T) };

    ghost view = { λ a. record { first = iter_rest a.first; second = a.second } };
}

impl<'a, T: Eq> Union<'a, T> {
    // Creates an iterator over all of `items`, and then the elements of `other` that `items` lacks.
    pub(crate) fn over(items: &'a [T], other: &'a [T]) -> Union<'a, T>
        ensures { result ≡ union_parts items.now other.now }
    {
        Union {
            first: items.iter(),
            second: Difference::over(other, items),
        }
    }

    /// Returns an iterator over the same remaining elements. It always succeeds, and does not allocate.
    pub fn clone(&self) -> Union<'a, T>
        ensures { result ≡ self.now }
    {
        Union {
            first: self.first.as_slice().iter(),
            second: self.second.clone(),
        }
    }
}

impl<'a, T: Eq> Iterator for Union<'a, T> {
    type Item = &'a T;

    ghost next_gives = { JoinsFirst T.eq };

    ghost remaining = { λ s. at_most (length (union_rest T.eq s)) };

    fn next(&mut self) -> Option<&'a T> {
        if let Some(item) = self.first.next() {
            return Some(item);
        }
        self.second.next()
    }

    /// Returns the number of elements that are left in the first part, as the lower bound.
    ///
    /// The upper bound adds the number of elements of the second part that are not yet visited. There is no upper bound
    /// if that sum exceeds `usize::MAX`.
    fn size_hint(&self) -> (usize, Option<usize>)
        ensures bounds { IsHintFor (length (union_rest T.eq self.now)) result }
        ensures lower_hint { result.0 ≡ length self.now.first }
        ensures upper_hint { IsBound result.1
            (length self.now.first + length self.now.second.ahead) }
    {
        let first = self.first.len();
        let (_, second) = self.second.size_hint();
        (first, add_bounds(Some(first), second))
    }
}

impl<'a, T: Eq> DoubleEndedIterator for Union<'a, T> {
    ghost next_back_gives = { JoinsLast T.eq };

    fn next_back(&mut self) -> Option<&'a T> {
        if let Some(item) = self.second.next_back() {
            return Some(item);
        }
        self.first.next_back()
    }
}

impl<T: Eq> FusedIterator for Union<'_, T> {}

/// Returns an iterator over the same remaining elements, like the inherent [`Union::clone`]. It never fails.
impl<'a, T: Eq> Clone for Union<'a, T> {
    ghost is_clone = { λ iter copy. copy ≡ iter };

    ghost is_infallible = { λ _. ⊤ };

    fn clone(&self) -> Result<Union<'a, T>, AllocError> {
        Ok(self.clone())
    }
}

/// Prints the remaining elements in order, as std prints lists: `[element, ..]`.
impl<T: Eq + fmt::Debug> fmt::Debug for Union<'_, T> {
    fn fmt<W: fmt::Write>(&self, f: &mut fmt::Formatter<W>) -> fmt::Result {
        f.debug_list().entries(self.clone()).finish()
    }
}
