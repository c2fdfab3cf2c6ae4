//! An iterator over the elements that only one of two sets has.
ghost use Rattle.std.specs.{Prelude.{◌≡◌, ⊤, ◌+◌, length}, Iterator.at_most};
ghost use Rattle.vecmap_base.specs.Iterators.{IsHintFor};
ghost use Rattle.vecmap_set.specs.Lazy.{ExcludesFirst, ExcludesLast, IsBound, symmetric_parts, symmetric_rest};

use super::{Difference, add_bounds};
use std::alloc::AllocError;
use std::fmt;
use std::iter::FusedIterator;
use std::marker::Model;

/// An iterator over the elements that only one of two sets has.
/// [`VecSet::symmetric_difference`](crate::VecSet::symmetric_difference) creates one, without comparisons.
///
/// It yields the elements of the first set that the second lacks, and then the elements of the second that the first
/// lacks, each part in order. A contract sees what is left of both parts.
///
/// # Complexity
///
/// Each call of `next` or `next_back` looks up elements of one set in the other, up to the next that is not found. It
/// makes no other comparisons.
///
/// # Examples
///
/// ```
/// let set = vecset!(alloc; 1, 2, 3);
/// let other = vecset!(alloc; 2, 3);
/// let items = set.symmetric_difference(&other);
/// items.clone().next_back() // Some(&1)
/// ```
#[derive(Drop)]
pub struct SymmetricDifference<'a, T: Eq> {
    first: Difference<'a, T>,
    second: Difference<'a, T>,
}

impl<'a, T: Eq> Model for SymmetricDifference<'a, T> {
    ghost use Rattle.vecmap_set.specs.Lazy.{Filtered, Parts};

    ghost Value = { Parts (Filtered T) (Filtered T) };

    ghost view = { λ a. record { first = a.first; second = a.second } };
}

impl<'a, T: Eq> SymmetricDifference<'a, T> {
    // Creates an iterator over the elements of `items` that `other` lacks, and then the elements of `other` that
    // `items` lacks.
    pub(crate) fn over(items: &'a [T], other: &'a [T]) -> SymmetricDifference<'a, T>
        ensures { result ≡ symmetric_parts items.now other.now }
    {
        SymmetricDifference {
            first: Difference::over(items, other),
            second: Difference::over(other, items),
        }
    }

    /// Returns an iterator over the same remaining elements. It always succeeds, and does not allocate.
    pub fn clone(&self) -> SymmetricDifference<'a, T>
        ensures { result ≡ self.now }
    {
        SymmetricDifference {
            first: self.first.clone(),
            second: self.second.clone(),
        }
    }
}

impl<'a, T: Eq> Iterator for SymmetricDifference<'a, T> {
    type Item = &'a T;

    ghost next_gives = { ExcludesFirst T.eq };

    ghost remaining = { λ s. at_most (length (symmetric_rest T.eq s)) };

    fn next(&mut self) -> Option<&'a T> {
        if let Some(item) = self.first.next() {
            return Some(item);
        }
        self.second.next()
    }

    /// Returns 0 and the number of elements of both parts that are not yet visited.
    ///
    /// There is no upper bound if that number exceeds `usize::MAX`.
    fn size_hint(&self) -> (usize, Option<usize>)
        ensures bounds { IsHintFor (length (symmetric_rest T.eq self.now)) result }
        ensures lower_hint { result.0 ≡ 0 }
        ensures upper_hint { IsBound result.1
            (length self.now.first.ahead + length self.now.second.ahead) }
    {
        let (_, first) = self.first.size_hint();
        let (_, second) = self.second.size_hint();
        (0, add_bounds(first, second))
    }
}

impl<'a, T: Eq> DoubleEndedIterator for SymmetricDifference<'a, T> {
    ghost next_back_gives = { ExcludesLast T.eq };

    fn next_back(&mut self) -> Option<&'a T> {
        if let Some(item) = self.second.next_back() {
            return Some(item);
        }
        self.first.next_back()
    }
}

impl<T: Eq> FusedIterator for SymmetricDifference<'_, T> {}

/// Returns an iterator over the same remaining elements, like the inherent [`SymmetricDifference::clone`]. It never
/// fails.
impl<'a, T: Eq> Clone for SymmetricDifference<'a, T> {
    ghost is_clone = { λ iter copy. copy ≡ iter };

    ghost is_infallible = { λ _. ⊤ };

    fn clone(&self) -> Result<SymmetricDifference<'a, T>, AllocError> {
        Ok(self.clone())
    }
}

/// Prints the remaining elements in order, as std prints lists: `[element, ..]`.
impl<T: Eq + fmt::Debug> fmt::Debug for SymmetricDifference<'_, T> {
    fn fmt<W: fmt::Write>(&self, f: &mut fmt::Formatter<W>) -> fmt::Result {
        f.debug_list().entries(self.clone()).finish()
    }
}
