//! Iterators over differences, intersections and unions of two sets, and the calls that create them.
//!
//! None of them allocates, and each yields from both ends. The lookups happen in the calls of `next`.
ghost use Rattle.std.specs.{Prelude.{◌≡◌, ℕ, ◌+◌}, Set.is_member, Slice.Iter.iter_rest};
ghost use Rattle.vecmap_set.specs.Lazy.{ExcludesAll, FiltersAll, FiltersFirst, FiltersLast, IsBound, JoinsAll, filtered_of, filtered_of_shorter, lacks_item, longer_first, presence, symmetric_parts};

use crate::VecSet;
use std::slice;
use vecmap_base::contains_item;

mod filtered;
mod symmetric_difference;
mod union;

pub use filtered::{Absent, Difference, FilteredOf, Intersection, Presence, Present};
pub use symmetric_difference::SymmetricDifference;
pub use union::Union;

impl<T: Eq> VecSet<T> {
    /// Returns an iterator over the elements that `other` lacks, in order.
    ///
    /// It yields what `self - other` clones. For 1, 2, 3 and 4, 2, 3 it yields 1.
    ///
    /// # Examples
    ///
    /// ```
    /// let set = vecset!(alloc; 1, 2);
    /// let other = vecset!(alloc; 2, 3);
    /// let mut items = set.difference(&other);
    /// items.next() // Some(&1)
    /// items.next() // None
    /// ```
    pub fn difference<'a>(&'a self, other: &'a VecSet<T>) -> Difference<'a, T>
        ensures { FiltersAll (lacks_item T.eq) (filtered_of self.now.elements other.now.elements) result }
    {
        Difference::over(&self.items, &other.items)
    }

    /// Returns an iterator over the elements that both sets have.
    ///
    /// These are the elements of the shorter set that the other set has, in the order of the shorter. If the lengths
    /// are equal, they are elements of this set. For 3, 2, 1 and 1, 2 it yields 1, 2. `self & other` has the same
    /// elements, but always takes them from this set, in its order.
    ///
    /// # Examples
    ///
    /// ```
    /// let set = vecset!(alloc; 1, 2);
    /// let other = vecset!(alloc; 2, 3);
    /// let mut items = set.intersection(&other);
    /// items.next() // Some(&2)
    /// items.next() // None
    /// ```
    pub fn intersection<'a>(&'a self, other: &'a VecSet<T>) -> Intersection<'a, T>
        ensures { FiltersAll (is_member T.eq)
            (filtered_of_shorter self.now.elements other.now.elements) result }
    {
        if other.len() < self.len() {
            Intersection::over(&other.items, &self.items)
        } else {
            Intersection::over(&self.items, &other.items)
        }
    }

    /// Returns an iterator over the elements that only one of the sets has.
    ///
    /// These are the elements of this set that `other` lacks, and then the elements of `other` that this set lacks,
    /// each part in order. It yields what `self ^ other` clones. For 1, 2, 3 and 4, 2, 3 it yields 1, 4.
    ///
    /// # Examples
    ///
    /// ```
    /// let set = vecset!(alloc; 1, 2);
    /// let other = vecset!(alloc; 2, 3);
    /// let mut items = set.symmetric_difference(&other);
    /// items.next() // Some(&1)
    /// items.next() // Some(&3)
    /// ```
    pub fn symmetric_difference<'a>(&'a self, other: &'a VecSet<T>) -> SymmetricDifference<'a, T>
        ensures { ExcludesAll T.eq (symmetric_parts self.now.elements other.now.elements) result }
    {
        SymmetricDifference::over(&self.items, &other.items)
    }

    /// Returns an iterator over the elements that at least one of the sets has.
    ///
    /// These are all elements of the longer set, and then the elements of the other set that it lacks, each part in
    /// order. If the lengths are equal, this set comes first. For 1 and 2, 3 it yields 2, 3, 1. `self | other` has the
    /// same elements, but always the elements of this set first.
    ///
    /// # Examples
    ///
    /// ```
    /// let set = vecset!(alloc; 1, 2);
    /// let other = vecset!(alloc; 2, 3);
    /// let mut items = set.union(&other);
    /// items.next_back() // Some(&3)
    /// items.next() // Some(&1)
    /// ```
    pub fn union<'a>(&'a self, other: &'a VecSet<T>) -> Union<'a, T>
        ensures { JoinsAll T.eq (longer_first self.now.elements other.now.elements) result }
    {
        if self.len() < other.len() {
            Union::over(&other.items, &self.items)
        } else {
            Union::over(&self.items, &other.items)
        }
    }
}

// Returns the first of `items` whose presence in `other` is `within`, and removes it and the items before it.
fn filtered_front<'a, T: Eq>(
    items: &mut slice::Iter<'a, T>,
    other: &[T],
    within: bool,
) -> Option<&'a T>
    ensures { FiltersFirst (presence T.eq within) (filtered_of (iter_rest items.old) other.now) result
        (filtered_of (iter_rest items.new) other.now) }
{
    while let Some(item) = items.next() {
        if contains_item(other, item) == within {
            return Some(item);
        }
    }
    None
}

// Returns the last of `items` whose presence in `other` is `within`, and removes it and the items after it.
fn filtered_back<'a, T: Eq>(
    items: &mut slice::Iter<'a, T>,
    other: &[T],
    within: bool,
) -> Option<&'a T>
    ensures { FiltersLast (presence T.eq within) (filtered_of (iter_rest items.old) other.now) result
        (filtered_of (iter_rest items.new) other.now) }
{
    while let Some(item) = items.next_back() {
        if contains_item(other, item) == within {
            return Some(item);
        }
    }
    None
}

// Returns the sum of two upper bounds, or `None` if it exceeds `usize::MAX`.
fn add_bounds(a: Option<usize>, b: Option<usize>) -> Option<usize>
    ensures { (x y : ℕ) → a ≡ Some x → b ≡ Some y → IsBound result (x + y) }
{
    a?.checked_add(b?)
}
