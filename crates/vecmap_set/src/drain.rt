//! The call `drain`, and its iterator, which removes a range of elements from a set.
//!
//! The iterator holds a reference to the set and no vector, so the elements of the set are distinct at any moment.
ghost use Rattle.std.specs.{Prelude.{◌≡◌, ◌<◌, ◌≤◌, ◌^◌, length, slice_range}, Bound.{end_index, start_index}, Iterator.at_most, List.{IsDistinct, remove_range}};
ghost use Rattle.std.specs.Iterator.Runs.{YieldsInOrder, YieldsInReverse};
ghost use Rattle.vecmap_base.specs.{Drains.KeepsAlong, Iterators.HintsExactly, Ranges.{AreEndsWithin, IsRangeWithin, items_between, without_between}};
ghost use Rattle.vecmap_set.specs.SetDrain.{DrainKeeps, DrainNext, DrainNextBack, drain_capacity, drain_kept, drain_lender, drain_rest};
ghost use Rattle.vecmap_set.specs.SetRemovals.{KeepsFrontItems};

use crate::VecSet;
use std::iter::FusedIterator;
use std::ops::RangeBounds;
use std::{fmt, slice};
use vecmap_base::{move_range_last, reverse_from};

impl<T: Eq> VecSet<T> {
    /// Removes the elements of a range of indices, and returns an iterator over them.
    ///
    /// The iterator yields the elements in order, from either end. `range` is any range of std, with inclusive,
    /// exclusive or open ends. Once the iterator is dropped, after any number of calls of `next`, the whole range is
    /// gone. The other elements keep their order, and the capacity stays. If the iterator is leaked, as by
    /// `mem::forget`, no clause says which elements stay.
    ///
    /// # Preconditions
    ///
    /// The start of the range is at most its end, and its end is at most [`VecSet::len`]. Both are computed without
    /// overflow, so a range whose start is `Excluded(usize::MAX)` is in no set. A `RangeInclusive` that was iterated to
    /// its end is in no set either.
    ///
    /// # Complexity
    ///
    /// A number of moves that is linear in the number of elements from the start of the range on. If the range ends at
    /// `len`, they are made by the first call of `next`. Does not allocate.
    ///
    /// # Examples
    ///
    /// ```
    /// let mut set = vecset!(alloc; 1, 2, 3);
    /// # assert!(*rt; 2 <= set.len());
    /// set.drain(..2).next() // Some(1)
    /// set.as_slice() // [3]
    /// ```
    pub fn drain<R: RangeBounds<usize>>(&mut self, range: R) -> Drain<'_, T>
    where
        T: Drop,
        requires known { R.has_bounds range }
        requires within { AreEndsWithin (R.start_bound range) (R.end_bound range)
            (length self.old.elements) }
        ensures rest { drain_rest result
            ≡ items_between self.old.elements (R.start_bound range) (R.end_bound range) }
        ensures fits { length (drain_rest result) < 2 ^ 64 }
        ensures runs { YieldsInOrder (DrainNext {T = T}) drain_rest }
        ensures runs_back { YieldsInReverse (DrainNextBack {T = T}) drain_rest }

        // Once the drain is dropped, after any number of calls, the set has the other elements and its old capacity.
        ensures kept { drain_kept result
            ≡ without_between self.old.elements (R.start_bound range) (R.end_bound range) }
        ensures front { end_index (R.end_bound range) (length self.old.elements)
            ≡ length self.old.elements → KeepsFrontItems T.eq (start_index (R.start_bound range))
            self.old.elements (drain_kept result) }
        ensures capacity { drain_capacity result ≡ self.old.capacity }
        ensures lender { drain_lender result ≡ self.entry.ghost_name }
        ensures keeps { KeepsAlong DrainNext DrainKeeps result }
        ensures keeps_back { KeepsAlong DrainNextBack DrainKeeps result }
    {
        let range = slice::range(range, ..self.items.len());
        Drain::over(self, range.start, range.end)
    }
}

/// An iterator over the elements of a range of a set, which it removes. [`VecSet::drain`] creates it.
///
/// When it is dropped, the elements that were not yielded are dropped, too. After the last element, each call of `next`
/// returns `None`. The elements of the set are distinct at any moment, so even a drain that is forgotten leaves a set.
///
/// # Complexity
///
/// Constant time for each element from the same end as the element before. The first element, and each element after a
/// change of ends, can cost a number of moves that is linear in the number of remaining elements, as these are first
/// reversed. No call allocates.
///
/// # Examples
///
/// ```
/// let mut set = vecset!(alloc; 1, 2, 3);
/// # assert!(*rt; 1 <= set.len());
/// let mut drain = set.drain(1..);
/// drain.next_back() // Some(3)
/// drain.len() // 1
/// drop(drain);
/// set.as_slice() // [1]
/// ```
pub struct Drain<'a, T: Eq> {
    // The first `keep` elements of the set stay. The remaining elements of the drain follow them, in reverse order if
    // `reversed`. So each call takes the last element of the set.
    set: &'a mut VecSet<T>,
    keep: usize,
    reversed: bool,
}

impl<'a, T: Eq + Drop> Drain<'a, T> {
    /// Creates the drain of the elements from the index `start` up to, but not including, `end`.
    ///
    /// This is like [`VecSet::drain`], for callers that have two indices and no range.
    ///
    /// # Preconditions
    ///
    /// `start` is at most `end`, and `end` is at most the number of elements.
    ///
    /// # Examples
    ///
    /// ```
    /// let mut set = vecset!(alloc; 1, 2, 3);
    /// # assert!(*rt; set.len() == 3);
    /// Drain::over(&mut set, 1, 3).next() // Some(2)
    /// set.as_slice() // [1]
    /// ```
    #[tactic(auto, using(vecmap_base::proofs::DrainLemmas::drains))]
    pub fn over(set: &'a mut VecSet<T>, start: usize, end: usize) -> Drain<'a, T>
        requires within { IsRangeWithin start end (length set.old.elements) }
        ensures rest { drain_rest result ≡ slice_range set.old.elements start end }
        ensures fits { length (drain_rest result) < 2 ^ 64 }
        ensures runs { YieldsInOrder (DrainNext {T = T}) drain_rest }
        ensures runs_back { YieldsInReverse (DrainNextBack {T = T}) drain_rest }
        ensures kept { drain_kept result ≡ remove_range set.old.elements start end }
        ensures capacity { drain_capacity result ≡ set.old.capacity }
        ensures lender { drain_lender result ≡ set.entry.ghost_name }
        ensures keeps { KeepsAlong DrainNext DrainKeeps result }
        ensures keeps_back { KeepsAlong DrainNextBack DrainKeeps result }
    {
        if end == set.len() {
            return Drain {
                set,
                keep: start,
                reversed: false,
            };
        }
        let keep = move_range_last(&mut set.items, start, end);
        Drain {
            set,
            keep,
            reversed: true,
        }
    }
}

impl<'a, T: Eq> Drain<'a, T> {
    // Reverses the remaining elements unless they are in the wanted order.
    #[tactic(auto, using(vecmap_base::proofs::DrainLemmas::drains, crate::proofs::SetLemmas::distinct_changes))]
    fn set_reversed(&mut self, reversed: bool)
        requires { self.old.keep ≤ length self.old.set.now.elements }
        ensures ordered { self.new.reversed ≡ reversed }
        ensures keep { self.new.keep ≡ self.old.keep }
        ensures count { length self.new.set.now.elements ≡ length self.old.set.now.elements }
        ensures rest { drain_rest self.new ≡ drain_rest self.old }
        ensures keeps { DrainKeeps self.old self.new }
    {
        if self.reversed != reversed {
            // `rt check` reaches the vector of a set only through a variable.
            let set = &mut *self.set;
            reverse_from(&mut set.items, self.keep);
            self.reversed = reversed;
        }
    }
}

impl<'a, T: Eq + Drop> Drop for Drain<'a, T> {
    fn drop(self)
        ensures kept { self.exit.0.now.elements ≡ drain_kept self.entry }
        ensures distinct { IsDistinct T.eq self.exit.0.now.elements }
        ensures capacity { self.exit.0.now.capacity ≡ drain_capacity self.entry }
    {
        let Drain {
            set,
            keep,
            reversed: _,
        } = self;
        set.truncate(keep);
    }
}

impl<'a, T: Eq + Drop> Iterator for Drain<'a, T> {
    type Item = T;

    ghost next_gives = { DrainNext };

    ghost remaining = { λ s. at_most (length (drain_rest s)) };

    #[tactic(auto, using(vecmap_base::proofs::DrainLemmas::drains, crate::proofs::SetLemmas::distinct_changes))]
    fn next(&mut self) -> Option<T> {
        if self.set.len() <= self.keep {
            return None;
        }
        self.set_reversed(true);
        let set = &mut *self.set;
        Some(set.items.take_last())
    }

    /// Returns the number of remaining elements, as both bounds.
    fn size_hint(&self) -> (usize, Option<usize>)
        ensures exact { HintsExactly (length (drain_rest self.now)) result }
    {
        let len = self.len();
        (len, Some(len))
    }
}

impl<'a, T: Eq + Drop> DoubleEndedIterator for Drain<'a, T> {
    ghost next_back_gives = { DrainNextBack };

    #[tactic(auto, using(vecmap_base::proofs::DrainLemmas::drains, crate::proofs::SetLemmas::distinct_changes))]
    fn next_back(&mut self) -> Option<T> {
        if self.set.len() <= self.keep {
            return None;
        }
        self.set_reversed(false);
        let set = &mut *self.set;
        Some(set.items.take_last())
    }
}

impl<'a, T: Eq + Drop> ExactSizeIterator for Drain<'a, T> {
    /// Returns the number of remaining elements.
    #[tactic(auto, using(vecmap_base::proofs::DrainLemmas::drains))]
    fn len(&self) -> usize {
        self.set.len().saturating_sub(self.keep)
    }
}

impl<'a, T: Eq + Drop> FusedIterator for Drain<'a, T> {}

/// Prints the remaining elements in order, as std prints lists.
impl<'a, T: Eq + fmt::Debug> fmt::Debug for Drain<'a, T> {
    fn fmt<W: fmt::Write>(&self, f: &mut fmt::Formatter<W>) -> fmt::Result {
        let rest = self.set.as_slice().iter().skip(self.keep);
        if self.reversed {
            return f.debug_list().entries(rest.rev()).finish();
        }
        f.debug_list().entries(rest).finish()
    }
}
