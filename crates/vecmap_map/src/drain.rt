//! The call `drain`, and its iterator, which removes a range of pairs from a map.
//!
//! The iterator holds a reference to the map and no vector. So the proof of a caller knows what the map has once the
//! drain is dropped.
ghost use Rattle.std.specs.{Prelude.{◌≡◌, ◌<◌, ◌≤◌, ◌^◌, Bool, length, slice_range}, Bound.{end_index, start_index}, Iterator.at_most, List.remove_range};
ghost use Rattle.std.specs.Iterator.Runs.{YieldsInOrder, YieldsInReverse};
ghost use Rattle.vecmap_base.specs.{Drains.KeepsAlong, Iterators.HintsExactly, Lookups.KeepsFront, Pairs.HasDistinctKeys};
ghost use Rattle.vecmap_base.specs.Ranges.{AreEndsWithin, IsRangeWithin, items_between, without_between};
ghost use Rattle.vecmap_map.specs.Drain.{DrainKeeps, DrainNext, DrainNextBack, drain_capacity, drain_kept, drain_lender, drain_rest};

use crate::VecMap;
use std::iter::FusedIterator;
use std::ops::RangeBounds;
use std::{fmt, slice};
use vecmap_base::{move_range_last, reverse_from};

impl<K, V> VecMap<K, V> {
    /// Removes the pairs of a range of indices, and returns an iterator over them.
    ///
    /// The iterator yields the pairs in order, from either end. `range` is any range of std, with inclusive, exclusive
    /// or open ends. Once the iterator is dropped, after any number of calls of `next`, the whole range is gone. The
    /// other pairs keep their order, and the capacity stays. If the iterator is leaked, as by `mem::forget`, no clause
    /// says which pairs stay.
    ///
    /// # Preconditions
    ///
    /// The start of the range is at most its end, and its end is at most [`VecMap::len`]. Both are computed without
    /// overflow, so a range whose start is `Excluded(usize::MAX)` is in no map. A `RangeInclusive` that was iterated to
    /// its end is in no map either.
    ///
    /// # Complexity
    ///
    /// A number of moves that is linear in the number of pairs from the start of the range on. If the range ends at
    /// `len`, they are made by the first call of `next`. Does not allocate.
    ///
    /// # Examples
    ///
    /// ```
    /// let mut map = vecmap!(alloc; 'a' => 1, 'b' => 2, 'c' => 3);
    /// # assert!(*rt; 2 <= map.len());
    /// map.drain(..2).next() // Some(('a', 1))
    /// map.as_slice() // [('c', 3)]
    /// ```
    pub fn drain<R: RangeBounds<usize>>(&mut self, range: R) -> Drain<'_, K, V>
    where
        K: Drop,
        V: Drop,
        requires known { R.has_bounds range }
        requires within { AreEndsWithin (R.start_bound range) (R.end_bound range)
            (length self.old.entries) }
        ensures rest { drain_rest result
            ≡ items_between self.old.entries (R.start_bound range) (R.end_bound range) }
        ensures fits { length (drain_rest result) < 2 ^ 64 }
        ensures runs { YieldsInOrder (DrainNext {K = K} {V = V}) drain_rest }
        ensures runs_back { YieldsInReverse (DrainNextBack {K = K} {V = V}) drain_rest }

        // Once the drain is dropped, after any number of calls, the map has the other pairs and its old capacity.
        ensures kept { drain_kept result
            ≡ without_between self.old.entries (R.start_bound range) (R.end_bound range) }
        ensures front { end_index (R.end_bound range) (length self.old.entries) ≡ length self.old.entries
            → KeepsFront (start_index (R.start_bound range)) self.old.entries (drain_kept result) }
        ensures capacity { drain_capacity result ≡ self.old.capacity }
        ensures lender { drain_lender result ≡ self.entry.ghost_name }
        ensures keeps { KeepsAlong DrainNext DrainKeeps result }
        ensures keeps_back { KeepsAlong DrainNextBack DrainKeeps result }
    {
        let range = slice::range(range, ..self.len());
        Drain::over(self, range.start, range.end)
    }
}

/// An iterator over the pairs of a range of a map, which it removes. [`VecMap::drain`] creates it.
///
/// When it is dropped, at any point, it leaves the map without the whole range. The pairs that were not yielded are
/// dropped, and the other pairs of the map keep their order. After the last pair, each call of `next` returns `None`.
///
/// # Complexity
///
/// Constant time for each pair from the same end as the pair before. The first pair, and each pair after a change of
/// ends, can cost a number of moves that is linear in the number of remaining pairs, as these are first reversed. No
/// call allocates.
///
/// # Examples
///
/// ```
/// let mut map = vecmap!(alloc; 'a' => 1, 'b' => 2, 'c' => 3);
/// # assert!(*rt; 1 <= map.len());
/// let mut drain = map.drain(1..);
/// drain.next_back() // Some(('c', 3))
/// drain.len() // 1
/// drop(drain);
/// map.as_slice() // [('a', 1)]
/// ```
pub struct Drain<'a, K, V> {
    // The first `keep` pairs of the map stay. The remaining pairs of the drain follow them, in reverse order if
    // `reversed`. So each call takes the last pair of the map.
    map: &'a mut VecMap<K, V>,
    keep: usize,
    reversed: bool,
}

impl<'a, K: Drop, V: Drop> Drain<'a, K, V> {
    /// Creates the drain of the pairs from the index `start` up to, but not including, `end`.
    ///
    /// This is [`VecMap::drain`] for callers that have two indices and no range.
    ///
    /// # Preconditions
    ///
    /// `start` is at most `end`, and `end` is at most the number of pairs.
    ///
    /// # Complexity
    ///
    /// A number of moves that is linear in the number of pairs from `start` on. No moves if `end` is the number of
    /// pairs.
    ///
    /// # Examples
    ///
    /// ```
    /// let mut map = vecmap!(alloc; 'a' => 1, 'b' => 2, 'c' => 3);
    /// # assert!(*rt; map.len() == 3);
    /// Drain::over(&mut map, 1, 3).next() // Some(('b', 2))
    /// map.as_slice() // [('a', 1)]
    /// ```
    #[tactic(auto, using(vecmap_base::proofs::DrainLemmas::drains))]
    pub fn over(map: &'a mut VecMap<K, V>, start: usize, end: usize) -> Drain<'a, K, V>
        requires within { IsRangeWithin start end (length map.old.entries) }
        ensures rest { drain_rest result ≡ slice_range map.old.entries start end }
        ensures fits { length (drain_rest result) < 2 ^ 64 }
        ensures runs { YieldsInOrder (DrainNext {K = K} {V = V}) drain_rest }
        ensures runs_back { YieldsInReverse (DrainNextBack {K = K} {V = V}) drain_rest }

        // Once the drain is dropped, after any number of calls, the map has the other pairs and its old capacity.
        ensures kept { drain_kept result ≡ remove_range map.old.entries start end }
        ensures capacity { drain_capacity result ≡ map.old.capacity }
        ensures lender { drain_lender result ≡ map.entry.ghost_name }
        ensures keeps { KeepsAlong DrainNext DrainKeeps result }
        ensures keeps_back { KeepsAlong DrainNextBack DrainKeeps result }
    {
        if end == map.len() {
            return Drain {
                map,
                keep: start,
                reversed: false,
            };
        }
        let keep = move_range_last(&mut map.pairs, start, end);
        Drain {
            map,
            keep,
            reversed: true,
        }
    }
}

impl<'a, K, V> Drain<'a, K, V> {
    // Reverses the remaining pairs unless they are in the wanted order.
    #[tactic(auto, using(vecmap_base::proofs::DrainLemmas::drains))]
    fn set_reversed(&mut self, reversed: bool)
        requires { self.old.keep ≤ length self.old.map.now.entries }
        ensures ordered { self.new.reversed ≡ reversed }
        ensures keep { self.new.keep ≡ self.old.keep }
        ensures count { length self.new.map.now.entries ≡ length self.old.map.now.entries }
        ensures rest { drain_rest self.new ≡ drain_rest self.old }
        ensures keeps { DrainKeeps self.old self.new }
    {
        if self.reversed != reversed {
            // `rt check` reaches the vector of a map only through a variable.
            let map = &mut *self.map;
            reverse_from(&mut map.pairs, self.keep);
            self.reversed = reversed;
        }
    }
}

impl<'a, K: Drop, V: Drop> Drop for Drain<'a, K, V> {
    fn drop(self)
        ensures kept { self.exit.0.now.entries ≡ drain_kept self.entry }
        ensures distinct { (eq : K → K → Bool) → HasDistinctKeys eq (drain_kept self.entry)
            → HasDistinctKeys eq self.exit.0.now.entries }
        ensures capacity { self.exit.0.now.capacity ≡ drain_capacity self.entry }
    {
        let Drain {
            map,
            keep,
            reversed: _,
        } = self;
        map.truncate(keep);
    }
}

impl<'a, K: Drop, V: Drop> Iterator for Drain<'a, K, V> {
    type Item = (K, V);

    ghost next_gives = { DrainNext };

    ghost remaining = { λ s. at_most (length (drain_rest s)) };

    #[tactic(auto, using(vecmap_base::proofs::DrainLemmas::drains))]
    fn next(&mut self) -> Option<(K, V)> {
        if self.map.len() <= self.keep {
            return None;
        }
        self.set_reversed(true);
        let map = &mut *self.map;
        Some(map.pairs.take_last())
    }

    /// Returns the number of remaining pairs, as both bounds.
    fn size_hint(&self) -> (usize, Option<usize>)
        ensures exact { HintsExactly (length (drain_rest self.now)) result }
    {
        let len = self.len();
        (len, Some(len))
    }
}

impl<'a, K: Drop, V: Drop> DoubleEndedIterator for Drain<'a, K, V> {
    ghost next_back_gives = { DrainNextBack };

    #[tactic(auto, using(vecmap_base::proofs::DrainLemmas::drains))]
    fn next_back(&mut self) -> Option<(K, V)> {
        if self.map.len() <= self.keep {
            return None;
        }
        self.set_reversed(false);
        let map = &mut *self.map;
        Some(map.pairs.take_last())
    }
}

impl<'a, K: Drop, V: Drop> ExactSizeIterator for Drain<'a, K, V> {
    /// Returns the number of remaining pairs.
    #[tactic(auto, using(vecmap_base::proofs::DrainLemmas::drains))]
    fn len(&self) -> usize {
        self.map.len().saturating_sub(self.keep)
    }
}

impl<'a, K: Drop, V: Drop> FusedIterator for Drain<'a, K, V> {}

/// Prints the remaining pairs in order, as std prints lists.
impl<'a, K: fmt::Debug, V: fmt::Debug> fmt::Debug for Drain<'a, K, V> {
    fn fmt<W: fmt::Write>(&self, f: &mut fmt::Formatter<W>) -> fmt::Result {
        let rest = self.map.as_slice().iter().skip(self.keep);
        if self.reversed {
            return f.debug_list().entries(rest.rev()).finish();
        }
        f.debug_list().entries(rest).finish()
    }
}
