//! Reversing, moving, swapping and sorting the elements.
ghost use Rattle.std.specs.Prelude.{◌≡◌, ◌<◌, ◌≤◌, IsOk, OnErr, OnOk, length};
ghost use Rattle.std.specs.List.Sorted.{IsSorted, IsSortedByClosure, IsSortedByKeyClosure, IsStable, IsStableByClosure, IsStableByKeyClosure};
ghost use Rattle.vecmap_set.specs.SetReorders.{MovesItem, ReordersItems, ReversesItems, SwapsItems};

use crate::VecSet;
use std::alloc::AllocError;
use std::cmp::Ordering;
use vecmap_base::move_to;

impl<T: Eq> VecSet<T> {
    /// Reverses the order of the elements.
    ///
    /// # Complexity
    ///
    /// No comparisons, and half as many swaps as there are elements.
    ///
    /// # Examples
    ///
    /// ```
    /// let mut set = vecset!(alloc; 1, 2, 3);
    /// set.reverse();
    /// set.as_slice() // [3, 2, 1]
    /// ```
    #[tactic(auto, using(vecmap_base::proofs::DistinctLemmas::distinct_reverse))]
    pub fn reverse(&mut self)
        ensures reordered { ReversesItems T.eq self.old.elements self.new.elements }
        ensures capacity { self.new.capacity ≡ self.old.capacity }
    {
        self.items.reverse();
    }

    /// Swaps the elements at the indices `a` and `b`.
    ///
    /// # Preconditions
    ///
    /// `a` and `b` are less than [`VecSet::len`].
    ///
    /// # Complexity
    ///
    /// One swap.
    ///
    /// # Examples
    ///
    /// ```
    /// let mut set = vecset!(alloc; 1, 2, 3);
    /// # assert!(*rt; 2 < set.len());
    /// set.swap_indices(0, 2);
    /// set.as_slice() // [3, 2, 1]
    /// ```
    pub fn swap_indices(&mut self, a: usize, b: usize)
        requires a_within { a < length self.old.elements }
        requires b_within { b < length self.old.elements }
        ensures reordered { SwapsItems T.eq a b self.old.elements self.new.elements }
        ensures capacity { self.new.capacity ≡ self.old.capacity }
    {
        self.items.swap(a, b);
    }

    /// Moves the element at `from` to `to`. The elements between the two indices shift by one index.
    ///
    /// # Preconditions
    ///
    /// `from` and `to` are less than [`VecSet::len`].
    ///
    /// # Complexity
    ///
    /// No comparisons, and one move for each element that changes its index.
    ///
    /// # Examples
    ///
    /// ```
    /// let mut set = vecset!(alloc; 1, 2, 3);
    /// # assert!(*rt; 2 < set.len());
    /// set.move_index(0, 2);
    /// set.as_slice() // [2, 3, 1]
    /// ```
    pub fn move_index(&mut self, from: usize, to: usize)
        requires from_within { from < length self.old.elements }
        requires to_within { to < length self.old.elements }
        ensures reordered { MovesItem T.eq from to self.old.elements self.new.elements }
        ensures capacity { self.new.capacity ≡ self.old.capacity }
    {
        move_to(&mut self.items, from, to);
    }

    /// Sorts the elements; elements that compare as equal keep their order.
    ///
    /// # Errors
    ///
    /// [`AllocError`] if allocation fails; the set is then unchanged.
    ///
    /// # Complexity
    ///
    /// O(n log n) comparisons for n elements. Allocates only for more than 20 elements.
    ///
    /// # Examples
    ///
    /// ```
    /// let mut set = vecset!(alloc; 2, 1);
    /// set.sort()?;
    /// set.as_slice() // [1, 2]
    /// ```
    pub fn sort(&mut self) -> Result<(), AllocError>
    where
        T: Ord,
        ensures sorted { OnOk result (IsSorted T.cmp self.new.elements) }
        ensures stable { IsStable T.cmp self.old.elements self.new.elements }
        ensures reordered { ReordersItems T.eq self.old.elements self.new.elements }
        ensures err { OnErr result (self.new ≡ self.old) }
        ensures succeeds { length self.old.elements ≤ 20 → IsOk result }
        ensures capacity { self.new.capacity ≡ self.old.capacity }
    {
        self.items.sort()
    }

    /// Sorts the elements by `f`, which compares two elements; elements that compare as equal keep their order.
    ///
    /// If `f` is not a consistent order, the elements end in some order, and none is lost.
    ///
    /// # Errors
    ///
    /// [`AllocError`] if allocation fails; the set is then unchanged.
    ///
    /// # Preconditions
    ///
    /// `f` can be called with any two elements.
    ///
    /// # Complexity
    ///
    /// O(n log n) calls of `f` for n elements. Allocates only for more than 20 elements.
    ///
    /// # Examples
    ///
    /// ```
    /// let mut set = vecset!(alloc; 1, 2);
    /// set.sort_by(|a, b| b.cmp(a))?;
    /// set.as_slice() // [2, 1]
    /// ```
    pub fn sort_by<F: Fn(&T, &T) -> Ordering>(&mut self, f: F) -> Result<(), AllocError>
        requires { F.IsAlwaysCallable f }
        ensures sorted { OnOk result (IsSortedByClosure F.FnMut f self.new.elements) }
        ensures stable { IsStableByClosure F.FnMut f self.old.elements self.new.elements }
        ensures reordered { ReordersItems T.eq self.old.elements self.new.elements }
        ensures err { OnErr result (self.new ≡ self.old) }
        ensures succeeds { length self.old.elements ≤ 20 → IsOk result }
        ensures capacity { self.new.capacity ≡ self.old.capacity }
    {
        self.items.sort_by(f)
    }

    /// Sorts the elements by the sort keys that `f` returns for them; elements whose sort keys compare as equal keep
    /// their order.
    ///
    /// # Errors
    ///
    /// [`AllocError`] if allocation fails; the set is then unchanged.
    ///
    /// # Preconditions
    ///
    /// `f` can be called with any element.
    ///
    /// # Complexity
    ///
    /// O(n log n) comparisons of sort keys for n elements, and at most one call of `f` for each element. Allocates only
    /// for more than one element.
    ///
    /// # Examples
    ///
    /// ```
    /// let mut set = vecset!(alloc; 2, 1);
    /// set.sort_by_cached_key(|item| *item)?;
    /// set.as_slice() // [1, 2]
    /// ```
    pub fn sort_by_cached_key<K: Ord + Drop, F: Fn(&T) -> K>(
        &mut self,
        f: F,
    ) -> Result<(), AllocError>
        requires { F.IsAlwaysCallable f }
        ensures sorted { OnOk result (IsSortedByKeyClosure F.FnMut K.cmp f self.new.elements) }
        ensures stable { IsStableByKeyClosure F.FnMut K.cmp f self.old.elements self.new.elements }
        ensures reordered { ReordersItems T.eq self.old.elements self.new.elements }
        ensures err { OnErr result (self.new ≡ self.old) }
        ensures succeeds { length self.old.elements ≤ 1 → IsOk result }
        ensures capacity { self.new.capacity ≡ self.old.capacity }
    {
        self.items.sort_by_cached_key(f)
    }

    /// Sorts the elements; elements that compare as equal may change their order.
    ///
    /// # Complexity
    ///
    /// O(n log n) comparisons for n elements. Does not allocate.
    ///
    /// # Examples
    ///
    /// ```
    /// let mut set = vecset!(alloc; 2, 1);
    /// set.sort_unstable();
    /// set.as_slice() // [1, 2]
    /// ```
    pub fn sort_unstable(&mut self)
    where
        T: Ord,
        ensures sorted { IsSorted T.cmp self.new.elements }
        ensures reordered { ReordersItems T.eq self.old.elements self.new.elements }
        ensures capacity { self.new.capacity ≡ self.old.capacity }
    {
        self.items.sort_unstable();
    }

    /// Sorts the elements by `f`, which compares two elements; elements that compare as equal may change their order.
    ///
    /// If `f` is not a consistent order, the elements end in some order, and none is lost.
    ///
    /// # Preconditions
    ///
    /// `f` can be called with any two elements.
    ///
    /// # Complexity
    ///
    /// O(n log n) calls of `f` for n elements. Does not allocate.
    ///
    /// # Examples
    ///
    /// ```
    /// let mut set = vecset!(alloc; 1, 2);
    /// set.sort_unstable_by(|a, b| b.cmp(a));
    /// set.as_slice() // [2, 1]
    /// ```
    pub fn sort_unstable_by<F: Fn(&T, &T) -> Ordering>(&mut self, f: F)
        requires { F.IsAlwaysCallable f }
        ensures sorted { IsSortedByClosure F.FnMut f self.new.elements }
        ensures reordered { ReordersItems T.eq self.old.elements self.new.elements }
        ensures capacity { self.new.capacity ≡ self.old.capacity }
    {
        self.items.sort_unstable_by(f);
    }
}
