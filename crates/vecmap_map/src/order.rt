//! Reversing, moving, swapping and sorting the pairs.
ghost use Rattle.std.specs.{Prelude.{◌≡◌, ◌<◌, ◌≤◌, Bool, IsOk, OnErr, OnOk, length}, List.Sorted.{IsSorted, IsSortedByKey, IsStableByKey}};
ghost use Rattle.std.specs.{Map.keys_of, Ordering.is_lt};
ghost use Rattle.vecmap_base.specs.FnCalls.{ComparesPairsAs, IsSortedByPairClosure, IsSortedByPairKey, IsStableByPairClosure, IsStableByPairKey, ReturnsOnPair};
ghost use Rattle.vecmap_base.specs.{Lookups.IsReordered, Reorders.{MovesPair, ReversesPairs, SwapsPairs}};

use crate::VecMap;
use std::alloc::AllocError;
use std::cmp::Ordering;
use vecmap_base::move_to;

impl<K, V> VecMap<K, V> {
    /// Reverses the order of the pairs.
    ///
    /// # Complexity
    ///
    /// No comparisons, and half as many swaps as there are pairs.
    ///
    /// # Examples
    ///
    /// ```
    /// let mut map = vecmap!(alloc; 'a' => 1, 'b' => 2, 'c' => 3);
    /// map.reverse();
    /// map.as_slice() // [('c', 3), ('b', 2), ('a', 1)]
    /// ```
    pub fn reverse(&mut self)
        ensures reordered { ReversesPairs self.old.entries self.new.entries }
        ensures capacity { self.new.capacity ≡ self.old.capacity }
    {
        self.pairs.reverse();
    }

    /// Swaps the pairs at the indices `a` and `b`.
    ///
    /// # Preconditions
    ///
    /// `a` and `b` are less than [`VecMap::len`].
    ///
    /// # Complexity
    ///
    /// One swap.
    ///
    /// # Examples
    ///
    /// ```
    /// let mut map = vecmap!(alloc; 'a' => 1, 'b' => 2, 'c' => 3);
    /// # assert!(*rt; 2 < map.len());
    /// map.swap_indices(0, 2);
    /// map.as_slice() // [('c', 3), ('b', 2), ('a', 1)]
    /// ```
    pub fn swap_indices(&mut self, a: usize, b: usize)
        requires a_within { a < length self.old.entries }
        requires b_within { b < length self.old.entries }
        ensures reordered { SwapsPairs a b self.old.entries self.new.entries }
        ensures capacity { self.new.capacity ≡ self.old.capacity }
    {
        self.pairs.swap(a, b);
    }

    /// Moves the pair at `from` to `to`. The pairs between the two indices shift by one index.
    ///
    /// # Preconditions
    ///
    /// `from` and `to` are less than [`VecMap::len`].
    ///
    /// # Complexity
    ///
    /// No comparisons, and one move for each pair that changes its index.
    ///
    /// # Examples
    ///
    /// ```
    /// let mut map = vecmap!(alloc; 'a' => 1, 'b' => 2, 'c' => 3);
    /// # assert!(*rt; 2 < map.len());
    /// map.move_index(0, 2);
    /// map.as_slice() // [('b', 2), ('c', 3), ('a', 1)]
    /// ```
    pub fn move_index(&mut self, from: usize, to: usize)
        requires from_within { from < length self.old.entries }
        requires to_within { to < length self.old.entries }
        ensures reordered { MovesPair from to self.old.entries self.new.entries }
        ensures capacity { self.new.capacity ≡ self.old.capacity }
    {
        move_to(&mut self.pairs, from, to);
    }

    /// Sorts the pairs by their keys; pairs whose keys compare as equal keep their order.
    ///
    /// # Errors
    ///
    /// [`AllocError`] if allocation fails; the map is then unchanged.
    ///
    /// # Complexity
    ///
    /// O(n log n) comparisons of keys for n pairs. Allocates only for more than 20 pairs.
    ///
    /// # Examples
    ///
    /// ```
    /// let mut map = vecmap!(alloc; 'b' => 1, 'a' => 2);
    /// map.sort_keys()?;
    /// map.as_slice() // [('a', 2), ('b', 1)]
    /// ```
    pub fn sort_keys(&mut self) -> Result<(), AllocError>
    where
        K: Ord,
        ensures sorted { OnOk result (IsSortedByKey (λ p. p.0) K.cmp self.new.entries) }
        ensures keys_sorted { OnOk result (IsSorted K.cmp (keys_of self.new.entries)) }
        ensures stable { IsStableByKey (λ p. p.0) K.cmp self.old.entries self.new.entries }
        ensures reordered { IsReordered self.old.entries self.new.entries }
        ensures err { OnErr result (self.new ≡ self.old) }
        ensures succeeds { length self.old.entries ≤ 20 → IsOk result }
        ensures capacity { self.new.capacity ≡ self.old.capacity }
    {
        self.sort_by(|a, b| a.0.cmp(b.0))
    }

    /// Sorts the pairs by `f`, which compares two pairs; pairs that compare as equal keep their order.
    ///
    /// If `f` is not a consistent order, the pairs end in some order, and none is lost.
    ///
    /// # Errors
    ///
    /// [`AllocError`] if allocation fails; the map is then unchanged.
    ///
    /// # Preconditions
    ///
    /// `f` can be called with any two pairs.
    ///
    /// # Complexity
    ///
    /// O(n log n) calls of `f` for n pairs. Allocates only for more than 20 pairs.
    ///
    /// # Examples
    ///
    /// ```
    /// let mut map = vecmap!(alloc; 'a' => 1, 'b' => 2);
    /// map.sort_by(|a, b| b.1.cmp(a.1))?;
    /// map.as_slice() // [('b', 2), ('a', 1)]
    /// ```
    pub fn sort_by<F: Fn((&K, &V), (&K, &V)) -> Ordering>(&mut self, f: F) -> Result<(), AllocError>
        requires { F.IsAlwaysCallable f }
        ensures sorted { OnOk result (IsSortedByPairClosure F.Fn f self.new.entries) }
        ensures stable { IsStableByPairClosure F.Fn f self.old.entries self.new.entries }
        ensures reordered { IsReordered self.old.entries self.new.entries }
        ensures err { OnErr result (self.new ≡ self.old) }
        ensures succeeds { length self.old.entries ≤ 20 → IsOk result }
        ensures capacity { self.new.capacity ≡ self.old.capacity }
    {
        self.pairs.sort_by(
            |a: &(K, V), b: &(K, V)| -> Ordering
                requires { F.IsAlwaysCallable f }
                ensures { (lt : K × V → K × V → Bool) → ComparesPairsAs F.Fn lt f
                    → is_lt result ≡ lt a.now b.now }
            { f((&a.0, &a.1), (&b.0, &b.1)) },
        )
    }

    /// Sorts the pairs by the sort keys that `f` returns for them; pairs whose sort keys compare as equal keep their
    /// order.
    ///
    /// # Errors
    ///
    /// [`AllocError`] if allocation fails; the map is then unchanged.
    ///
    /// # Preconditions
    ///
    /// `f` can be called with any pair.
    ///
    /// # Complexity
    ///
    /// O(n log n) comparisons of sort keys for n pairs, and at most one call of `f` for each pair. Allocates only for
    /// more than one pair.
    ///
    /// # Examples
    ///
    /// ```
    /// let mut map = vecmap!(alloc; 'b' => 1, 'a' => 2);
    /// map.sort_by_cached_key(|key, _value| *key)?;
    /// map.as_slice() // [('a', 2), ('b', 1)]
    /// ```
    pub fn sort_by_cached_key<T: Ord + Drop, F: Fn(&K, &V) -> T>(
        &mut self,
        f: F,
    ) -> Result<(), AllocError>
        requires { F.IsAlwaysCallable f }
        ensures sorted { OnOk result (IsSortedByPairKey F.Fn T.cmp f self.new.entries) }
        ensures stable { IsStableByPairKey F.Fn T.cmp f self.old.entries self.new.entries }
        ensures reordered { IsReordered self.old.entries self.new.entries }
        ensures err { OnErr result (self.new ≡ self.old) }
        ensures succeeds { length self.old.entries ≤ 1 → IsOk result }
        ensures capacity { self.new.capacity ≡ self.old.capacity }
    {
        self.pairs.sort_by_cached_key(
            |a: &(K, V)| -> T
                requires { F.IsAlwaysCallable f }
                ensures { (key : K × V → T) → ReturnsOnPair F.Fn key f → result ≡ key a.now }
            { f(&a.0, &a.1) },
        )
    }

    /// Sorts the pairs by their keys; pairs whose keys compare as equal may change their order.
    ///
    /// # Complexity
    ///
    /// O(n log n) comparisons of keys for n pairs. Does not allocate.
    ///
    /// # Examples
    ///
    /// ```
    /// let mut map = vecmap!(alloc; 'b' => 1, 'a' => 2);
    /// map.sort_unstable_keys();
    /// map.as_slice() // [('a', 2), ('b', 1)]
    /// ```
    pub fn sort_unstable_keys(&mut self)
    where
        K: Ord,
        ensures sorted { IsSortedByKey (λ p. p.0) K.cmp self.new.entries }
        ensures keys_sorted { IsSorted K.cmp (keys_of self.new.entries) }
        ensures reordered { IsReordered self.old.entries self.new.entries }
        ensures capacity { self.new.capacity ≡ self.old.capacity }
    {
        self.sort_unstable_by(|a, b| a.0.cmp(b.0));
    }

    /// Sorts the pairs by `f`, which compares two pairs; pairs that compare as equal may change their order.
    ///
    /// If `f` is not a consistent order, the pairs end in some order, and none is lost.
    ///
    /// # Preconditions
    ///
    /// `f` can be called with any two pairs.
    ///
    /// # Complexity
    ///
    /// O(n log n) calls of `f` for n pairs. Does not allocate.
    ///
    /// # Examples
    ///
    /// ```
    /// let mut map = vecmap!(alloc; 'a' => 1, 'b' => 2);
    /// map.sort_unstable_by(|a, b| b.1.cmp(a.1));
    /// map.as_slice() // [('b', 2), ('a', 1)]
    /// ```
    pub fn sort_unstable_by<F: Fn((&K, &V), (&K, &V)) -> Ordering>(&mut self, f: F)
        requires { F.IsAlwaysCallable f }
        ensures sorted { IsSortedByPairClosure F.Fn f self.new.entries }
        ensures reordered { IsReordered self.old.entries self.new.entries }
        ensures capacity { self.new.capacity ≡ self.old.capacity }
    {
        self.pairs.sort_unstable_by(
            |a: &(K, V), b: &(K, V)| -> Ordering
                requires { F.IsAlwaysCallable f }
                ensures { (lt : K × V → K × V → Bool) → ComparesPairsAs F.Fn lt f
                    → is_lt result ≡ lt a.now b.now }
            { f((&a.0, &a.1), (&b.0, &b.1)) },
        );
    }
}
