//! Binary searches in sorted elements. None allocates.
ghost use Rattle.std.specs.{Prelude.{◌≡◌, ◌<◌, ◌≤◌, Bool, IfOk, false, is_ok, length, true}, List.{All, HoldsAt}};
ghost use Rattle.std.specs.List.Sorted.{IsBinarySearchResult, IsPartitionPoint, IsPartitionedBy, IsSearchInRange, IsSorted};
ghost use Rattle.std.specs.{Set.is_member, declared.cmp.Ordering.Ordering};
ghost use Rattle.vecmap_base.specs.FnCalls.{CallableOnItem, ReturnsOnItems};
ghost use Rattle.vecmap_set.specs.SetIndices.{FindsAt};

use crate::VecSet;
use std::cmp::Ordering;
use vecmap_base::{partition_point, search_by_index};

impl<T: Eq> VecSet<T> {
    /// Searches for an element by binary search, in a set whose elements are in ascending order.
    ///
    /// `Ok` is the index of an element that compares as equal to `item`, any one of them. If there is no such element,
    /// `Err` is the number of lesser elements, which is the index at which `item` can be inserted.
    ///
    /// # Complexity
    ///
    /// For n elements, log2(n) + 1 comparisons, rounded up: 10 for 512 elements. If an element has at most 8 bytes, up
    /// to half as many more: 14 for 512 elements.
    ///
    /// # Examples
    ///
    /// ```
    /// let set = vecset!(alloc; 1, 2);
    /// set.binary_search(&2) // Ok(1)
    /// set.binary_search(&3) // Err(2)
    /// ```
    pub fn binary_search(&self, item: &T) -> Result<usize, usize>
    where
        T: Ord,
        ensures within { IsSearchInRange result (length self.now.elements) }
        ensures index { IsBinarySearchResult (λ x. T.cmp x item.now) self.now.elements result }
        ensures at { IfOk result (FindsAt (T.eq item.now) self.now.elements) }

        // What follows for lookups, lengths and indices.
        ensures found { IsSorted T.cmp self.now.elements
            → is_ok result ≡ is_member T.eq self.now.elements item.now }
    {
        let items = self.items.as_slice();
        search_by_index::<T, _, _>(
            items,
            |index: usize| -> Ordering
                requires { index < length items.now }
                ensures { HoldsAt (λ x. result ≡ T.cmp x item.entry.now) items.entry.now index }
            { items[index].cmp(item) },
        )
    }

    /// Searches the elements by binary search, with the comparison `f`.
    ///
    /// `f` returns how an element compares with what is sought: `Less` for the first elements, then `Equal`, then
    /// `Greater`. `Ok` is the index of an equal element, any one of them. If there is no such element, `Err` is the
    /// number of elements that are less. If the elements are in another order, `Ok` is still the index of an equal
    /// element, but `Err` says nothing.
    ///
    /// # Preconditions
    ///
    /// `f` can be called with each element of the set. It is called with no others, so it may index a table by an
    /// element.
    ///
    /// # Complexity
    ///
    /// As many calls of `f` as [`VecSet::binary_search`] makes comparisons.
    ///
    /// # Examples
    ///
    /// ```
    /// let set = vecset!(alloc; 1, 2);
    /// set.binary_search_by(|item| item.cmp(&2)) // Ok(1)
    /// ```
    pub fn binary_search_by<'a, F: Fn(&'a T) -> Ordering>(&'a self, f: F) -> Result<usize, usize>
        requires callable { All (CallableOnItem F.Fn f) self.now.elements }
        ensures within { IsSearchInRange result (length self.now.elements) }
        ensures index { (ord : T → Ordering) → ReturnsOnItems F.Fn ord f self.now.elements
            → IsBinarySearchResult ord self.now.elements result }
    {
        let items = self.items.as_slice();
        search_by_index::<T, _, _>(
            items,
            |index: usize| -> Ordering
                requires callable { All (CallableOnItem F.Fn f) items.now }
                requires within { index < length items.now }
                ensures { (ord : T → Ordering) → ReturnsOnItems F.Fn ord f items.entry.now
                    → HoldsAt (λ x. result ≡ ord x) items.entry.now index }
            { f(&items[index]) },
        )
    }

    /// Like [`VecSet::binary_search_by`], but `f` returns the sort key of an element, and the search is for `key`.
    ///
    /// The sort keys are in ascending order.
    ///
    /// # Examples
    ///
    /// ```
    /// let set = vecset!(alloc; 1, 2);
    /// set.binary_search_by_key(&2, |item| *item) // Ok(1)
    /// ```
    pub fn binary_search_by_key<'a, B: Ord + Drop, F: Fn(&'a T) -> B>(
        &'a self,
        key: &B,
        f: F,
    ) -> Result<usize, usize>
        requires callable { All (CallableOnItem F.Fn f) self.now.elements }
        ensures within { IsSearchInRange result (length self.now.elements) }
        ensures index { (key_of : T → B) → ReturnsOnItems F.Fn key_of f self.now.elements
            → IsBinarySearchResult (λ x. B.cmp (key_of x) key.now) self.now.elements result }
    {
        let items = self.items.as_slice();
        search_by_index::<T, _, _>(
            items,
            |index: usize| -> Ordering
                requires callable { All (CallableOnItem F.Fn f) items.now }
                requires within { index < length items.now }
                ensures { (key_of : T → B) → ReturnsOnItems F.Fn key_of f items.entry.now
                    → HoldsAt (λ x. result ≡ B.cmp (key_of x) key.entry.now) items.entry.now index }
            { f(&items[index]).cmp(key) },
        )
    }

    /// Returns the number of elements for which `pred` returns `true`, if these elements come first.
    ///
    /// If they do not, the result is only known to be at most `len`.
    ///
    /// # Preconditions
    ///
    /// `pred` can be called with each element of the set.
    ///
    /// # Complexity
    ///
    /// As many calls of `pred` as [`VecSet::binary_search`] makes comparisons.
    ///
    /// # Examples
    ///
    /// ```
    /// let set = vecset!(alloc; 1, 2);
    /// set.partition_point(|item| *item < 2) // 1
    /// ```
    pub fn partition_point<P: Fn(&T) -> bool>(&self, pred: P) -> usize
        requires callable { All (CallableOnItem P.Fn pred) self.now.elements }
        ensures within { result ≤ length self.now.elements }
        ensures index { (p : T → Bool) → ReturnsOnItems P.Fn p pred self.now.elements
            → IsPartitionedBy p self.now.elements
            → IsPartitionPoint (λ x. p x ≡ true) (λ x. p x ≡ false)
            self.now.elements result }
    {
        partition_point::<T, _, _>(&self.items, pred)
    }
}
