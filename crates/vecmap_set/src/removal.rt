//! Removal of elements.
ghost use Rattle.std.specs.Prelude.{◌≡◌, ◌-◌, ◌<◌, ◌≤◌, Bool, IfNone, IfOk, IfSome, IsOk, OnErr, String, [], false, length, position, remove, string_eq, true};
ghost use Rattle.std.specs.{Fn.TakesAt, List.{IsDistinct, list_any}};
ghost use Rattle.vecmap_base.specs.{FnMutCalls.{CallableOnEach, CallsAtItem}, Items.{swap_without, swap_without_first, without_first}, Kept.ReturnsAt};
ghost use Rattle.vecmap_base.specs.Pairs.{has_text};
ghost use Rattle.vecmap_set.specs.{SetContents.Stays, SetIndices.{MovesItemIndex, ShiftsItems}};
ghost use Rattle.vecmap_set.specs.SetRemovals.{FindsItem, KeepsFrontItems, RemovesItemAt, RemovesItemBy, RemovesLastItem, RetainsItems, SplitsItems, Takes};

use crate::VecSet;
use std::alloc::AllocError;
use vecmap_base::{Equivalent, find_item_equivalent, remove_item, retain_items};

impl<T: Eq> VecSet<T> {
    /// Drops all elements, in order. The capacity stays.
    ///
    /// # Examples
    ///
    /// ```
    /// let mut set = vecset!(alloc; 1, 2);
    /// set.clear();
    /// set.is_empty() // true
    /// ```
    #[tactic(auto, using(vecmap_base::proofs::DistinctLemmas::distinct_none))]
    pub fn clear(&mut self)
    where
        T: Drop,
        ensures list { self.new.elements ≡ [] }
        ensures distinct { IsDistinct T.eq self.new.elements }
        ensures capacity { self.new.capacity ≡ self.old.capacity }
    {
        self.items.clear();
    }

    /// Keeps the first `len` elements and drops the others.
    ///
    /// If the set has no more than `len` elements, nothing changes. The capacity stays.
    ///
    /// # Examples
    ///
    /// ```
    /// let mut set = vecset!(alloc; 1, 2, 3);
    /// set.truncate(1);
    /// set.as_slice() // [1]
    /// ```
    #[tactic(auto, using(vecmap_base::proofs::DistinctLemmas::distinct_take))]
    pub fn truncate(&mut self, len: usize)
    where
        T: Drop,
        ensures front { KeepsFrontItems T.eq len self.old.elements self.new.elements }
        ensures capacity { self.new.capacity ≡ self.old.capacity }
    {
        self.items.truncate(len);
    }

    /// Moves the elements from index `at` on into a new set, and returns that set.
    ///
    /// The elements before `at` stay, and so does the capacity. If `at` is the number of elements, the call succeeds
    /// and does not allocate.
    ///
    /// # Errors
    ///
    /// [`AllocError`] if allocation fails; the set is then unchanged.
    ///
    /// # Preconditions
    ///
    /// `at` is at most [`VecSet::len`].
    ///
    /// # Complexity
    ///
    /// One move for each element of the new set. Allocates memory for these elements.
    ///
    /// # Examples
    ///
    /// ```
    /// let mut set = vecset!(alloc; 1, 2, 3);
    /// # assert!(*rt; 1 <= set.len());
    /// let part = set.split_off(1)?;
    /// set.as_slice() // [1]
    /// part.as_slice() // [2, 3]
    /// ```
    #[tactic(auto, using(crate::proofs::SetLemmas::distinct_changes))]
    pub fn split_off(&mut self, at: usize) -> Result<VecSet<T>, AllocError>
        requires within { at ≤ length self.old.elements }
        ensures split { IfOk result (λ part. SplitsItems T.eq at self.old.elements
            self.new.elements part.elements) }
        ensures capacity { self.new.capacity ≡ self.old.capacity }
        ensures succeeds { at ≡ length self.old.elements → IsOk result }
        ensures err { OnErr result (Stays T.eq self.old self.new) }
    {
        Ok(VecSet {
            items: self.items.split_off(at)?,
        })
    }

    /// Keeps the elements for which `f` returns `true`, in their order.
    ///
    /// `f` is called once for each element, in order, in the state that the calls before have left. The other elements
    /// are dropped at the end. The capacity stays.
    ///
    /// If `f` only reads what it captures, a proof knows that the elements that are left are a filter
    /// (`selection.filters`).
    ///
    /// # Preconditions
    ///
    /// `f` can be called with each element of the set, in the state that the calls before have left.
    ///
    /// # Complexity
    ///
    /// n calls of `f` for n elements, and at most one swap for each element after the first that is removed. Does
    /// not allocate.
    ///
    /// # Examples
    ///
    /// ```
    /// let mut set = vecset!(alloc; 1, 2, 3);
    /// set.retain(|item| *item != 2);
    /// set.as_slice() // [1, 3]
    /// ```
    pub fn retain<F: FnMut(&T) -> bool>(&mut self, f: F)
    where
        T: Drop,
        F: Drop,
        requires callable { CallableOnEach (CallsAtItem F.FnMut)
            (TakesAt F.FnMut) f self.old.elements }
        ensures selection { RetainsItems T.eq (CallsAtItem F.FnMut) f self.old.elements
            self.new.elements }

        // What a query finds, if `f` returns the same for all elements that it matches.
        ensures stays { (test : T → Bool) → ReturnsAt (CallsAtItem F.FnMut) f test true
            → list_any test self.new.elements ≡ list_any test self.old.elements }
        ensures gone { (test : T → Bool) → ReturnsAt (CallsAtItem F.FnMut) f test false
            → list_any test self.new.elements ≡ false }
        ensures capacity { self.new.capacity ≡ self.old.capacity }
    {
        retain_items(&mut self.items, f);
    }

    /// Removes the last element and returns it, or `None` if the set is empty.
    ///
    /// # Examples
    ///
    /// ```
    /// let mut set = vecset!(alloc; 1, 2);
    /// set.pop() // Some(2)
    /// set.as_slice() // [1]
    /// ```
    #[tactic(auto, using(vecmap_base::proofs::DistinctLemmas::distinct_take))]
    pub fn pop(&mut self) -> Option<T>
        ensures removal { RemovesLastItem T.eq self.old.elements result self.new.elements }
        ensures capacity { self.new.capacity ≡ self.old.capacity }
        ensures unchanged { IfNone result (self.new ≡ self.old) }
    {
        self.items.pop()
    }

    /// Removes the element that matches `query` and returns `true` if there was one; the other elements keep their
    /// order.
    ///
    /// The element is dropped, and the index of each later element decreases by one. If no element matches, nothing
    /// changes.
    ///
    /// # Complexity
    ///
    /// At most `len` comparisons, and one move for each element that changes its index.
    ///
    /// # Examples
    ///
    /// ```
    /// let mut set = vecset!(alloc; 1, 2, 3);
    /// set.remove(&1) // true
    /// set.remove(&1) // false
    /// set.as_slice() // [2, 3]
    /// ```
    pub fn remove<Q: Equivalent<T>>(&mut self, query: Q) -> bool
    where
        T: Drop,
        ensures returned { result ≡ list_any (Q.equivalent query) self.old.elements }
        ensures removal { RemovesItemBy T.eq without_first (Q.equivalent query)
            self.old.elements self.new.elements }
        ensures indices { IfSome (position (Q.equivalent query) self.old.elements)
            (λ index. ShiftsItems index self.old.elements self.new.elements) }
        ensures capacity { self.new.capacity ≡ self.old.capacity }
        ensures unchanged { result ≡ false → self.new ≡ self.old }
    {
        self.take(query).is_some()
    }

    /// Removes the element at `index` and returns it; the other elements keep their order.
    ///
    /// The index of each later element decreases by one.
    ///
    /// # Preconditions
    ///
    /// `index` is less than [`VecSet::len`].
    ///
    /// # Complexity
    ///
    /// No comparisons, and one move for each element that changes its index.
    ///
    /// # Examples
    ///
    /// ```
    /// let mut set = vecset!(alloc; 1, 2, 3);
    /// # assert!(*rt; 0 < set.len());
    /// set.remove_index(0) // 1
    /// set.as_slice() // [2, 3]
    /// ```
    #[tactic(auto, using(vecmap_base::proofs::DistinctLemmas::distinct_remove))]
    pub fn remove_index(&mut self, index: usize) -> T
        requires within { index < length self.old.elements }
        ensures removal { RemovesItemAt T.eq remove index self.old.elements result
            self.new.elements }
        ensures indices { ShiftsItems index self.old.elements self.new.elements }
        ensures distinct { IsDistinct T.eq self.new.elements }
        ensures capacity { self.new.capacity ≡ self.old.capacity }
    {
        remove_item(&mut self.items, index)
    }

    /// Like [`VecSet::remove`], but the last element moves to the index of the removed one, and the others keep theirs.
    ///
    /// # Complexity
    ///
    /// At most `len` comparisons, and one move.
    ///
    /// # Examples
    ///
    /// ```
    /// let mut set = vecset!(alloc; 1, 2, 3);
    /// set.swap_remove(&1) // true
    /// set.as_slice() // [3, 2]
    /// ```
    pub fn swap_remove<Q: Equivalent<T>>(&mut self, query: Q) -> bool
    where
        T: Drop,
        ensures returned { result ≡ list_any (Q.equivalent query) self.old.elements }
        ensures removal { RemovesItemBy T.eq swap_without_first (Q.equivalent query)
            self.old.elements self.new.elements }
        ensures capacity { self.new.capacity ≡ self.old.capacity }
        ensures unchanged { result ≡ false → self.new ≡ self.old }
    {
        self.swap_take(query).is_some()
    }

    /// Like [`VecSet::remove_index`], but the last element moves to `index`, and the others keep their indices.
    ///
    /// # Complexity
    ///
    /// No comparisons, and one move.
    ///
    /// # Examples
    ///
    /// ```
    /// let mut set = vecset!(alloc; 1, 2, 3);
    /// # assert!(*rt; 0 < set.len());
    /// set.swap_remove_index(0) // 1
    /// set.as_slice() // [3, 2]
    /// ```
    #[tactic(auto, using(std::proofs::lemmas::Option::gets))]
    pub fn swap_remove_index(&mut self, index: usize) -> T
        requires within { index < length self.old.elements }
        ensures removal { RemovesItemAt T.eq swap_without index self.old.elements result
            self.new.elements }
        ensures indices { index < length self.old.elements - 1 → MovesItemIndex T.eq
            (length self.old.elements - 1) index self.old.elements self.new.elements }
        ensures distinct { IsDistinct T.eq self.new.elements }
        ensures capacity { self.new.capacity ≡ self.old.capacity }
    {
        self.items.swap_remove(index)
    }

    /// Like [`VecSet::remove`], but returns the stored element.
    ///
    /// # Examples
    ///
    /// ```
    /// let mut set = vecset!(alloc; 1, 2, 3);
    /// set.take(&1) // Some(1)
    /// set.as_slice() // [2, 3]
    /// ```
    pub fn take<Q: Equivalent<T>>(&mut self, query: Q) -> Option<T>
        ensures item { FindsItem (Q.equivalent query) self.old.elements result }
        ensures removal { RemovesItemBy T.eq without_first (Q.equivalent query)
            self.old.elements self.new.elements }
        ensures indices { IfSome (position (Q.equivalent query) self.old.elements)
            (λ index. ShiftsItems index self.old.elements self.new.elements) }
        ensures any { IfSome result (λ x. Takes x self.old.elements self.new.elements) }
        ensures capacity { self.new.capacity ≡ self.old.capacity }
        ensures unchanged { IfNone result (self.new ≡ self.old) }
    {
        let index = find_item_equivalent(&self.items, query)?;
        Some(self.remove_index(index))
    }

    /// Like [`VecSet::swap_remove`], but returns the stored element.
    ///
    /// # Examples
    ///
    /// ```
    /// let mut set = vecset!(alloc; 1, 2, 3);
    /// set.swap_take(&1) // Some(1)
    /// set.as_slice() // [3, 2]
    /// ```
    pub fn swap_take<Q: Equivalent<T>>(&mut self, query: Q) -> Option<T>
        ensures item { FindsItem (Q.equivalent query) self.old.elements result }
        ensures removal { RemovesItemBy T.eq swap_without_first (Q.equivalent query)
            self.old.elements self.new.elements }
        ensures any { IfSome result (λ x. Takes x self.old.elements self.new.elements) }
        ensures capacity { self.new.capacity ≡ self.old.capacity }
        ensures unchanged { IfNone result (self.new ≡ self.old) }
    {
        let index = find_item_equivalent(&self.items, query)?;
        Some(self.swap_remove_index(index))
    }
}

impl VecSet<String> {
    /// Like [`VecSet::remove`], but an element matches if it has the bytes of `text`. Does not allocate.
    ///
    /// # Examples
    ///
    /// ```
    /// let mut set = vecset!(alloc; String::from_str(alloc, "a")?);
    /// set.remove_str("a") // true
    /// ```
    pub fn remove_str(&mut self, text: &str) -> bool
        ensures returned { result ≡ list_any (has_text text.now) self.old.elements }
        ensures removal { RemovesItemBy string_eq without_first (has_text text.now)
            self.old.elements self.new.elements }
        ensures indices { IfSome (position (has_text text.now) self.old.elements)
            (λ index. ShiftsItems index self.old.elements self.new.elements) }
        ensures capacity { self.new.capacity ≡ self.old.capacity }
        ensures unchanged { result ≡ false → self.new ≡ self.old }
    {
        self.remove(text)
    }
}
