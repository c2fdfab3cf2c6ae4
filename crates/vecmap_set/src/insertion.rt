//! Insertion of one element.
ghost use Rattle.std.specs.Prelude.{◌≡◌, ◌^◌, ◌<◌, Err, IfErr, IfOk, IfSome, IsTrue, None, Ok, OnErr, OnOk, Some, false, length, position, unwrap_or};
ghost use Rattle.std.specs.Set.{is_member};
ghost use Rattle.vecmap_base.specs.Items.{item_index};
ghost use Rattle.vecmap_set.specs.{SetContents.{FailsToInsert, IsFull, KeepsRoom, KeepsRoomAt, Refuses, Reserves}, SetIndices.FindsAt};
ghost use Rattle.vecmap_set.specs.{SetInsertions.{AddsItem, AppendsItem, FindsOrAppends, PutsItem, TellsIfAdded}, SetRemovals.FindsItem};

use crate::VecSet;
use std::alloc::AllocError;
use std::mem;
use vecmap_base::{Equivalent, Refused, contains_item_inline, find_item, find_item_equivalent};

impl<T: Eq> VecSet<T> {
    /// Inserts an element and returns `true` if it is new.
    ///
    /// An equal element that is present stays as it is, at its index; `item` is dropped and nothing changes. A new
    /// element is appended.
    ///
    /// # Errors
    ///
    /// [`Refused`] returns the element if the set is full and allocation fails; the set is then unchanged.
    ///
    /// # Complexity
    ///
    /// At most `len` comparisons. Allocates only for a new element in a full set, and moves elements only if the vector
    /// grows.
    ///
    /// # Examples
    ///
    /// ```
    /// let mut set = vecset!(alloc; 1, 2);
    /// set.insert(3)? // true
    /// set.insert(1)? // false
    /// set.as_slice() // [1, 2, 3]
    /// ```
    #[inline(always)]
    pub fn insert(&mut self, item: T) -> Result<bool, Refused<T>>
    where
        T: Drop,
        ensures insertion { OnOk result (AddsItem T.eq self.old.elements item self.new.elements) }
        ensures returned { IfOk result (TellsIfAdded T.eq self.old item self.new) }
        ensures capacity { KeepsRoom T.eq self.old item self.new }
        ensures given { IfErr result (λ refused. refused.given ≡ item) }
        ensures err { OnErr result (Refuses T.eq self.old item self.new) }
    {
        if contains_item_inline(&self.items, &item) {
            return Ok(false);
        }
        self.insert_unique(item)?;
        Ok(true)
    }

    /// Like [`VecSet::insert`], but also returns the index of the element.
    ///
    /// # Examples
    ///
    /// ```
    /// let mut set = vecset!(alloc; 1, 2);
    /// set.insert_full(3)? // (2, true)
    /// set.insert_full(1)? // (0, false)
    /// ```
    #[tactic(auto, using(vecmap_base::proofs::IndexLemmas::list_any_position))]
    #[inline]
    pub fn insert_full(&mut self, item: T) -> Result<(usize, bool), Refused<T>>
    where
        T: Drop,
        ensures insertion { OnOk result (AddsItem T.eq self.old.elements item self.new.elements) }
        ensures index { IfOk result (λ done. done.0
            ≡ unwrap_or (item_index T.eq self.old.elements item) (length self.old.elements)) }
        ensures at { IfOk result (λ done. FindsAt (T.eq item) self.new.elements done.0) }
        ensures countable { IfOk result (λ done. done.0 < 2 ^ 63) }
        ensures returned { IfOk result (λ done. TellsIfAdded T.eq self.old item self.new done.1) }
        ensures capacity { KeepsRoom T.eq self.old item self.new }
        ensures given { IfErr result (λ refused. refused.given ≡ item) }
        ensures err { OnErr result (Refuses T.eq self.old item self.new) }
    {
        let len = self.len(); // Bounds the index.
        if let Some(index) = find_item(&self.items, &item) {
            return Ok((index, false));
        }
        self.insert_unique(item)?;
        Ok((len, true))
    }

    /// Like [`VecSet::insert`], but an equal element is replaced, at its index, and returned.
    ///
    /// # Examples
    ///
    /// ```
    /// let mut set = vecset!(alloc; 1, 2);
    /// set.replace(1)? // Some(1)
    /// set.replace(3)? // None
    /// set.as_slice() // [1, 2, 3]
    /// ```
    #[tactic(auto, using(vecmap_base::proofs::IndexLemmas::list_any_position, std::proofs::lemmas::Option::gets))]
    pub fn replace(&mut self, item: T) -> Result<Option<T>, Refused<T>>
        ensures insertion { OnOk result (PutsItem T.eq self.old.elements item self.new.elements) }
        ensures returned { IfOk result (λ old. FindsItem (T.eq item) self.old.elements old) }
        ensures capacity { KeepsRoom T.eq self.old item self.new }
        ensures given { IfErr result (λ refused. refused.given ≡ item) }
        ensures err { OnErr result (Refuses T.eq self.old item self.new) }
    {
        if let Some(index) = find_item(&self.items, &item) {
            return Ok(Some(mem::replace(&mut self.items[index], item)));
        }
        self.insert_unique(item)?;
        Ok(None)
    }

    /// Appends an element that is absent. Does not search.
    ///
    /// # Errors
    ///
    /// [`Refused`] returns the element if the set is full and allocation fails; the set is then unchanged.
    ///
    /// # Preconditions
    ///
    /// No element of the set is equal to `item`.
    ///
    /// # Complexity
    ///
    /// No comparisons. Allocates only if the set is full, and moves elements only if the vector grows.
    ///
    /// # Examples
    ///
    /// ```
    /// let mut set: VecSet<u32> = VecSet::with_capacity(alloc, 2)?;
    /// set.insert_unique(1)?;
    /// # assert!(*rt; !set.contains(&2));
    /// set.insert_unique(2)?;
    /// set.as_slice() // [1, 2]
    /// ```
    #[tactic(auto, using(crate::proofs::SetLemmas::distinct_changes, crate::proofs::SetIndexLemmas::stored_last))]
    pub fn insert_unique(&mut self, item: T) -> Result<(), Refused<T>>
        requires absent { is_member T.eq self.old.elements item ≡ false }
        ensures list { OnOk result (AppendsItem self.old.elements item self.new.elements) }
        ensures insertion { OnOk result (AddsItem T.eq self.old.elements item self.new.elements) }
        ensures capacity { KeepsRoom T.eq self.old item self.new }
        ensures given { IfErr result (λ refused. refused.given ≡ item) }
        ensures err { OnErr result (Refuses T.eq self.old item self.new) }
    {
        if self.reserve_one().is_err() {
            return Err(Refused { given: item });
        }
        self.items.push_reserved(item);
        Ok(())
    }

    /// Returns the index of the element that matches `query`, or appends the element that `make` returns, and returns its
    /// index.
    ///
    /// # Errors
    ///
    /// If `make` returns an error, the call returns that error. If the set is full and allocation fails, the
    /// [`Refused`] with the element that `make` returned is converted to `E`. The set is unchanged in both cases. If an
    /// element matches, nothing fails.
    ///
    /// # Preconditions
    ///
    /// If no element matches `query`, `make` can be called. `query` matches the element that `make` returns.
    ///
    /// # Complexity
    ///
    /// At most `len` comparisons, and one call of `make` if no element matches. Allocates only for a new element in a
    /// full set, and moves elements only if the vector grows.
    ///
    /// # Examples
    ///
    /// ```
    /// let mut names: VecSet<String> = VecSet::new(alloc);
    /// names.index_or_try_insert_with("a", || String::from_str(alloc, "a"))? // 0
    /// names.index_or_try_insert_with("a", || Err(AllocError))? // 0
    /// names.index_or_try_insert_with("b", || Err(AllocError)).is_err() // true
    /// names.len() // 1
    /// ```
    pub fn index_or_try_insert_with<Q: Equivalent<T>, E, F: FnOnce() -> Result<T, E>>(
        &mut self,
        query: Q,
        make: F,
    ) -> Result<usize, E>
    where
        E: From<Refused<T>>,
        F: Drop,
        requires callable { position (Q.equivalent query) self.old.elements ≡ None → F.pre make }
        requires made { (item : T) → F.post make (Ok item) → IsTrue (Q.equivalent query item) }
        ensures insertion { IfOk result (FindsOrAppends T.eq (Q.equivalent query)
            (λ item. F.post make (Ok item)) self.old self.new) }
        ensures present { IfSome (position (Q.equivalent query) self.old.elements)
            (λ i. (result ≡ Ok i) × (self.new ≡ self.old)) }
        ensures capacity { KeepsRoomAt (position (Q.equivalent query) self.old.elements)
            self.old self.new }

        // On `Err` no element matches. Either `make` failed, or the set is full and memory ran out.
        ensures err { IfErr result (FailsToInsert T.eq E.from_gives
            (λ item. F.post make (Ok item)) (λ error. F.post make (Err error))
            (position (Q.equivalent query) self.old.elements) self.old self.new) }
    {
        if let Some(index) = find_item_equivalent(&self.items, query) {
            return Ok(index);
        }
        let item = make()?;
        let index = self.len();
        match self.insert_unique(item) {
            Ok(()) => Ok(index),
            Err(refused) => Err(E::from(refused)),
        }
    }

    // Reserves capacity for one more element.
    fn reserve_one(&mut self) -> Result<(), AllocError>
        ensures reserved { Reserves T.eq 1 self.old result self.new }
        ensures full { OnErr result (IsFull self.old) }
    {
        if self.items.len() < self.items.capacity() {
            return Ok(());
        }
        self.items.reserve(1)
    }
}
