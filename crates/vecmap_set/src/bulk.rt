//! Creation of a set from many elements, and addition of many elements.
ghost use Rattle.std.specs.Prelude.{◌≡◌, ◌<◌, ◌≤◌, IfOk, IsOk, List, OnErr, OnOk, [], length, map};
ghost use Rattle.std.specs.{Iterator.{Drains, ExtendsWithItems, IsFiniteIterable}, Iterator.Runs.WholeRun, List.IsDistinct, Map.Iter.deref};
ghost use Rattle.vecmap_base.specs.{Bulk.HasRoomForAll, Items.adds};
ghost use Rattle.vecmap_set.specs.SetBulk.{Adds, AddsClones, AddsCopies, AddsItems, Extends, JoinsItems, RefusesAfter, RefusesCopiesAfter};
ghost use Rattle.vecmap_set.specs.SetContents.{Empties, HasRoom, Stays};

use crate::VecSet;
use std::alloc::{AllocError, Global};
use vecmap_base::contains_item_inline;

impl<T: Eq> VecSet<T> {
    /// Creates a set and adds the elements of an iterator, in order.
    ///
    /// Among duplicates the first is kept, and the others are dropped. The call reserves no capacity in advance, as
    /// there may be duplicates.
    ///
    /// # Errors
    ///
    /// [`AllocError`] if an allocation fails; no set is created, and the elements and the iterator are dropped.
    ///
    /// # Preconditions
    ///
    /// The iterator ends.
    ///
    /// # Complexity
    ///
    /// One lookup for each element among those before it, so at most n(n-1)/2 comparisons for n elements.
    ///
    /// # Examples
    ///
    /// ```
    /// let set = VecSet::from_iter(alloc, [2, 1, 2])?;
    /// set.as_slice() // [2, 1]
    /// ```
    pub fn from_iter<I: IntoIterator<Item = T>>(
        alloc: Global,
        iter: I,
    ) -> Result<VecSet<T>, AllocError>
    where
        T: Drop,
        requires ends { IsFiniteIterable I.into_iter_gives I.IntoIter.can_next I.IntoIter.remaining
            iter }
        ensures list { IfOk result (λ set. (it : I.IntoIter) × (items : List T)
            × I.into_iter_gives iter it × Drains I.IntoIter.next_gives it items
            × (set.elements ≡ adds T.eq [] items)) }

        // What follows for lookups, lengths and indices.
        ensures runs { IfOk result (λ set. (it : I.IntoIter) × I.into_iter_gives iter it
            × WholeRun I.IntoIter.next_gives it (λ p. AddsItems T.eq [] p.items set.elements)) }
        ensures distinct { IfOk result (λ set. IsDistinct T.eq set.elements) }
    {
        let mut set = VecSet::new(alloc);
        set.extend(iter)?;
        Ok(set)
    }

    /// Like [`VecSet::from_iter`], but adds clones of the elements of a slice. This is Rust's `From<&[T]>`.
    ///
    /// # Errors
    ///
    /// [`AllocError`] if an allocation fails, or if the clone of an element fails; no set is created.
    ///
    /// # Examples
    ///
    /// ```
    /// let set = VecSet::from_slice(alloc, &[2, 1, 2])?;
    /// set.as_slice() // [2, 1]
    /// ```
    pub fn from_slice(alloc: Global, items: &[T]) -> Result<VecSet<T>, AllocError>
    where
        T: Clone,
        ensures insertion { IfOk result (λ set. AddsClones T.eq T.is_clone items.now
            set.elements) }
    {
        let mut set = VecSet::new(alloc);
        for item in items {
            set.insert(item.clone()?)?;
        }
        Ok(set)
    }

    /// Adds the elements of `other`, in order, and leaves `other` empty.
    ///
    /// An existing element stays as it is, and an equal element of `other` is dropped. The call first reserves capacity
    /// for all elements of `other`. The capacity of `other` stays.
    ///
    /// # Errors
    ///
    /// [`AllocError`] if allocation fails; both sets are then unchanged. With spare capacity for all elements of
    /// `other`, the call does not allocate and always succeeds.
    ///
    /// # Complexity
    ///
    /// One lookup for each element of `other`, with at most as many comparisons as this set had elements before. So the
    /// call compares nothing if this set is empty.
    ///
    /// # Examples
    ///
    /// ```
    /// let mut set = vecset!(alloc; 1, 2);
    /// let mut other = vecset!(alloc; 2, 3);
    /// set.append(&mut other)?;
    /// set.as_slice() // [1, 2, 3]
    /// other.is_empty() // true
    /// ```
    #[tactic(auto, using(crate::proofs::SetLemmas::distinct_changes, std::proofs::lemmas::Grind::common_steps))]
    pub fn append(&mut self, other: &mut VecSet<T>) -> Result<(), AllocError>
    where
        T: Drop,
        ensures insertion { OnOk result (JoinsItems T.eq self.old.elements other.old.elements
            self.new.elements) }
        ensures emptied { OnOk result (Empties T.eq other.old other.new) }
        ensures capacity { self.old.capacity ≤ self.new.capacity }
        ensures succeeds { HasRoom self.old (length other.old.elements) → IsOk result }
        ensures capacity_stays { HasRoom self.old (length other.old.elements)
            → self.new.capacity ≡ self.old.capacity }
        ensures not_empty { OnErr result (0 < length other.old.elements) }
        ensures err { OnErr result (Stays T.eq self.old self.new) }
        ensures other_err { OnErr result (Stays T.eq other.old other.new) }
    {
        self.reserve(other.len())?;

        // No two elements of `other` are equal, so none is equal to one that the loop has added.
        let len = self.len();
        for item in other.items.drain(..) {
            if !contains_item_inline(&self.items[..len], &item) {
                self.insert_unique(item).unwrap();
            }
        }
        Ok(())
    }

    /// Adds the elements of an iterator, in order.
    ///
    /// This is Rust's `Extend<T>`. An existing element stays as it is, and an equal element of the iterator is dropped.
    /// The call reserves no capacity in advance, as some elements may be present already.
    ///
    /// # Errors
    ///
    /// [`AllocError`] if an allocation fails. If the set cannot grow for an element, the elements before it stay, and
    /// that element is dropped with the iterator. With spare capacity for all elements, the call does not allocate and
    /// always succeeds.
    ///
    /// # Preconditions
    ///
    /// The iterator ends.
    ///
    /// # Complexity
    ///
    /// One lookup for each element, with at most as many comparisons as the set then has elements.
    ///
    /// # Examples
    ///
    /// ```
    /// let mut set = vecset!(alloc; 1, 2);
    /// set.extend([2, 3])?;
    /// set.as_slice() // [1, 2, 3]
    /// ```
    pub fn extend<I: IntoIterator<Item = T>>(&mut self, iter: I) -> Result<(), AllocError>
    where
        T: Drop,
        requires ends { IsFiniteIterable I.into_iter_gives I.IntoIter.can_next I.IntoIter.remaining
            iter }
        ensures ran { ExtendsWithItems I.into_iter_gives I.IntoIter.next_gives
            (Adds T.eq) iter self.old self.new result }
        ensures succeeds { HasRoomForAll I.into_iter_gives I.IntoIter.remaining iter
            (HasRoom self.old) → IsOk result }
        ensures extended { Extends I.into_iter_gives I.IntoIter.next_gives I.IntoIter.remaining
            T.eq (RefusesAfter T.eq) iter self.old result self.new }

        // What follows for lookups, lengths and indices.
        ensures runs { OnOk result ((it : I.IntoIter) × I.into_iter_gives iter it
            × WholeRun I.IntoIter.next_gives it (λ p. AddsItems T.eq self.old.elements p.items
            self.new.elements)) }
    {
        // A proof knows the invariant only once a field is used, and the loop needs it at its start.
        let _ = &self.items;
        for item in iter {
            self.insert(item)?;
        }
        Ok(())
    }

    /// Like [`VecSet::extend`], but adds copies of the elements of an iterator of references.
    ///
    /// This is Rust's `Extend<&T>`.
    ///
    /// # Examples
    ///
    /// ```
    /// let mut set = vecset!(alloc; 1, 2);
    /// set.extend_copied(&[2, 3])?;
    /// set.as_slice() // [1, 2, 3]
    /// ```
    pub fn extend_copied<'a, I: IntoIterator<Item = &'a T>>(
        &mut self,
        iter: I,
    ) -> Result<(), AllocError>
    where
        T: Copy + 'a,
        requires ends { IsFiniteIterable I.into_iter_gives I.IntoIter.can_next I.IntoIter.remaining
            iter }
        ensures ran { ExtendsWithItems I.into_iter_gives I.IntoIter.next_gives
            (AddsCopies T.eq deref) iter self.old self.new result }
        ensures succeeds { HasRoomForAll I.into_iter_gives I.IntoIter.remaining iter
            (HasRoom self.old) → IsOk result }
        ensures extended { Extends I.into_iter_gives I.IntoIter.next_gives I.IntoIter.remaining
            T.eq (RefusesCopiesAfter T.eq deref) iter self.old result self.new }

        // What follows for lookups, lengths and indices.
        ensures runs { OnOk result ((it : I.IntoIter) × I.into_iter_gives iter it
            × WholeRun I.IntoIter.next_gives it (λ p. AddsItems T.eq self.old.elements
            (map deref p.items) self.new.elements)) }
    {
        // As in `extend`.
        let _ = &self.items;
        for item in iter {
            self.insert(*item)?;
        }
        Ok(())
    }
}

/// Creates a set and adds the elements of an iterator, in order, like the inherent [`VecSet::from_iter`].
///
/// # Examples
///
/// ```
/// let set: VecSet<u32> = [2, 1, 2].into_iter().collect(alloc)?;
/// set.as_slice() // [2, 1]
/// ```
impl<T: Eq + Drop> FromIterator<T> for VecSet<T> {
    type Alloc = Global;

    ghost from_iter_gives = { λ items set. AddsItems T.eq [] items set.elements × IsDistinct T.eq set.elements };

    fn from_iter<I: IntoIterator<Item = T>>(
        alloc: Global,
        iter: I,
    ) -> Result<VecSet<T>, AllocError> {
        VecSet::from_iter(alloc, iter)
    }
}
