//! Conversions of a vector into a set, which keep the vector, and of an array; clones of the elements in a new vector.
ghost use Rattle.std.specs.{Prelude.{◌≡◌, ◌≤◌, IfOk, [], length, vec_capacity}, List.IsDistinct};
ghost use Rattle.vecmap_base.specs.{Clones.AreClones, Comparisons.comparisons};
ghost use Rattle.vecmap_set.specs.SetBulk.{AddsItems};

use crate::VecSet;
use std::alloc::{AllocError, Global};
use vecmap_base::{Steps, dedup_keep_first};

/// Converts a vector into a set, in the same memory, and removes duplicates.
///
/// Among duplicates the first is kept, and the others are dropped. The capacity stays.
///
/// # Complexity
///
/// As many comparisons as [`VecSet::from_vec_counted`]. Does not allocate.
///
/// # Examples
///
/// ```
/// let set = VecSet::from(vec![in alloc; 2, 1, 2]?);
/// set.as_slice() // [2, 1]
/// ```
impl<T: Eq + Drop> From<Vec<T>> for VecSet<T> {
    ghost from_gives = { λ items set. AddsItems T.eq [] items.items set.elements
        × IsDistinct T.eq set.elements × (set.capacity ≡ vec_capacity items) };

    fn from(items: Vec<T>) -> VecSet<T> {
        let (set, _count) = VecSet::from_vec_counted(items);
        set
    }
}

impl<T: Eq> VecSet<T> {
    /// Like `From<Vec<T>>`, but also returns the number of comparisons.
    ///
    /// # Complexity
    ///
    /// Each element is compared with the elements before it that stay, up to the first equal one. These are at most
    /// n(n-1)/2 comparisons for n elements, and exactly as many if all are distinct (`comparisons_are_bounded` of
    /// `vecmap_laws`).
    ///
    /// # Examples
    ///
    /// ```
    /// let (set, comparisons) = VecSet::from_vec_counted(vec![in alloc; 2, 1, 2]?);
    /// comparisons // 2
    /// set.as_slice() // [2, 1]
    /// ```
    #[tactic(auto, using(crate::proofs::SetLemmas::distinct_changes))]
    pub fn from_vec_counted(mut items: Vec<T>) -> (VecSet<T>, u128)
    where
        T: Drop,
        ensures insertion { AddsItems T.eq [] items.items result.0.elements }
        ensures capacity { result.0.capacity ≡ vec_capacity items }
        ensures counted { result.1 ≡ comparisons T.eq items.items }
    {
        let mut steps = Steps::new();
        dedup_keep_first(&mut items, &mut steps);
        (VecSet { items }, steps.count())
    }

    /// Creates a set and adds the elements of an array, in order.
    ///
    /// This is Rust's `From<[T; N]>`. Among duplicates the first is kept, and the others are dropped.
    ///
    /// # Errors
    ///
    /// [`AllocError`] if allocation fails; the elements are then dropped, and no set is created.
    ///
    /// # Complexity
    ///
    /// As many comparisons as [`VecSet::from_vec_counted`], and one allocation.
    ///
    /// # Examples
    ///
    /// ```
    /// let set = VecSet::from_array(alloc, [2, 1, 2])?;
    /// set.as_slice() // [2, 1]
    /// ```
    pub fn from_array<const N: usize>(alloc: Global, items: [T; N]) -> Result<VecSet<T>, AllocError>
    where
        T: Drop,
        ensures insertion { IfOk result (λ set. AddsItems T.eq [] items set.elements) }
        ensures at_least { IfOk result (λ set. N ≤ set.capacity) }

        // What follows for lookups, lengths and indices.
        ensures len { IfOk result (λ set. length set.elements ≤ N) }
    {
        Ok(VecSet::from(Vec::from_array(alloc, items)?))
    }

    /// Converts a vector into a set, in the same memory, without a search for duplicates.
    ///
    /// # Preconditions
    ///
    /// All elements are distinct: `items_distinct` returns `true`.
    ///
    /// # Examples
    ///
    /// ```
    /// let items = vec![in alloc; 2, 1]?;
    /// # assert!(*rt; items_distinct(&items));
    /// let set = VecSet::from_vec_unchecked(items);
    /// set.as_slice() // [2, 1]
    /// ```
    pub fn from_vec_unchecked(items: Vec<T>) -> VecSet<T>
        requires distinct { IsDistinct T.eq items.items }
        ensures list { result.elements ≡ items.items }
        ensures distinct { IsDistinct T.eq result.elements }
        ensures capacity { result.capacity ≡ vec_capacity items }
    {
        VecSet { items }
    }

    /// Returns a vector of clones of the elements, in order.
    ///
    /// # Errors
    ///
    /// [`AllocError`] if allocation fails, or if the clone of an element fails; no vector is created.
    ///
    /// # Complexity
    ///
    /// One clone of each element, one allocation for the elements, and no comparisons.
    ///
    /// # Examples
    ///
    /// ```
    /// let set = vecset!(alloc; 2, 1);
    /// set.to_vec()?.as_slice() // [2, 1]
    /// ```
    pub fn to_vec(&self) -> Result<Vec<T>, AllocError>
    where
        T: Clone,
        ensures { IfOk result (λ items. AreClones T.is_clone self.now.elements items.items) }
    {
        self.items.clone()
    }
}
