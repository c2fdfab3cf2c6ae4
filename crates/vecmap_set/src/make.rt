//! Calls that create a set, and calls that return its slice, its vector or its allocator.
ghost use Rattle.std.specs.{Prelude.{◌≡◌, ◌≤◌, IfOk, IsOk, [], vec_capacity}, List.IsDistinct};

use crate::VecSet;
use std::alloc::{AllocError, Global};
use std::default::{Emptied, MadeWith};

impl<T: Eq> VecSet<T> {
    /// Creates an empty set. Does not allocate.
    ///
    /// # Examples
    ///
    /// ```
    /// let set: VecSet<u32> = VecSet::new(alloc);
    /// (set.len(), set.capacity()) // (0, 0)
    /// ```
    #[tactic(auto, using(vecmap_base::proofs::DistinctLemmas::distinct_none))]
    pub fn new(alloc: Global) -> VecSet<T>
        ensures list { result.elements ≡ [] }
        ensures distinct { IsDistinct T.eq result.elements }
        ensures capacity { result.capacity ≡ 0 }
    {
        VecSet {
            items: Vec::new(alloc),
        }
    }

    /// Creates an empty set with capacity for at least `capacity` elements.
    ///
    /// If `capacity` is 0, the call succeeds and does not allocate.
    ///
    /// # Errors
    ///
    /// [`AllocError`] if allocation fails, or if the elements would take more than `isize::MAX` bytes; no set is
    /// created.
    ///
    /// # Complexity
    ///
    /// At most one allocation.
    ///
    /// # Examples
    ///
    /// ```
    /// let set: VecSet<u32> = VecSet::with_capacity(alloc, 4)?;
    /// set.is_empty() // true
    /// 4 <= set.capacity() // true
    /// ```
    #[tactic(auto, using(vecmap_base::proofs::DistinctLemmas::distinct_none))]
    pub fn with_capacity(alloc: Global, capacity: usize) -> Result<VecSet<T>, AllocError>
        ensures list { IfOk result (λ set. set.elements ≡ []) }
        ensures distinct { IfOk result (λ set. IsDistinct T.eq set.elements) }
        ensures at_least { IfOk result (λ set. capacity ≤ set.capacity) }
        ensures capacity { capacity ≡ 0 → IfOk result (λ set. set.capacity ≡ 0) }
        ensures succeeds { capacity ≡ 0 → IsOk result }
    {
        Ok(VecSet {
            items: Vec::with_capacity(alloc, capacity)?,
        })
    }

    /// Returns the elements in order, as a slice. They are distinct.
    ///
    /// `==` of two slices depends on the order, and `==` of two sets does not.
    ///
    /// # Examples
    ///
    /// ```
    /// let set = vecset!(alloc; 2, 1);
    /// set.as_slice() // [2, 1]
    /// ```
    pub fn as_slice(&self) -> &[T]
        ensures list { result.now ≡ self.now.elements }
        ensures distinct { IsDistinct T.eq result.now }
    {
        self.items.as_slice()
    }

    /// Returns the elements in order, in the vector that held them.
    ///
    /// # Examples
    ///
    /// ```
    /// let set = vecset!(alloc; 2, 1);
    /// set.into_vec().as_slice() // [2, 1]
    /// ```
    pub fn into_vec(self) -> Vec<T>
        ensures list { result.items ≡ self.elements }
        ensures distinct { IsDistinct T.eq result.items }
        ensures capacity { vec_capacity result ≡ self.capacity }
    {
        let VecSet { items } = self;
        items
    }

    /// Returns the allocator of the set.
    ///
    /// # Examples
    ///
    /// ```
    /// let names: VecSet<String> = VecSet::new(alloc);
    /// String::from_str(*names.allocator(), "a")?.as_str() // "a"
    /// ```
    pub fn allocator(&self) -> &Global {
        self.items.allocator()
    }
}

/// Creates the empty set that `or_default` inserts if the values of a map are sets.
///
/// # Examples
///
/// ```
/// let mut groups: VecMap<char, VecSet<u32>> = VecMap::new(alloc);
/// groups.entry('a').or_default()?.insert(1)?;
/// groups.get(&'a').map(VecSet::as_slice) // Some([1])
/// ```
impl<T: Eq> MadeWith<Global> for VecSet<T> {
    ghost is_made_with = { λ set. (set.elements ≡ []) × (set.capacity ≡ 0) };

    fn made_with(alloc: Global) -> VecSet<T> {
        VecSet::new(alloc)
    }
}

/// Creates the empty set that `mem::try_take` leaves behind.
///
/// # Examples
///
/// ```
/// let mut set = vecset!(alloc; 2, 1);
/// let taken = mem::try_take(&mut set)?;
/// taken.as_slice() // [2, 1]
/// set.as_slice() // []
/// ```
impl<T: Eq> Emptied for VecSet<T> {
    ghost is_emptied = { λ set. (set.elements ≡ []) × (set.capacity ≡ 0) };

    fn emptied(like: &VecSet<T>) -> Result<VecSet<T>, AllocError> {
        Ok(VecSet::new(*like.items.allocator()))
    }
}
