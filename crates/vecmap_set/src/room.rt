//! The number of elements, and the capacity.
ghost use Rattle.std.specs.{Prelude.{◌≡◌, ◌<◌, ◌==◌, ◌^◌, ◌↔◌, ◌≤◌, IsTrue, [], length, min}, List.IsDistinct};
ghost use Rattle.vecmap_set.specs.SetContents.{HasRoom, Reserves};

use crate::VecSet;
use std::alloc::AllocError;
use std::collections::TryReserveError;

impl<T: Eq> VecSet<T> {
    /// Returns the number of elements.
    ///
    /// # Examples
    ///
    /// ```
    /// let set = vecset!(alloc; 1, 2);
    /// set.len() // 2
    /// ```
    pub fn len(&self) -> usize
        ensures count { result ≡ length self.now.elements }
        ensures within_capacity { result ≤ self.now.capacity }
        ensures countable { result < 2 ^ 63 }
    {
        self.items.len()
    }

    /// Returns `true` if the set has no elements.
    ///
    /// # Examples
    ///
    /// ```
    /// let set = vecset!(alloc; 1, 2);
    /// set.is_empty() // false
    /// ```
    pub fn is_empty(&self) -> bool
        ensures { result ≡ (length self.now.elements == 0) }
    {
        self.items.is_empty()
    }

    /// Returns the number of elements that fit before the vector has to grow.
    ///
    /// # Examples
    ///
    /// ```
    /// let set: VecSet<u32> = VecSet::with_capacity(alloc, 4)?;
    /// 4 <= set.capacity() // true
    /// ```
    pub fn capacity(&self) -> usize
        ensures { result ≡ self.now.capacity }
    {
        self.items.capacity()
    }

    /// Reserves capacity for at least `additional` more elements.
    ///
    /// The call reserves a surplus, so that a series of insertions seldom allocates. If the spare capacity is already
    /// enough, it succeeds and the capacity stays.
    ///
    /// # Errors
    ///
    /// [`AllocError`] if allocation fails, or if the elements would take more than `isize::MAX` bytes; the set is then
    /// unchanged.
    ///
    /// # Complexity
    ///
    /// At most one allocation, which may move all elements.
    ///
    /// # Examples
    ///
    /// ```
    /// let mut set = vecset!(alloc; 1, 2);
    /// set.reserve(10)?;
    /// 12 <= set.capacity() // true
    /// ```
    pub fn reserve(&mut self, additional: usize) -> Result<(), AllocError>
        ensures reserved { Reserves T.eq additional self.old result self.new }
    {
        if self.has_room(additional) {
            return Ok(());
        }
        self.items.reserve(additional)
    }

    /// Like [`VecSet::reserve`], but without the surplus that it adds. The allocator may still provide more.
    ///
    /// # Examples
    ///
    /// ```
    /// let mut set = vecset!(alloc; 1, 2);
    /// set.reserve_exact(10)?;
    /// 12 <= set.capacity() // true
    /// ```
    pub fn reserve_exact(&mut self, additional: usize) -> Result<(), AllocError>
        ensures reserved { Reserves T.eq additional self.old result self.new }
    {
        if self.has_room(additional) {
            return Ok(());
        }
        self.items.reserve_exact(additional)
    }

    /// Like [`VecSet::reserve`], but its error is a [`TryReserveError`], as in Rust.
    ///
    /// # Examples
    ///
    /// ```
    /// let mut set = vecset!(alloc; 1, 2);
    /// set.try_reserve(10).is_ok() // true
    /// set.try_reserve(usize::MAX).is_ok() // false
    /// ```
    pub fn try_reserve(&mut self, additional: usize) -> Result<(), TryReserveError>
        ensures reserved { Reserves T.eq additional self.old result self.new }
    {
        self.reserve(additional)
    }

    /// Like [`VecSet::reserve_exact`], but its error is a [`TryReserveError`], as in Rust.
    ///
    /// # Examples
    ///
    /// ```
    /// let mut set = vecset!(alloc; 1, 2);
    /// set.try_reserve_exact(10).is_ok() // true
    /// set.try_reserve_exact(usize::MAX).is_ok() // false
    /// ```
    pub fn try_reserve_exact(&mut self, additional: usize) -> Result<(), TryReserveError>
        ensures reserved { Reserves T.eq additional self.old result self.new }
    {
        self.reserve_exact(additional)
    }

    /// Reduces the capacity as much as possible.
    ///
    /// The call never fails: if a smaller block cannot be allocated, the capacity stays. If there are no elements,
    /// nothing is allocated, and the capacity is 0 afterwards.
    ///
    /// # Complexity
    ///
    /// At most one allocation, which may move all elements.
    ///
    /// # Examples
    ///
    /// ```
    /// let mut set: VecSet<u32> = VecSet::with_capacity(alloc, 10)?;
    /// set.insert(1)?;
    /// set.shrink_to_fit();
    /// set.as_slice() // [1]
    /// 1 <= set.capacity() // true
    /// ```
    pub fn shrink_to_fit(&mut self)
        ensures list { self.new.elements ≡ self.old.elements }
        ensures distinct { IsDistinct T.eq self.new.elements }
        ensures within_capacity { length self.old.elements ≤ self.new.capacity }
        ensures capacity { self.new.capacity ≤ self.old.capacity }
        ensures frees { self.old.elements ≡ [] → self.new.capacity ≡ 0 }
    {
        self.items.shrink_to_fit();
    }

    /// Like [`VecSet::shrink_to_fit`], but keeps a capacity of `min_capacity`. A smaller capacity stays as it is.
    ///
    /// # Examples
    ///
    /// ```
    /// let mut set: VecSet<u32> = VecSet::with_capacity(alloc, 10)?;
    /// set.insert(1)?;
    /// set.shrink_to(4);
    /// 4 <= set.capacity() // true
    /// ```
    pub fn shrink_to(&mut self, min_capacity: usize)
        ensures list { self.new.elements ≡ self.old.elements }
        ensures distinct { IsDistinct T.eq self.new.elements }
        ensures within_capacity { length self.old.elements ≤ self.new.capacity }
        ensures capacity { self.new.capacity ≤ self.old.capacity }
        ensures limit { min min_capacity self.old.capacity ≤ self.new.capacity }
    {
        self.items.shrink_to(min_capacity);
    }

    // Returns `true` if the spare capacity suffices for `additional` more elements.
    fn has_room(&self, additional: usize) -> bool
        ensures room { IsTrue result ↔ HasRoom self.now additional }
        ensures within_capacity { HasRoom self.now 0 }
    {
        additional <= self.items.capacity() - self.items.len()
    }
}
