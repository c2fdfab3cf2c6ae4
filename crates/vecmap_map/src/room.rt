//! The number of pairs, and the capacity.
ghost use Rattle.std.specs.Prelude.{◌≡◌, ◌<◌, ◌==◌, ◌^◌, ◌↔◌, ◌≤◌, Bool, IsTrue, [], length, min};
ghost use Rattle.vecmap_base.specs.Pairs.{HasDistinctKeys};
ghost use Rattle.vecmap_map.specs.Contents.{HasRoom, Reserves};

use crate::VecMap;
use std::alloc::AllocError;
use std::collections::TryReserveError;

impl<K, V> VecMap<K, V> {
    /// Returns the number of pairs.
    ///
    /// # Examples
    ///
    /// ```
    /// let map = vecmap!(alloc; 'a' => 1, 'b' => 2);
    /// map.len() // 2
    /// ```
    pub fn len(&self) -> usize
        ensures count { result ≡ length self.now.entries }
        ensures within_capacity { result ≤ self.now.capacity }
        ensures countable { result < 2 ^ 63 }
    {
        self.pairs.len()
    }

    /// Returns `true` if the map has no pairs.
    ///
    /// # Examples
    ///
    /// ```
    /// let map = vecmap!(alloc; 'a' => 1, 'b' => 2);
    /// map.is_empty() // false
    /// ```
    pub fn is_empty(&self) -> bool
        ensures { result ≡ (length self.now.entries == 0) }
    {
        self.pairs.is_empty()
    }

    /// Returns the number of pairs that fit before the vector has to grow.
    ///
    /// # Examples
    ///
    /// ```
    /// let map: VecMap<char, u32> = VecMap::with_capacity(alloc, 4)?;
    /// 4 <= map.capacity() // true
    /// ```
    pub fn capacity(&self) -> usize
        ensures { result ≡ self.now.capacity }
    {
        self.pairs.capacity()
    }

    /// Reserves capacity for at least `additional` more pairs.
    ///
    /// The call reserves a surplus, so that a series of insertions seldom allocates. If the spare capacity is already
    /// enough, it succeeds and the capacity stays. Otherwise all pairs may be moved.
    ///
    /// # Errors
    ///
    /// [`AllocError`] if allocation fails, or if the pairs would take more than `isize::MAX` bytes; the map is then
    /// unchanged.
    ///
    /// # Complexity
    ///
    /// At most one allocation, which may move all pairs.
    ///
    /// # Examples
    ///
    /// ```
    /// let mut map = vecmap!(alloc; 'a' => 1, 'b' => 2);
    /// map.reserve(10)?;
    /// 12 <= map.capacity() // true
    /// ```
    pub fn reserve(&mut self, additional: usize) -> Result<(), AllocError>
        ensures reserved { Reserves additional self.old result self.new }
    {
        if self.has_room(additional) {
            return Ok(());
        }
        self.pairs.reserve(additional)
    }

    /// Reserves capacity for `additional` more pairs, without the surplus that [`VecMap::reserve`] adds.
    ///
    /// The allocator may still provide more. If the spare capacity is already enough, the call succeeds and the
    /// capacity stays. Otherwise all pairs may be moved.
    ///
    /// # Errors
    ///
    /// [`AllocError`] if allocation fails, or if the pairs would take more than `isize::MAX` bytes; the map is then
    /// unchanged.
    ///
    /// # Complexity
    ///
    /// At most one allocation, which may move all pairs.
    ///
    /// # Examples
    ///
    /// ```
    /// let mut map = vecmap!(alloc; 'a' => 1, 'b' => 2);
    /// map.reserve_exact(10)?;
    /// 12 <= map.capacity() // true
    /// ```
    pub fn reserve_exact(&mut self, additional: usize) -> Result<(), AllocError>
        ensures reserved { Reserves additional self.old result self.new }
    {
        if self.has_room(additional) {
            return Ok(());
        }
        self.pairs.reserve_exact(additional)
    }

    /// Like [`VecMap::reserve`], but its error is a [`TryReserveError`], as in Rust.
    ///
    /// # Errors
    ///
    /// [`TryReserveError`] if allocation fails, or if the pairs would take more than `isize::MAX` bytes; the map is
    /// then unchanged.
    ///
    /// # Examples
    ///
    /// ```
    /// let mut map = vecmap!(alloc; 'a' => 1, 'b' => 2);
    /// map.try_reserve(10).is_ok() // true
    /// map.try_reserve(usize::MAX).is_ok() // false
    /// ```
    pub fn try_reserve(&mut self, additional: usize) -> Result<(), TryReserveError>
        ensures reserved { Reserves additional self.old result self.new }
    {
        self.reserve(additional)
    }

    /// Like [`VecMap::reserve_exact`], but its error is a [`TryReserveError`], as in Rust.
    ///
    /// # Errors
    ///
    /// [`TryReserveError`] if allocation fails, or if the pairs would take more than `isize::MAX` bytes; the map is
    /// then unchanged.
    ///
    /// # Examples
    ///
    /// ```
    /// let mut map = vecmap!(alloc; 'a' => 1, 'b' => 2);
    /// map.try_reserve_exact(10).is_ok() // true
    /// map.try_reserve_exact(usize::MAX).is_ok() // false
    /// ```
    pub fn try_reserve_exact(&mut self, additional: usize) -> Result<(), TryReserveError>
        ensures reserved { Reserves additional self.old result self.new }
    {
        self.reserve_exact(additional)
    }

    /// Reduces the capacity as much as possible.
    ///
    /// All pairs may be moved. The call never fails: if a smaller block cannot be allocated, the capacity stays. If
    /// there are no pairs, nothing is allocated, and the capacity is 0 afterwards.
    ///
    /// # Complexity
    ///
    /// At most one allocation, which may move all pairs.
    ///
    /// # Examples
    ///
    /// ```
    /// let mut map: VecMap<char, u32> = VecMap::with_capacity(alloc, 10)?;
    /// map.insert('a', 1)?;
    /// map.shrink_to_fit();
    /// map.as_slice() // [('a', 1)]
    /// 1 <= map.capacity() // true
    /// ```
    pub fn shrink_to_fit(&mut self)
        ensures list { self.new.entries ≡ self.old.entries }
        ensures distinct { (eq : K → K → Bool) → HasDistinctKeys eq self.old.entries
            → HasDistinctKeys eq self.new.entries }
        ensures within_capacity { length self.old.entries ≤ self.new.capacity }
        ensures capacity { self.new.capacity ≤ self.old.capacity }
        ensures frees { self.old.entries ≡ [] → self.new.capacity ≡ 0 }
    {
        self.pairs.shrink_to_fit();
    }

    /// Reduces the capacity to `min_capacity` or the number of pairs, whichever is greater.
    ///
    /// A smaller capacity stays as it is. All pairs may be moved. The call never fails: if a smaller block cannot be
    /// allocated, the capacity stays.
    ///
    /// # Complexity
    ///
    /// At most one allocation, which may move all pairs.
    ///
    /// # Examples
    ///
    /// ```
    /// let mut map: VecMap<char, u32> = VecMap::with_capacity(alloc, 10)?;
    /// map.insert('a', 1)?;
    /// map.shrink_to(4);
    /// 4 <= map.capacity() // true
    /// ```
    pub fn shrink_to(&mut self, min_capacity: usize)
        ensures list { self.new.entries ≡ self.old.entries }
        ensures distinct { (eq : K → K → Bool) → HasDistinctKeys eq self.old.entries
            → HasDistinctKeys eq self.new.entries }
        ensures within_capacity { length self.old.entries ≤ self.new.capacity }
        ensures capacity { self.new.capacity ≤ self.old.capacity }
        ensures limit { min min_capacity self.old.capacity ≤ self.new.capacity }
    {
        self.pairs.shrink_to(min_capacity);
    }

    // Returns `true` if `additional` more pairs fit into the spare capacity.
    fn has_room(&self, additional: usize) -> bool
        ensures room { IsTrue result ↔ HasRoom self.now additional }
        ensures within_capacity { HasRoom self.now 0 }
    {
        additional <= self.pairs.capacity() - self.pairs.len()
    }
}
