//! Calls that create a map, and calls that return its slice, its vector or its allocator.
ghost use Rattle.std.specs.Prelude.{◌≡◌, ◌≤◌, Bool, IfOk, IsOk, [], vec_capacity};
ghost use Rattle.vecmap_base.specs.Pairs.{HasDistinctKeys};

use crate::VecMap;
use std::alloc::{AllocError, Global};
use std::default::{Emptied, MadeWith};

impl<K, V> VecMap<K, V> {
    /// Creates an empty map. Does not allocate.
    ///
    /// # Examples
    ///
    /// ```
    /// let map: VecMap<char, u32> = VecMap::new(alloc);
    /// (map.len(), map.capacity()) // (0, 0)
    /// ```
    #[tactic(auto, using(vecmap_base::proofs::DistinctLemmas::distinct_none))]
    pub fn new(alloc: Global) -> VecMap<K, V>
        ensures list { result.entries ≡ [] }
        ensures distinct { (eq : K → K → Bool) → HasDistinctKeys eq result.entries }
        ensures capacity { result.capacity ≡ 0 }
    {
        VecMap {
            pairs: Vec::new(alloc),
        }
    }

    /// Creates an empty map with capacity for at least `capacity` pairs.
    ///
    /// If `capacity` is 0, the call succeeds and does not allocate.
    ///
    /// # Errors
    ///
    /// [`AllocError`] if allocation fails, or if the pairs would take more than `isize::MAX` bytes; no map is created.
    ///
    /// # Complexity
    ///
    /// At most one allocation.
    ///
    /// # Examples
    ///
    /// ```
    /// let map: VecMap<char, u32> = VecMap::with_capacity(alloc, 4)?;
    /// map.is_empty() // true
    /// 4 <= map.capacity() // true
    /// ```
    #[tactic(auto, using(vecmap_base::proofs::DistinctLemmas::distinct_none))]
    pub fn with_capacity(alloc: Global, capacity: usize) -> Result<VecMap<K, V>, AllocError>
        ensures list { IfOk result (λ map. map.entries ≡ []) }
        ensures distinct { IfOk result (λ map. (eq : K → K → Bool)
            → HasDistinctKeys eq map.entries) }
        ensures at_least { IfOk result (λ map. capacity ≤ map.capacity) }
        ensures capacity { capacity ≡ 0 → IfOk result (λ map. map.capacity ≡ 0) }
        ensures succeeds { capacity ≡ 0 → IsOk result }
    {
        Ok(VecMap {
            pairs: Vec::with_capacity(alloc, capacity)?,
        })
    }

    /// Returns the pairs in order, as a slice.
    ///
    /// `==` of two slices depends on the order, and `==` of two maps does not.
    ///
    /// # Examples
    ///
    /// ```
    /// let map = vecmap!(alloc; 'a' => 1, 'b' => 2);
    /// map.as_slice() // [('a', 1), ('b', 2)]
    /// ```
    pub fn as_slice(&self) -> &[(K, V)]
        ensures list { result.now ≡ self.now.entries }
        ensures distinct { (eq : K → K → Bool) → HasDistinctKeys eq self.now.entries
            → HasDistinctKeys eq result.now }
    {
        self.pairs.as_slice()
    }

    /// Returns the pairs in order, in the vector that held them.
    ///
    /// # Examples
    ///
    /// ```
    /// let map = vecmap!(alloc; 'a' => 1, 'b' => 2);
    /// map.into_vec().as_slice() // [('a', 1), ('b', 2)]
    /// ```
    pub fn into_vec(self) -> Vec<(K, V)>
        ensures list { result.items ≡ self.entries }
        ensures distinct { (eq : K → K → Bool) → HasDistinctKeys eq self.entries
            → HasDistinctKeys eq result.items }
        ensures capacity { vec_capacity result ≡ self.capacity }
    {
        let VecMap { pairs } = self;
        pairs
    }

    /// Returns the allocator of the map.
    ///
    /// # Examples
    ///
    /// ```
    /// let names: VecMap<String, u32> = VecMap::new(alloc);
    /// String::from_str(*names.allocator(), "a")?.as_str() // "a"
    /// ```
    pub fn allocator(&self) -> &Global {
        self.pairs.allocator()
    }
}

/// Creates the empty map that `or_default` inserts if the values of a map are maps.
///
/// # Examples
///
/// ```
/// let mut shelves: VecMap<char, VecMap<u32, u32>> = VecMap::new(alloc);
/// shelves.entry('a').or_default()?.insert(1, 10)?;
/// shelves.get(&'a').and_then(|shelf| shelf.get(&1)) // Some(&10)
/// ```
impl<K, V> MadeWith<Global> for VecMap<K, V> {
    ghost is_made_with = { λ map. (map.entries ≡ []) × (map.capacity ≡ 0) };

    fn made_with(alloc: Global) -> VecMap<K, V> {
        VecMap::new(alloc)
    }
}

/// Creates the empty map that `mem::try_take` leaves behind.
///
/// # Examples
///
/// ```
/// let mut map = vecmap!(alloc; 'a' => 1, 'b' => 2);
/// let taken = mem::try_take(&mut map)?;
/// taken.as_slice() // [('a', 1), ('b', 2)]
/// map.as_slice() // []
/// ```
impl<K, V> Emptied for VecMap<K, V> {
    ghost is_emptied = { λ map. (map.entries ≡ []) × (map.capacity ≡ 0) };

    fn emptied(like: &VecMap<K, V>) -> Result<VecMap<K, V>, AllocError> {
        Ok(VecMap::new(*like.allocator()))
    }
}
