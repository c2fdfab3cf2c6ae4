//! Clones of a map, by a call and by the trait `Clone`, for generic code, derives and maps in maps.
ghost use Rattle.std.specs.Prelude.{IfOk};
ghost use Rattle.vecmap_base.specs.Clones.{ArePairClones};
ghost use Rattle.vecmap_map.specs.MapBulk.{CopiesPairs};

use crate::VecMap;
use std::alloc::AllocError;

impl<K, V> VecMap<K, V> {
    /// Returns a map of clones of the pairs, in order.
    ///
    /// If each clone is the same as its original, as of numbers, the map has the same list (`copy.same`).
    ///
    /// # Errors
    ///
    /// [`AllocError`] if allocation fails, or if the clone of a key or a value fails; no map is created.
    ///
    /// # Complexity
    ///
    /// One clone of each key and of each value, one allocation for the pairs, and no comparisons.
    ///
    /// # Examples
    ///
    /// ```
    /// let map = vecmap!(alloc; 'a' => 1, 'b' => 2);
    /// let mut copy = map.clone()?;
    /// copy.insert('c', 3)?;
    /// (map.len(), copy.len()) // (2, 3)
    /// ```
    pub fn clone(&self) -> Result<VecMap<K, V>, AllocError>
    where
        K: Clone,
        V: Clone,
        ensures copy { IfOk result (λ map. CopiesPairs K.is_clone V.is_clone self.now.entries
            map.entries) }
    {
        Ok(VecMap {
            pairs: self.to_vec()?,
        })
    }
}

/// Clones a map pair by pair, in order, like the inherent [`VecMap::clone`].
///
/// So a map can be a value of a map that is cloned, a field under `#[derive(Clone)]`, and a value of a run of commands.
///
/// # Errors
///
/// [`AllocError`] if allocation fails, or if the clone of a key or a value fails; the map is then unchanged.
///
/// # Complexity
///
/// One clone of each key and of each value, one allocation for the pairs, and no comparisons.
///
/// # Examples
///
/// ```
/// let rooms = vecmap!(alloc; 'a' => vecmap!(alloc; 1 => 10));
/// let mut copy = rooms.clone()?;
/// copy.entry('a').or_default()?.insert(2, 20)?;
/// (rooms.get(&'a').map(VecMap::len), copy.get(&'a').map(VecMap::len)) // (Some(1), Some(2))
/// ```
impl<K: Clone, V: Clone> Clone for VecMap<K, V> {
    ghost is_clone = { λ map copy. ArePairClones K.is_clone V.is_clone map.entries copy.entries };

    fn clone(&self) -> Result<VecMap<K, V>, AllocError> {
        VecMap::clone(self)
    }
}
