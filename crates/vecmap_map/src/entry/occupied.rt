//! The entry of a key that is present.
ghost use Rattle.std.specs.{Prelude.{◌≡◌, ◌<◌, ◌^◌, IfOk, IsOk, Some, length}, Borrow.sem};

use crate::VecMap;
use std::mem::replace;
use vecmap_base::Refused;

/// The entry of a key that is present, with the key that was passed to [`VecMap::entry`].
///
/// None of its calls allocates.
#[derive(Debug, Drop)]
pub struct OccupiedEntry<'a, K, V> {
    pub(super) map: &'a mut VecMap<K, V>,
    pub(super) key: K,
    pub(super) index: usize,
    ghost within: { index < length map.now.entries },
}

impl<'a, K, V> OccupiedEntry<'a, K, V> {
    ghost use Rattle.vecmap_map.specs.declared.entry.Entry.TheVariants.{Occupied};
    ghost use Rattle.vecmap_map.specs.Entry.{IsInserted, LeavesSame, entries_swap_without, entries_without, entry_index, entry_key, entry_map, entry_pair, entry_value, occupied_with};
    ghost use Rattle.vecmap_map.specs.EntryLends.{entry_passes, occupied_lends, occupied_lends_on};

    /// Returns the key that was passed to [`VecMap::entry`].
    ///
    /// The stored key is equal to it, but need not be identical.
    ///
    /// # Examples
    ///
    /// ```
    /// let mut map = vecmap!(alloc; 'a' => 1, 'b' => 2);
    /// let entry = map.entry('a').insert_entry(3)?;
    /// *entry.key() // 'a'
    /// ```
    pub fn key(&self) -> &K
        ensures { result.now ≡ entry_key (Occupied self.now) }
    {
        &self.key
    }

    /// Returns the index of the key.
    ///
    /// # Examples
    ///
    /// ```
    /// let mut map = vecmap!(alloc; 'a' => 1, 'b' => 2);
    /// let entry = map.entry('b').insert_entry(3)?;
    /// entry.index() // 1
    /// ```
    pub fn index(&self) -> usize
        ensures index { result ≡ entry_index (Occupied self.now) }
        ensures countable { result < 2 ^ 63 }
    {
        let _len = self.map.len(); // Bounds the index.
        self.index
    }

    /// Converts the entry into the key that was passed to [`VecMap::entry`]. The map stays as it is.
    ///
    /// # Examples
    ///
    /// ```
    /// let mut map = vecmap!(alloc; 'a' => 1, 'b' => 2);
    /// let entry = map.entry('b').insert_entry(3)?;
    /// entry.into_key() // 'b'
    /// ```
    pub fn into_key(self) -> K
        ensures key { result ≡ entry_key (Occupied self.entry) }
        ensures unchanged { self.exit.0.now ≡ entry_map (Occupied self.entry) }
    {
        self.key
    }

    /// Returns the value of the key.
    ///
    /// # Examples
    ///
    /// ```
    /// let mut map = vecmap!(alloc; 'a' => 1, 'b' => 2);
    /// let entry = map.entry('b').insert_entry(3)?;
    /// *entry.get() // 3
    /// ```
    pub fn get(&self) -> &V
        ensures { entry_value (Occupied self.now) ≡ Some result.now }
    {
        &self.map[self.index]
    }

    /// Returns a mutable reference to the value of the key.
    ///
    /// After a write, the entry is the same, with the new value. A later write or removal through it leaves what it
    /// would have left without that write.
    ///
    /// # Examples
    ///
    /// ```
    /// let mut map = vecmap!(alloc; 'a' => 1, 'b' => 2);
    /// let mut entry = map.entry('b').insert_entry(3)?;
    /// *entry.get_mut() = 4;
    /// *entry.get() // 4
    /// ```
    pub fn get_mut(&mut self) -> &mut V
        ensures* writes_back { sem 𝓛 (occupied_lends K.row V.row self.entry result) }
        ensures value { entry_value (Occupied self.old) ≡ Some result.now }
        ensures later { (written : V)
            → LeavesSame (Occupied self.old) (Occupied (occupied_with self.old written)) }
    {
        let index = self.index;
        self.map.value_mut(index)
    }

    /// Converts the entry into a mutable reference to the value, which lives as long as the borrow of the map.
    ///
    /// # Examples
    ///
    /// ```
    /// let mut map = vecmap!(alloc; 'a' => 1, 'b' => 2);
    /// let entry = map.entry('b').insert_entry(3)?;
    /// *entry.into_mut() = 4;
    /// map.as_slice() // [('a', 1), ('b', 4)]
    /// ```
    pub fn into_mut(self) -> &'a mut V
    where
        K: Drop,
        ensures* writes_back { sem 𝓛 (occupied_lends_on K.row V.row self.entry result) }
        ensures value { entry_value (Occupied self.entry) ≡ Some result.now }
    {
        let OccupiedEntry { map, key: _, index } = self;
        map.value_mut(index)
    }

    /// Replaces the value of the key, and returns the old value.
    ///
    /// The stored key stays, and so does the passed key.
    ///
    /// # Examples
    ///
    /// ```
    /// let mut map = vecmap!(alloc; 'a' => 1, 'b' => 2);
    /// let mut entry = map.entry('b').insert_entry(3)?;
    /// entry.insert(4) // 3
    /// *entry.get() // 4
    /// ```
    pub fn insert(&mut self, value: V) -> V
        ensures returned { entry_value (Occupied self.old) ≡ Some result }
        ensures after { self.new ≡ occupied_with self.old value }
        ensures later { LeavesSame (Occupied self.old) (Occupied self.new) }
    {
        replace(self.get_mut(), value)
    }

    /// Removes the pair of the key and returns it with the stored key; the other pairs keep their order.
    ///
    /// The index of each later pair decreases by one.
    ///
    /// # Complexity
    ///
    /// One move for each pair that changes its index.
    ///
    /// # Examples
    ///
    /// ```
    /// let mut map = vecmap!(alloc; 'a' => 1, 'b' => 2, 'c' => 3);
    /// let entry = map.entry('a').insert_entry(4)?;
    /// entry.remove_entry() // ('a', 4)
    /// map.as_slice() // [('b', 2), ('c', 3)]
    /// ```
    pub fn remove_entry(self) -> (K, V)
    where
        K: Drop,
        ensures item { entry_pair (Occupied self.entry) ≡ Some result }
        ensures list { self.exit.0.now.entries ≡ entries_without (Occupied self.entry) }
        ensures capacity { self.exit.0.now.capacity ≡ (entry_map (Occupied self.entry)).capacity }
    {
        let index = self.index;
        let _key = self.key;
        self.map.remove_index(index)
    }

    /// Like [`OccupiedEntry::remove_entry`], but the last pair moves to the index of the removed one.
    ///
    /// # Complexity
    ///
    /// One move.
    ///
    /// # Examples
    ///
    /// ```
    /// let mut map = vecmap!(alloc; 'a' => 1, 'b' => 2, 'c' => 3);
    /// let entry = map.entry('a').insert_entry(4)?;
    /// entry.swap_remove_entry() // ('a', 4)
    /// map.as_slice() // [('c', 3), ('b', 2)]
    /// ```
    pub fn swap_remove_entry(self) -> (K, V)
    where
        K: Drop,
        ensures item { entry_pair (Occupied self.entry) ≡ Some result }
        ensures list { self.exit.0.now.entries ≡ entries_swap_without (Occupied self.entry) }
        ensures capacity { self.exit.0.now.capacity ≡ (entry_map (Occupied self.entry)).capacity }
    {
        let index = self.index;
        let _key = self.key;
        self.map.swap_remove_index(index)
    }

    /// Like [`OccupiedEntry::remove_entry`], but returns only the value.
    ///
    /// # Examples
    ///
    /// ```
    /// let mut map = vecmap!(alloc; 'a' => 1, 'b' => 2, 'c' => 3);
    /// let entry = map.entry('a').insert_entry(4)?;
    /// entry.remove() // 4
    /// ```
    pub fn remove(self) -> V
    where
        K: Drop,
        ensures returned { entry_value (Occupied self.entry) ≡ Some result }
        ensures list { self.exit.0.now.entries ≡ entries_without (Occupied self.entry) }
        ensures capacity { self.exit.0.now.capacity ≡ (entry_map (Occupied self.entry)).capacity }
    {
        let (_key, value) = self.remove_entry();
        value
    }

    /// Like [`OccupiedEntry::swap_remove_entry`], but returns only the value.
    ///
    /// # Examples
    ///
    /// ```
    /// let mut map = vecmap!(alloc; 'a' => 1, 'b' => 2, 'c' => 3);
    /// let entry = map.entry('a').insert_entry(4)?;
    /// entry.swap_remove() // 4
    /// map.as_slice() // [('c', 3), ('b', 2)]
    /// ```
    pub fn swap_remove(self) -> V
    where
        K: Drop,
        ensures returned { entry_value (Occupied self.entry) ≡ Some result }
        ensures list { self.exit.0.now.entries ≡ entries_swap_without (Occupied self.entry) }
        ensures capacity { self.exit.0.now.capacity ≡ (entry_map (Occupied self.entry)).capacity }
    {
        let (_key, value) = self.swap_remove_entry();
        value
    }

    // Replaces the value, and returns the entry. It never fails.
    pub(super) fn into_inserted(self, value: V) -> Result<OccupiedEntry<'a, K, V>, Refused<(K, V)>>
    where
        K: Clone,
        V: Drop,
        ensures* err { sem 𝓛 (entry_passes K.row V.row (Occupied self.entry) result) }
        ensures inserted { IfOk result (IsInserted K.is_clone (Occupied self.entry) value) }
        ensures succeeds { IsOk result }
    {
        let OccupiedEntry { map, key, index } = self;
        *map.value_mut(index) = value;
        Ok(OccupiedEntry { map, key, index })
    }
}
