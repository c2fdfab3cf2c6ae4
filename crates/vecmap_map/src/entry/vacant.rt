//! The entry of a key that is not present.
ghost use Rattle.std.specs.{Prelude.{◌≡◌, ◌<◌, ◌^◌, IfErr, IfOk, OnErr}, Borrow.sem};
ghost use Rattle.vecmap_map.specs.Contents.{IsFull};

use super::OccupiedEntry;
use crate::VecMap;
use vecmap_base::Refused;

/// The entry of a key that is not present, with the key that was passed to [`VecMap::entry`].
#[derive(Debug, Drop)]
pub struct VacantEntry<'a, K, V> {
    pub(super) map: &'a mut VecMap<K, V>,
    pub(super) key: K,
}

impl<'a, K, V> VacantEntry<'a, K, V> {
    ghost use Rattle.vecmap_map.specs.{declared.entry.Entry.TheVariants.Vacant, Entry.{IsInserted, entry_index, entry_key, entry_map}};
    ghost use Rattle.vecmap_map.specs.EntryLends.{entry_lends, entry_passes};

    /// Returns the key that was passed to [`VecMap::entry`].
    ///
    /// # Examples
    ///
    /// ```
    /// let mut map = vecmap!(alloc; 'a' => 1, 'b' => 2);
    /// matches!(map.entry('c'), Entry::Vacant(entry) if *entry.key() == 'c') // true
    /// ```
    pub fn key(&self) -> &K
        ensures { result.now ≡ entry_key (Vacant self.now) }
    {
        &self.key
    }

    /// Returns the index that the key would get, which is the number of pairs.
    ///
    /// # Examples
    ///
    /// ```
    /// let mut map = vecmap!(alloc; 'a' => 1, 'b' => 2);
    /// matches!(map.entry('c'), Entry::Vacant(entry) if entry.index() == 2) // true
    /// ```
    pub fn index(&self) -> usize
        ensures index { result ≡ entry_index (Vacant self.now) }
        ensures countable { result < 2 ^ 63 }
    {
        self.map.len()
    }

    /// Converts the entry into the key that was passed to [`VecMap::entry`]. The map stays as it is.
    ///
    /// # Examples
    ///
    /// ```
    /// let mut map = vecmap!(alloc; 'a' => 1, 'b' => 2);
    /// let key = match map.entry('c') {
    ///     Entry::Vacant(entry) => entry.into_key(),
    ///     Entry::Occupied(entry) => entry.into_key(),
    /// };
    /// key // 'c'
    /// ```
    pub fn into_key(self) -> K
        ensures key { result ≡ entry_key (Vacant self.entry) }
        ensures unchanged { self.exit.0.now ≡ entry_map (Vacant self.entry) }
    {
        self.key
    }

    /// Appends the passed key with `value`, and returns a mutable reference to the value.
    ///
    /// # Errors
    ///
    /// [`Refused`] returns the pair if the map is full and allocation fails; the map is then unchanged.
    ///
    /// # Complexity
    ///
    /// Allocates only if the map is full.
    ///
    /// # Examples
    ///
    /// ```
    /// let mut map = vecmap!(alloc; 'a' => 1, 'b' => 2);
    /// if let Entry::Vacant(entry) = map.entry('c') {
    ///     *entry.insert(3)? = 4;
    /// }
    /// map.as_slice() // [('a', 1), ('b', 2), ('c', 4)]
    /// ```
    pub fn insert(self, value: V) -> Result<&'a mut V, Refused<(K, V)>>
        ensures* writes_back { sem 𝓛 (entry_lends K.row V.row (Vacant self.entry) result) }
        ensures value { IfOk result (λ x. x.now ≡ value) }

        // On `Err` the pair is returned.
        ensures given { IfErr result (λ refused. refused.given ≡ (self.entry.key, value)) }
    {
        let VacantEntry { map, key } = self;
        let index = map.len();
        match map.push(key, value) {
            Ok(()) => Ok(map.value_mut(index)),
            Err(refused) => Err(refused),
        }
    }

    // Like `insert`, but converts the error.
    pub(super) fn insert_or_convert<E: From<Refused<(K, V)>>>(
        self,
        value: V,
    ) -> Result<&'a mut V, E>
        ensures* writes_back { sem 𝓛 (entry_lends K.row V.row (Vacant self.entry) result) }
        ensures value { IfOk result (λ x. x.now ≡ value) }
        ensures err { IfErr result (λ error. IsFull self.entry.map.now
            × E.from_gives (record { given = (self.entry.key, value) }) error) }
    {
        let VacantEntry { map, key } = self;
        let last = map.len();
        match map.push(key, value) {
            Ok(()) => Ok(map.value_mut(last)),
            Err(refused) => Err(E::from(refused)),
        }
    }

    /// Appends a clone of the passed key with `value`, and returns the entry of the key.
    ///
    /// The entry keeps the passed key. The clone is made first.
    ///
    /// # Errors
    ///
    /// [`Refused`] returns the passed key and `value` if the clone fails, or if the map is full and allocation fails;
    /// the map is then unchanged.
    ///
    /// # Complexity
    ///
    /// One clone of the key. Allocates for the pair only if the map is full.
    ///
    /// # Examples
    ///
    /// ```
    /// let mut map = vecmap!(alloc; 'a' => 1, 'b' => 2);
    /// if let Entry::Vacant(entry) = map.entry('c') {
    ///     entry.insert_entry(3)?.insert(4);
    /// }
    /// map.as_slice() // [('a', 1), ('b', 2), ('c', 4)]
    /// ```
    pub fn insert_entry(self, value: V) -> Result<OccupiedEntry<'a, K, V>, Refused<(K, V)>>
    where
        K: Clone,
        ensures inserted { IfOk result (IsInserted K.is_clone (Vacant self.entry) value) }

        // On `Err` the pair is returned. If the clone of the key cannot fail, the map is full.
        ensures* err { sem 𝓛 (entry_passes K.row V.row (Vacant self.entry) result) }
        ensures given { IfErr result (λ refused. refused.given ≡ (self.entry.key, value)) }
        ensures full { K.is_infallible self.entry.key → OnErr result (IsFull self.entry.map.now) }
    {
        let VacantEntry { map, key } = self;
        let Ok(stored) = key.clone() else {
            return Err(Refused {
                given: (key, value),
            });
        };
        let index = map.len();
        match map.push(stored, value) {
            Ok(()) => Ok(OccupiedEntry { map, key, index }),
            Err(refused) => {
                let (_stored, value) = refused.given;
                Err(Refused {
                    given: (key, value),
                })
            }
        }
    }
}
