//! Entries: the value of a key can be read, written, inserted or removed after one lookup.
//!
//! An entry holds the map, the key that was passed to `entry`, and the index of that key. A clause `writes_back` says
//! what the map is once the returned reference has ended.
ghost use Rattle.std.specs.Prelude.{◌≡◌, ◌<◌, ◌^◌, ◌⊎◌, Err, IfErr, IfOk, IfSome, List, None, Ok, OnErr, Some, length, unwrap_or};
ghost use Rattle.std.specs.{Borrow.{Bor, MutBor, sem}, Fn.FnOnceReturnsAt, Map.Calls.ModifiesValue, Option.{UnwrapsOrElse, option_map_or}};
ghost use Rattle.vecmap_base.specs.{Indices.ShiftsIndices, Insertions.SetsKey, Lookups.UpdatesBy, Pairs.{HasDistinctKeys, index_of, lookup, swap_without_by, without_by}, Removals.RemovesBy};
ghost use Rattle.vecmap_map.specs.Contents.{IsFull};

mod occupied;
mod vacant;

use crate::VecMap;
pub use occupied::OccupiedEntry;
use std::alloc::Global;
use std::default::MadeWith;
pub use vacant::VacantEntry;
use vecmap_base::Refused;

/// The entry of a key in a map, which is either occupied or vacant.
///
/// # Examples
///
/// ```
/// let mut map = vecmap!(alloc; 'a' => 1, 'b' => 2);
/// matches!(map.entry('a'), Entry::Occupied(_)) // true
/// matches!(map.entry('c'), Entry::Vacant(_)) // true
/// ```
#[derive(Debug, Drop)]
pub enum Entry<'a, K, V> {
    /// An equal key is present.
    Occupied(OccupiedEntry<'a, K, V>),
    /// No equal key is present.
    Vacant(VacantEntry<'a, K, V>),
}

impl<K, V> VecMap<K, V> {
    ghost use Rattle.vecmap_map.specs.Entry.{entries_swap_without, entries_with, entries_without, entry_key, entry_map, entry_index_of, entry_ref, entry_value};

    /// Returns the entry of `key`: occupied if an equal key is present, and vacant otherwise.
    ///
    /// The call changes nothing, and neither does an entry that is only dropped.
    ///
    /// # Complexity
    ///
    /// At most `len` comparisons; the calls of the entry make none. Does not allocate.
    ///
    /// # Examples
    ///
    /// ```
    /// let mut map = vecmap!(alloc; 'a' => 1, 'b' => 2);
    /// *map.entry('a').or_insert(0)? = 6;
    /// map.as_slice() // [('a', 6), ('b', 2)]
    /// ```
    pub fn entry(&mut self, key: K) -> Entry<'_, K, V>
    where
        K: Eq,
        ensures lender { (entry_ref result).ghost_name ≡ self.entry.ghost_name }
        ensures unchanged { entry_map result ≡ self.old }
        ensures key { entry_key result ≡ key }
        ensures index { entry_index_of result ≡ index_of K.eq self.old.entries key }
        ensures value { entry_value result ≡ lookup K.eq self.old.entries key }

        // What follows for lookups, lengths and indices.
        ensures insertion { (v : V) → SetsKey K.eq self.old.entries key v
            (entries_with result v) }
        ensures without { HasDistinctKeys K.eq self.old.entries
            → UpdatesBy K.eq (K.eq key) self.old.entries (entries_without result) None }
        ensures swap_without { HasDistinctKeys K.eq self.old.entries
            → UpdatesBy K.eq (K.eq key) self.old.entries (entries_swap_without result) None }
        ensures removal { (m : List (K × V)) → m ≡ entries_without result
            → RemovesBy K.eq without_by (K.eq key) self.old.entries m
            × IfSome (index_of K.eq self.old.entries key) (λ i. ShiftsIndices i self.old.entries m) }
        ensures swap_removal { (m : List (K × V)) → m ≡ entries_swap_without result
            → RemovesBy K.eq swap_without_by (K.eq key) self.old.entries m }
    {
        Entry::over(self, key)
    }
}

impl<'a, K, V> Entry<'a, K, V> {
    ghost use Rattle.vecmap_map.specs.Entry.{IsInserted, LeavesSame, RefusesMade, entries_with, entry_index, entry_key, entry_map, entry_index_of, entry_ref, entry_value};
    ghost use Rattle.vecmap_map.specs.EntryLends.{entry_lends, entry_lends_or_stays, entry_passes};

    /// Inserts `value` if the key has no value, and returns a mutable reference to the value of the key.
    ///
    /// An existing value stays, and `value` and the passed key are dropped. Otherwise the passed key and `value` are
    /// appended.
    ///
    /// # Errors
    ///
    /// [`Refused`] returns the pair if the map is full and allocation fails; the map is then unchanged.
    ///
    /// # Complexity
    ///
    /// Allocates only for a new key in a full map.
    ///
    /// # Examples
    ///
    /// ```
    /// let mut map = vecmap!(alloc; 'a' => 1, 'b' => 2);
    /// *map.entry('a').or_insert(3)? // 1
    /// *map.entry('c').or_insert(3)? // 3
    /// ```
    pub fn or_insert(self, value: V) -> Result<&'a mut V, Refused<(K, V)>>
    where
        K: Drop,
        V: Drop,

        // `sem 𝓛 (..)` says what a caller knows once the returned reference has ended: here, that the map has the key
        // with the value that was last written, and is otherwise unchanged. On `Err` the whole map is unchanged.
        ensures* writes_back { sem 𝓛 (entry_lends K.row V.row self.entry result) }
        ensures value { IfOk result (λ x. x.now ≡ unwrap_or (entry_value self.entry) value) }

        // On `Err` the pair is returned.
        ensures given { IfErr result (λ refused. refused.given ≡ (entry_key self.entry, value)) }
    {
        match self {
            Entry::Occupied(occupied) => Ok(occupied.into_mut()),
            Entry::Vacant(vacant) => vacant.insert(value),
        }
    }

    /// Like [`Entry::or_insert`], but with the value that `f` returns. `f` is called only if the key has no value.
    ///
    /// # Preconditions
    ///
    /// If the key has no value, `f` can be called.
    ///
    /// # Examples
    ///
    /// ```
    /// let mut map = vecmap!(alloc; 'a' => 1, 'b' => 2);
    /// *map.entry('c').or_insert_with(|| 3)? // 3
    /// ```
    pub fn or_insert_with<F: FnOnce() -> V>(self, f: F) -> Result<&'a mut V, Refused<(K, V)>>
    where
        K: Drop,
        F: Drop,
        requires { entry_index_of self ≡ None → F.pre f }
        ensures* writes_back { sem 𝓛 (entry_lends K.row V.row self.entry result) }
        ensures value { IfOk result (λ x. UnwrapsOrElse (entry_value self.entry) (F.post f) x.now) }

        // On `Err` the pair is returned.
        ensures given_key { IfErr result (λ refused. refused.given.0 ≡ entry_key self.entry) }
        ensures given_value { IfErr result (λ refused. F.post f refused.given.1) }
    {
        match self {
            Entry::Occupied(entry) => Ok(entry.into_mut()),
            Entry::Vacant(entry) => entry.insert(f()),
        }
    }

    /// Like [`Entry::or_insert_with`], but `f` is called with a reference to the passed key.
    ///
    /// # Preconditions
    ///
    /// If the key has no value, `f` can be called with the passed key.
    ///
    /// # Examples
    ///
    /// ```
    /// let mut map = vecmap!(alloc; 'a' => 1, 'b' => 2);
    /// *map.entry('c').or_insert_with_key(|key| u32::from(*key))? // 99
    /// ```
    pub fn or_insert_with_key<F: FnOnce(&K) -> V>(self, f: F) -> Result<&'a mut V, Refused<(K, V)>>
    where
        K: Drop,
        F: Drop,
        requires { entry_index_of self ≡ None → (p : Bor K) → p.now ≡ entry_key self → F.pre f p }
        ensures* writes_back { sem 𝓛 (entry_lends K.row V.row self.entry result) }
        ensures value { IfOk result (λ x. UnwrapsOrElse (entry_value self.entry)
            (FnOnceReturnsAt F.FnOnce f (entry_key self.entry)) x.now) }

        // On `Err` the pair is returned.
        ensures given_key { IfErr result (λ refused. refused.given.0 ≡ entry_key self.entry) }
        ensures given_value { IfErr result (λ refused. FnOnceReturnsAt F.FnOnce f
            (entry_key self.entry) refused.given.1) }
    {
        match self {
            Entry::Occupied(entry) => Ok(entry.into_mut()),
            Entry::Vacant(entry) => {
                let value = f(entry.key());
                entry.insert(value)
            }
        }
    }

    /// Like [`Entry::or_insert_with`], but `f` may fail, for instance because it allocates.
    ///
    /// # Errors
    ///
    /// If `f` returns an error, the call returns that error. If the map is full and allocation fails, the [`Refused`]
    /// with the passed key and the value that `f` returned is converted to `E`. The map is unchanged in both cases.
    /// Without a new key nothing fails.
    ///
    /// # Preconditions
    ///
    /// If the key has no value, `f` can be called.
    ///
    /// # Examples
    ///
    /// ```
    /// let mut names: VecMap<u32, String> = VecMap::new(alloc);
    /// names.entry(7).or_try_insert_with(|| String::from_str(alloc, "seven"))?.as_str() // "seven"
    /// names.entry(8).or_try_insert_with(|| Err(AllocError)).is_err() // true
    /// names.len() // 1
    /// ```
    pub fn or_try_insert_with<E, F: FnOnce() -> Result<V, E>>(self, f: F) -> Result<&'a mut V, E>
    where
        K: Drop,
        E: From<Refused<(K, V)>>,
        F: Drop,
        requires { entry_index_of self ≡ None → F.pre f }
        ensures* writes_back { sem 𝓛 (entry_lends_or_stays K.row V.row self.entry result) }
        ensures value { IfOk result (λ x. UnwrapsOrElse (entry_value self.entry)
            (λ v. F.post f (Ok v)) x.now) }

        // On `Err` the key is new. Either `f` failed, or the map is full and memory ran out.
        ensures absent { OnErr result (entry_index_of self.entry ≡ None) }
        ensures err { IfErr result (λ error. F.post f (Err error) ⊎ RefusesMade
            E.from_gives (λ v. F.post f (Ok v)) self.entry error) }
    {
        match self {
            Entry::Occupied(entry) => Ok(entry.into_mut()),
            Entry::Vacant(entry) => match f() {
                Ok(value) => entry.insert_or_convert(value),
                Err(error) => {
                    // Ends the borrow of the map, for the proof.
                    let _map = entry.map;
                    Err(error)
                }
            },
        }
    }

    /// Like [`Entry::or_insert`], but with the default of the type, or with an empty collection on the allocator of the
    /// map.
    ///
    /// A `Vec`, a `String`, a collection of std, a `VecMap` or a `VecSet` is created empty.
    ///
    /// # Errors
    ///
    /// [`Refused`] returns the passed key and the new value if the map is full and allocation fails; the map is then
    /// unchanged.
    ///
    /// # Examples
    ///
    /// ```
    /// let mut map = vecmap!(alloc; 'a' => 1, 'b' => 2);
    /// *map.entry('c').or_default()? // 0
    /// let mut lists: VecMap<char, Vec<u32>> = VecMap::new(alloc);
    /// lists.entry('c').or_default()?.push(1)?;
    /// lists.get(&'c').map(Vec::as_slice) // Some([1])
    /// ```
    pub fn or_default(self) -> Result<&'a mut V, Refused<(K, V)>>
    where
        K: Drop,
        V: MadeWith<Global>,
        ensures* writes_back { sem 𝓛 (entry_lends K.row V.row self.entry result) }
        ensures value { IfOk result (λ x. UnwrapsOrElse
            (entry_value self.entry) V.is_made_with x.now) }

        // On `Err` the pair is returned.
        ensures given_key { IfErr result (λ refused. refused.given.0 ≡ entry_key self.entry) }
        ensures given_value { IfErr result (λ refused. V.is_made_with refused.given.1) }
    {
        match self {
            Entry::Occupied(entry) => Ok(entry.into_mut()),
            Entry::Vacant(entry) => {
                let empty = V::made_with(*entry.map.allocator());
                entry.insert(empty)
            }
        }
    }

    /// Returns the key that was passed to [`VecMap::entry`], also if an equal one is stored.
    ///
    /// # Examples
    ///
    /// ```
    /// let mut map = vecmap!(alloc; 'a' => 1, 'b' => 2);
    /// *map.entry('c').key() // 'c'
    /// ```
    pub fn key(&self) -> &K
        ensures { result.now ≡ entry_key self.now }
    {
        match self {
            Entry::Occupied(entry) => entry.key(),
            Entry::Vacant(entry) => entry.key(),
        }
    }

    /// Returns the index of the key, or the number of pairs if the key is not present.
    ///
    /// # Examples
    ///
    /// ```
    /// let mut map = vecmap!(alloc; 'a' => 1, 'b' => 2);
    /// map.entry('b').index() // 1
    /// map.entry('c').index() // 2
    /// ```
    pub fn index(&self) -> usize
        ensures index { result ≡ entry_index self.now }
        ensures countable { result < 2 ^ 63 }
    {
        match self {
            Entry::Occupied(entry) => entry.index(),
            Entry::Vacant(entry) => entry.index(),
        }
    }

    /// Calls `f` with a mutable reference to the value of the key, if it has one, and returns the entry.
    ///
    /// # Preconditions
    ///
    /// If the key has a value, `f` can be called with it.
    ///
    /// # Examples
    ///
    /// ```
    /// let mut map = vecmap!(alloc; 'a' => 1, 'b' => 2);
    /// *map.entry('a').and_modify(|value| *value = 9).or_insert(0)? // 9
    /// *map.entry('c').and_modify(|value| *value = 9).or_insert(0)? // 0
    /// ```
    pub fn and_modify<F: FnOnce(&mut V)>(self, f: F) -> Entry<'a, K, V>
    where
        F: Drop,
        requires { (p : MutBor V) → entry_value self ≡ Some p.now → F.pre f p }
        ensures lender { (entry_ref result).ghost_name ≡ (entry_ref self.entry).ghost_name }
        ensures key { entry_key result ≡ entry_key self.entry }
        ensures index { entry_index_of result ≡ entry_index_of self.entry }
        ensures update { ModifiesValue F.FnOnce f (entry_value self.entry) (entry_value result) }
        ensures list { (entry_map result).entries
            ≡ option_map_or (entries_with self.entry) (entry_value result)
            (entry_map self.entry).entries }
        ensures capacity { (entry_map result).capacity ≡ (entry_map self.entry).capacity }
        ensures later { LeavesSame self.entry result }
    {
        match self {
            Entry::Occupied(mut entry) => {
                f(entry.get_mut());
                Entry::Occupied(entry)
            }
            Entry::Vacant(entry) => Entry::Vacant(entry),
        }
    }

    /// Sets the value of the key, and returns its entry.
    ///
    /// If the key has a value, only that value is replaced, and the call never fails. Otherwise a clone of the passed
    /// key is appended with `value`, and the entry keeps the passed key.
    ///
    /// # Errors
    ///
    /// [`Refused`] returns the passed key and `value` if the clone fails, or if the map is full and allocation fails;
    /// the map is then unchanged.
    ///
    /// # Complexity
    ///
    /// One clone of a new key. Allocates for the pair only if the key is new and the map is full.
    ///
    /// # Examples
    ///
    /// ```
    /// let mut map = vecmap!(alloc; 'a' => 1, 'b' => 2);
    /// map.entry('c').insert_entry(3)?.index() // 2
    /// map.as_slice() // [('a', 1), ('b', 2), ('c', 3)]
    /// ```
    pub fn insert_entry(self, value: V) -> Result<OccupiedEntry<'a, K, V>, Refused<(K, V)>>
    where
        K: Clone,
        V: Drop,
        ensures inserted { IfOk result (IsInserted K.is_clone self.entry value) }

        // On `Err` the pair is returned, and its key is new. If its clone cannot fail, the map is full.
        ensures* err { sem 𝓛 (entry_passes K.row V.row self.entry result) }
        ensures given { IfErr result (λ refused. refused.given ≡ (entry_key self.entry, value)) }
        ensures absent { OnErr result (entry_index_of self.entry ≡ None) }
        ensures full { K.is_infallible (entry_key self.entry)
            → OnErr result (IsFull (entry_map self.entry)) }
    {
        match self {
            Entry::Occupied(entry) => entry.into_inserted(value),
            Entry::Vacant(entry) => entry.insert_entry(value),
        }
    }

    /// Creates the entry of `key` in `map`.
    ///
    /// [`VecMap::entry`] is the usual call, and calls it. This one is for callers that create an entry by its type, as
    /// they create iterators by `over`.
    ///
    /// # Complexity
    ///
    /// At most `len` comparisons; the calls of the entry make none. Does not allocate.
    ///
    /// # Examples
    ///
    /// ```
    /// let mut map = vecmap!(alloc; 'a' => 1, 'b' => 2);
    /// Entry::over(&mut map, 'b').index() // 1
    /// ```
    pub fn over(map: &'a mut VecMap<K, V>, key: K) -> Entry<'a, K, V>
    where
        K: Eq,
        ensures lender { (entry_ref result).ghost_name ≡ map.entry.ghost_name }
        ensures unchanged { entry_map result ≡ map.old }
        ensures key { entry_key result ≡ key }
        ensures index { entry_index_of result ≡ index_of K.eq map.old.entries key }
    {
        let found = map.get_index_of(&key);
        Entry::at(map, key, found)
    }

    // Creates the entry of `key`, which is at the index `found`, if at any.
    #[inline]
    pub(crate) fn at(map: &'a mut VecMap<K, V>, key: K, found: Option<usize>) -> Entry<'a, K, V>
        requires within { IfSome found (λ i. i < length map.old.entries) }
        ensures lender { (entry_ref result).ghost_name ≡ map.entry.ghost_name }
        ensures unchanged { entry_map result ≡ map.old }
        ensures key { entry_key result ≡ key }
        ensures index { entry_index_of result ≡ found }
    {
        match found {
            Some(index) => Entry::Occupied(OccupiedEntry { map, key, index }),
            None => Entry::Vacant(VacantEntry { map, key }),
        }
    }
}
