//! Insertion of one pair.
ghost use Rattle.std.specs.Prelude.{◌≡◌, ◌^◌, ◌++◌, ◌∷◌, ◌<◌, ◌≤◌, Err, IfErr, IfOk, IfSome, IsTrue, None, Ok, OnErr, OnOk, Some, [], length};
ghost use Rattle.vecmap_base.specs.{Indices.HasMatchAt, Insertions.{AddsKey, InsertsAt, PutsKey}, Pairs.{index_by, index_or_length, lookup, lookup_indexed}, Removals.FindsPair};
ghost use Rattle.vecmap_map.specs.Contents.{FailsToInsert, FindsOrAppends, HasRoom, KeepsRoom, KeepsRoomAt, Refuses, RefusesAt};

use crate::VecMap;
use std::alloc::AllocError;
use std::mem::replace;
use vecmap_base::{Equivalent, Refused, find, insert_reserved, replace_and_move};

impl<K, V> VecMap<K, V> {
    /// Inserts a pair and returns the previous value of its key.
    ///
    /// An existing key stays as it is, at its index, and only its value changes; `key` is dropped. A new pair is
    /// appended.
    ///
    /// # Errors
    ///
    /// [`Refused`] returns the pair if the map is full and allocation fails; the map is then unchanged.
    ///
    /// # Complexity
    ///
    /// At most `len` comparisons. Allocates only for a new key in a full map, and moves pairs only if the vector grows.
    ///
    /// # Examples
    ///
    /// ```
    /// let mut map = vecmap!(alloc; 'a' => 1, 'b' => 2);
    /// map.insert('a', 3)? // Some(1)
    /// map.insert('c', 4)? // None
    /// map.as_slice() // [('a', 3), ('b', 2), ('c', 4)]
    /// ```
    #[inline(always)]
    pub fn insert(&mut self, key: K, value: V) -> Result<Option<V>, Refused<(K, V)>>
    where
        K: Eq + Drop,
        ensures insertion { OnOk result (AddsKey K.eq self.old.entries key value self.new.entries) }
        ensures returned { IfOk result (λ old. old ≡ lookup K.eq self.old.entries key) }
        ensures capacity { KeepsRoom K.eq self.old key self.new }

        // On `Err` the pair is returned, its key is new, and the map is full.
        ensures given { IfErr result (λ refused. refused.given ≡ (key, value)) }
        ensures err { OnErr result (Refuses K.eq self.old key self.new) }
    {
        let (_index, old) = self.insert_full(key, value)?;
        Ok(old)
    }

    /// Like [`VecMap::insert`], but also returns the index of the key.
    ///
    /// # Examples
    ///
    /// ```
    /// let mut map = vecmap!(alloc; 'a' => 1, 'b' => 2);
    /// map.insert_full('b', 3)? // (1, Some(2))
    /// map.insert_full('c', 4)? // (2, None)
    /// ```
    #[tactic(auto, using(vecmap_base::proofs::PairsLemmas::ByIndex::by_index))]
    #[inline(always)]
    pub fn insert_full(&mut self, key: K, value: V) -> Result<(usize, Option<V>), Refused<(K, V)>>
    where
        K: Eq + Drop,
        ensures insertion { OnOk result (AddsKey K.eq self.old.entries key value self.new.entries) }
        ensures index { IfOk result (λ done. done.0 ≡ index_or_length K.eq self.old.entries key) }
        ensures at { IfOk result (λ done. HasMatchAt (K.eq key) self.new.entries done.0) }
        ensures countable { IfOk result (λ done. done.0 < 2 ^ 63) }
        ensures returned { IfOk result (λ done. done.1 ≡ lookup K.eq self.old.entries key) }
        ensures capacity { KeepsRoom K.eq self.old key self.new }

        // On `Err` the pair is returned, its key is new, and the map is full.
        ensures given { IfErr result (λ refused. refused.given ≡ (key, value)) }
        ensures err { OnErr result (Refuses K.eq self.old key self.new) }
    {
        let len = self.len(); // Bounds the index.
        if let Some(index) = find(&self.pairs, &key) {
            return Ok((index, Some(replace(&mut self.pairs[index].1, value))));
        }
        self.push(key, value)?;
        Ok((len, None))
    }

    /// Inserts a pair, replacing an equal key, and returns the previous pair of the key.
    ///
    /// If an equal key is present, the new pair replaces the old one at its index, key and value; [`VecMap::insert`]
    /// would keep the old key. A new pair is appended.
    ///
    /// # Errors
    ///
    /// [`Refused`] returns the pair if the map is full and allocation fails; the map is then unchanged.
    ///
    /// # Complexity
    ///
    /// At most `len` comparisons. Allocates only for a new key in a full map, and moves pairs only if the vector grows.
    ///
    /// # Examples
    ///
    /// ```
    /// let mut map = vecmap!(alloc; 'a' => 1, 'b' => 2);
    /// map.insert_key('a', 3)? // Some(('a', 1))
    /// map.as_slice() // [('a', 3), ('b', 2)]
    /// ```
    #[tactic(auto, using(vecmap_base::proofs::PairsLemmas::ByIndex::by_index))]
    pub fn insert_key(&mut self, key: K, value: V) -> Result<Option<(K, V)>, Refused<(K, V)>>
    where
        K: Eq,
        ensures insertion { OnOk result (PutsKey K.eq self.old.entries key value self.new.entries) }
        ensures returned { IfOk result (λ old. FindsPair (K.eq key) self.old.entries old) }
        ensures capacity { KeepsRoom K.eq self.old key self.new }

        // On `Err` the pair is returned, its key is new, and the map is full.
        ensures given { IfErr result (λ refused. refused.given ≡ (key, value)) }
        ensures err { OnErr result (Refuses K.eq self.old key self.new) }
    {
        if let Some(index) = find(&self.pairs, &key) {
            return Ok(Some(replace(&mut self.pairs[index], (key, value))));
        }
        self.push(key, value)?;
        Ok(None)
    }

    /// Inserts a pair at `index`, or moves it there, and returns the previous index and value of its key.
    ///
    /// If the key is new, the index of each pair from `index` on increases by one. If an equal key is present, its pair
    /// is removed: the old key is dropped, and the old index and value are returned. The new pair is then at `index`,
    /// or at the end if `index` is the number of pairs. The pairs between the old and the new index move by one.
    ///
    /// # Errors
    ///
    /// [`Refused`] returns the pair if the map is full and allocation fails; the map is then unchanged.
    ///
    /// # Preconditions
    ///
    /// `index` is at most [`VecMap::len`].
    ///
    /// # Complexity
    ///
    /// At most `len` comparisons, and one move for each pair that changes its index. Allocates only for a new key in a
    /// full map.
    ///
    /// # Examples
    ///
    /// ```
    /// let mut map = vecmap!(alloc; 'a' => 1, 'b' => 2);
    /// map.insert_at(0, 'c', 3)? // None
    /// map.insert_at(0, 'b', 4)? // Some((2, 2))
    /// map.as_slice() // [('b', 4), ('c', 3), ('a', 1)]
    /// ```
    #[inline(always)]
    pub fn insert_at(
        &mut self,
        index: usize,
        key: K,
        value: V,
    ) -> Result<Option<(usize, V)>, Refused<(K, V)>>
    where
        K: Eq + Drop,
        requires within { index ≤ length self.old.entries }
        ensures insertion { OnOk result (InsertsAt K.eq index self.old.entries key value
            self.new.entries) }
        ensures returned { IfOk result (λ old. old ≡ lookup_indexed K.eq self.old.entries key) }
        ensures capacity { KeepsRoom K.eq self.old key self.new }

        // On `Err` the pair is returned, its key is new, and the map is full.
        ensures given { IfErr result (λ refused. refused.given ≡ (key, value)) }
        ensures err { OnErr result (Refuses K.eq self.old key self.new) }
    {
        if let Some(from) = find(&self.pairs, &key) {
            let is_last = index == self.pairs.len();
            let to = if is_last { index - 1 } else { index };
            let (_key, old) = replace_and_move(&mut self.pairs, from, to, (key, value));
            return Ok(Some((from, old)));
        }
        if self.reserve_one().is_err() {
            return Err(Refused {
                given: (key, value),
            });
        }
        insert_reserved(&mut self.pairs, index, (key, value));
        Ok(None)
    }

    /// Appends a pair whose key is absent. Does not search.
    ///
    /// # Errors
    ///
    /// [`Refused`] returns the pair if the map is full and allocation fails; the map is then unchanged.
    ///
    /// # Preconditions
    ///
    /// No key of the map is equal to `key`.
    ///
    /// # Complexity
    ///
    /// No comparisons. Allocates only if the map is full, and moves pairs only if the vector grows.
    ///
    /// # Examples
    ///
    /// ```
    /// let mut map: VecMap<char, u32> = VecMap::with_capacity(alloc, 2)?;
    /// map.insert_unique('a', 1)?;
    /// # assert!(*rt; !map.contains_key(&'b'));
    /// map.insert_unique('b', 2)?;
    /// map.as_slice() // [('a', 1), ('b', 2)]
    /// ```
    #[inline]
    pub fn insert_unique(&mut self, key: K, value: V) -> Result<(), Refused<(K, V)>>
    where
        K: Eq,
        requires absent { lookup K.eq self.old.entries key ≡ None }
        ensures list { OnOk result (self.new.entries ≡ self.old.entries ++ (key, value) ∷ []) }
        ensures insertion { OnOk result (AddsKey K.eq self.old.entries key value self.new.entries) }
        ensures capacity { KeepsRoomAt None self.old self.new }

        // On `Err` the pair is returned, and the map is full.
        ensures given { IfErr result (λ refused. refused.given ≡ (key, value)) }
        ensures err { OnErr result (RefusesAt None self.old self.new) }
    {
        let pair = (key, value);
        if self.reserve_one().is_err() {
            return Err(Refused { given: pair });
        }
        self.pairs.push_reserved(pair);
        Ok(())
    }

    /// Returns the index of the first key that matches `query`, or appends the pair that `make` returns, and returns its
    /// index.
    ///
    /// # Errors
    ///
    /// If `make` returns an error, the call returns that error. If the map is full and allocation fails, the
    /// [`Refused`] with the pair that `make` returned is converted to `E`. The map is unchanged in both cases. If a key
    /// matches, nothing fails.
    ///
    /// # Preconditions
    ///
    /// If no key matches `query`, `make` can be called. `query` matches the key that `make` returns.
    ///
    /// # Complexity
    ///
    /// At most `len` comparisons, and one call of `make` if no key matches. Allocates only for a new key in a full map,
    /// and moves pairs only if the vector grows.
    ///
    /// # Examples
    ///
    /// ```
    /// let mut counts: VecMap<String, u32> = VecMap::new(alloc);
    /// let make = || -> Result<_, AllocError> { Ok((String::from_str(alloc, "a")?, 1)) };
    /// counts.index_or_try_insert_with("a", make)? // 0
    /// counts.index_or_try_insert_with("a", || Err(AllocError))? // 0
    /// counts.index_or_try_insert_with("b", || Err(AllocError)).is_err() // true
    /// counts.len() // 1
    /// ```
    pub fn index_or_try_insert_with<Q: Equivalent<K>, E, F: FnOnce() -> Result<(K, V), E>>(
        &mut self,
        query: Q,
        make: F,
    ) -> Result<usize, E>
    where
        K: Eq,
        E: From<Refused<(K, V)>>,
        F: Drop,
        requires callable { index_by (Q.equivalent query) self.old.entries ≡ None → F.pre make }
        requires made { (pair : K × V) → F.post make (Ok pair)
            → IsTrue (Q.equivalent query pair.0) }
        ensures insertion { IfOk result (FindsOrAppends K.eq (Q.equivalent query)
            (λ pair. F.post make (Ok pair)) self.old self.new) }
        ensures present { IfSome (index_by (Q.equivalent query) self.old.entries)
            (λ i. (result ≡ Ok i) × (self.new ≡ self.old)) }
        ensures capacity { KeepsRoomAt (index_by (Q.equivalent query) self.old.entries)
            self.old self.new }

        // On `Err` no key matches. Either `make` failed, or the map is full and memory ran out.
        ensures err { IfErr result (FailsToInsert E.from_gives (λ pair. F.post make (Ok pair))
            (λ error. F.post make (Err error)) (index_by (Q.equivalent query) self.old.entries)
            self.old self.new) }
    {
        if let Some(index) = self.get_index_of(query) {
            return Ok(index);
        }
        let (key, value) = make()?;
        let index = self.len();
        match self.push(key, value) {
            Ok(()) => Ok(index),
            Err(refused) => Err(E::from(refused)),
        }
    }

    // Appends a pair.
    pub(crate) fn push(&mut self, key: K, value: V) -> Result<(), Refused<(K, V)>>
        ensures list { OnOk result (self.new.entries ≡ self.old.entries ++ (key, value) ∷ []) }
        ensures capacity { KeepsRoomAt None self.old self.new }
        ensures given { IfErr result (λ refused. refused.given ≡ (key, value)) }
        ensures err { OnErr result (RefusesAt None self.old self.new) }
    {
        if self.reserve_one().is_err() {
            return Err(Refused {
                given: (key, value),
            });
        }
        self.pairs.push_reserved((key, value));
        Ok(())
    }

    // Reserves capacity for one more pair.
    fn reserve_one(&mut self) -> Result<(), AllocError>
        ensures list { self.new.entries ≡ self.old.entries }
        ensures room { OnOk result (HasRoom self.new 1) }
        ensures capacity { self.old.capacity ≤ self.new.capacity }
        ensures unchanged { HasRoom self.old 1 → self.new ≡ self.old }
        ensures err { OnErr result (RefusesAt None self.old self.new) }
    {
        if self.pairs.len() < self.pairs.capacity() {
            return Ok(());
        }
        self.pairs.reserve(1)
    }
}
