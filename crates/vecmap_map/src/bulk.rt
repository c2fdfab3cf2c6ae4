//! Creation of a map from many pairs, and insertion of many pairs.
ghost use Rattle.std.specs.Prelude.{◌≡◌, ◌<◌, ◌+◌, ◌≤◌, ◌/◌, IfOk, IsOk, List, None, OnErr, OnOk, [], if◌then◌else◌, length, map};
ghost use Rattle.std.specs.{Iterator.{Drains, ExtendsWithItems, IsFiniteIterable}, Iterator.Runs.WholeRun, Map.Iter.{deref, deref_pair}};
ghost use Rattle.vecmap_base.specs.{Bulk.{HasRoomForAll, HoldsOfEach}, Clones.{ClonesAreSame, ClonesSucceed}};
ghost use Rattle.vecmap_base.specs.{Lookups.{Joins, MakesPairs}, Pairs.{HasDistinctKeys, put, puts}};
ghost use Rattle.vecmap_map.specs.Contents.{HasRoom, KeepsRoomAt, Refuses, with_entries};
ghost use Rattle.vecmap_map.specs.MapBulk.{Extends, MakesClones, Puts, PutsClones, RefusesAfter, RefusesClonesAfter};

use crate::VecMap;
use std::alloc::{AllocError, Global};

impl<K, V> VecMap<K, V> {
    /// Creates a map and inserts the pairs of an iterator, in order.
    ///
    /// Among duplicate keys the first is kept, at its index, with the last of their values. The call first reserves
    /// capacity for as many pairs as the lower size hint of the iterator says.
    ///
    /// # Errors
    ///
    /// [`AllocError`] if an allocation fails; no map is created, and the pairs and the iterator are dropped.
    ///
    /// # Preconditions
    ///
    /// The iterator ends.
    ///
    /// # Complexity
    ///
    /// One lookup for each pair, so at most n(n-1)/2 comparisons for n pairs.
    ///
    /// # Examples
    ///
    /// ```
    /// let map = VecMap::from_iter(alloc, [('a', 1), ('b', 2), ('a', 3)])?;
    /// map.as_slice() // [('a', 3), ('b', 2)]
    /// ```
    pub fn from_iter<I: IntoIterator<Item = (K, V)>>(
        alloc: Global,
        iter: I,
    ) -> Result<VecMap<K, V>, AllocError>
    where
        K: Eq + Drop,
        V: Drop,
        requires ends { IsFiniteIterable I.into_iter_gives I.IntoIter.can_next I.IntoIter.remaining
            iter }
        ensures list { IfOk result (λ map. (it : I.IntoIter) × (pairs : List (K × V))
            × I.into_iter_gives iter it × Drains I.IntoIter.next_gives it pairs
            × (map.entries ≡ puts K.eq [] pairs)) }

        // What follows for lookups, lengths and indices.
        ensures runs { IfOk result (λ map. (it : I.IntoIter) × I.into_iter_gives iter it
            × WholeRun I.IntoIter.next_gives it (λ p. MakesPairs K.eq p.items map.entries)) }
        ensures distinct { IfOk result (λ map. HasDistinctKeys K.eq map.entries) }
    {
        let mut map = VecMap::new(alloc);
        map.extend(iter)?;
        Ok(map)
    }

    /// Creates a map and inserts clones of the pairs of a slice, in order.
    ///
    /// This is Rust's `From<&[(K, V)]>`. Among duplicate keys the clone of the first is kept, at its index, with a
    /// clone of the last of their values. The call first reserves capacity for as many pairs as the slice has.
    ///
    /// If the keys are distinct and each clone is the same as its original, a lookup finds what it finds in `pairs`.
    ///
    /// # Errors
    ///
    /// [`AllocError`] if an allocation fails, or if the clone of a key or a value fails; no map is created.
    ///
    /// # Complexity
    ///
    /// One lookup for each pair, so at most n(n-1)/2 comparisons for n pairs.
    ///
    /// # Examples
    ///
    /// ```
    /// let map = VecMap::from_slice(alloc, &[('a', 1), ('b', 2), ('a', 3)])?;
    /// map.as_slice() // [('a', 3), ('b', 2)]
    /// ```
    pub fn from_slice(alloc: Global, pairs: &[(K, V)]) -> Result<VecMap<K, V>, AllocError>
    where
        K: Eq + Clone,
        V: Clone,
        ensures insertion { IfOk result (MakesClones K.eq K.is_clone V.is_clone pairs.now) }
    {
        let mut map = VecMap::with_capacity(alloc, pairs.len())?;
        for pair in pairs {
            map.put_clones(&pair.0, &pair.1)?;
        }
        Ok(map)
    }

    /// Inserts the pairs of `other`, in order, and leaves `other` empty.
    ///
    /// An existing key stays as it is, at its index, and only its value changes. A new pair is appended. The call first
    /// reserves capacity for all pairs of `other`. The capacity of `other` stays.
    ///
    /// # Errors
    ///
    /// [`AllocError`] if allocation fails; both maps are then unchanged. With spare capacity for all pairs of `other`,
    /// the call does not allocate and always succeeds.
    ///
    /// # Complexity
    ///
    /// One lookup for each pair of `other`, with at most as many comparisons as the map then has pairs.
    ///
    /// # Examples
    ///
    /// ```
    /// let mut map = vecmap!(alloc; 'a' => 1, 'b' => 2);
    /// let mut other = vecmap!(alloc; 'b' => 1, 'a' => 2);
    /// map.append(&mut other)?;
    /// map.as_slice() // [('a', 2), ('b', 1)]
    /// other.is_empty() // true
    /// ```
    #[tactic(auto, using(vecmap_base::proofs::PairsLemmas::Puts::length_put_at_most, std::proofs::lemmas::Grind::common_steps))]
    pub fn append(&mut self, other: &mut VecMap<K, V>) -> Result<(), AllocError>
    where
        K: Eq + Drop,
        V: Drop,
        ensures insertion { OnOk result (Joins K.eq self.old.entries other.old.entries
            self.new.entries) }
        ensures emptied { OnOk result (other.new ≡ with_entries other.old []) }
        ensures capacity { self.old.capacity ≤ self.new.capacity }
        ensures succeeds { HasRoom self.old (length other.old.entries) → IsOk result }
        ensures capacity_stays { HasRoom self.old (length other.old.entries)
            → self.new.capacity ≡ self.old.capacity }
        ensures not_empty { OnErr result (0 < length other.old.entries) }
        ensures err { OnErr result (self.new ≡ self.old) }
        ensures other_err { OnErr result (other.new ≡ other.old) }
    {
        self.reserve(other.len())?;
        for (key, value) in other.pairs.drain(..) {
            let _old = self.insert(key, value).unwrap();
        }
        Ok(())
    }

    /// Inserts the pairs of an iterator, in order.
    ///
    /// An existing key stays as it is, at its index, and only its value changes. A new pair is appended.
    ///
    /// A proof knows what lookups find afterwards (`runs`), if the iterator is a `Vec`, a map or a chain over one.
    ///
    /// This is Rust's `Extend<(K, V)>`. The call first reserves capacity. If the map is empty, it reserves as much as
    /// the lower size hint of the iterator says. Otherwise it reserves half of that, rounded up, as some keys may be
    /// present already. The hint decides nothing else.
    ///
    /// # Errors
    ///
    /// [`AllocError`] if an allocation fails. If the capacity that is reserved first cannot be allocated, the map is
    /// unchanged. If the map cannot grow for a pair, the pairs before it stay, and that pair is dropped with the
    /// iterator. With spare capacity for all pairs, the call does not allocate and always succeeds.
    ///
    /// # Preconditions
    ///
    /// The iterator ends.
    ///
    /// # Complexity
    ///
    /// One lookup for each pair, with at most as many comparisons as the map then has pairs.
    ///
    /// # Examples
    ///
    /// ```
    /// let mut map = vecmap!(alloc; 'a' => 1, 'b' => 2);
    /// map.extend([('b', 3), ('c', 4)])?;
    /// map.as_slice() // [('a', 1), ('b', 3), ('c', 4)]
    /// ```
    #[tactic(auto, using(vecmap_base::proofs::PairsLemmas::Puts::length_put_at_most, std::proofs::lemmas::Grind::common_steps))]
    pub fn extend<I: IntoIterator<Item = (K, V)>>(&mut self, iter: I) -> Result<(), AllocError>
    where
        K: Eq + Drop,
        V: Drop,
        requires ends { IsFiniteIterable I.into_iter_gives I.IntoIter.can_next I.IntoIter.remaining
            iter }
        ensures ran { ExtendsWithItems I.into_iter_gives I.IntoIter.next_gives
            (Puts K.eq) iter self.old self.new result }
        ensures succeeds { HasRoomForAll I.into_iter_gives I.IntoIter.remaining iter
            (HasRoom self.old) → IsOk result }
        ensures extended { Extends I.into_iter_gives I.IntoIter.next_gives I.IntoIter.remaining
            K.eq (RefusesAfter K.eq) iter self.old result self.new }

        // What follows for lookups, lengths and indices.
        ensures runs { OnOk result ((it : I.IntoIter) × I.into_iter_gives iter it
            × WholeRun I.IntoIter.next_gives it (λ p. Joins K.eq self.old.entries p.items
            self.new.entries)) }
    {
        let items = iter.into_iter();
        self.reserve(capacity_to_reserve(self.is_empty(), items.size_hint().0))?;
        for (key, value) in items {
            self.insert(key, value)?;
        }
        Ok(())
    }

    /// Like [`VecMap::extend`], but inserts clones of the keys and values of an iterator of references.
    ///
    /// This is Rust's `Extend<(&K, &V)>`. An existing key stays as it is, and the clone of the equal key is dropped.
    ///
    /// # Errors
    ///
    /// [`AllocError`] if an allocation fails, or if a clone fails. If the capacity that is reserved first cannot be
    /// allocated, the map is unchanged. If a pair cannot be cloned or stored, the clones of the pairs before it stay.
    ///
    /// # Preconditions
    ///
    /// The iterator ends.
    ///
    /// # Examples
    ///
    /// ```
    /// let mut map = vecmap!(alloc; 'a' => 1, 'b' => 2);
    /// let other = vecmap!(alloc; 'b' => 1, 'a' => 2);
    /// map.extend_refs(other.iter())?;
    /// map.as_slice() // [('a', 2), ('b', 1)]
    /// ```
    pub fn extend_refs<'a, I: IntoIterator<Item = (&'a K, &'a V)>>(
        &mut self,
        iter: I,
    ) -> Result<(), AllocError>
    where
        K: Eq + Clone + 'a,
        V: Clone + 'a,
        requires ends { IsFiniteIterable I.into_iter_gives I.IntoIter.can_next I.IntoIter.remaining
            iter }
        ensures ran { ExtendsWithItems I.into_iter_gives I.IntoIter.next_gives
            (PutsClones K.eq K.is_clone V.is_clone deref_pair) iter self.old self.new result }
        ensures succeeds { HasRoomForAll I.into_iter_gives I.IntoIter.remaining iter
            (HasRoom self.old) → HoldsOfEach I.into_iter_gives I.IntoIter.next_gives iter
            (ClonesSucceed K.Clone V.Clone deref_pair) → IsOk result }
        ensures extended { Extends I.into_iter_gives I.IntoIter.next_gives I.IntoIter.remaining
            K.eq (RefusesClonesAfter K.eq K.Clone V.Clone deref_pair) iter self.old result self.new }

        // What follows for lookups, lengths and indices, if each clone is the same as its original.
        ensures runs { OnOk result ((it : I.IntoIter) × I.into_iter_gives iter it
            × WholeRun I.IntoIter.next_gives it (λ p. ClonesAreSame K.is_clone
            → ClonesAreSame V.is_clone → Joins K.eq self.old.entries (map deref_pair p.items)
            self.new.entries)) }
    {
        let items = iter.into_iter();
        self.reserve(capacity_to_reserve(self.is_empty(), items.size_hint().0))?;
        for (key, value) in items {
            self.put_clones(key, value)?;
        }
        Ok(())
    }

    /// Like [`VecMap::extend_refs`], but for an iterator over references to pairs.
    ///
    /// This is Rust's `Extend<&(K, V)>`. An existing key stays as it is, and the clone of the equal key is dropped.
    ///
    /// # Errors
    ///
    /// As for [`VecMap::extend_refs`].
    ///
    /// # Preconditions
    ///
    /// The iterator ends.
    ///
    /// # Examples
    ///
    /// ```
    /// let mut map = vecmap!(alloc; 'a' => 1, 'b' => 2);
    /// map.extend_pairs(&[('b', 3), ('c', 4)])?;
    /// map.as_slice() // [('a', 1), ('b', 3), ('c', 4)]
    /// ```
    pub fn extend_pairs<'a, I: IntoIterator<Item = &'a (K, V)>>(
        &mut self,
        iter: I,
    ) -> Result<(), AllocError>
    where
        K: Eq + Clone + 'a,
        V: Clone + 'a,
        requires ends { IsFiniteIterable I.into_iter_gives I.IntoIter.can_next I.IntoIter.remaining
            iter }
        ensures ran { ExtendsWithItems I.into_iter_gives I.IntoIter.next_gives
            (PutsClones K.eq K.is_clone V.is_clone deref) iter self.old self.new result }
        ensures succeeds { HasRoomForAll I.into_iter_gives I.IntoIter.remaining iter
            (HasRoom self.old) → HoldsOfEach I.into_iter_gives I.IntoIter.next_gives iter
            (ClonesSucceed K.Clone V.Clone deref) → IsOk result }
        ensures extended { Extends I.into_iter_gives I.IntoIter.next_gives I.IntoIter.remaining
            K.eq (RefusesClonesAfter K.eq K.Clone V.Clone deref) iter self.old result self.new }

        // What follows for lookups, lengths and indices, if each clone is the same as its original.
        ensures runs { OnOk result ((it : I.IntoIter) × I.into_iter_gives iter it
            × WholeRun I.IntoIter.next_gives it (λ p. ClonesAreSame K.is_clone
            → ClonesAreSame V.is_clone → Joins K.eq self.old.entries (map deref p.items)
            self.new.entries)) }
    {
        let items = iter.into_iter();
        self.reserve(capacity_to_reserve(self.is_empty(), items.size_hint().0))?;
        for pair in items {
            self.put_clones(&pair.0, &pair.1)?;
        }
        Ok(())
    }

    // Inserts a clone of a pair.
    fn put_clones(&mut self, key: &K, value: &V) -> Result<(), AllocError>
    where
        K: Eq + Clone,
        V: Clone,
        ensures list { OnOk result ((k : K) × (v : V) × K.is_clone key.now k
            × V.is_clone value.now v × (self.new.entries ≡ put K.eq self.old.entries k v)) }
        ensures capacity { KeepsRoomAt None self.old self.new }
        ensures succeeds { HasRoom self.old 1 → K.is_infallible key.now → V.is_infallible value.now
            → IsOk result }
        ensures err { OnErr result (self.new ≡ self.old) }
        ensures full { K.is_infallible key.now → V.is_infallible value.now
            → OnErr result ((k : K) × K.is_clone key.now k × Refuses K.eq self.old k self.new) }
    {
        self.insert(key.clone()?, value.clone()?)?;
        Ok(())
    }
}

/// Creates a map and inserts the pairs of an iterator, in order, like the inherent [`VecMap::from_iter`].
///
/// # Examples
///
/// ```
/// let map: VecMap<char, u32> = [('a', 1), ('b', 2)].into_iter().collect(alloc)?;
/// map.as_slice() // [('a', 1), ('b', 2)]
/// ```
impl<K: Eq + Drop, V: Drop> FromIterator<(K, V)> for VecMap<K, V> {
    type Alloc = Global;

    ghost from_iter_gives = { λ pairs map. MakesPairs K.eq pairs map.entries };

    fn from_iter<I: IntoIterator<Item = (K, V)>>(
        alloc: Global,
        iter: I,
    ) -> Result<VecMap<K, V>, AllocError> {
        VecMap::from_iter(alloc, iter)
    }
}

// Returns for how many new keys to reserve capacity if `hint` pairs are to come. A map that is not empty may have some
// of the keys.
pub(crate) fn capacity_to_reserve(is_empty: bool, hint: usize) -> usize
    ensures amount { result ≡ (if is_empty then hint else (hint + 1) / 2) }
    ensures at_most { result ≤ hint }
{
    if is_empty { hint } else { hint.div_ceil(2) }
}
