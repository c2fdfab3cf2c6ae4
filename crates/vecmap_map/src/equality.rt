//! Equality of maps: the order of the pairs makes no difference.
ghost use Rattle.std.specs.Prelude.{◌≡◌};
ghost use Rattle.vecmap_base.specs.Equality.{has_same_counts};

use crate::VecMap;
use vecmap_base::pairs_equal;

/// Two maps are equal if each pair, by its key and its value, occurs equally often in both.
///
/// If all keys of a map are distinct, this means that each key of either map has an equal value in both. A map with a
/// value that differs from itself, such as a NaN, is not equal to any map, not even to itself.
///
/// # Complexity
///
/// No comparisons if the lengths differ. Otherwise the call skips the indices at the front at which both maps hold
/// equal pairs. It then matches the remaining pairs one to one: each pair with the first equal pair that is still free.
/// If more than 16,384 pairs remain, it counts them in both maps instead. For maps of n pairs this needs
///
/// - n comparisons of keys if the maps are equal and in the same order;
/// - at most n(n + 3)/2 if the maps are equal, their keys are distinct, and at most 16,384 pairs remain: few if most
///   pairs follow one another in both maps;
/// - at most n(n + 1) in any other case, or 2n² + 1 if it counts.
///
/// Does not allocate. For more than 1,024 pairs in another order, it needs 16 KiB of the stack.
///
/// # Examples
///
/// ```
/// let map = vecmap!(alloc; 'a' => 1, 'b' => 2);
/// map == VecMap::from_iter(alloc, [('b', 2), ('a', 1)])? // true
/// ```
impl<K: Eq, V: PartialEq> PartialEq for VecMap<K, V> {
    ghost use Rattle.std.specs.Cmp.{on_per};
    ghost use Rattle.vecmap_base.proofs.EqualityLemmas.Partial.{partial_map_equality_laws};

    ghost eq = { λ a b. has_same_counts K.eq V.eq a.entries b.entries };

    ghost laws = { on_per (λ map. map.entries) (partial_map_equality_laws K.eq V.eq K.Eq.laws V.laws) };

    fn eq(&self, other: &VecMap<K, V>) -> bool
        // One equation without a label: by another contract a derived `==` of a type that holds a map is not proved
        // ("antt refuses what rattle made for the borrow checker's part in its proof").
        ensures { result ≡ has_same_counts K.eq V.eq self.now.entries other.now.entries }
    {
        pairs_equal(&self.pairs, &other.pairs)
    }
}

impl<K: Eq, V: Eq> Eq for VecMap<K, V> {
    ghost use Rattle.std.proofs.lemmas.Cmp.{on_equiv};
    ghost use Rattle.vecmap_base.proofs.EqualityLemmas.Maps.{map_equality_laws};

    ghost laws = { on_equiv (λ map. map.entries) (map_equality_laws K.eq V.eq K.Eq.laws V.Eq.laws) };
}
