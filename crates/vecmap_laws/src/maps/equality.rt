//! Laws of `==` of maps.
ghost use Rattle.std.specs.{List.Sorted.IsPermutation, Option.option_eq, Prelude.{IsTrue, List, false, length, ◌↔◌, ◌≡◌, ◌≢◌}};
ghost use Rattle.vecmap_base.specs.{Equality.{counts_agree, has_same_counts}, Pairs.{HasDistinctKeys, lookup}};
ghost use Rattle.vecmap_laws.specs.MapLaws.{agrees};

/// Equality of maps is reflexive, symmetric and transitive, even with duplicate keys.
pub fn equality_is_an_equivalence<K: Eq, V: Eq>()
    ensures reflexive { (a : List (K × V)) → IsTrue (has_same_counts K.eq V.eq a a) }
    ensures symmetric { (a b : List (K × V))
        → has_same_counts K.eq V.eq a b ≡ has_same_counts K.eq V.eq b a }
    ensures transitive { (a b c : List (K × V)) → IsTrue (has_same_counts K.eq V.eq a b)
        → IsTrue (has_same_counts K.eq V.eq b c) → IsTrue (has_same_counts K.eq V.eq a c) }
{}

/// Maps of the same pairs in different orders are equal, even with duplicate keys.
#[tactic(auto, using(crate::proofs::MapEquality::rearranged_maps_equal))]
pub fn equality_ignores_order<K: Eq, V: Eq>()
    ensures { (a b : List (K × V)) → IsPermutation a b → IsTrue (has_same_counts K.eq V.eq a b) }
{}

/// If all keys are distinct, two maps are equal exactly if each lookup finds nothing in both, or equal values in both.
///
/// It is enough to look up the keys of both maps.
pub fn equality_is_agreement<K: Eq, V: Eq>()
    ensures equality { (a b : List (K × V)) → HasDistinctKeys K.eq a → HasDistinctKeys K.eq b
        → has_same_counts K.eq V.eq a b ≡ agrees K.eq V.eq a b }
    ensures lookups { (a b : List (K × V)) → HasDistinctKeys K.eq a → HasDistinctKeys K.eq b
        → IsTrue (has_same_counts K.eq V.eq a b)
        ↔ ((k : K) → IsTrue (option_eq V.eq (lookup K.eq a k) (lookup K.eq b k))) }
    ensures every_key { (a b : List (K × V)) → IsTrue (agrees K.eq V.eq a b) → (k : K)
        → IsTrue (option_eq V.eq (lookup K.eq a k) (lookup K.eq b k)) }
{}

/// Maps of different lengths are not equal. For maps of the same length it is enough to count the pairs of one of them.
#[tactic(auto, using(crate::proofs::MapEquality::map_lengths_differ, crate::proofs::MapEquality::map_equal_by_half))]
pub fn lengths_tell_of_equality<K: Eq, V: Eq>()
    ensures unequal { (a b : List (K × V)) → length a ≢ length b
        → has_same_counts K.eq V.eq a b ≡ false }
    ensures half { (a b : List (K × V)) → length a ≡ length b
        → has_same_counts K.eq V.eq a b ≡ counts_agree K.eq V.eq a a b }
{}
