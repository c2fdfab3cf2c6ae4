//! Laws of `==` of sets, and of subsets.
ghost use Rattle.std.specs.{List.IsDistinct, List.Sorted.IsPermutation, Prelude.{IsTrue, List, [], false, length, ◌<◌, ◌↔◌, ◌≡◌, ◌≢◌}};
ghost use Rattle.vecmap_base.specs.{Equality.{has_same_items, is_within}, Items.both};

/// Equality of sets is reflexive, symmetric and transitive.
pub fn equality_is_an_equivalence<T: Eq>()
    ensures reflexive { (a : List T) → IsTrue (has_same_items T.eq a a) }
    ensures symmetric { (a b : List T) → has_same_items T.eq a b ≡ has_same_items T.eq b a }
    ensures transitive { (a b c : List T) → IsTrue (has_same_items T.eq a b)
        → IsTrue (has_same_items T.eq b c) → IsTrue (has_same_items T.eq a c) }
{}

/// Sets of the same elements in another order are equal.
#[tactic(auto, using(crate::proofs::AlgebraLemmas::rearranged_sets_equal))]
pub fn equality_ignores_order<T: Eq>()
    ensures { (a b : List T) → IsPermutation a b → IsTrue (has_same_items T.eq a b) }
{}

/// Two sets are equal exactly if each is a subset of the other.
#[tactic(auto, using(crate::proofs::AlgebraLemmas::equal_if_within_each_other))]
pub fn equality_is_inclusion_both_ways<T: Eq>()
    ensures { (a b : List T)
        → IsTrue (has_same_items T.eq a b)
        ↔ (IsTrue (is_within T.eq a b) × IsTrue (is_within T.eq b a)) }
{}

/// Sets of different lengths are not equal, and a longer set is no subset. A subset of the same length is equal.
#[tactic(auto, using(vecmap_base::proofs::EqualityLemmas::Sets::set_lengths_differ, vecmap_base::proofs::EqualityLemmas::Sets::longer_not_within, vecmap_base::proofs::EqualityLemmas::Sets::set_equal_by_half))]
pub fn lengths_tell_of_inclusion<T: Eq>()
    ensures unequal { (a b : List T) → IsDistinct T.eq a → IsDistinct T.eq b → length a ≢ length b
        → has_same_items T.eq a b ≡ false }
    ensures longer { (a b : List T) → IsDistinct T.eq a → length b < length a
        → is_within T.eq a b ≡ false }
    ensures equal { (a b : List T) → IsDistinct T.eq a → length a ≡ length b
        → has_same_items T.eq a b ≡ is_within T.eq a b }
{}

/// Whether two sets are disjoint is the same from either side.
#[tactic(auto, using(vecmap_base::proofs::EqualityLemmas::Sets::both_empty_turned))]
pub fn disjointness_is_symmetric<T: Eq>()
    ensures { (a b : List T) → (both T.eq a b ≡ []) ↔ (both T.eq b a ≡ []) }
{}
