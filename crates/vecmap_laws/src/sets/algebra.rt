//! Laws of unions, intersections and differences, and of the lazy iterators over them.
ghost use Rattle.std.specs.Prelude.{List, [], length, ◌+◌, ◌↔◌, ◌≡◌};
ghost use Rattle.vecmap_base.specs.Items.{both, only};
ghost use Rattle.vecmap_laws.specs.Algebra.{AgreeAsSets, IgnoresSides, LengthsAddUp, MakesSets, lazy_intersection, lazy_union};
ghost use Rattle.vecmap_set.specs.Operators.{symmetric_difference_of, union_of};

/// Intersection, union and symmetric difference are equal sets whichever of the two sets comes first. This also holds
/// of what the lazy iterators yield.
#[tactic(auto, using(crate::proofs::AlgebraLemmas::both_turned, crate::proofs::AlgebraLemmas::union_turned, crate::proofs::AlgebraLemmas::symmetric_difference_turned, crate::proofs::AlgebraLemmas::lazy_intersection_turned))]
pub fn algebra_is_symmetric<T: Eq>()
    ensures and { IgnoresSides T.eq both }
    ensures or { IgnoresSides T.eq union_of }
    ensures xor { IgnoresSides T.eq symmetric_difference_of }
    ensures intersection { IgnoresSides T.eq lazy_intersection }
    ensures union { IgnoresSides T.eq lazy_union }
{}

/// Two sets are disjoint exactly if `intersection` yields nothing.
#[tactic(auto, using(vecmap_base::proofs::EqualityLemmas::Sets::both_empty_turned, crate::proofs::AlgebraLemmas::on_shorter))]
pub fn disjoint_sets_have_no_intersection<T: Eq>()
    ensures { (a b : List T) → (both T.eq a b ≡ []) ↔ (lazy_intersection T.eq a b ≡ []) }
{}

/// `intersection` and `union` yield sets that are equal to what `&` and `|` create.
///
/// `difference` yields the list that `-` clones, and `symmetric_difference` yields the list that `^` clones.
#[tactic(auto, using(crate::proofs::AlgebraLemmas::lazy_intersection_is_both, crate::proofs::AlgebraLemmas::lazy_union_is_union))]
pub fn lazy_iterators_agree_with_operators<T: Eq>()
    ensures intersection { AgreeAsSets T.eq lazy_intersection both }
    ensures union { AgreeAsSets T.eq lazy_union union_of }
{}

/// No two elements that a lazy iterator over two sets yields are equal.
#[tactic(auto, using(vecmap_base::proofs::EqualityLemmas::Sets::distinct_only, vecmap_base::proofs::EqualityLemmas::Sets::distinct_symmetric_difference, crate::proofs::AlgebraLemmas::on_longer, vecmap_base::proofs::EqualityLemmas::Sets::distinct_union))]
pub fn lazy_iterators_give_no_repeats<T: Eq>()
    ensures difference { MakesSets T.eq only }
    ensures intersection { MakesSets T.eq lazy_intersection }
    ensures symmetric_difference { MakesSets T.eq symmetric_difference_of }
    ensures union { MakesSets T.eq lazy_union }
{}

/// The lengths of the intersection and the union add up to the lengths of the two sets, and those of the intersection
/// and the difference to the length of the first set.
#[tactic(auto, using(crate::proofs::AlgebraLemmas::lazy_lengths_add, crate::proofs::AlgebraLemmas::lengths_add, crate::proofs::AlgebraLemmas::length_both_only))]
pub fn lengths_of_intersection_and_union_add_up<T: Eq>()
    ensures lazily { LengthsAddUp T.eq lazy_intersection lazy_union }
    ensures by_operators { LengthsAddUp T.eq both union_of }
    ensures difference { (a b : List T)
        → length (both T.eq a b) + length (only T.eq a b) ≡ length a }
{}
