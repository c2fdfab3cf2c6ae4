//! Laws of lists, which are laws of maps and of sets.
ghost use Rattle.std.specs.{Cmp.{IsEquivalence, IsTotalOrder}, Ordering.is_eq, List.IsDistinct, Map.{IsKeyTest, keys_of}};
ghost use Rattle.std.specs.Prelude.{◌≡◌, ◌≤◌, ◌&&◌, ℕ, List, String, bytes_eq, false, length, string_bytes, string_eq, true};
ghost use Rattle.vecmap_base.specs.{Pairs.{HasDistinctKeys, has_text}, Comparisons.{comparisons, cost}};
ghost use Rattle.vecmap_laws.specs.MapLaws.{both_equal, has_texts};
ghost use Rattle.std.specs.declared.alloc.Global.{Global};

/// Bounds the number of comparisons that a removal of duplicates makes.
///
/// It is at most one comparison for each two elements, and exactly as many if all elements are distinct.
#[tactic(auto, using(vecmap_base::proofs::DuplicatesLemmas::ComparisonCounts::comparisons_at_most, crate::proofs::ComparisonLemmas::comparisons_distinct))]
pub fn comparisons_are_bounded<T: Eq>()
    ensures at_most { (xs : List T) → comparisons T.eq xs ≤ cost (length xs) }
    ensures exact_if_distinct { (xs : List T) → IsDistinct T.eq xs
        → comparisons T.eq xs ≡ cost (length xs) }
{}

/// Like [`comparisons_are_bounded`], for pairs, whose keys are compared.
#[tactic(auto, using(vecmap_base::proofs::DuplicatesLemmas::ComparisonCounts::key_comparisons_at_most, crate::proofs::ComparisonLemmas::key_comparisons_distinct))]
pub fn key_comparisons_are_bounded<K: Eq, V>()
    ensures at_most { (l : List (K × V)) → comparisons K.eq (keys_of l) ≤ cost (length l) }
    ensures exact_if_distinct { (l : List (K × V)) → HasDistinctKeys K.eq l
        → comparisons K.eq (keys_of l) ≡ cost (length l) }
{}

/// A text matches the `String` of its bytes as a query, and two texts of different bytes match no string in common.
///
/// Two texts whose bytes are equal are the same query.
///
/// With it, [`queries_find_as_keys`](crate::maps::queries_find_as_keys) and its kin are laws of texts.
pub fn texts_are_queries()
    ensures respects { (text : List ℕ) → IsKeyTest {K = String Global} string_eq (has_text text) }
    ensures own { (text : List ℕ) (k : String Global) → string_bytes k ≡ text
        → has_text text k ≡ true }
    ensures same { (text other : List ℕ) → bytes_eq text other ≡ true → text ≡ other }
    ensures apart { (text other : List ℕ) → bytes_eq text other ≡ false → (k : String Global)
        → has_text text k ≡ true → has_text other k ≡ false }
{}

/// Two texts match a key of two strings by its parts, as a query. Two such queries match no key in common if they differ
/// in a part.
pub fn pairs_of_texts_are_queries()
    ensures respects { (first second : List ℕ) → IsKeyTest both_equal (has_texts first second) }
    ensures own { (k : String Global × String Global)
        → has_texts (string_bytes k.0) (string_bytes k.1) k ≡ true }
    ensures apart { (first second third fourth : List ℕ)
        → (bytes_eq first third && bytes_eq second fourth) ≡ false
        → (k : String Global × String Global) → has_texts first second k ≡ true
        → has_texts third fourth k ≡ false }
{}

/// The order of a type is total, and says `Equal` exactly where `==` is true, as [`Ord`] says.
///
/// The ruleset of sorted maps needs it at a type parameter.
pub fn ord_is_a_total_order<T: Ord>()
    ensures total { IsTotalOrder T.cmp }
    ensures matches { (x y : T) → T.eq x y ≡ is_eq (T.cmp x y) }
{}

/// The `==` of a type is reflexive, symmetric and transitive, as [`Eq`] says.
///
/// The rulesets of lookups need it at a type parameter.
pub fn eq_is_an_equivalence<T: Eq>()
    ensures { IsEquivalence T.eq }
{}
