//! Laws of distinct keys.
ghost use Rattle.std.specs.{List.remove_range, Prelude.{Bool, List, [], drop, filter, remove, slice_range, take, ℕ, ◌≤◌}};
ghost use Rattle.vecmap_base.specs.Items.{swap_without};
ghost use Rattle.vecmap_base.specs.Pairs.{HasDistinctKeys, put, put_at, put_key, puts, swap_without_by, swap_without_key, with_value, without_by};

/// Distinct keys stay distinct after an insertion, after many insertions, and after a write of a value.
///
/// The keys of the empty list are distinct, and so are the keys of what insertions make of it.
#[tactic(auto, using(vecmap_base::proofs::DistinctLemmas::distinct_none, vecmap_base::proofs::PairsLemmas::LookupsAfterChanges::distinct_put, crate::proofs::DistinctKeys::distinct_puts, crate::proofs::DistinctKeys::distinct_put_at, crate::proofs::DistinctKeys::distinct_keys_with_value, vecmap_base::proofs::PairsLemmas::Updates::distinct_put_key))]
pub fn insertion_keeps_keys_distinct<K: Eq, V>()
    ensures empty { HasDistinctKeys {V = V} K.eq [] }
    ensures put { (l : List (K × V)) → HasDistinctKeys K.eq l → (k : K) (v : V)
        → HasDistinctKeys K.eq (put K.eq l k v) }
    ensures puts { (l : List (K × V)) → HasDistinctKeys K.eq l → (pairs : List (K × V))
        → HasDistinctKeys K.eq (puts K.eq l pairs) }
    ensures made { (pairs : List (K × V)) → HasDistinctKeys K.eq (puts K.eq [] pairs) }
    ensures put_key { (l : List (K × V)) → HasDistinctKeys K.eq l → (k : K) (v : V)
        → HasDistinctKeys K.eq (put_key K.eq l k v) }
    ensures put_at { (l : List (K × V)) → HasDistinctKeys K.eq l → (i : ℕ) (k : K) (v : V)
        → HasDistinctKeys K.eq (put_at K.eq l i k v) }
    ensures with_value { (l : List (K × V)) → HasDistinctKeys K.eq l → (i : ℕ) (v : V)
        → HasDistinctKeys K.eq (with_value l i v) }
{}

/// Distinct keys stay distinct after a removal, and in the front of the list.
///
/// The removal is by a test of the keys or by index. It shifts the later pairs or swaps in the last one. The test is
/// the `==` of a key, of a text, or of a query type of your own.
#[tactic(auto, using(crate::proofs::DistinctKeys::distinct_keys_without, vecmap_base::proofs::PairsLemmas::LookupsAfterChanges::distinct_keys_remove, crate::proofs::DistinctKeys::distinct_keys_swap_without_by, crate::proofs::DistinctKeys::distinct_keys_swap_without_key, crate::proofs::DistinctKeys::distinct_keys_swap_without, crate::proofs::DistinctKeys::distinct_keys_take))]
pub fn removal_keeps_keys_distinct<K: Eq, V>()
    ensures by_test { (l : List (K × V)) → HasDistinctKeys K.eq l → (test : K → Bool)
        → HasDistinctKeys K.eq (without_by test l) }
    ensures by_index { (l : List (K × V)) → HasDistinctKeys K.eq l → (i : ℕ)
        → HasDistinctKeys K.eq (remove l i) }
    ensures swap_by_test { (l : List (K × V)) → HasDistinctKeys K.eq l → (test : K → Bool)
        → HasDistinctKeys K.eq (swap_without_by test l) }
    ensures swap_by_key { (l : List (K × V)) → HasDistinctKeys K.eq l → (k : K)
        → HasDistinctKeys K.eq (swap_without_key K.eq l k) }
    ensures swap_by_index { (l : List (K × V)) → HasDistinctKeys K.eq l → (i : ℕ)
        → HasDistinctKeys K.eq (swap_without l i) }
    ensures front { (l : List (K × V)) → HasDistinctKeys K.eq l → (n : ℕ)
        → HasDistinctKeys K.eq (take n l) }
{}

/// Distinct keys stay distinct in a part of the list, without a part of it, and in the pairs that pass a test.
#[tactic(auto, using(crate::proofs::DistinctKeys::distinct_keys_drop, crate::proofs::DistinctKeys::distinct_keys_slice_range, crate::proofs::DistinctKeys::distinct_keys_remove_range, crate::proofs::DistinctKeys::distinct_keys_filter))]
pub fn parts_keep_keys_distinct<K: Eq, V>()
    ensures back { (l : List (K × V)) → HasDistinctKeys K.eq l → (n : ℕ)
        → HasDistinctKeys K.eq (drop n l) }
    ensures part { (l : List (K × V)) → HasDistinctKeys K.eq l → (i j : ℕ)
        → HasDistinctKeys K.eq (slice_range l i j) }
    ensures without_part { (l : List (K × V)) → HasDistinctKeys K.eq l → (i j : ℕ) → i ≤ j
        → HasDistinctKeys K.eq (remove_range l i j) }
    ensures passing { (l : List (K × V)) → HasDistinctKeys K.eq l → (test : K × V → Bool)
        → HasDistinctKeys K.eq (filter test l) }
{}
