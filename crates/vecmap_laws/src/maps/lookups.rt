//! Laws of what keys and queries find.
ghost use Rattle.std.specs.{Map.IsKeyTest, Prelude.{Bool, List, None, Some, false, if◌then◌else◌, is_some, slice_get, true, ℕ, ◌≡◌}};
ghost use Rattle.vecmap_base.specs.Pairs.{HasDistinctKeys, index_of, lookup, lookup_by, put, without_by};

/// Equal keys have the same value and the same index. A lookup finds a value exactly if its key has an index, and finds
/// the value at this index.
#[tactic(auto, using(crate::proofs::LookupLemmas::lookup_congr, crate::proofs::AfterPuts::index_of_congr, crate::proofs::AfterPuts::is_some_lookup, crate::proofs::AfterPuts::lookup_at))]
pub fn equal_keys_find_the_same<K: Eq, V>()
    ensures value { (l : List (K × V)) (x y : K) → K.eq x y ≡ true
        → lookup K.eq l x ≡ lookup K.eq l y }
    ensures index { (l : List (K × V)) (x y : K) → K.eq x y ≡ true
        → index_of K.eq l x ≡ index_of K.eq l y }
    ensures present { (l : List (K × V)) (k : K)
        → is_some (lookup K.eq l k) ≡ is_some (index_of K.eq l k) }
    ensures at_index { (l : List (K × V)) (k : K) (i : ℕ) (q : K) (v : V)
        → index_of K.eq l k ≡ Some i → slice_get l i ≡ Some (q, v) → lookup K.eq l k ≡ Some v }
{}

/// A query finds and removes what a key does that it matches. So each law of keys is one of queries.
///
/// `test` is the test of the query, such as `Q.equivalent query`, or `has_text text` for a text and `String` keys
/// ([`texts_are_queries`](crate::maps::texts_are_queries)).
pub fn queries_find_as_keys<K: Eq, V>()
    ensures same { (test : K → Bool) → IsKeyTest K.eq test → (k : K) → test k ≡ true → test ≡ K.eq k }
    ensures inserted { (test : K → Bool) → IsKeyTest K.eq test → (l : List (K × V)) (k : K) (v : V)
        → test k ≡ true → lookup_by test (put K.eq l k v) ≡ Some v }
    ensures others { (test : K → Bool) → IsKeyTest K.eq test → (l : List (K × V)) (k : K) (v : V)
        → test k ≡ false → lookup_by test (put K.eq l k v) ≡ lookup_by test l }
    ensures lookups { (test : K → Bool) → IsKeyTest K.eq test → (l : List (K × V)) (k : K) (v : V)
        → lookup_by test (put K.eq l k v) ≡ (if test k then Some v else lookup_by test l) }
    ensures removed { (test : K → Bool) → IsKeyTest K.eq test → (l : List (K × V))
        → HasDistinctKeys K.eq l → lookup_by test (without_by test l) ≡ None }
{}
