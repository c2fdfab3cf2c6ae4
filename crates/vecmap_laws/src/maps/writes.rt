//! Laws of writes of a value that is found, as through `get_mut`.
ghost use Rattle.std.specs.{Map.IsKeyTest, Prelude.{Bool, IsSome, List, Some, false, true, ◌≡◌}};
ghost use Rattle.vecmap_base.specs.Pairs.{index_by, index_of, lookup, lookup_by, put};
ghost use Rattle.vecmap_map.specs.Contents.{Contents, with_value_by, with_value_of};

/// An insertion of the value that its key already has changes nothing.
///
/// A write of the value of a key that is present, as through `get_mut`, is an insertion.
#[tactic(auto, using(crate::proofs::AfterPuts::put_same, crate::proofs::QueryLemmas::with_value_of_is_put))]
pub fn writes_are_insertions<K: Eq, V>()
    ensures unchanged { (l : List (K × V)) (k : K) (v : V) → lookup K.eq l k ≡ Some v
        → put K.eq l k v ≡ l }
    ensures write { (m : Contents K V) (k : K) (v : V) → IsSome (index_of K.eq m.entries k)
        → (with_value_of K.eq m k v).entries ≡ put K.eq m.entries k v }
{}

/// A write of the value that a query finds is an insertion of each key that the query matches.
///
/// The query then finds the written value. Every query that matches none of these keys finds what it found before.
/// `test` is the test of the query, as in [`queries_find_as_keys`](crate::maps::queries_find_as_keys).
pub fn writes_by_queries_are_insertions<K: Eq, V>()
    ensures write { (test : K → Bool) → IsKeyTest K.eq test → (m : Contents K V) (k : K) (v : V)
        → test k ≡ true → IsSome (index_by test m.entries)
        → (with_value_by test m v).entries ≡ put K.eq m.entries k v }
    ensures value { (test : K → Bool) → IsKeyTest K.eq test → (m : Contents K V) (v : V)
        → IsSome (index_by test m.entries) → lookup_by test (with_value_by test m v).entries ≡ Some v }
    ensures others { (test other : K → Bool) → IsKeyTest K.eq test → IsKeyTest K.eq other
        → ((k : K) → test k ≡ true → other k ≡ false) → (m : Contents K V) (v : V)
        → lookup_by other (with_value_by test m v).entries ≡ lookup_by other m.entries }
{}
