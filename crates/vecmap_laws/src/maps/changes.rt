//! Laws of what programs do to lists: changes that are taken back, selections, and sums of the values.
ghost use Rattle.std.specs.{List.sum_by, Map.values_of, Option.{option_and_then, option_map_or}};
ghost use Rattle.std.specs.Prelude.{Bool, List, None, Some, filter, if◌then◌else◌, length, remove, slice_get, true, ℕ, ◌+◌, ◌<◌, ◌≡◌};
ghost use Rattle.vecmap_base.specs.Items.{moved};
ghost use Rattle.vecmap_base.specs.Pairs.{HasDistinctKeys, lookup, lookup_by, put, put_at, without_by, without_key};

/// A change that is taken back leaves the list as it was, in its order.
///
/// A write is taken back by the old value, the insertion of a new key by its removal, a removal by an insertion at the
/// same index, and a move by the move in the other direction.
#[tactic(auto, using(crate::proofs::Undone::undone))]
pub fn changes_are_undone<K: Eq, V>()
    ensures written { (l : List (K × V)) (k : K) (v w : V) → lookup K.eq l k ≡ Some w
        → put K.eq (put K.eq l k v) k w ≡ l }
    ensures added { (l : List (K × V)) (k : K) (v : V) → lookup K.eq l k ≡ None
        → without_key K.eq (put K.eq l k v) k ≡ l }
    ensures placed { (l : List (K × V)) (i : ℕ) (k : K) (v : V) → HasDistinctKeys K.eq l
        → lookup K.eq l k ≡ None → without_key K.eq (put_at K.eq l i k v) k ≡ l }
    ensures removed { (l : List (K × V)) (i : ℕ) (k : K) (v : V) → HasDistinctKeys K.eq l
        → slice_get l i ≡ Some (k, v) → put_at K.eq (remove l i) i k v ≡ l }
    ensures reordered { (l : List (K × V)) (from to : ℕ) → from < length l → to < length l
        → moved (moved l from to) to from ≡ l }
{}

/// A lookup in the pairs that a test selects finds what it found before, if the test selects that pair.
///
/// The test must not tell equal keys apart. If it reads the values, the keys must be distinct.
#[tactic(auto, using(crate::proofs::KeptByTest::lookup_filter, crate::proofs::KeptByTest::lookup_filter_keys))]
pub fn filters_keep_lookups<K: Eq, V>()
    ensures by_pair { (test : K × V → Bool)
        → ((x y : K) (v : V) → K.eq x y ≡ true → test (x, v) ≡ test (y, v))
        → (l : List (K × V)) → HasDistinctKeys K.eq l → (q : K) → lookup K.eq (filter test l) q
        ≡ option_and_then (λ v. if test (q, v) then Some v else None) (lookup K.eq l q) }
    ensures by_key { (test : K → Bool) → ((x y : K) → K.eq x y ≡ true → test x ≡ test y)
        → (l : List (K × V)) (q : K) → lookup K.eq (filter (λ p. test p.0) l) q
        ≡ (if test q then lookup K.eq l q else None) }
{}

/// A sum over the values has the new value in place of the old one after an insertion, and lacks it after a removal.
///
/// With `λ v. v` for `g` it is the sum of the values.
pub fn sums_follow_changes<K: Eq, V>()
    ensures put { (g : V → ℕ) (l : List (K × V)) (k : K) (v : V)
        → sum_by g (values_of (put K.eq l k v)) + option_map_or g (lookup K.eq l k) 0
        ≡ sum_by g (values_of l) + g v }
    ensures removal { (g : V → ℕ) (test : K → Bool) (l : List (K × V))
        → sum_by g (values_of (without_by test l)) + option_map_or g (lookup_by test l) 0
        ≡ sum_by g (values_of l) }
{}
