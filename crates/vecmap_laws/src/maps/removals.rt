//! Laws of what removals leave: what lookups find, at which indices, and the length.
ghost use Rattle.std.specs.Map.{keys_of};
ghost use Rattle.std.specs.Prelude.{List, None, Some, drop, false, if◌then◌else◌, insert, is_some, length, remove, slice_get, take, ℕ, [], ◌++◌, ◌+◌, ◌-◌, ◌<◌, ◌∷◌, ◌≡◌};
ghost use Rattle.vecmap_base.specs.Items.{swap_without, without_item};
ghost use Rattle.vecmap_base.specs.Pairs.{HasDistinctKeys, index_of, lookup, put, put_at, puts, swap_without_key, with_pair, without_key};

/// If all keys are distinct, a key is absent after its removal, and every other key finds what it found before.
///
/// The remaining pairs keep their order, unless the last pair is swapped in. The removal of an absent key changes
/// nothing.
#[tactic(auto, using(crate::proofs::Inserted::without_key_at, crate::proofs::OtherPairs::without_absent, crate::proofs::OtherPairs::without_not_found, crate::proofs::OtherPairs::swap_without_absent, crate::proofs::AfterPuts::index_of_without_key, crate::proofs::OneMore::keys_of_without_key))]
pub fn removals_are_forgotten<K: Eq, V>()
    ensures value { (l : List (K × V)) → HasDistinctKeys K.eq l → (k : K)
        → lookup K.eq (without_key K.eq l k) k ≡ None }
    ensures others { (l : List (K × V)) (k q : K) → K.eq k q ≡ false
        → lookup K.eq (without_key K.eq l k) q ≡ lookup K.eq l q }
    ensures lookups { (l : List (K × V)) → HasDistinctKeys K.eq l → (k q : K)
        → lookup K.eq (without_key K.eq l k) q ≡ (if K.eq k q then None else lookup K.eq l q) }
    ensures swap { (l : List (K × V)) → HasDistinctKeys K.eq l → (k q : K)
        → lookup K.eq (swap_without_key K.eq l k) q
        ≡ (if K.eq k q then None else lookup K.eq l q) }
    ensures absent { (l : List (K × V)) → HasDistinctKeys K.eq l → (k : K)
        → index_of K.eq (without_key K.eq l k) k ≡ None }
    ensures keys { (l : List (K × V)) (k : K)
        → keys_of (without_key K.eq l k) ≡ without_item K.eq (keys_of l) k }
    ensures shifted { (l : List (K × V)) (k : K) (i : ℕ) → index_of K.eq l k ≡ Some i
        → without_key K.eq l k ≡ take i l ++ drop (i + 1) l }
    ensures unchanged { (l : List (K × V)) (k : K) → index_of K.eq l k ≡ None
        → without_key K.eq l k ≡ l }
    ensures not_found { (l : List (K × V)) (k : K) → lookup K.eq l k ≡ None
        → without_key K.eq l k ≡ l }
    ensures swap_unchanged { (l : List (K × V)) (k : K) → index_of K.eq l k ≡ None
        → swap_without_key K.eq l k ≡ l }
{}

/// A removal of a pair that is present makes the list shorter by one. The removal of an absent key leaves its length.
pub fn removals_shorten<K: Eq, V>()
    ensures shift { (l : List (K × V)) (k : K) → length (without_key K.eq l k)
        ≡ (if is_some (index_of K.eq l k) then length l - 1 else length l) }
    ensures swap { (l : List (K × V)) (k : K) → length (swap_without_key K.eq l k)
        ≡ (if is_some (index_of K.eq l k) then length l - 1 else length l) }
    ensures by_index { (l : List (K × V)) (i : ℕ) (k : K) (v : V) → slice_get l i ≡ Some (k, v)
        → length (remove l i) ≡ length l - 1 }
    ensures swap_by_index { (l : List (K × V)) (i : ℕ) (k : K) (v : V) → slice_get l i ≡ Some (k, v)
        → length (swap_without l i) ≡ length l - 1 }
{}

/// A pair that is inserted where one was removed replaces it. An absent key stays absent after a removal.
///
/// The removal of a key is the removal of the pair at its index.
#[tactic(auto, using(crate::proofs::Inserted::insert_where_removed, crate::proofs::Inserted::put_at_where_removed, crate::proofs::Inserted::index_of_removed_absent, crate::proofs::Inserted::without_key_at))]
pub fn removals_by_index_are_undone<K: Eq, V>()
    ensures replaced { (l : List (K × V)) (i : ℕ) (k : K) (v : V) → i < length l
        → insert (remove l i) i (k, v) ≡ with_pair l i k v }
    ensures renamed { (l : List (K × V)) (i : ℕ) (k : K) (v : V) → i < length l
        → index_of K.eq l k ≡ None → put_at K.eq (remove l i) i k v ≡ with_pair l i k v }
    ensures absent { (l : List (K × V)) (i : ℕ) (q : K) → index_of K.eq l q ≡ None
        → index_of K.eq (remove l i) q ≡ None }
    ensures own_key { (l : List (K × V)) → HasDistinctKeys K.eq l → (i : ℕ) (k : K) (v : V)
        → slice_get l i ≡ Some (k, v) → index_of K.eq (remove l i) k ≡ None }
    ensures by_key { (l : List (K × V)) (k : K) (i : ℕ) → index_of K.eq l k ≡ Some i
        → without_key K.eq l k ≡ remove l i }
{}

/// If all keys are distinct, removing a pair and inserting it at another index moves it there. Lookups do not change.
///
/// A pair that is removed and inserted without an index is last.
pub fn moves_keep_lookups<K: Eq, V>()
    ensures moved { (l : List (K × V)) → HasDistinctKeys K.eq l → (i j : ℕ) (k : K) (v : V)
        → slice_get l i ≡ Some (k, v) → put_at K.eq (remove l i) j k v ≡ insert (remove l i) j (k, v) }
    ensures lookups { (l : List (K × V)) → HasDistinctKeys K.eq l → (i j : ℕ) (k : K) (v : V)
        → slice_get l i ≡ Some (k, v) → (q : K)
        → lookup K.eq (put_at K.eq (remove l i) j k v) q ≡ lookup K.eq l q }
    ensures last { (l : List (K × V)) → HasDistinctKeys K.eq l → (i : ℕ) (k : K) (v : V)
        → index_of K.eq l k ≡ Some i
        → put K.eq (remove l i) k v ≡ without_key K.eq l k ++ (k, v) ∷ [] }
{}

/// If all keys are distinct, a list that is split is whole again once the second part is appended to the first.
#[tactic(auto, using(crate::proofs::PutLemmas::puts_restore))]
pub fn appending_undoes_splitting<K: Eq, V>()
    ensures { (l : List (K × V)) → HasDistinctKeys K.eq l → (at : ℕ)
        → puts K.eq (take at l) (drop at l) ≡ l }
{}
