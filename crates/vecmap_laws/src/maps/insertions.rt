//! Laws of what insertions leave: what lookups find, at which indices, and the length.
ghost use Rattle.std.specs.{Iterator.Runs.CollectsByExtend, Map.keys_of, Option.{option_map_or, option_or}};
ghost use Rattle.std.specs.Prelude.{IsSome, List, None, Some, [], false, if◌then◌else◌, insert, is_some, length, min, reverse, slice_get, unwrap_or, ℕ, ◌++◌, ◌+◌, ◌∷◌, ◌≡◌, ◌≤◌};
ghost use Rattle.vecmap_base.specs.Items.{add, adds, item_index};
ghost use Rattle.vecmap_base.specs.Lookups.{MakesPairs};
ghost use Rattle.vecmap_base.specs.Pairs.{HasDistinctKeys, index_of, index_or_length, lookup, put, put_at, put_key, puts, without_key};
ghost use Rattle.vecmap_laws.specs.MapLaws.{put_new, puts_new};
ghost use Rattle.vecmap_map.specs.{Contents.Contents, Entry.{AreEntriesWith, entry_index_of, entry_key, entry_map}, MapBulk.Puts};
ghost use Rattle.vecmap_map.specs.declared.entry.Entry.{Entry};

/// After an insertion, its key finds the new value, and every other key finds what it found before.
///
/// The inserted key keeps its index or is appended. No other key moves, and no stored key changes. Lookups find the
/// same values if the insertion also replaces the stored key.
#[tactic(auto, using(crate::proofs::AfterPuts::index_of_put, vecmap_base::proofs::PairsLemmas::Keys::keys_of_put, vecmap_base::proofs::PairsLemmas::Puts::put_absent, crate::proofs::AfterPuts::length_put))]
pub fn insertions_are_found<K: Eq, V>()
    ensures value { (l : List (K × V)) (k : K) (v : V) → lookup K.eq (put K.eq l k v) k ≡ Some v }
    ensures others { (l : List (K × V)) (k : K) (v : V) (q : K) → K.eq k q ≡ false
        → lookup K.eq (put K.eq l k v) q ≡ lookup K.eq l q }
    ensures lookups { (l : List (K × V)) (k : K) (v : V) (q : K)
        → lookup K.eq (put K.eq l k v) q ≡ (if K.eq k q then Some v else lookup K.eq l q) }
    ensures with_key { (l : List (K × V)) (k : K) (v : V) (q : K)
        → lookup K.eq (put_key K.eq l k v) q ≡ lookup K.eq (put K.eq l k v) q }
    ensures index { (l : List (K × V)) (k : K) (v : V) (q : K)
        → index_of K.eq (put K.eq l k v) q
        ≡ (if K.eq k q then Some (index_or_length K.eq l k) else index_of K.eq l q) }
    ensures keys { (l : List (K × V)) (k : K) (v : V)
        → keys_of (put K.eq l k v) ≡ add K.eq (keys_of l) k }
    ensures appended { (l : List (K × V)) (k : K) (v : V) → index_of K.eq l k ≡ None
        → put K.eq l k v ≡ l ++ (k, v) ∷ [] }
    ensures len { (l : List (K × V)) (k : K) (v : V)
        → length (put K.eq l k v)
        ≡ (if is_some (index_of K.eq l k) then length l else length l + 1) }
{}

/// Many insertions at once are the same as single insertions, in order.
///
/// A lookup finds the last value that the pairs give its key, or else the old one. No key moves, and new keys are
/// appended in order. Pairs of distinct keys become the list of a map if they are inserted into an empty one.
#[tactic(auto, using(crate::proofs::PutLemmas::puts_append, vecmap_base::proofs::PairsLemmas::Keys::keys_of_puts, vecmap_base::proofs::PairsLemmas::ManyPairs::puts_distinct, crate::proofs::TwoParts::lookup_made_last, crate::proofs::TwoParts::index_of_puts_kept, crate::proofs::TwoParts::index_of_puts))]
pub fn bulk_insertions_are_single_ones<K: Eq, V>()
    ensures one { (l : List (K × V)) (p : K × V) (pairs : List (K × V))
        → puts K.eq l (p ∷ pairs) ≡ puts K.eq (put K.eq l p.0 p.1) pairs }
    ensures more { (l pairs others : List (K × V))
        → puts K.eq l (pairs ++ others) ≡ puts K.eq (puts K.eq l pairs) others }
    ensures value { (l pairs : List (K × V)) (q : K)
        → lookup K.eq (puts K.eq l pairs) q
        ≡ option_or (lookup K.eq (puts K.eq [] pairs) q) (lookup K.eq l q) }
    ensures value_distinct { (l pairs : List (K × V)) → HasDistinctKeys K.eq pairs → (q : K)
        → lookup K.eq (puts K.eq l pairs) q ≡ option_or (lookup K.eq pairs q) (lookup K.eq l q) }
    ensures last { (l pairs : List (K × V)) (q : K)
        → lookup K.eq (puts K.eq l pairs) q
        ≡ option_or (lookup K.eq (reverse pairs) q) (lookup K.eq l q) }
    ensures made { (pairs : List (K × V)) (q : K)
        → lookup K.eq (puts K.eq [] pairs) q ≡ lookup K.eq (reverse pairs) q }
    ensures index { (l pairs : List (K × V)) (q : K) (i : ℕ) → index_of K.eq l q ≡ Some i
        → index_of K.eq (puts K.eq l pairs) q ≡ Some i }
    ensures indices { (l pairs : List (K × V)) (q : K)
        → index_of K.eq (puts K.eq l pairs) q
        ≡ item_index K.eq (adds K.eq (keys_of l) (keys_of pairs)) q }
    ensures keys { (l pairs : List (K × V))
        → keys_of (puts K.eq l pairs) ≡ adds K.eq (keys_of l) (keys_of pairs) }
    ensures distinct { (pairs : List (K × V)) → HasDistinctKeys K.eq pairs
        → puts K.eq [] pairs ≡ pairs }
{}

/// An insertion by an entry leaves what `insert` leaves, but a new key may be stored as a clone.
///
/// `or_insert` leaves an existing value as it is.
#[tactic(auto, using(crate::proofs::PutLemmas::entries_with_is_put, crate::proofs::PutLemmas::new_entries_with, vecmap_base::proofs::PairsLemmas::Puts::put_stored))]
pub fn entries_insert_alike<K: Eq + Clone, V>()
    ensures present { (e : Entry K V) (v : V) (l : List (K × V))
        → entry_index_of e ≡ index_of K.eq (entry_map e).entries (entry_key e) → IsSome (entry_index_of e)
        → AreEntriesWith K.is_clone e v l → l ≡ put K.eq (entry_map e).entries (entry_key e) v }
    ensures absent { (e : Entry K V) (v : V) (l : List (K × V)) → entry_index_of e ≡ None
        → AreEntriesWith K.is_clone e v l → (k : K) × K.is_clone (entry_key e) k
        × (l ≡ (entry_map e).entries ++ (k, v) ∷ []) }
    ensures or_insert { (l : List (K × V)) (k : K) (v : V)
        → put K.eq l k (unwrap_or (lookup K.eq l k) v)
        ≡ option_map_or (λ i. l) (index_of K.eq l k) (l ++ (k, v) ∷ []) }
{}

/// After insertions of keys that are absent, a lookup finds the old value of its key, or else the first inserted one.
///
/// `entry(k).or_insert(v)` is such an insertion: a key that is present keeps its value, and a new pair is appended. New
/// keys are appended in order, each once.
#[tactic(auto, using(crate::proofs::FirstValue::put_new_absent, vecmap_base::proofs::PairsLemmas::Keys::keys_of_put, crate::proofs::FirstValue::keys_of_puts_new))]
pub fn first_values_win<K: Eq, V>()
    ensures present { (l : List (K × V)) (k : K) (v w : V) → lookup K.eq l k ≡ Some w
        → put_new K.eq l k v ≡ l }
    ensures absent { (l : List (K × V)) (k : K) (v : V) → index_of K.eq l k ≡ None
        → put_new K.eq l k v ≡ l ++ (k, v) ∷ [] }
    ensures lookups { (l : List (K × V)) (k : K) (v : V) (q : K)
        → lookup K.eq (put_new K.eq l k v) q
        ≡ option_or (lookup K.eq l q) (if K.eq k q then Some v else None) }
    ensures step { (l rest : List (K × V)) (k : K) (v : V) (q : K)
        → option_or (lookup K.eq (put_new K.eq l k v) q) (lookup K.eq rest q)
        ≡ option_or (lookup K.eq l q) (lookup K.eq ((k, v) ∷ rest) q) }
    ensures keys { (l : List (K × V)) (k : K) (v : V)
        → keys_of (put_new K.eq l k v) ≡ add K.eq (keys_of l) k }
    ensures many { (l pairs : List (K × V)) (q : K)
        → lookup K.eq (puts_new K.eq l pairs) q
        ≡ option_or (lookup K.eq l q) (lookup K.eq pairs q) }
    ensures many_keys { (l pairs : List (K × V))
        → keys_of (puts_new K.eq l pairs) ≡ adds K.eq (keys_of l) (keys_of pairs) }
{}

/// After an insertion at an index, its key finds the new value, and every other key finds what it found before.
///
/// This holds for a new key, and for every key if all keys are distinct. The pairs of the other keys keep their order.
/// An index past the end counts as the end.
#[tactic(auto, using(crate::proofs::OtherPairs::put_at_is_insert, crate::proofs::OtherPairs::put_at_past, crate::proofs::OtherPairs::put_back, crate::proofs::PutLemmas::put_at_absent))]
pub fn insertions_at_an_index_are_found<K: Eq, V>()
    ensures new_key { (l : List (K × V)) (i : ℕ) (k : K) (v : V) → index_of K.eq l k ≡ None → (q : K)
        → lookup K.eq (put_at K.eq l i k v) q ≡ (if K.eq k q then Some v else lookup K.eq l q) }
    ensures lookups { (l : List (K × V)) (i : ℕ) (k : K) (v : V) → HasDistinctKeys K.eq l → (q : K)
        → lookup K.eq (put_at K.eq l i k v) q ≡ (if K.eq k q then Some v else lookup K.eq l q) }
    ensures as_insert { (l : List (K × V)) (i : ℕ) (k : K) (v : V) → index_of K.eq l k ≡ None
        → put_at K.eq l i k v ≡ insert l i (k, v) }
    ensures placed { (l : List (K × V)) (i : ℕ) (k : K) (v : V)
        → put_at K.eq l i k v ≡ insert (without_key K.eq l k) i (k, v) }
    ensures past_end { (l : List (K × V)) (i : ℕ) (k : K) (v : V)
        → put_at K.eq l (min i (length l)) k v ≡ put_at K.eq l i k v }
    ensures rest { (l : List (K × V)) → HasDistinctKeys K.eq l → (i : ℕ) (k : K) (v : V)
        → without_key K.eq (put_at K.eq l i k v) k ≡ without_key K.eq l k }
    ensures restored { (l m : List (K × V)) (i : ℕ) (k : K) (v : V) → index_of K.eq l k ≡ Some i
        → slice_get l i ≡ Some (k, v) → without_key K.eq m k ≡ without_key K.eq l k
        → put_at K.eq m i k v ≡ l }
{}

/// Collecting some pairs and extending the map by one more is the same as collecting the longer list.
///
/// The clauses of `try_collect`, `partition` and `unzip` require this of a collection.
pub fn collecting_one_more_is_extending<K: Eq, V>()
    ensures { CollectsByExtend {A = K × V} {B = Contents K V}
        (λ pairs map. MakesPairs K.eq pairs map.entries)
        (λ old pairs new. Puts K.eq old pairs new × (old.capacity ≤ new.capacity)) }
{}
