//! Laws of what additions leave: which elements, at which indices.
ghost use Rattle.std.specs.{Iterator.Runs.CollectsByExtend, List.IsDistinct, Option.option_or, Set.is_member};
ghost use Rattle.std.specs.Prelude.{List, Some, [], false, if◌then◌else◌, length, option_map, slice_get, true, unwrap_or, ℕ, ◌++◌, ◌+◌, ◌<◌, ◌∷◌, ◌≡◌, ◌≤◌};
ghost use Rattle.vecmap_base.specs.Items.{add, adds, item_index, only};
ghost use Rattle.vecmap_set.specs.{SetBulk.{Adds, AddsItems}, SetContents.Contents};

/// An addition moves no element.
///
/// An added element has the index of the existing element that is equal to it, or the last index. All other elements
/// keep their indices. If an equal element is present, the addition changes nothing; otherwise the new element is
/// appended.
#[tactic(auto, using(crate::proofs::ItemLemmas::item_index_add, crate::proofs::ItemLemmas::slice_get_add, vecmap_base::proofs::ItemsLemmas::Additions::add_present, vecmap_base::proofs::ItemsLemmas::Additions::add_absent))]
pub fn additions_move_nothing<T: Eq>()
    ensures index { (s : List T) (x y : T)
        → item_index T.eq (add T.eq s x) y
        ≡ (if T.eq x y then Some
        (unwrap_or (item_index T.eq s x) (length s)) else item_index T.eq s y) }
    ensures element { (s : List T) (x : T) (i : ℕ) → i < length s
        → slice_get (add T.eq s x) i ≡ slice_get s i }
    ensures present { (s : List T) (x : T) → is_member T.eq s x ≡ true → add T.eq s x ≡ s }
    ensures appended { (s : List T) (x : T) → is_member T.eq s x ≡ false → add T.eq s x ≡ s ++ x ∷ [] }
{}

/// Adding many elements is the same as adding each of them in order. Distinct elements that are added to an empty set
/// are its list.
#[tactic(auto, using(crate::proofs::ItemLemmas::adds_append, vecmap_base::proofs::ItemsLemmas::Additions::adds_distinct))]
pub fn bulk_additions_are_single_ones<T: Eq>()
    ensures one { (s : List T) (x : T) (xs : List T)
        → adds T.eq s (x ∷ xs) ≡ adds T.eq (add T.eq s x) xs }
    ensures more { (s xs ys : List T) → adds T.eq s (xs ++ ys) ≡ adds T.eq (adds T.eq s xs) ys }
    ensures distinct { (xs : List T) → IsDistinct T.eq xs → adds T.eq [] xs ≡ xs }
{}

/// Many additions move no element.
///
/// An element that is present keeps its index. The new elements that are absent are appended, each once and in order.
#[tactic(auto, using(crate::proofs::ItemLemmas::adds_as_append, crate::proofs::ItemLemmas::slice_get_adds, crate::proofs::ItemLemmas::item_index_adds_kept, crate::proofs::ItemLemmas::item_index_adds))]
pub fn bulk_additions_move_nothing<T: Eq>()
    ensures appended { (s xs : List T) → adds T.eq s xs ≡ s ++ adds T.eq [] (only T.eq xs s) }
    ensures element { (s xs : List T) (i : ℕ) → i < length s
        → slice_get (adds T.eq s xs) i ≡ slice_get s i }
    ensures index { (s xs : List T) (x : T) (i : ℕ) → item_index T.eq s x ≡ Some i
        → item_index T.eq (adds T.eq s xs) x ≡ Some i }
    ensures indices { (s xs : List T) (x : T)
        → item_index T.eq (adds T.eq s xs) x
        ≡ option_or (item_index T.eq s x) (option_map (λ i. length s + i)
        (item_index T.eq (adds T.eq [] (only T.eq xs s)) x)) }
{}

/// A collected set, extended by one more element, is the set that is collected from the longer list.
///
/// The clauses of `try_collect`, `partition` and `unzip` require this of the collection.
pub fn collecting_one_more_is_extending<T: Eq>()
    ensures { CollectsByExtend {A = T} {B = Contents T}
        (λ items set. AddsItems T.eq [] items set.elements × IsDistinct T.eq set.elements)
        (λ old items new. Adds T.eq old items new × IsDistinct T.eq new.elements
        × (old.capacity ≤ new.capacity)) }
{}
