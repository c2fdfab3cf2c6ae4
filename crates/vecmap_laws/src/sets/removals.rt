//! Laws of what removals leave: which elements, and the length.
ghost use Rattle.std.specs.{List.IsDistinct, Prelude.{Bool, List, drop, filter, take, ℕ, ◌-◌, ◌≡◌}};
ghost use Rattle.vecmap_base.specs.{FnMutCalls.CallsAtItem, Items.adds, Kept.{Kept, TestsItems}};

/// `retain` leaves the elements that pass a test, if the closure returns the result of the test.
///
/// In `filtered` the closure stays in its state, such as the values that it captures. In `filtered_by_states` its state
/// may change, but not the test.
#[tactic(auto, using(vecmap_base::proofs::PairsLemmas::Retained::filter_kept, crate::proofs::KeptByTest::kept_by_states))]
pub fn retain_filters<T, F: FnMut(&T) -> bool>(_keep: &F)
    ensures filtered { (f g : F) (l m : List T) (test : T → Bool)
        → TestsItems (CallsAtItem F.FnMut) f test → Kept (CallsAtItem F.FnMut) f l m g
        → m ≡ filter test l }
    ensures filtered_by_states { (f g : F) (l m : List T) (test : F → T → Bool)
        → ((z : F) (x : T) (b : Bool) (y : T) (w : F) → CallsAtItem F.FnMut z x b y w
        → (b ≡ test z x) × (y ≡ x) × ((u : T) → test w u ≡ test z u))
        → Kept (CallsAtItem F.FnMut) f l m g → m ≡ filter (test f) l }
{}

/// A list of a set that is split is whole again once the second part is appended to the first.
pub fn appending_undoes_splitting<T: Eq>()
    ensures { (l : List T) → IsDistinct T.eq l → (at : ℕ) → adds T.eq (take at l) (drop at l) ≡ l }
{}
