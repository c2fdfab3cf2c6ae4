//! Laws of what elements and queries find.
ghost use Rattle.std.specs.{List.{IsDistinct, list_any}, Map.IsKeyTest, Set.is_member};
ghost use Rattle.std.specs.Prelude.{Bool, Contains, IsTrue, List, Some, false, if◌then◌else◌, length, position, true, unwrap_or, ◌≡◌};
ghost use Rattle.vecmap_base.specs.{Clones.AreClones, Items.{add, without_first}};

/// If each clone of an element is equal to it, the same elements are present in clones of a list.
///
/// Clones that are the same as their originals, such as clones of numbers, make the same list.
#[tactic(auto, using(vecmap_base::proofs::ItemsLemmas::Changes::is_member_clones))]
pub fn clones_have_the_same_members<T: Eq + Clone>()
    ensures members { (l m : List T)
        → ((x y : T) → Contains l x → T.is_clone x y → IsTrue (T.eq x y))
        → AreClones T.is_clone l m → (x : T) → is_member T.eq m x ≡ is_member T.eq l x }
    ensures same { (l m : List T) → ((x y : T) → T.is_clone x y → y ≡ x)
        → AreClones T.is_clone l m → m ≡ l }
{}

/// A query finds and removes what an element does that it matches. So each law of elements is one of queries.
///
/// `test` is the test of the query, such as `Q.equivalent query`, or `has_text text` for a text and `String` elements
/// ([`texts_are_queries`](crate::sets::texts_are_queries)).
pub fn queries_find_as_elements<T: Eq>()
    ensures same { (test : T → Bool) → IsKeyTest T.eq test → (x : T) → test x ≡ true → test ≡ T.eq x }
    ensures inserted { (test : T → Bool) → IsKeyTest T.eq test → (s : List T) (x : T)
        → test x ≡ true → position test (add T.eq s x)
        ≡ Some (unwrap_or (position test s) (length s)) }
    ensures others { (test : T → Bool) (s : List T) (x : T) → test x ≡ false
        → position test (add T.eq s x) ≡ position test s }
    ensures indices { (test : T → Bool) → IsKeyTest T.eq test → (s : List T) (x : T)
        → position test (add T.eq s x)
        ≡ (if test x then Some (unwrap_or (position test s) (length s)) else position test s) }
    ensures removed { (test : T → Bool) → IsKeyTest T.eq test → (s : List T) → IsDistinct T.eq s
        → list_any test (without_first test s) ≡ false }
{}
