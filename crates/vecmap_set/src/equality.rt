//! Equality of sets, disjoint sets, subsets and supersets.
ghost use Rattle.std.specs.{List.list_any, Map.IsKeyTest, Prelude.{◌≡◌, ◌↔◌, ◌≤◌, Bool, IsTrue, [], false, length}, Set.is_member};
ghost use Rattle.vecmap_base.specs.{Equality.{has_same_items, is_within}, Items.both};
ghost use Rattle.vecmap_set.specs.SetBulk.{HaveSameItems};

use crate::VecSet;
use vecmap_base::{are_disjoint, is_subset_of};

impl<T: Eq> VecSet<T> {
    /// Returns `true` if the sets have no element in common.
    ///
    /// # Complexity
    ///
    /// At most as many comparisons as the product of the lengths. The elements of the shorter set are looked up in the
    /// other, up to the first that is found.
    ///
    /// # Examples
    ///
    /// ```
    /// let set = vecset!(alloc; 1, 2);
    /// set.is_disjoint(&vecset!(alloc; 3, 4)) // true
    /// ```
    #[tactic(auto, using(vecmap_base::proofs::EqualityLemmas::Sets::apart_if_none_shared, vecmap_base::proofs::EqualityLemmas::Sets::none_shared_if_apart, crate::proofs::SetLemmas::queries_apart))]
    pub fn is_disjoint(&self, other: &VecSet<T>) -> bool
        ensures value { IsTrue result ↔ (both T.eq self.now.elements other.now.elements ≡ []) }

        // What follows for lookups, lengths and indices.
        ensures members { IsTrue result → (q : T) → IsTrue (is_member T.eq self.now.elements q)
            → is_member T.eq other.now.elements q ≡ false }
        ensures queries { IsTrue result → (test : T → Bool) → IsKeyTest T.eq test
            → IsTrue (list_any test self.now.elements) → list_any test other.now.elements ≡ false }
        ensures holds { ((q : T) → IsTrue (is_member T.eq self.now.elements q)
            → is_member T.eq other.now.elements q ≡ false) → IsTrue result }
    {
        if self.len() <= other.len() {
            are_disjoint(&self.items, &other.items)
        } else {
            are_disjoint(&other.items, &self.items)
        }
    }

    /// Returns `true` if each element of this set is in `other`.
    ///
    /// # Complexity
    ///
    /// No comparisons if this set is longer. Otherwise at most as many as the product of the lengths, and two more for
    /// each element: each is looked up in `other`, up to the first that is not found. Among eight elements or more, the
    /// two behind the one met before come first, so if the sets have the same order, or almost, the number is linear.
    ///
    /// # Examples
    ///
    /// ```
    /// let set = vecset!(alloc; 1, 2);
    /// set.is_subset(&vecset!(alloc; 2, 3, 1)) // true
    /// ```
    #[tactic(auto, using(vecmap_base::proofs::EqualityLemmas::Sets::longer_not_within, vecmap_base::proofs::EqualityLemmas::Sets::test_from_within, vecmap_base::proofs::EqualityLemmas::Sets::within_from_test, crate::proofs::SetLemmas::queries_within))]
    pub fn is_subset(&self, other: &VecSet<T>) -> bool
        ensures value { result ≡ is_within T.eq self.now.elements other.now.elements }

        // What follows for lookups, lengths and indices.
        ensures members { IsTrue result → (q : T) → IsTrue (is_member T.eq self.now.elements q)
            → IsTrue (is_member T.eq other.now.elements q) }
        ensures queries { IsTrue result → (test : T → Bool) → IsKeyTest T.eq test
            → IsTrue (list_any test self.now.elements) → IsTrue (list_any test other.now.elements) }
        ensures holds { ((q : T) → IsTrue (is_member T.eq self.now.elements q)
            → IsTrue (is_member T.eq other.now.elements q)) → IsTrue result }
        ensures len { IsTrue result → length self.now.elements ≤ length other.now.elements }
    {
        let (items, others) = (self.as_slice(), other.as_slice());
        if items.len() > others.len() {
            return false;
        }
        is_subset_of(items, others)
    }

    /// Returns `true` if each element of `other` is in this set.
    ///
    /// # Complexity
    ///
    /// No comparisons if this set is shorter. Otherwise as many as `other.is_subset(self)`.
    ///
    /// # Examples
    ///
    /// ```
    /// let set = vecset!(alloc; 1, 2);
    /// set.is_superset(&vecset!(alloc; 2)) // true
    /// ```
    pub fn is_superset(&self, other: &VecSet<T>) -> bool
        ensures value { result ≡ is_within T.eq other.now.elements self.now.elements }

        // What follows for lookups, lengths and indices.
        ensures members { IsTrue result → (q : T) → IsTrue (is_member T.eq other.now.elements q)
            → IsTrue (is_member T.eq self.now.elements q) }
        ensures queries { IsTrue result → (test : T → Bool) → IsKeyTest T.eq test
            → IsTrue (list_any test other.now.elements) → IsTrue (list_any test self.now.elements) }
        ensures holds { ((q : T) → IsTrue (is_member T.eq other.now.elements q)
            → IsTrue (is_member T.eq self.now.elements q)) → IsTrue result }
        ensures len { IsTrue result → length other.now.elements ≤ length self.now.elements }
    {
        other.is_subset(self)
    }
}

/// Two sets are equal if each element of either set is in the other. The order makes no difference.
///
/// # Complexity
///
/// No comparisons if the lengths differ. Otherwise as many as `is_subset` makes: at most the product of the lengths and
/// two more for each element, and for sets in the same order a number that is linear.
///
/// # Examples
///
/// ```
/// let set = vecset!(alloc; 1, 2);
/// set == vecset!(alloc; 2, 1) // true
/// ```
impl<T: Eq> PartialEq for VecSet<T> {
    ghost use Rattle.std.specs.Cmp.{partial_equiv_from_equiv};
    ghost use Rattle.std.proofs.lemmas.Cmp.{on_equiv};
    ghost use Rattle.vecmap_base.specs.Equality.{has_same_items};
    ghost use Rattle.vecmap_base.proofs.EqualityLemmas.Sets.{set_equality_laws};

    ghost eq = { λ a b. has_same_items T.eq a.elements b.elements };

    ghost laws = { partial_equiv_from_equiv
        (on_equiv (λ set. set.elements) (set_equality_laws T.eq T.Eq.laws)) };

    #[tactic(auto, using(crate::proofs::SetLemmas::set_equality, crate::proofs::SetLemmas::have_same_items))]
    fn eq(&self, other: &VecSet<T>) -> bool
        ensures value { result ≡ has_same_items T.eq self.now.elements other.now.elements }

        // What follows for lookups, lengths and indices.
        ensures equal { IsTrue result → HaveSameItems T.eq self.now.elements other.now.elements }
    {
        let (items, others) = (self.as_slice(), other.as_slice());
        if items.len() != others.len() {
            return false;
        }
        is_subset_of(items, others)
    }
}

impl<T: Eq> Eq for VecSet<T> {
    ghost use Rattle.std.proofs.lemmas.Cmp.{on_equiv};
    ghost use Rattle.vecmap_base.proofs.EqualityLemmas.Sets.{set_equality_laws};

    ghost laws = { on_equiv (λ set. set.elements) (set_equality_laws T.eq T.Eq.laws) };
}
