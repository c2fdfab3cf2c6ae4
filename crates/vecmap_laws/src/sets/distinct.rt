//! The law of distinct elements.
ghost use Rattle.std.specs.{List.{IsDistinct, remove_range}, Prelude.{Bool, List, drop, filter, slice_range, take, ℕ, ◌≤◌}};

/// Distinct elements stay distinct in a part of the list, without a part of it, and among those that pass a test.
pub fn parts_keep_elements_distinct<T: Eq>()
    ensures front { (s : List T) → IsDistinct T.eq s → (n : ℕ) → IsDistinct T.eq (take n s) }
    ensures back { (s : List T) → IsDistinct T.eq s → (n : ℕ) → IsDistinct T.eq (drop n s) }
    ensures part { (s : List T) → IsDistinct T.eq s → (i j : ℕ)
        → IsDistinct T.eq (slice_range s i j) }
    ensures without_part { (s : List T) → IsDistinct T.eq s → (i j : ℕ) → i ≤ j
        → IsDistinct T.eq (remove_range s i j) }
    ensures passing { (s : List T) → IsDistinct T.eq s → (test : T → Bool)
        → IsDistinct T.eq (filter test s) }
{}
