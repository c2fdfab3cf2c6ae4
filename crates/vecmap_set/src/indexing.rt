//! `set[index]`: the element at an index.
ghost use Rattle.std.specs.Prelude.{◌≡◌, ◌<◌, Some, length, slice_get};

use crate::VecSet;
use std::ops::Index;

/// Returns the element at `index`. This is `set[index]`.
///
/// # Preconditions
///
/// The index is less than [`VecSet::len`].
///
/// # Examples
///
/// ```
/// let set = vecset!(alloc; 2, 1);
/// # assert!(*rt; 1 < set.len());
/// set[1] // 1
/// ```
impl<T: Eq> Index<usize> for VecSet<T> {
    type Output = T;

    ghost can_index = { λ set index. index < length set.elements };

    ghost index_gives = { λ set index element. slice_get set.elements index ≡ Some element };

    fn index(&self, index: usize) -> &T {
        &self.items[index]
    }
}
