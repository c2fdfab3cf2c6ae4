//! Iterators over the elements.
//!
//! A contract sees an iterator as the list of its remaining items. Each iterator knows its exact length and yields
//! items from both ends. After its last item it returns only `None`. Creating one takes constant time and does not
//! allocate.
ghost use Rattle.std.specs.{List.IsDistinct, Map.Iter.deref};
ghost use Rattle.vecmap_base.specs.Iterators.{GivesAll, ShowsAll};

use crate::VecSet;
use vecmap_base::items::{IntoIter, Iter};

impl<T: Eq> VecSet<T> {
    /// Returns an iterator over the elements, in order. They are distinct.
    ///
    /// `iter().rev()` iterates backwards.
    ///
    /// # Examples
    ///
    /// ```
    /// let set = vecset!(alloc; 2, 1);
    /// set.iter().next() // Some(&2)
    /// set.iter().next_back() // Some(&1)
    /// ```
    pub fn iter(&self) -> Iter<'_, T>
        ensures rest { ShowsAll deref self.now.elements result × IsDistinct T.eq result }
    {
        Iter::over(&self.items)
    }
}

/// Returns an iterator over the elements, like [`VecSet::iter`]. This is `for element in &set`.
///
/// # Examples
///
/// ```
/// let set = vecset!(alloc; 2, 1);
/// let mut last = 0;
/// for item in &set {
///     last = *item;
/// }
/// last // 1
/// ```
impl<'a, T: Eq> IntoIterator for &'a VecSet<T> {
    type Item = &'a T;

    type IntoIter = Iter<'a, T>;

    ghost into_iter_gives = { λ set iter. ShowsAll deref set.now.elements iter
        × IsDistinct T.eq iter };

    fn into_iter(self) -> Iter<'a, T> {
        self.iter()
    }
}

/// Returns an iterator over the elements by value, in order. This is `for element in set`.
///
/// # Examples
///
/// ```
/// let set = vecset!(alloc; 2, 1);
/// set.into_iter().next() // Some(2)
/// ```
impl<T: Eq + Drop> IntoIterator for VecSet<T> {
    type Item = T;

    type IntoIter = IntoIter<T>;

    ghost into_iter_gives = { λ set iter. GivesAll set.elements iter × IsDistinct T.eq iter };

    fn into_iter(self) -> IntoIter<T> {
        IntoIter::over(self.into_vec())
    }
}
