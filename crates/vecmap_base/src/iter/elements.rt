//! The iterators over a set's elements, by reference and by value.
ghost use Rattle.std.specs.Map.Iter.{deref};
ghost use Rattle.vecmap_base.specs.Iterators.{GivesAll, ShowsAll};

use crate::iter::{IntoIterOf, IterOf};
use crate::projection::Element;

/// An iterator over the elements of a set, each as `&T`, in their order.
///
/// `VecSet::iter` and `(&set).into_iter()` create it.
///
/// # Examples
///
/// ```
/// let set = vecset!(alloc; 1, 2);
/// let mut items = set.iter();
/// items.next() // Some(&1)
/// items.len() // 1
/// ```
pub type Iter<'a, T> = IterOf<'a, T, T, Element>;

impl<'a, T> Iter<'a, T> {
    /// Creates an iterator over the items of a slice, from the first to the last.
    ///
    /// # Examples
    ///
    /// ```
    /// let mut items = Iter::over(&[1, 2]);
    /// items.next_back() // Some(&2)
    /// ```
    pub fn over(items: &'a [T]) -> Iter<'a, T>
        ensures { ShowsAll deref items.now result }
    {
        Iter::over_items(items)
    }
}

/// An iterator over the elements of a set, each as `T`, in their order.
///
/// `set.into_iter()` creates it. If the iterator is dropped, the elements that are left are dropped too.
///
/// # Examples
///
/// ```
/// let set = vecset!(alloc; 1, 2);
/// let mut items = set.into_iter();
/// items.next_back() // Some(2)
/// items.len() // 1
/// ```
pub type IntoIter<T> = IntoIterOf<T, T, Element>;

impl<T> IntoIter<T> {
    /// Creates an iterator over the items of a vector, from the first to the last. Does not allocate.
    ///
    /// # Examples
    ///
    /// ```
    /// let set = vecset!(alloc; 1, 2);
    /// let mut items = IntoIter::over(set.into_vec());
    /// items.next() // Some(1)
    /// ```
    pub fn over(items: Vec<T>) -> IntoIter<T>
        ensures { GivesAll items.items result }
    {
        IntoIter::over_items(items)
    }
}
