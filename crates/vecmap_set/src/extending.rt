//! The trait `Extend` of a set, for generic code, `try_collect` and `partition`.
//!
//! Each impl calls the inherent function that it names, and promises the same if an allocation fails. Generic code
//! knows only what the trait promises: that the items up to some point were added.
ghost use Rattle.std.specs.{Iterator.{ExtendsWithItems, IsFiniteIterable}, Map.Iter.deref, Prelude.IsOk};
ghost use Rattle.vecmap_base.specs.Bulk.{HasRoomForAll};
ghost use Rattle.vecmap_set.specs.{SetBulk.{Adds, AddsCopies, Extends, GrowsDistinct, RefusesAfter, RefusesCopiesAfter}, SetContents.HasRoom};

use crate::VecSet;
use std::alloc::AllocError;

/// Adds the elements of an iterator in order, like the inherent [`VecSet::extend`].
///
/// # Examples
///
/// ```
/// let set = vecset!(alloc; 1, 2, 3);
/// let (odd, even): (VecSet<u32>, VecSet<u32>) = set.into_iter().partition(alloc, |item| *item % 2 == 1)?;
/// odd.as_slice() // [1, 3]
/// even.as_slice() // [2]
/// ```
impl<T: Eq + Drop> Extend<T> for VecSet<T> {
    ghost extend_gives = { GrowsDistinct T.eq (Adds T.eq) };

    fn extend<I: IntoIterator<Item = T>>(&mut self, iter: I) -> Result<(), AllocError>
        requires ends { IsFiniteIterable I.into_iter_gives I.IntoIter.can_next I.IntoIter.remaining
            iter }
        ensures ran { ExtendsWithItems I.into_iter_gives I.IntoIter.next_gives
            (GrowsDistinct T.eq (Adds T.eq)) iter self.old self.new result }
        ensures succeeds { HasRoomForAll I.into_iter_gives I.IntoIter.remaining iter
            (HasRoom self.old) → IsOk result }
        ensures extended { Extends I.into_iter_gives I.IntoIter.next_gives I.IntoIter.remaining
            T.eq (RefusesAfter T.eq) iter self.old result self.new }
    {
        VecSet::extend(self, iter)
    }
}

/// Adds copies of the elements of an iterator of references, in order, like the inherent [`VecSet::extend_copied`].
///
/// # Examples
///
/// ```
/// let mut set = vecset!(alloc; 1, 2);
/// Extend::extend(&mut set, &[2, 3])?;
/// set.as_slice() // [1, 2, 3]
/// ```
impl<'a, T: Eq + Copy + 'a> Extend<&'a T> for VecSet<T> {
    ghost extend_gives = { GrowsDistinct T.eq (AddsCopies T.eq deref) };

    fn extend<I: IntoIterator<Item = &'a T>>(&mut self, iter: I) -> Result<(), AllocError>
        requires ends { IsFiniteIterable I.into_iter_gives I.IntoIter.can_next I.IntoIter.remaining
            iter }
        ensures ran { ExtendsWithItems I.into_iter_gives I.IntoIter.next_gives
            (GrowsDistinct T.eq (AddsCopies T.eq deref)) iter self.old self.new result }
        ensures succeeds { HasRoomForAll I.into_iter_gives I.IntoIter.remaining iter
            (HasRoom self.old) → IsOk result }
        ensures extended { Extends I.into_iter_gives I.IntoIter.next_gives I.IntoIter.remaining
            T.eq (RefusesCopiesAfter T.eq deref) iter self.old result self.new }
    {
        self.extend_copied(iter)
    }
}
