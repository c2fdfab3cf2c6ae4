//! The trait `Extend` of a map, for generic code, `try_collect` and `partition`.
//!
//! Each impl calls the inherent function that it names, and promises the same if an allocation fails. Generic code
//! knows only what the trait promises: that the items up to some point were inserted.
ghost use Rattle.std.specs.{Iterator.{ExtendsWithItems, IsFiniteIterable}, Map.Iter.{deref, deref_pair}, Prelude.IsOk};
ghost use Rattle.vecmap_base.specs.{Bulk.{HasRoomForAll, HoldsOfEach}, Clones.ClonesSucceed};
ghost use Rattle.vecmap_map.specs.{Contents.HasRoom, MapBulk.{Extends, Grows, Puts, PutsClones, RefusesAfter, RefusesClonesAfter}};

use crate::VecMap;
use std::alloc::AllocError;

/// Inserts the pairs of an iterator in order, like the inherent [`VecMap::extend`], with its errors and its precondition.
///
/// # Examples
///
/// ```
/// let map = vecmap!(alloc; 'a' => 1, 'b' => 2);
/// let (odd, even): (VecMap<char, u32>, VecMap<char, u32>) =
///     map.into_iter().partition(alloc, |pair| pair.1 % 2 == 1)?;
/// odd.as_slice() // [('a', 1)]
/// even.as_slice() // [('b', 2)]
/// ```
impl<K: Eq + Drop, V: Drop> Extend<(K, V)> for VecMap<K, V> {
    ghost extend_gives = { Grows (Puts K.eq) };

    fn extend<I: IntoIterator<Item = (K, V)>>(&mut self, iter: I) -> Result<(), AllocError>
        requires ends { IsFiniteIterable I.into_iter_gives I.IntoIter.can_next I.IntoIter.remaining
            iter }
        ensures ran { ExtendsWithItems I.into_iter_gives I.IntoIter.next_gives
            (Grows (Puts K.eq)) iter self.old self.new result }
        ensures succeeds { HasRoomForAll I.into_iter_gives I.IntoIter.remaining iter
            (HasRoom self.old) → IsOk result }
        ensures extended { Extends I.into_iter_gives I.IntoIter.next_gives I.IntoIter.remaining
            K.eq (RefusesAfter K.eq) iter self.old result self.new }
    {
        VecMap::extend(self, iter)
    }
}

/// Inserts clones of the keys and values of an iterator of references, in order, like the inherent
/// [`VecMap::extend_refs`], with its errors and its precondition.
///
/// # Examples
///
/// ```
/// let mut map = vecmap!(alloc; 'a' => 1, 'b' => 2);
/// let other = vecmap!(alloc; 'b' => 1, 'a' => 2);
/// Extend::extend(&mut map, other.iter())?;
/// map.as_slice() // [('a', 2), ('b', 1)]
/// ```
impl<'a, K: Eq + Clone + 'a, V: Clone + 'a> Extend<(&'a K, &'a V)> for VecMap<K, V> {
    ghost extend_gives = { Grows (PutsClones K.eq K.is_clone V.is_clone deref_pair) };

    fn extend<I: IntoIterator<Item = (&'a K, &'a V)>>(&mut self, iter: I) -> Result<(), AllocError>
        requires ends { IsFiniteIterable I.into_iter_gives I.IntoIter.can_next I.IntoIter.remaining
            iter }
        ensures ran { ExtendsWithItems I.into_iter_gives I.IntoIter.next_gives (Grows
            (PutsClones K.eq K.is_clone V.is_clone deref_pair)) iter self.old self.new result }
        ensures succeeds { HasRoomForAll I.into_iter_gives I.IntoIter.remaining iter
            (HasRoom self.old) → HoldsOfEach I.into_iter_gives I.IntoIter.next_gives iter
            (ClonesSucceed K.Clone V.Clone deref_pair) → IsOk result }
        ensures extended { Extends I.into_iter_gives I.IntoIter.next_gives I.IntoIter.remaining
            K.eq (RefusesClonesAfter K.eq K.Clone V.Clone deref_pair) iter self.old result self.new }
    {
        self.extend_refs(iter)
    }
}

/// Inserts clones of the pairs of an iterator of references, in order, like the inherent [`VecMap::extend_pairs`], with
/// its errors and its precondition.
///
/// # Examples
///
/// ```
/// let mut map = vecmap!(alloc; 'a' => 1, 'b' => 2);
/// Extend::extend(&mut map, &[('b', 3), ('c', 4)])?;
/// map.as_slice() // [('a', 1), ('b', 3), ('c', 4)]
/// ```
impl<'a, K: Eq + Clone + 'a, V: Clone + 'a> Extend<&'a (K, V)> for VecMap<K, V> {
    ghost extend_gives = { Grows (PutsClones K.eq K.is_clone V.is_clone deref) };

    fn extend<I: IntoIterator<Item = &'a (K, V)>>(&mut self, iter: I) -> Result<(), AllocError>
        requires ends { IsFiniteIterable I.into_iter_gives I.IntoIter.can_next I.IntoIter.remaining
            iter }
        ensures ran { ExtendsWithItems I.into_iter_gives I.IntoIter.next_gives
            (Grows (PutsClones K.eq K.is_clone V.is_clone deref)) iter self.old self.new result }
        ensures succeeds { HasRoomForAll I.into_iter_gives I.IntoIter.remaining iter
            (HasRoom self.old) → HoldsOfEach I.into_iter_gives I.IntoIter.next_gives iter
            (ClonesSucceed K.Clone V.Clone deref) → IsOk result }
        ensures extended { Extends I.into_iter_gives I.IntoIter.next_gives I.IntoIter.remaining
            K.eq (RefusesClonesAfter K.eq K.Clone V.Clone deref) iter self.old result self.new }
    {
        self.extend_pairs(iter)
    }
}
