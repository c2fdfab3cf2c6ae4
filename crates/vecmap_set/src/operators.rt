//! The operators `&`, `|`, `^` and `-` on sets.
ghost use Rattle.std.specs.{Prelude.{◌≤◌, ◌&&◌, ◌||◌, IfOk, not}, Iterator.IsFinite};
ghost use Rattle.vecmap_base.specs.Items.{both, only};
ghost use Rattle.vecmap_set.specs.Operators.{ClonesStaySame, CombinesMembers, DrainsIntoClones, MakesClones, symmetric_difference_of, union_of};

use crate::{Difference, Intersection, SymmetricDifference, Union, VecSet};
use std::alloc::{AllocError, Global};
use std::ops::{BitAnd, BitOr, BitXor, Sub};

// The capacity to which an empty vector first grows, if its items are not large.
const MIN_CAPACITY: usize = 4;

/// Creates a set of clones of the elements that both sets have.
///
/// These are the elements of the left set that the right set has, in the order of the left. For 3, 2, 1 and 1, 2 it has
/// 2, 1, while [`VecSet::intersection`] yields 1, 2. The new set has the allocator of the left set.
///
/// # Errors
///
/// [`AllocError`] if an allocation fails, for the set or for a clone of an element; no set is created.
///
/// # Preconditions
///
/// A clone of each of these elements is equal to it.
///
/// # Complexity
///
/// One lookup in the right set for each element of the left set.
///
/// # Examples
///
/// ```
/// let set = vecset!(alloc; 2, 1);
/// let other = vecset!(alloc; 1, 2, 3);
/// (&set & &other)?.as_slice() // [2, 1]
/// ```
impl<'a, 'b, T: Eq + Clone> BitAnd<&'b VecSet<T>> for &'a VecSet<T> {
    type Output = Result<VecSet<T>, AllocError>;

    ghost can_bitand = { λ a b. ClonesStaySame T.eq T.is_clone both a.now b.now };

    ghost bitand_gives = { λ a b r. MakesClones T.eq T.is_clone both a.now b.now r
        × IfOk r (λ set. CombinesMembers T.eq (λ x y. x && y) a.now.elements
        b.now.elements set.elements) };

    fn bitand(self, other: &'b VecSet<T>) -> Result<VecSet<T>, AllocError> {
        let shared = Intersection::over(self.as_slice(), other.as_slice());
        let items = clones_of(*self.allocator(), shared)?;
        Ok(VecSet { items })
    }
}

/// Creates a set of clones of the elements that at least one of the sets has.
///
/// These are all elements of the left set, and then the elements of the right set that the left set lacks, each part in
/// order. For 1 and 2, 3 it has 1, 2, 3, while [`VecSet::union`] yields 2, 3, 1. The allocator, errors and
/// preconditions are as for `&`.
///
/// # Complexity
///
/// One lookup in the left set for each element of the right set.
///
/// # Examples
///
/// ```
/// let set = vecset!(alloc; 1, 2);
/// let other = vecset!(alloc; 2, 3);
/// (&set | &other)?.as_slice() // [1, 2, 3]
/// ```
impl<'a, 'b, T: Eq + Clone> BitOr<&'b VecSet<T>> for &'a VecSet<T> {
    type Output = Result<VecSet<T>, AllocError>;

    ghost can_bitor = { λ a b. ClonesStaySame T.eq T.is_clone union_of a.now b.now };

    ghost bitor_gives = { λ a b r. MakesClones T.eq T.is_clone union_of a.now b.now r
        × IfOk r (λ set. CombinesMembers T.eq (λ x y. x || y) a.now.elements
        b.now.elements set.elements) };

    fn bitor(self, other: &'b VecSet<T>) -> Result<VecSet<T>, AllocError> {
        let all = Union::over(self.as_slice(), other.as_slice());
        let items = clones_of(*self.allocator(), all)?;
        Ok(VecSet { items })
    }
}

/// Creates a set of clones of the elements that only one of the sets has.
///
/// These are the elements of the left set that the right set lacks, and then the elements of the right set that the
/// left set lacks, each part in order. For 1, 2, 3 and 4, 2, 3 it has 1, 4. The allocator, errors and preconditions are
/// as for `&`.
///
/// # Complexity
///
/// One lookup for each element of either set, in the other.
///
/// # Examples
///
/// ```
/// let set = vecset!(alloc; 1, 2);
/// let other = vecset!(alloc; 2, 3);
/// (&set ^ &other)?.as_slice() // [1, 3]
/// ```
impl<'a, 'b, T: Eq + Clone> BitXor<&'b VecSet<T>> for &'a VecSet<T> {
    type Output = Result<VecSet<T>, AllocError>;

    ghost can_bitxor = { λ a b. ClonesStaySame T.eq T.is_clone
        symmetric_difference_of a.now b.now };

    ghost bitxor_gives = { λ a b r. MakesClones T.eq T.is_clone
        symmetric_difference_of a.now b.now r
        × IfOk r (λ set. CombinesMembers T.eq (λ x y. (x && not y) || (y && not x))
        a.now.elements b.now.elements set.elements) };

    fn bitxor(self, other: &'b VecSet<T>) -> Result<VecSet<T>, AllocError> {
        let apart = SymmetricDifference::over(self.as_slice(), other.as_slice());
        let items = clones_of(*self.allocator(), apart)?;
        Ok(VecSet { items })
    }
}

/// Creates a set of clones of the elements of the left set that the right set lacks, in order.
///
/// For 1, 2, 3 and 4, 2, 3 it has 1. The allocator, errors and preconditions are as for `&`.
///
/// # Complexity
///
/// One lookup in the right set for each element of the left set.
///
/// # Examples
///
/// ```
/// let set = vecset!(alloc; 1, 2);
/// let other = vecset!(alloc; 2, 3);
/// (&set - &other)?.as_slice() // [1]
/// ```
impl<'a, 'b, T: Eq + Clone> Sub<&'b VecSet<T>> for &'a VecSet<T> {
    type Output = Result<VecSet<T>, AllocError>;

    ghost can_sub = { λ a b. ClonesStaySame T.eq T.is_clone only a.now b.now };

    ghost sub_gives = { λ a b r. MakesClones T.eq T.is_clone only a.now b.now r
        × IfOk r (λ set. CombinesMembers T.eq (λ x y. x && not y) a.now.elements
        b.now.elements set.elements) };

    fn sub(self, other: &'b VecSet<T>) -> Result<VecSet<T>, AllocError> {
        let left = Difference::over(self.as_slice(), other.as_slice());
        let items = clones_of(*self.allocator(), left)?;
        Ok(VecSet { items })
    }
}

// Returns clones of what an iterator yields, in order. Capacity is reserved first, for the items that it yields at
// least.
#[tactic(auto, using(crate::proofs::OperatorLemmas::pushes))]
fn clones_of<'a, T: Clone + 'a, I: Iterator<Item = &'a T>>(
    alloc: Global,
    iter: I,
) -> Result<Vec<T>, AllocError>
    requires can_next { I.can_next iter }
    requires ends { IsFinite (I.remaining iter) }
    ensures { IfOk result (λ made. DrainsIntoClones I.next_gives T.is_clone iter made.items) }
{
    let (at_least, at_most) = iter.size_hint();
    let mut made = Vec::with_capacity(alloc, first_capacity(at_least, at_most))?;
    for item in iter {
        made.push(item.clone()?)?;
    }
    Ok(made)
}

// Returns the capacity to reserve for an iterator with these bounds. If the iterator yields an item, and may yield
// several, this is at least the capacity to which a vector first grows, so that the vector does not grow for the second
// item.
fn first_capacity(at_least: usize, at_most: Option<usize>) -> usize
    ensures { at_least ≤ result }
{
    if at_least == 0 {
        return 0;
    }
    at_least.max(at_most.unwrap_or(at_least).min(MIN_CAPACITY))
}
