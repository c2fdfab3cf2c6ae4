//! Clones of a set, by a call and by the trait `Clone`, for generic code, derives and sets in maps.
ghost use Rattle.std.specs.{Prelude.{◌↔◌, Contains, IfOk, IsTrue}, List.IsDistinct};
ghost use Rattle.vecmap_base.specs.Clones.{AreClones};
ghost use Rattle.vecmap_set.specs.SetBulk.{CopiesItems};

use crate::VecSet;
use std::alloc::AllocError;
use vecmap_base::items_distinct;

impl<T: Eq> VecSet<T> {
    /// Returns a set of clones of the elements, in order.
    ///
    /// # Errors
    ///
    /// [`AllocError`] if allocation fails, or if the clone of an element fails; no set is created.
    ///
    /// # Preconditions
    ///
    /// A clone of each element is equal to it, so all clones are distinct.
    ///
    /// # Complexity
    ///
    /// One clone of each element, one allocation for the elements, and no comparisons.
    ///
    /// # Examples
    ///
    /// ```
    /// let set = vecset!(alloc; 1, 2);
    /// let mut copy = set.clone()?;
    /// copy.insert(3)?;
    /// (set.len(), copy.len()) // (2, 3)
    /// ```
    pub fn clone(&self) -> Result<VecSet<T>, AllocError>
    where
        T: Clone,
        requires clones_equal { (x y : T) → Contains self.now.elements x → T.is_clone x y
            → IsTrue (T.eq x y) }
        ensures copy { IfOk result (λ set. CopiesItems T.eq T.is_clone self.now.elements
            set.elements) }
    {
        Ok(VecSet {
            items: self.items.clone()?,
        })
    }
}

/// Clones a set element by element, in order, and checks that all clones are distinct.
///
/// The trait `Clone` of the elements does not say that a clone is equal to its original, so this call checks it. The
/// inherent [`VecSet::clone`] has it as a precondition, and compares nothing.
///
/// # Errors
///
/// [`AllocError`] if allocation fails, if the clone of an element fails, or if two clones are equal; the set is then
/// unchanged.
///
/// # Complexity
///
/// One clone of each element, one allocation for the elements, and one comparison of each element with its clone. If a
/// clone differs, the clones are compared with each other: at most n(n-1)/2 comparisons more.
///
/// # Examples
///
/// ```
/// let groups = vecmap!(alloc; 'a' => vecset!(alloc; 2, 1));
/// let mut copy = groups.clone()?;
/// copy.entry('a').or_default()?.insert(3)?;
/// (groups.get(&'a').map(VecSet::len), copy.get(&'a').map(VecSet::len)) // (Some(2), Some(3))
/// ```
impl<T: Eq + Clone> Clone for VecSet<T> {
    ghost is_clone = { λ set copy. AreClones T.is_clone set.elements copy.elements
        × IsDistinct T.eq copy.elements };

    fn clone(&self) -> Result<VecSet<T>, AllocError> {
        let items = self.items.clone()?;
        if !stay_distinct(&self.items, &items) {
            return Err(AllocError);
        }
        Ok(VecSet { items })
    }
}

// Returns `true` if all clones are distinct. If each clone is equal to its original, they need not be compared with
// each other.
fn stay_distinct<T: Eq>(items: &[T], clones: &[T]) -> bool
    requires { IsDistinct T.eq items.now }
    ensures { IsTrue result ↔ IsDistinct T.eq clones.now }
{
    *items == *clones || items_distinct(clones)
}
