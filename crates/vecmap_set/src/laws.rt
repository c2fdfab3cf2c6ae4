//! A law about each set: a function without effect whose contract is a theorem. A call costs nothing at run time, and
//! adds the theorem to what the proof of the caller knows.
ghost use Rattle.std.specs.Prelude.{◌≤◌, length};

use crate::VecSet;

/// A set never has more elements than its capacity.
pub fn elements_fit_the_capacity<T: Eq>(set: &VecSet<T>)
    ensures { length set.now.elements ≤ set.now.capacity }
{
    set.items.capacity();
}
