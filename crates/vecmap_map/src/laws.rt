//! A law about each map: a function without effect whose contract is a theorem. A call costs nothing at run time, and
//! adds the theorem to what the proof of the caller knows.
ghost use Rattle.std.specs.Prelude.{◌≤◌, length};

use crate::VecMap;

/// A map never has more pairs than its capacity.
pub fn pairs_fit_the_capacity<K, V>(map: &VecMap<K, V>)
    ensures { length map.now.entries ≤ map.now.capacity }
{
    map.pairs.capacity();
}
