//! Callers of calls with a precondition. Mutants in `must-fail` make a bug in each: the precondition is then not met.
ghost use Rattle.std.specs.{Prelude.{◌++◌, ◌≡◌, ◌≤◌, IfErr, IfOk, OnErr, OnOk, drop, length, slice_get, take}, List.IsDistinct};
ghost use Rattle.vecmap.specs.{Contents.Refuses, Pairs.{lookup, lookup_indexed, put_at}};

use vecmap::{Refused, VecMap, VecSet};

/// Returns the value of a key, of any type.
pub fn value_of_key<K: Eq>(map: &VecMap<K, u32>, key: &K) -> Option<u32>
    ensures { result ≡ lookup K.eq map.now.entries key.now }
{
    map.get(key).copied()
}

/// Inserts a pair at the end, and returns the old index and value of its key.
///
/// The pair of an existing key moves to the end.
pub fn put_last<K: Eq + Drop>(
    map: &mut VecMap<K, u32>,
    key: K,
    value: u32,
) -> Result<Option<(usize, u32)>, Refused<(K, u32)>>
    ensures entries { OnOk result (map.new.entries
        ≡ put_at K.eq map.old.entries (length map.old.entries) key value) }
    ensures old { IfOk result (λ old. old ≡ lookup_indexed K.eq map.old.entries key) }
    ensures given { IfErr result (λ refused. refused.given ≡ (key, value)) }
    ensures err { OnErr result (Refuses K.eq map.old key map.new) }
{
    let end = map.len();
    map.insert_at(end, key, value)
}

/// Returns the first pair, and removes the first three.
pub fn first_of_three(map: &mut VecMap<u32, u32>) -> Option<(u32, u32)>
    requires within { 3 ≤ length map.old.entries }
    ensures first { result ≡ slice_get map.old.entries 0 }
    ensures entries { map.new.entries ≡ drop 3 map.old.entries }
    ensures capacity { map.new.capacity ≡ map.old.capacity }
{
    map.drain(..3).next()
}

/// Removes the second and the third element, by a drain of which only the last element is read. What is left is still a
/// set.
pub fn without_second_and_third<T: Eq + Drop>(set: &mut VecSet<T>)
    requires within { 3 ≤ length set.old.elements }
    ensures elements { set.new.elements ≡ take 1 set.old.elements ++ drop 3 set.old.elements }
    ensures distinct { IsDistinct T.eq set.new.elements }
{
    let mut items = set.drain(1..=2);
    let _last = items.next_back();
}
