//! What the types promise. Most are covariant, as in Rust: a value whose type has a longer lifetime may be used where a
//! shorter one is expected. And all are `Send` and `Sync`: threads may share their values, or be passed them. A function
//! of this file compiles, and is proved, only if its types keep the promise. None needs to be called.
use vecmap::map::{self, Entry, Keys, KeysMut, OccupiedEntry, VacantEntry, Values, ValuesMut};
use vecmap::set::{self, Difference, Intersection, SymmetricDifference, Union};
use vecmap::{MapCommand, MapReply, Refused, SetCommand, SetReply, VecMap, VecSet};

// Types that are covariant in their lifetime, and in those of their keys and values.
type OfMaps<'a, K, V> = (
    VecMap<K, V>,
    map::Iter<'a, K, V>,
    Keys<'a, K, V>,
    Values<'a, K, V>,
    MapCommand<K, V>,
    MapReply<K, V>,
    Refused<(K, V)>,
);

type OfSets<'a, T> = (
    VecSet<T>,
    set::Iter<'a, T>,
    Difference<'a, T>,
    Intersection<'a, T>,
    SymmetricDifference<'a, T>,
    Union<'a, T>,
    SetCommand<T>,
    SetReply<T>,
);

// Mutable iterators and entries, which are covariant in the lifetime of their borrow alone.
type Mutable<'a, K, V> = (map::IterMut<'a, K, V>, Entry<'a, K, V>);

fn shorter_of_maps<'a, 'b: 'a>(all: OfMaps<'b, &'b str, &'b u32>) -> OfMaps<'a, &'a str, &'a u32> {
    all
}

fn shorter_of_sets<'a, 'b: 'a>(all: OfSets<'b, &'b str>) -> OfSets<'a, &'a str> {
    all
}

fn shorter_borrow<'a, 'b: 'a, K, V>(all: Mutable<'b, K, V>) -> Mutable<'a, K, V> {
    all
}

// The iterators by value hold a `VecDeque`, whose lifetimes a proof does not shorten. So the map has the shorter one.
fn shorter_pairs_by_value<'a, 'b: 'a>(map: VecMap<&'b str, u32>) -> map::IntoIter<&'a str, u32> {
    map.into_iter()
}

fn is_send_and_sync<T: Send + Sync>() {}

fn types_of_maps_are_send_and_sync<'a, K: Send + Sync + 'a, V: Send + Sync + 'a>() {
    is_send_and_sync::<(OfMaps<'a, K, V>, Mutable<'a, K, V>)>();
    is_send_and_sync::<(OccupiedEntry<'a, K, V>, VacantEntry<'a, K, V>)>();
    is_send_and_sync::<
        (
            map::IterMut2<'a, K, V>,
            KeysMut<'a, K, V>,
            ValuesMut<'a, K, V>,
        ),
    >();
    is_send_and_sync::<
        (
            map::IntoIter<K, V>,
            map::IntoKeys<K, V>,
            map::IntoValues<K, V>,
        ),
    >();
    is_send_and_sync::<map::Drain<'a, K, V>>();
}

fn types_of_sets_are_send_and_sync<'a, T: Eq + Send + Sync + 'a>() {
    is_send_and_sync::<(OfSets<'a, T>, set::IntoIter<T>, set::Drain<'a, T>)>();
}

fn is_send<T: Send>() {}

fn values_need_not_be_sync<K: Send, V: Send>() {
    is_send::<(VecMap<K, V>, map::IntoIter<K, V>)>();
}
