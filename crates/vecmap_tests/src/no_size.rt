//! Keys, values and elements of zero size. A test case has none.
use crate::checks::{assert_is, assert_prints, granted};
use std::alloc::Global;
use std::test::Fail;
use vecmap::{VecMap, VecSet};

/// Prints what calls of a map of one pair return and leave.
fn print_map(alloc: Global) -> Result<String, Fail> {
    let mut map = VecMap::from(vec![in alloc; ((), 1), ((), 2)]?);
    let old = (
        map.insert((), 3)?,
        map.insert_key((), 4)?,
        *map.entry(()).or_insert(5)?,
    );
    let found = (map.get_index_of(&()), map.get_index(usize::MAX));
    let found = format!(in alloc; "{map:?} {old:?} {found:?}")?;
    let mut part = map.split_off(0)?;
    map.append(&mut part)?;
    let drained = map.drain(..).next_back();
    Ok(format!(in alloc; "{found} {drained:?} {map:?} {part:?}")?)
}

/// Prints what calls of a set of one element return and leave.
fn print_set(alloc: Global) -> Result<String, Fail> {
    let mut set = VecSet::from(vec![in alloc; (), (), ()]?);
    let old = (set.insert(())?, set.replace(())?, set.iter().len());
    let (both, none) = ((&set & &set)?, (&set ^ &set)?);
    let last = set.union(&set).next_back().copied();
    set.extend([(), ()])?;
    let found = format!(in alloc; "{set:?} {old:?} {both:?} {none:?} {last:?}")?;
    Ok(format!(in alloc; "{found} {} {set:?}", set.remove(&()))?)
}

#[test]
fn items_of_no_size_are_inserted_once(rt: HostRuntime) -> Result<(), Fail> {
    let of_map = "{(): 4} (Some(2), Some(((), 3)), 4) (Some(0), None) Some(((), 4)) {} {}";
    assert_prints(&rt, print_map(rt.alloc()), of_map)?;
    let of_set = "{()} (false, Some(()), 1) {()} {} Some(()) true {}";
    assert_prints(&rt, print_set(rt.alloc()), of_set)
}

#[test]
fn keys_of_no_size_have_less_capacity_than_the_greatest_number(rt: HostRuntime) {
    let refused: Result<VecMap<(), ()>, _> = VecMap::with_capacity(rt.alloc(), usize::MAX);
    assert_is(&rt, refused.is_err(), true);
    let half = usize::MAX / 2;
    let mut map = granted(&rt, VecMap::with_capacity(rt.alloc(), half));
    granted(&rt, map.insert((), ()));
    let room = map.capacity();
    assert_is(&rt, map.reserve(usize::MAX).is_err(), true);
    assert_is(&rt, map.reserve_exact(usize::MAX).is_err(), true);
    map.shrink_to(usize::MAX);
    map.truncate(usize::MAX);
    assert_is(&rt, (map.len(), map.capacity()), (1, room));
    map.shrink_to_fit();
    let (is_less, is_enough) = (map.capacity() < room, half <= room);
    assert_is(&rt, (map.len(), is_less, is_enough), (1, true, true));
}
