//! Iterators, with words for the calls of each: `iter next back rest`, `union hint back next`.
use crate::map::Map;
use crate::set::Set;
use std::ops::Bound;
use vecmap_map::MutableKeys;
use vecmap_script_base::both::{copy, note_left};
use vecmap_script_base::pulls::{Pulls, pull, pull_lazy, pull_mut, pull_twice};
use vecmap_script_base::words::{index_below, index_within};
use vecmap_script_base::{Call, Item, Out, Outcome, drain, first_word};

// The calls of a drain. Of a mixture, it is of a clone, and of the items between the first and the last.
macro_rules! pull_drain {
    ($drained:ident, $all:ident, $out:ident, $pulls:ident) => {
        match $pulls {
            Pulls::Words(words) => {
                let (range, words) = first_word(words);
                pull($out, &mut $drained($all, range)?, Pulls::Words(words))
            }
            _ => {
                let mut left = copy($all, $out)?;
                pull($out, &mut $drained(&mut left, "inside")?, $pulls);
                note_left($out, $all.as_slice(), left.as_slice())
            }
        }
    };
}

fn drained_map<'m>(map: &'m mut Map, range: &str) -> Option<vecmap_map::Drain<'m, Item, Item>> {
    drain!(map, range)
}

fn drained_set<'s>(set: &'s mut Set, range: &str) -> Option<vecmap_set::Drain<'s, Item>> {
    drain!(set, range)
}

pub fn of_map(map: &mut Map, out: &mut Out, call: Call) -> Option<Outcome> {
    let mut outcome = Outcome::Granted;
    for number in 0..Pulls::count(call.args) {
        outcome = lent(map, out, call.name, Pulls::of(call.args, number))?;
    }
    Some(outcome)
}

pub fn of_set(set: &mut Set, other: &Set, out: &mut Out, call: Call) -> Option<Outcome> {
    let mut outcome = Outcome::Granted;
    for number in 0..Pulls::count(call.args) {
        outcome = of_sets(set, other, out, call.name, Pulls::of(call.args, number))?;
    }
    Some(outcome)
}

// The iterators of a map that lend.
fn lent(map: &mut Map, out: &mut Out, name: &str, pulls: Pulls) -> Option<Outcome> {
    match name {
        "iter" => pull_twice(out, map.iter(), pulls, Clone::clone),
        "keys" => pull_twice(out, map.keys(), pulls, Clone::clone),
        "values" => pull_twice(out, map.values(), pulls, Clone::clone),
        "iter_mut" => pull_mut(out, map.iter_mut(), pulls),
        "values_mut" => pull_mut(out, map.values_mut(), pulls),
        "iter_mut2" => pull_mut(out, map.iter_mut2(), pulls),
        "keys_mut" => pull_mut(out, map.keys_mut(), pulls),
        "&map" => pull(out, &mut (&*map).into_iter(), pulls),
        "&mut_map" => pull_mut(out, (&mut *map).into_iter(), pulls),
        "drain" => drain_map(map, out, pulls),
        _ => owning(copy(map, out)?, out, name, pulls),
    }
}

// Those that take the pairs of a clone.
fn owning(map: Map, out: &mut Out, name: &str, pulls: Pulls) -> Option<Outcome> {
    match name {
        "into_iter" => pull_twice(out, map.into_iter(), pulls, |it| it.clone()),
        "into_keys" => pull_twice(out, map.into_keys(), pulls, |it| it.clone()),
        "into_values" => pull_twice(out, map.into_values(), pulls, |it| it.clone()),
        _ => None,
    }
}

fn drain_map(map: &mut Map, out: &mut Out, pulls: Pulls) -> Option<Outcome> {
    pull_drain!(drained_map, map, out, pulls)
}

fn drain_set(set: &mut Set, out: &mut Out, pulls: Pulls) -> Option<Outcome> {
    pull_drain!(drained_set, set, out, pulls)
}

// The iterators of one set, and of two.
fn of_sets(set: &mut Set, other: &Set, out: &mut Out, name: &str, pulls: Pulls) -> Option<Outcome> {
    match name {
        "iter" => pull_twice(out, set.iter(), pulls, Clone::clone),
        "&set" => pull(out, &mut (&*set).into_iter(), pulls),
        "into_iter" => pull_twice(out, copy(set, out)?.into_iter(), pulls, |it| it.clone()),
        "drain" => drain_set(set, out, pulls),
        "difference" => pull_lazy(out, set.difference(other), pulls, |it| it.clone()),
        "intersection" => pull_lazy(out, set.intersection(other), pulls, |it| it.clone()),
        "symmetric_difference" => {
            pull_lazy(out, set.symmetric_difference(other), pulls, |it| it.clone())
        }
        "union" => pull_lazy(out, set.union(other), pulls, |it| it.clone()),
        _ => None,
    }
}
