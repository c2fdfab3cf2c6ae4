//! How often keys are compared and closures called. The keys and elements of a test case have more than 16 bytes and
//! cannot be copied: these tests have keys of 8 and 16 bytes, and count by `==`.
ghost use Rattle.std.specs.{Prelude.{◌≡◌, nat_eq}, Cmp.{nat_eq_equiv, partial_equiv_from_equiv}};

use crate::checks::{assert_gives, assert_is, assert_prints};
use std::alloc::{AllocError, Global};
use std::cell::Cell;
use std::cmp::Ordering;
use std::test::Fail;
use vecmap::{VecMap, VecSet};
use vecmap_base::{contains_equivalent, find_equivalent, find_item_equivalent, partition_point};

/// A number, in an item of 16 bytes. A comparison of two counts for the first.
#[derive(Clone, Copy)]
struct Counted<'a> {
    number: u32,
    comparisons: &'a Cell<u32>,
}

impl PartialEq for Counted<'_> {
    ghost eq = { λ a b. nat_eq a.number b.number };

    ghost laws = { partial_equiv_from_equiv (record { refl = λ a. nat_eq_equiv.refl a.number; symm = λ a b. nat_eq_equiv.symm a.number b.number; congr = λ a b c. nat_eq_equiv.congr a.number b.number c.number }) };

    fn eq(&self, other: &Counted<'_>) -> bool {
        note(self.comparisons);
        self.number == other.number
    }
}

impl Eq for Counted<'_> {
    ghost laws = { record { refl = λ a. nat_eq_equiv.refl a.number; symm = λ a b. nat_eq_equiv.symm a.number b.number; congr = λ a b c. nat_eq_equiv.congr a.number b.number c.number } };
}

fn note(calls: &Cell<u32>) {
    calls.set(calls.get().wrapping_add(1));
}

/// Returns the numbers up to 40.
fn numbers(alloc: Global, comparisons: &Cell<u32>) -> Result<Vec<Counted<'_>>, AllocError> {
    let mut numbers = Vec::new(alloc);
    for number in 0..41 {
        numbers.push(Counted {
            number,
            comparisons,
        })?;
    }
    Ok(numbers)
}

/// Returns how often the searches of a slice compare a query: one of pairs, and two of items.
fn comparisons_with<K: Eq + Copy>(
    alloc: Global,
    items: &[K],
    query: &K,
    comparisons: &Cell<u32>,
) -> Result<[u32; 3], AllocError> {
    let mut pairs = Vec::new(alloc);
    for item in items {
        pairs.push((*item, ()))?;
    }
    comparisons.set(0);
    let _index = find_equivalent(&pairs, query);
    let of_pairs = comparisons.replace(0);
    let _index = find_item_equivalent(items, query);
    let of_items = comparisons.replace(0);
    let _found = contains_equivalent(items, query);
    Ok([of_pairs, of_items, comparisons.get()])
}

/// Prints how often they compare a number with the numbers up to 40, and with references to them.
fn print_comparisons(alloc: Global, number: u32) -> Result<String, Fail> {
    let comparisons = &Cell::new(0);
    let numbers = numbers(alloc, comparisons)?;
    let mut references = Vec::new(alloc);
    for number in &numbers {
        references.push(number)?;
    }
    let query = &Counted {
        number,
        comparisons,
    };
    let large = comparisons_with(alloc, &numbers, query, comparisons)?;
    let small = comparisons_with(alloc, &references, &query, comparisons)?;
    Ok(format!(in alloc; "{large:?} {small:?}")?)
}

// Among elements of 8 bytes, up to seven comparisons come after the match.
#[test]
fn searches_compare_no_further_than_the_match(rt: HostRuntime) -> Result<(), Fail> {
    for (number, expected) in [
        (0, "[1, 1, 1] [1, 8, 8]"),
        (20, "[21, 21, 21] [21, 24, 24]"),
        (40, "[41, 41, 41] [41, 41, 41]"),
        (41, "[41, 41, 41] [41, 41, 41]"),
    ] {
        let printed = print_comparisons(rt.alloc(), number);
        assert_prints(&rt, printed, expected)?;
    }
    Ok(())
}

/// Extends the set of the numbers up to 40 by a copy of 41, by the inherent call or by the trait. Returns the number of
/// comparisons, and the new length.
fn extended(alloc: Global, by_trait: bool) -> Result<(u32, usize), AllocError> {
    let comparisons = &Cell::new(0);
    let mut set = VecSet::from(numbers(alloc, comparisons)?);
    let more = [Counted {
        number: 41,
        comparisons,
    }];
    comparisons.set(0);
    if by_trait {
        Extend::extend(&mut set, &more)?;
    } else {
        set.extend_copied(&more)?;
    }
    Ok((comparisons.get(), set.len()))
}

#[test]
fn a_copy_is_compared_with_each_of_many_elements_once(rt: HostRuntime) {
    assert_gives(&rt, extended(rt.alloc(), false), (41, 42));
    assert_gives(&rt, extended(rt.alloc(), true), (41, 42));
}

/// Compares a number with 50, and notes the call.
fn order(calls: &Cell<u32>, number: &u64) -> Ordering {
    note(calls);
    number.cmp(&50)
}

/// Returns how often searches of a set and of a map of 100 numbers call their closures. The pairs have 40 bytes.
fn calls_of_searches(alloc: Global) -> Result<[u32; 4], AllocError> {
    let (mut set, mut map) = (VecSet::new(alloc), VecMap::new(alloc));
    for number in 0..100 {
        set.insert(number)?;
        map.insert(number, [number; 4])?;
    }
    let calls = &Cell::new(0);
    let _at = set.partition_point(|number| order(calls, number).is_lt());
    let first = calls.replace(0);
    let _at = map.partition_point(|number, _value| order(calls, number).is_lt());
    let second = calls.replace(0);
    let _found = set.binary_search_by(|number| order(calls, number));
    let third = calls.replace(0);
    let _found = map.binary_search_by(|number, _value| order(calls, number));
    Ok([first, second, third, calls.get()])
}

/// Returns how often a search of these numbers calls its closure, if they are searched like keys of this type.
fn calls_by_size_of<C>(numbers: &[u64]) -> u32 {
    let calls = &Cell::new(0);
    let _at = partition_point::<C, _, _>(numbers, |number| order(calls, number).is_lt());
    calls.get()
}

// It is 11 calls by quarters, and 8 by halves. A `&str` has 16 bytes.
// body: items of 9 to 16 bytes are searched like small ones
#[test]
fn only_keys_of_at_most_eight_bytes_are_searched_by_quarters(rt: HostRuntime) {
    assert_gives(&rt, calls_of_searches(rt.alloc()), [11; 4]);
    let numbers = [0; 100];
    for calls in [
        calls_by_size_of::<()>(&numbers),
        calls_by_size_of::<u64>(&numbers),
        calls_by_size_of::<[u8; 8]>(&numbers),
        calls_by_size_of::<&u128>(&numbers),
    ] {
        assert_is(&rt, calls, 11);
    }
    for calls in [
        calls_by_size_of::<[u8; 9]>(&numbers),
        calls_by_size_of::<(u64, u8)>(&numbers),
        calls_by_size_of::<&str>(&numbers),
        calls_by_size_of::<String>(&numbers),
    ] {
        assert_is(&rt, calls, 8);
    }
}
