//! Equality of maps whose values may differ from themselves, as no value of a test case does, and of more pairs than a
//! line of a test case can have.
use crate::checks::{assert_gives, assert_is};
use std::alloc::{AllocError, Global};
use vecmap::VecMap;
use vecmap_base::pairs_equal;

/// Returns whether the maps of some pairs are equal.
fn are_equal(
    alloc: Global,
    pairs: &[(u32, f64)],
    others: &[(u32, f64)],
) -> Result<bool, AllocError> {
    Ok(VecMap::from(pairs.to_vec(alloc)?) == VecMap::from(others.to_vec(alloc)?))
}

#[test]
fn a_value_that_differs_from_itself_is_in_no_equal_map(rt: HostRuntime) {
    let nan = f64::NAN;
    for (pairs, others, is_equal) in [
        ([(1, 0.0), (2, 1.5)], [(2, 1.5), (1, -0.0)], true),
        ([(1, nan), (2, 1.5)], [(1, nan), (2, 1.5)], false),
        ([(1, 0.5), (2, nan)], [(2, nan), (1, 0.5)], false),
        ([(1, 0.5), (1, nan)], [(1, 0.5), (1, 0.5)], false),
    ] {
        assert_gives(&rt, are_equal(rt.alloc(), &pairs, &others), is_equal);
    }
}

/// Returns the pairs of the first 16,390 numbers, in descending order, with one value.
fn many_pairs(alloc: Global, value: f64) -> Result<Vec<(u32, f64)>, AllocError> {
    let mut pairs = Vec::new(alloc);
    for number in 0..16390 {
        pairs.push((number, value))?;
    }
    pairs.reverse();
    Ok(pairs)
}

/// Returns whether two lists of so many pairs are equal: with two values, with NaNs, with a duplicate of 0 in place of 1 in
/// one of them, and if both are the same list.
fn are_many_equal(alloc: Global) -> Result<[bool; 4], AllocError> {
    let pairs = many_pairs(alloc, 0.5)?;
    let mut others = pairs.clone()?;
    let is_equal = pairs_equal(&others, &many_pairs(alloc, 0.25)?);
    others.reverse();
    if let Some(pair) = others.get_mut(1) {
        *pair = (0, 0.5);
    }
    let nans = many_pairs(alloc, f64::NAN)?;
    Ok([
        is_equal,
        pairs_equal(&nans, &nans),
        pairs_equal(&others, &pairs),
        pairs_equal(&pairs, &pairs),
    ])
}

// Up to 16,384 pairs are marked, and more are counted. As many equal pairs in another order would take too long.
// body: `==` of maps looks from one side if there are duplicate keys, by counts
#[test]
fn many_pairs_are_equal_if_each_occurs_equally_often(rt: HostRuntime) {
    assert_gives(&rt, are_many_equal(rt.alloc()), [false, false, false, true]);
}
