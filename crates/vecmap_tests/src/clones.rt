//! Sets of elements whose clones differ from them. The clones of a test case are equal to their originals.
use crate::checks::assert_prints;
use std::alloc::{AllocError, Global};
use std::test::Fail;
use vecmap::VecSet;

/// A number and a factor. A clone has their product as its number.
#[derive(Debug, Drop, PartialEq, Eq)]
struct Multiplied(u32, u32);

impl Clone for Multiplied {
    fn clone(&self) -> Result<Multiplied, AllocError> {
        Ok(Multiplied(self.0.wrapping_mul(self.1), self.1))
    }
}

/// Prints the clone of a set of 1 and 2. It is made by the trait, as in generic code and derives.
fn print_clone(alloc: Global, factor: u32) -> Result<String, Fail> {
    let set = VecSet::from_array(alloc, [Multiplied(1, factor), Multiplied(2, factor)])?;
    Ok(format!(in alloc; "{:?}", Clone::clone(&set))?)
}

#[test]
fn clones_that_differ_stay_if_they_are_distinct(rt: HostRuntime) -> Result<(), Fail> {
    for (factor, expected) in [
        (1, "Ok({Multiplied(1, 1), Multiplied(2, 1)})"),
        (2, "Ok({Multiplied(2, 2), Multiplied(4, 2)})"),
        (5, "Ok({Multiplied(5, 5), Multiplied(10, 5)})"),
        (0, "Err(AllocError)"),
    ] {
        assert_prints(&rt, print_clone(rt.alloc(), factor), expected)?;
    }
    Ok(())
}
