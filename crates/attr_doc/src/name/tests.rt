//! Names of up to 17 bytes: eight bytes are compared at once, and what is left one by one.
use super::Name;
use std::alloc::{AllocError, Global};
use std::process::Abort;
use std::test::Fail;

/// Creates a name of so many letters, of which the one at an index is another one.
fn name_of(
    alloc: Global,
    length: usize,
    letter: char,
    index: usize,
    other: char,
) -> Result<Name, AllocError> {
    let mut text = String::new(alloc);
    for at in 0..length {
        text.push(if at == index { other } else { letter })?;
    }
    Ok(Name::new(text))
}

/// Compares a name of so many letters with those in which one letter is another one. Returns the number of comparisons
/// and the number of those that find the names equal, from either side.
fn comparisons(
    alloc: Global,
    length: usize,
    letter: char,
    other: char,
) -> Result<(usize, usize), AllocError> {
    let name = name_of(alloc, length, letter, length, other)?;
    let mut equal = 0usize;
    for index in 0..length {
        let changed = name_of(alloc, length, letter, index, other)?;
        equal = equal.saturating_add(usize::from(name == changed));
        equal = equal.saturating_add(usize::from(changed == name));
    }
    Ok((length.saturating_mul(2), equal))
}

const LENGTHS: [usize; 6] = [1, 7, 8, 9, 16, 17];

/// Asserts that two names of these letters are equal, or that they are not, whichever letter is the other one.
fn assert_equal(
    rt: &impl Abort,
    alloc: Global,
    letter: char,
    other: char,
    expected: bool,
) -> Result<(), AllocError> {
    for length in LENGTHS {
        let (made, equal) = comparisons(alloc, length, letter, other)?;
        let wanted = if expected { made } else { 0 };
        assert_eq!(*rt; equal, wanted, "{length} {letter} {other}");
    }
    Ok(())
}

// body: `==` of `Name` leaves out a byte
#[test]
fn names_of_any_length_differ_in_each_byte(rt: HostRuntime) -> Result<(), Fail> {
    for (letter, other) in [('a', 'b'), ('@', '`'), ('[', '{')] {
        assert_equal(&rt, rt.alloc(), letter, other, false)?;
    }
    Ok(())
}

// body: `==` of `Name` heeds case from the eighth byte on
#[test]
fn names_of_any_length_ignore_the_case_of_each_letter(rt: HostRuntime) -> Result<(), Fail> {
    for (letter, other) in [('a', 'A'), ('Z', 'z')] {
        assert_equal(&rt, rt.alloc(), letter, other, true)?;
    }
    Ok(())
}
