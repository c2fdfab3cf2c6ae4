//! Assertions. Each is a function: a call is cheaper to prove in a test than an `assert!` or a `?`.
use std::fmt::Debug;
use std::process::Abort;
use std::test::Fail;

/// Asserts that a value is the expected one.
pub(crate) fn assert_is<T: PartialEq + Debug + Drop>(rt: &impl Abort, value: T, expected: T) {
    assert_eq!(*rt; value, expected);
}

/// Asserts that memory sufficed for a call, and returns its value.
pub(crate) fn granted<T, E: Drop>(rt: &impl Abort, outcome: Result<T, E>) -> T {
    match outcome {
        Ok(value) => value,
        Err(_) => panic!(*rt; "refused"),
    }
}

/// Asserts that memory sufficed for a call, and that it returned the expected value.
pub(crate) fn assert_gives<T: PartialEq + Debug + Drop, E: Drop>(
    rt: &impl Abort,
    outcome: Result<T, E>,
    expected: T,
) {
    assert_is(rt, granted(rt, outcome), expected)
}

/// Asserts that a function returned this text.
pub(crate) fn assert_prints(
    rt: &impl Abort,
    printed: Result<String, Fail>,
    expected: &str,
) -> Result<(), Fail> {
    let printed = printed?;
    assert_eq!(*rt; printed.as_str(), expected);
    Ok(())
}
