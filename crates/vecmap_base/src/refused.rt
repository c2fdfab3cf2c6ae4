//! The error of an insertion that ran out of memory, with what was passed to the call.
use std::alloc::AllocError;
use std::error::Error;
use std::{fmt, io};

/// The error of a call that ran out of memory, with the value that was passed and could not be stored.
///
/// `?` converts it into an `AllocError`, or into an `io::Error` of the kind `OutOfMemory`, and drops the value.
///
/// # Examples
///
/// ```
/// let refused = Refused { given: ('a', 1) };
/// refused.given // ('a', 1)
/// ```
#[derive(Clone, Copy, Drop, PartialEq, Eq)]
pub struct Refused<T> {
    /// What was passed to the call.
    pub given: T,
}

/// Converts the error into an `AllocError`, and drops the value in it.
///
/// # Examples
///
/// ```
/// let refused = Refused { given: ('a', 1) };
/// AllocError::from(refused) // AllocError
/// ```
impl<T: Drop> From<Refused<T>> for AllocError {
    fn from(_refused: Refused<T>) -> AllocError {
        AllocError
    }
}

/// Converts the error into an `io::Error`, and drops the value in it.
///
/// The new error has the kind `OutOfMemory`, as if an `AllocError` were converted.
///
/// # Examples
///
/// ```
/// let refused = Refused { given: ('a', 1) };
/// io::Error::from(refused).kind() // io::ErrorKind::OutOfMemory
/// ```
impl<T: Drop> From<Refused<T>> for io::Error {
    ghost use Rattle.std.specs.{IoError.error_kind, Prelude.{◌≡◌}, declared.io.ErrorKind.TheVariants.OutOfMemory};

    ghost from_gives = { λ _ e. error_kind e ≡ OutOfMemory };

    fn from(_refused: Refused<T>) -> io::Error {
        io::Error::from(AllocError)
    }
}

/// Prints `Refused { .. }`, whatever value is in the error. So the value needs no `Debug`.
///
/// # Examples
///
/// ```
/// let refused = Refused { given: ('a', 1) };
/// format!(in alloc; "{refused:?}")?.as_str() // "Refused { .. }"
/// ```
impl<T> fmt::Debug for Refused<T> {
    fn fmt<W: fmt::Write>(&self, f: &mut fmt::Formatter<W>) -> fmt::Result {
        f.write_str("Refused { .. }")
    }
}

/// Prints the same text as an `AllocError`, whatever value is in the error.
///
/// # Examples
///
/// ```
/// let refused = Refused { given: ('a', 1) };
/// format!(in alloc; "{refused}")?.as_str() // "memory allocation failed"
/// ```
impl<T> fmt::Display for Refused<T> {
    fn fmt<W: fmt::Write>(&self, f: &mut fmt::Formatter<W>) -> fmt::Result {
        fmt::Display::fmt(&AllocError, f)
    }
}

impl<T: Drop> Error for Refused<T> {}
