//! The exit status of the program.
ghost use Rattle.std.specs.{Prelude.{◌≡◌, OnErr, OnOk}, Process.exit_status};

use crate::serve::Fault;
use std::process::ExitCode;

#[cfg(test)]
mod tests;

/// Returns the exit status for this outcome of `serve`.
pub fn status(served: Result<(), Fault>) -> ExitCode
    ensures ok { OnOk served (exit_status result ≡ 0) }
    ensures err { OnErr served (exit_status result ≡ 1) }
{
    match served {
        Ok(()) => ExitCode::SUCCESS,
        Err(_error) => ExitCode::FAILURE,
    }
}
