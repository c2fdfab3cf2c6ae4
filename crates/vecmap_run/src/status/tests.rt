use super::status;
use crate::serve::Fault;
use std::process::ExitCode;

#[test]
fn the_status_is_1_after_an_error(rt: HostRuntime) {
    let outcomes = [
        (Ok(()), 0),
        (Err(Fault::Reading), 1),
        (Err(Fault::Writing), 1),
    ];
    for (served, number) in outcomes {
        assert!(rt; status(served) == ExitCode::from(number), "at {served:?}");
    }
}
