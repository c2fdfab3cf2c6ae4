//! The two functions of `README.md`, corrected. Two mutants in `must-fail` make the bugs of that page.
ghost use Rattle.std.specs.Prelude.{◌≡◌, nat_eq};
ghost use Rattle.vecmap.specs.Pairs.{without_key};

use vecmap::VecMap;

/// Removes the oldest job, if there is one, and returns it.
pub fn take_oldest(jobs: &mut VecMap<u32, u64>) -> Option<(u32, u64)> {
    if jobs.is_empty() {
        return None;
    }
    Some(jobs.remove_index(0))
}

/// Removes a job. The others keep their order.
pub fn cancel(jobs: &mut VecMap<u32, u64>, id: u32)
    ensures { jobs.new.entries ≡ without_key nat_eq jobs.old.entries id }
{
    jobs.remove(&id);
}
