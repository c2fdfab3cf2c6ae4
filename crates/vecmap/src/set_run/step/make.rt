//! Commands that create a set.
ghost use Rattle.vecmap.specs.SetRun.{Makes};

use super::SetReply;
use std::alloc::AllocError;
use vecmap_set::VecSet;

pub(crate) fn made<T: Eq>(made: Result<VecSet<T>, AllocError>) -> SetReply<T>
    ensures { Makes made result }
{
    match made {
        Ok(set) => SetReply::Made(set),
        Err(_refused) => SetReply::NoMemory,
    }
}
