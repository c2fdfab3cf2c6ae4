//! Commands that read, whose replies are clones.
ghost use Rattle.std.specs.Prelude.{option_copied};
ghost use Rattle.vecmap.specs.SetRun.{RepliesItem, RepliesItems};

use super::SetReply;
use vecmap_set::VecSet;

pub(crate) fn clone_item<T: Eq + Clone>(item: Option<&T>) -> SetReply<T>
    ensures { RepliesItem T.Clone (option_copied item.entry) result }
{
    match item {
        None => SetReply::Item(None),
        Some(item) => match item.clone() {
            Ok(copy) => SetReply::Item(Some(copy)),
            Err(_refused) => SetReply::NoMemory,
        },
    }
}

pub(crate) fn clone_all<T: Eq + Clone>(set: &VecSet<T>) -> SetReply<T>
    ensures { RepliesItems T.Clone set.now.elements result }
{
    match set.to_vec() {
        Ok(copies) => SetReply::Items(copies),
        Err(_refused) => SetReply::NoMemory,
    }
}
