//! One command on a set, and its reply.
ghost use Rattle.std.specs.Set.{ClonesAreEqual};
ghost use Rattle.vecmap.specs.SetRun.{Effect, Step};

mod make;
mod read;

use self::make::made;
use self::read::{clone_all, clone_item};
use super::{SetCommand, SetReply};
use vecmap_set::VecSet;
use vecmap_set::laws::elements_fit_the_capacity;

/// Runs one command and returns its reply.
pub(crate) fn step<T: Eq + Clone>(set: &mut VecSet<T>, command: SetCommand<T>) -> SetReply<T>
    requires clones_equal { ClonesAreEqual T.eq T.is_clone }
    ensures { Step T.eq T.Clone set.old command result set.new }
{
    let reply = execute(set, command);
    elements_fit_the_capacity(set);
    reply
}

// Runs one command. The contract says how the list and the capacity change.
fn execute<T: Eq + Clone>(set: &mut VecSet<T>, command: SetCommand<T>) -> SetReply<T>
    requires clones_equal { ClonesAreEqual T.eq T.is_clone }
    ensures { Effect T.eq T.Clone set.old command result set.new }
{
    match command {
        SetCommand::Insert(item) => match set.insert(item) {
            Ok(added) => SetReply::Truth(added),
            Err(_refused) => SetReply::NoMemory,
        },
        SetCommand::Replace(item) => match set.replace(item) {
            Ok(old) => SetReply::Item(old),
            Err(_refused) => SetReply::NoMemory,
        },
        SetCommand::Get(item) => clone_item(set.get(&item)),
        SetCommand::GetIndex(index) => clone_item(set.get_index(index)),
        SetCommand::IndexOf(item) => SetReply::Place(set.get_index_of(&item)),
        SetCommand::Contains(item) => SetReply::Truth(set.contains(&item)),
        SetCommand::First => clone_item(set.first()),
        SetCommand::Last => clone_item(set.last()),
        SetCommand::Len => SetReply::Number(set.len()),
        SetCommand::Remove(item) => SetReply::Truth(set.remove(&item)),
        SetCommand::Take(item) => SetReply::Item(set.take(&item)),
        SetCommand::SwapRemove(item) => SetReply::Truth(set.swap_remove(&item)),
        SetCommand::SwapTake(item) => SetReply::Item(set.swap_take(&item)),
        SetCommand::RemoveIndex(index) if set.len() <= index => SetReply::OutOfRange,
        SetCommand::RemoveIndex(index) => SetReply::Item(Some(set.remove_index(index))),
        SetCommand::SwapRemoveIndex(index) if set.len() <= index => SetReply::OutOfRange,
        SetCommand::SwapRemoveIndex(index) => SetReply::Item(Some(set.swap_remove_index(index))),
        SetCommand::Pop => SetReply::Item(set.pop()),
        SetCommand::SwapIndices(a, b) if set.len() <= a || set.len() <= b => SetReply::OutOfRange,
        SetCommand::SwapIndices(a, b) => {
            set.swap_indices(a, b);
            SetReply::Done
        }
        SetCommand::Truncate(len) => {
            set.truncate(len);
            SetReply::Done
        }
        SetCommand::Clear => {
            set.clear();
            SetReply::Done
        }
        SetCommand::Reverse => {
            set.reverse();
            SetReply::Done
        }
        SetCommand::Append(mut other) => match set.append(&mut other) {
            Ok(()) => SetReply::Done,
            Err(_refused) => SetReply::NoMemory,
        },
        SetCommand::SplitOff(index) if set.len() < index => SetReply::OutOfRange,
        SetCommand::SplitOff(index) => match set.split_off(index) {
            Ok(rest) => SetReply::Made(rest),
            Err(_refused) => SetReply::NoMemory,
        },
        SetCommand::ToVec => clone_all(set),
        SetCommand::Equals(other) => SetReply::Truth(*set == other),
        SetCommand::IsSubset(other) => SetReply::Truth(set.is_subset(&other)),
        SetCommand::IsSuperset(other) => SetReply::Truth(set.is_superset(&other)),
        SetCommand::IsDisjoint(other) => SetReply::Truth(set.is_disjoint(&other)),
        SetCommand::Intersect(other) => made(&*set & &other),
        SetCommand::Unite(other) => made(&*set | &other),
        SetCommand::Exclusive(other) => made(&*set ^ &other),
        SetCommand::Subtract(other) => made(&*set - &other),
    }
}
