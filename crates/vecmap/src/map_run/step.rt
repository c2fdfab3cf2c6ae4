//! One command on a map, and its reply.
ghost use Rattle.vecmap.specs.MapRun.{Effect, Step};

mod put;
mod read;

use self::put::put_if_new;
use self::read::{clone_all, clone_pair, clone_value};
use super::{MapCommand, MapReply};
use vecmap_map::VecMap;
use vecmap_map::laws::pairs_fit_the_capacity;

/// Runs one command and returns its reply.
pub(crate) fn step<K: Eq + Clone, V: Eq + Clone>(
    map: &mut VecMap<K, V>,
    command: MapCommand<K, V>,
) -> MapReply<K, V>
    ensures { Step K.eq V.eq K.Clone V.Clone map.old command result map.new }
{
    let reply = execute(map, command);
    pairs_fit_the_capacity(map);
    reply
}

// Runs one command. The contract says how the list and the capacity change.
fn execute<K: Eq + Clone, V: Eq + Clone>(
    map: &mut VecMap<K, V>,
    command: MapCommand<K, V>,
) -> MapReply<K, V>
    ensures { Effect K.eq V.eq K.Clone V.Clone map.old command result map.new }
{
    match command {
        MapCommand::Insert(key, value) => match map.insert(key, value) {
            Ok(old) => MapReply::Value(old),
            Err(_refused) => MapReply::NoMemory,
        },
        MapCommand::InsertFull(key, value) => match map.insert_full(key, value) {
            Ok((index, old)) => MapReply::Full(index, old),
            Err(_refused) => MapReply::NoMemory,
        },
        MapCommand::InsertAt(index, ..) if map.len() < index => MapReply::OutOfRange,
        MapCommand::InsertAt(index, key, value) => match map.insert_at(index, key, value) {
            Ok(old) => MapReply::Moved(old),
            Err(_refused) => MapReply::NoMemory,
        },
        MapCommand::InsertKey(key, value) => match map.insert_key(key, value) {
            Ok(old) => MapReply::Pair(old),
            Err(_refused) => MapReply::NoMemory,
        },
        MapCommand::OrInsert(key, value) => match put_if_new(map, key, value) {
            Ok((index, added)) => MapReply::Kept(index, added),
            Err(_refused) => MapReply::NoMemory,
        },
        MapCommand::Get(key) => clone_value(map.get(&key)),
        MapCommand::GetIndex(index) => clone_pair(map.get_index(index)),
        MapCommand::IndexOf(key) => MapReply::Place(map.get_index_of(&key)),
        MapCommand::ContainsKey(key) => MapReply::Truth(map.contains_key(&key)),
        MapCommand::First => clone_pair(map.first()),
        MapCommand::Last => clone_pair(map.last()),
        MapCommand::Len => MapReply::Number(map.len()),
        MapCommand::Remove(key) => MapReply::Value(map.remove(&key)),
        MapCommand::RemoveEntry(key) => MapReply::Pair(map.remove_entry(&key)),
        MapCommand::SwapRemove(key) => MapReply::Value(map.swap_remove(&key)),
        MapCommand::SwapRemoveEntry(key) => MapReply::Pair(map.swap_remove_entry(&key)),
        MapCommand::RemoveIndex(index) if map.len() <= index => MapReply::OutOfRange,
        MapCommand::RemoveIndex(index) => MapReply::Pair(Some(map.remove_index(index))),
        MapCommand::SwapRemoveIndex(index) if map.len() <= index => MapReply::OutOfRange,
        MapCommand::SwapRemoveIndex(index) => MapReply::Pair(Some(map.swap_remove_index(index))),
        MapCommand::Pop => MapReply::Pair(map.pop()),
        MapCommand::SwapIndices(a, b) if map.len() <= a || map.len() <= b => MapReply::OutOfRange,
        MapCommand::SwapIndices(a, b) => {
            map.swap_indices(a, b);
            MapReply::Done
        },
        MapCommand::Truncate(len) => {
            map.truncate(len);
            MapReply::Done
        },
        MapCommand::Clear => {
            map.clear();
            MapReply::Done
        },
        MapCommand::Reverse => {
            map.reverse();
            MapReply::Done
        },
        MapCommand::Append(mut other) => match map.append(&mut other) {
            Ok(()) => MapReply::Done,
            Err(_refused) => MapReply::NoMemory,
        },
        MapCommand::SplitOff(index) if map.len() < index => MapReply::OutOfRange,
        MapCommand::SplitOff(index) => match map.split_off(index) {
            Ok(rest) => MapReply::Rest(rest),
            Err(_refused) => MapReply::NoMemory,
        },
        MapCommand::ToVec => clone_all(map),
        MapCommand::Equals(other) => MapReply::Truth(*map == other),
    }
}
