//! The answer to each command.
ghost use Rattle.std.specs.Prelude.{◌≡◌, List, None, OnErr, OnOk, option_copied, ℕ};
ghost use Rattle.vecmap.specs.Pairs.{has_text, lookup_by};
ghost use Rattle.vecmap_run.specs.{CommandSteps.{Adds, Inserts, InsertsPairAt, OrInserts, Step}, Lines.within_limit, Service.MayAnswer};

use crate::command::{Command, parse};
use std::alloc::{AllocError, Global};
use std::mem;
use vecmap::VecMap;

/// The answer to a line.
#[derive(Clone, Copy, Debug, PartialEq, Eq)]
pub enum Answer {
    /// The value of the key, or the value that it had, if the key was present.
    Value(Option<i64>),
    /// The index of the key, if the key is present.
    Place(Option<usize>),
    /// The index and the value that the key had, if the key was present.
    Moved(Option<(usize, i64)>),
    /// The number of pairs.
    Number(usize),
    /// All pairs.
    Pairs,
    /// The line is not a command.
    Fault,
    /// The index is greater than the number of pairs.
    OutOfRange,
    /// Memory ran out for the key or the pair; the map is unchanged.
    NoMemory,
}

/// Executes the command of a line. The line is `None` if it is too long.
pub fn execute_line(alloc: Global, map: &mut VecMap<String, i64>, line: Option<&[u8]>) -> Answer
    ensures { (whole : List ℕ) → option_copied line.entry ≡ within_limit whole
        → MayAnswer map.old.entries whole result map.new.entries }
{
    let Some(line) = line else {
        return Answer::Fault;
    };
    match parse(line) {
        Some(command) => execute(alloc, map, command),
        None => Answer::Fault,
    }
}

// Executes a command.
fn execute(alloc: Global, map: &mut VecMap<String, i64>, command: Command<'_>) -> Answer
    ensures { Step map.old.entries command.entry result map.new.entries }
{
    match command {
        Command::Insert(key, value) => insert(alloc, map, key, value),
        Command::InsertAt(index, key, value) => insert_at(alloc, map, index, key, value),
        Command::OrInsert(key, value) => or_insert(alloc, map, key, value),
        Command::Get(key) => Answer::Value(map.get(key).copied()),
        Command::IndexOf(key) => Answer::Place(map.get_index_of(key)),
        Command::Remove(key) => Answer::Value(map.remove(key)),
        Command::SwapRemove(key) => Answer::Value(map.swap_remove(key)),
        Command::Len => Answer::Number(map.len()),
        Command::List => Answer::Pairs,
    }
}

fn insert(alloc: Global, map: &mut VecMap<String, i64>, key: &str, value: i64) -> Answer
    ensures { Inserts map.old.entries key.now value result map.new.entries }
{
    if let Some(stored) = map.get_mut(key) {
        return Answer::Value(Some(mem::replace(stored, value)));
    }
    match insert_absent(alloc, map, key, value) {
        Ok(()) => Answer::Value(None),
        Err(AllocError) => Answer::NoMemory,
    }
}

fn insert_at(
    alloc: Global,
    map: &mut VecMap<String, i64>,
    index: usize,
    key: &str,
    value: i64,
) -> Answer
    ensures { InsertsPairAt map.old.entries index key.now value result map.new.entries }
{
    if map.len() < index {
        return Answer::OutOfRange;
    }
    let Ok(key) = key.to_string(alloc) else {
        return Answer::NoMemory;
    };
    match map.insert_at(index, key, value) {
        Ok(old) => Answer::Moved(old),
        Err(_refused) => Answer::NoMemory,
    }
}

fn or_insert(alloc: Global, map: &mut VecMap<String, i64>, key: &str, value: i64) -> Answer
    ensures { OrInserts map.old.entries key.now value result map.new.entries }
{
    if let Some(found) = map.get(key) {
        return Answer::Value(Some(*found));
    }
    match insert_absent(alloc, map, key, value) {
        Ok(()) => Answer::Value(Some(value)),
        Err(AllocError) => Answer::NoMemory,
    }
}

// Appends a key that is absent. Only this needs memory: for the text of the key, and for the pair.
fn insert_absent(
    alloc: Global,
    map: &mut VecMap<String, i64>,
    key: &str,
    value: i64,
) -> Result<(), AllocError>
    requires absent { lookup_by (has_text key.now) map.old.entries ≡ None }
    ensures ok { OnOk result (Adds map.old.entries key.now value map.new.entries) }
    ensures err { OnErr result (map.new ≡ map.old) }
{
    let key = key.to_string(alloc)?;
    match map.insert_unique(key, value) {
        Ok(()) => Ok(()),
        Err(_refused) => Err(AllocError),
    }
}
