//! Runs of commands, as in `run Insert 1a:1; Get 1 -> Value(None); Value(Some(1))`.
use crate::map::Map;
use crate::set::Set;
use std::alloc::AllocError;
use std::fmt::{Debug, Write};
use vecmap::{MapCommand, SetCommand, VecMap, VecSet, run, run_set};
use vecmap_script_base::listed::Pair;
use vecmap_script_base::{Item, Out, Outcome, again, first_word};

/// Runs the commands on a map.
pub fn on_map(map: &mut Map, out: &mut Out, words: &str) -> Option<Outcome> {
    let commands = read_commands(out, words)?;
    out.begin();
    let replies = run(out.alloc, map, commands);
    show(out, replies)
}

/// Runs the commands on a set.
pub fn on_set(set: &mut Set, out: &mut Out, words: &str) -> Option<Outcome> {
    let commands = read_commands(out, words)?;
    out.begin();
    let replies = run_set(out.alloc, set, commands);
    show(out, replies)
}

fn show<R: Debug + Drop>(out: &mut Out, replies: Result<Vec<R>, AllocError>) -> Option<Outcome> {
    out.log.end();
    match replies {
        Ok(replies) => {
            for reply in replies {
                if !out.answer.is_empty() {
                    let _ = write!(out.answer, "; ");
                }
                let _ = write!(out.answer, "{reply:?}");
            }
            Some(Outcome::Granted)
        }
        Err(error) => out.refuse(error),
    }
}

/// A command of a map or of a set.
trait Command: Drop {
    /// Reads a command, as `Insert 1a:1`, `GetIndex 0` or `Append 1a:1 2b:2`.
    fn read(out: &Out, name: &str, args: &str) -> Option<Self>;
}

fn read_commands<C: Command>(out: &Out, words: &str) -> Option<Vec<C>> {
    let mut commands = again!(Vec::with_capacity(out.alloc, words.split(';').count()));
    for words in words.split(';') {
        let (name, args) = first_word(words);
        commands.push(C::read(out, name, args)?).ok()?;
    }
    Some(commands)
}

// Returns the command that has the name of one of these variants, and otherwise what follows `else`.
macro_rules! command {
    ($name:ident, $Command:ident: $($Variant:ident)+, else $rest:expr) => {
        match $name {
            $(stringify!($Variant) => Some($Command::$Variant),)+
            _ => $rest,
        }
    };
    ($name:ident, $Command:ident: $($Variant:ident)+; $args:tt, else $rest:expr) => {
        match $name {
            $(stringify!($Variant) => Some($Command::$Variant $args),)+
            _ => $rest,
        }
    };
}

impl Command for MapCommand<Item, Item> {
    fn read(out: &Out, name: &str, args: &str) -> Option<MapCommand<Item, Item>> {
        let Ok(index) = args.parse() else {
            return command!(name, MapCommand: First Last Len Pop Clear Reverse ToVec,
                else map_command_of_two(out, name, args));
        };
        command!(name, MapCommand: GetIndex RemoveIndex SwapRemoveIndex Truncate SplitOff; (index),
            else map_command_of_two(out, name, args))
    }
}

// The commands of two arguments, or of a list.
fn map_command_of_two(out: &Out, name: &str, args: &str) -> Option<MapCommand<Item, Item>> {
    let (first, rest) = first_word(args);
    match name {
        "SwapIndices" => Some(MapCommand::SwapIndices(first.parse().ok()?, rest.parse().ok()?)),
        "InsertAt" => {
            let (index, (key, value)) = (first.parse().ok()?, out.read(rest)?);
            Some(MapCommand::InsertAt(index, key, value))
        }
        "Insert" | "InsertFull" | "InsertKey" | "OrInsert" => {
            map_command_of_pair(name, out.read(args)?)
        }
        "Append" | "Equals" => {
            let other = VecMap::from(out.read_list(args)?);
            command!(name, MapCommand: Append Equals; (other), else None)
        }
        _ => map_command_of_key(name, out.read(args)?),
    }
}

fn map_command_of_pair(name: &str, (key, value): Pair) -> Option<MapCommand<Item, Item>> {
    command!(name, MapCommand: Insert InsertFull InsertKey OrInsert; (key, value), else None)
}

fn map_command_of_key(name: &str, key: Item) -> Option<MapCommand<Item, Item>> {
    command!(name, MapCommand: Get IndexOf ContainsKey Remove RemoveEntry SwapRemove
        SwapRemoveEntry; (key), else None)
}

impl Command for SetCommand<Item> {
    fn read(out: &Out, name: &str, args: &str) -> Option<SetCommand<Item>> {
        let Ok(index) = args.parse() else {
            return command!(name, SetCommand: First Last Len Pop Clear Reverse ToVec,
                else set_command_of_two(out, name, args));
        };
        command!(name, SetCommand: GetIndex RemoveIndex SwapRemoveIndex Truncate SplitOff; (index),
            else set_command_of_two(out, name, args))
    }
}

// The commands of two indices, of a list, or of an element.
fn set_command_of_two(out: &Out, name: &str, args: &str) -> Option<SetCommand<Item>> {
    if name == "SwapIndices" {
        let (first, rest) = first_word(args);
        return Some(SetCommand::SwapIndices(first.parse().ok()?, rest.parse().ok()?));
    }
    match set_command_of_set(name, VecSet::from(out.read_list(args)?)) {
        None => set_command_of_element(name, out.read(args)?),
        command => command,
    }
}

fn set_command_of_set(name: &str, other: Set) -> Option<SetCommand<Item>> {
    command!(name, SetCommand: Append Equals IsSubset IsSuperset IsDisjoint Intersect Unite
        Exclusive Subtract; (other), else None)
}

fn set_command_of_element(name: &str, item: Item) -> Option<SetCommand<Item>> {
    command!(name, SetCommand: Insert Replace Get IndexOf Contains Remove Take SwapRemove SwapTake; (item), else None)
}
