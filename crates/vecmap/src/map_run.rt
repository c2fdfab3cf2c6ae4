//! Runs of commands on a map.
ghost use Rattle.std.specs.Prelude.{◌≡◌, IfOk, OnErr};
ghost use Rattle.vecmap.specs.MapRun.{Run};

mod command;
mod reply;
mod step;

pub use self::command::MapCommand;
pub use self::reply::MapReply;
use self::step::step;
use std::alloc::{AllocError, Global};
use vecmap_map::VecMap;

/// Runs the commands in order, and returns one reply for each.
///
/// Capacity for the replies is reserved first. A command that is out of range, or for which memory runs out, changes
/// nothing. What it carried is dropped, and the run continues.
///
/// # Errors
///
/// [`AllocError`] if the capacity for the replies cannot be allocated; no command has then run, and the map is
/// unchanged.
///
/// # Complexity
///
/// One allocation for the replies. Each command costs what its call does, and a clone of what the call returns a
/// reference to.
///
/// # Examples
///
/// ```
/// let mut map = vecmap!(alloc; 'a' => 1);
/// let commands = vec![in alloc; MapCommand::Insert('b', 2), MapCommand::Get('a'), MapCommand::RemoveIndex(2)]?;
/// let replies = run(alloc, &mut map, commands)?;
/// format!(in alloc; "{replies:?}")?.as_str() // "[Value(None), Value(Some(1)), OutOfRange]"
/// map.as_slice() // [('a', 1), ('b', 2)]
/// ```
pub fn run<K: Eq + Clone, V: Eq + Clone>(
    alloc: Global,
    map: &mut VecMap<K, V>,
    commands: Vec<MapCommand<K, V>>,
) -> Result<Vec<MapReply<K, V>>, AllocError>
    ensures run { IfOk result
        (λ replies. Run K.eq V.eq K.Clone V.Clone map.old commands.items replies.items map.new) }
    ensures err { OnErr result (map.new ≡ map.old) }
{
    let mut replies = Vec::with_capacity(alloc, commands.len())?;
    for command in commands {
        replies.push_reserved(step(map, command));
    }
    Ok(replies)
}
