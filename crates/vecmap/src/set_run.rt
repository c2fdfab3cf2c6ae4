//! Runs of commands on a set.
ghost use Rattle.std.specs.{Prelude.{◌≡◌, IfOk, OnErr}, List.IsDistinct, Set.ClonesAreEqual};
ghost use Rattle.vecmap.specs.SetRun.{Run};

mod command;
mod reply;
mod step;

pub use self::command::SetCommand;
pub use self::reply::SetReply;
use self::step::step;
use std::alloc::{AllocError, Global};
use vecmap_set::VecSet;

/// Runs the commands in order, and returns one reply for each.
///
/// Capacity for the replies is reserved first. A command that is out of range, or for which memory runs out, changes
/// nothing. What it carried is dropped, and the run continues.
///
/// # Errors
///
/// [`AllocError`] if the capacity for the replies cannot be allocated; no command has then run, and the set is
/// unchanged.
///
/// # Preconditions
///
/// A clone of an element is equal to it.
///
/// # Complexity
///
/// One allocation for the replies. Each command costs what its call does, and a clone of what the call returns a
/// reference to.
///
/// # Examples
///
/// ```
/// let mut set = vecset!(alloc; 1);
/// let commands = vec![in alloc; SetCommand::Insert(2), SetCommand::Insert(1), SetCommand::Contains(2)]?;
/// let replies = run_set(alloc, &mut set, commands)?;
/// format!(in alloc; "{replies:?}")?.as_str() // "[Truth(true), Truth(false), Truth(true)]"
/// set.as_slice() // [1, 2]
/// ```
pub fn run_set<T: Eq + Clone>(
    alloc: Global,
    set: &mut VecSet<T>,
    commands: Vec<SetCommand<T>>,
) -> Result<Vec<SetReply<T>>, AllocError>
    requires clones_equal { ClonesAreEqual T.eq T.is_clone }
    ensures run { IfOk result
        (λ replies. Run T.eq T.Clone set.old commands.items replies.items set.new) }
    ensures distinct { IsDistinct T.eq set.new.elements }
    ensures err { OnErr result (set.new ≡ set.old) }
{
    set.as_slice();
    let mut replies = Vec::with_capacity(alloc, commands.len())?;
    for command in commands {
        replies.push_reserved(step(set, command));
    }
    set.as_slice();
    Ok(replies)
}
