//! An editor of fields that can undo: each change returns the change that takes it back.
//!
//! ```
//! let mut fields = vecmap!(alloc; 1 => 10, 2 => 20);
//! let moved = perform(&mut fields, Change::Move(0, 1))?;
//! let removed = perform(&mut fields, Change::Remove(2))?;
//! removed // Change::Place(0, 2, 20)
//! fields.as_slice() // [(1, 10)]
//! perform(&mut fields, removed)? // Change::Remove(2)
//! perform(&mut fields, moved)? // Change::Move(0, 1)
//! fields.as_slice() // [(1, 10), (2, 20)]
//! ```
ghost use Rattle.std.specs.Prelude.{◌≡◌, IfOk, OnErr, OnOk, nat_eq};
ghost use Rattle.vecmap.specs.Pairs.{HasDistinctKeys};
ghost use Rattle.vecmap_callers.specs.Editor.{IsPossible, changed};

use std::alloc::AllocError;
use vecmap::VecMap;
use vecmap_laws::maps::{changes_are_undone, removals_are_forgotten, removals_by_index_are_undone};

/// A change of a list of fields.
#[derive(Clone, Copy, Debug, PartialEq, Eq)]
pub enum Change {
    /// Sets the value of a field. A new field is appended.
    Set(u32, u32),
    /// Removes a field.
    Remove(u32),
    /// Inserts a new field at an index.
    Place(usize, u32, u32),
    /// Moves the field at the first index to the second.
    Move(usize, usize),
}

/// Changes the fields, and returns the change that restores the list.
///
/// # Errors
///
/// [`AllocError`] if allocation fails; the fields are then unchanged.
pub fn perform(fields: &mut VecMap<u32, u32>, change: Change) -> Result<Change, AllocError>
    requires possible { IsPossible change fields.old.entries }
    requires distinct { HasDistinctKeys nat_eq fields.old.entries }
    ensures fields { OnOk result (fields.new.entries ≡ changed change fields.old.entries) }
    ensures undo { IfOk result (λ back. changed back fields.new.entries ≡ fields.old.entries) }
    ensures undo_possible { IfOk result (λ back. IsPossible back fields.new.entries) }
    ensures distinct { HasDistinctKeys nat_eq fields.new.entries }
    ensures err { OnErr result (fields.new ≡ fields.old) }
{
    changes_are_undone::<u32, u32>();
    removals_are_forgotten::<u32, u32>();
    removals_by_index_are_undone::<u32, u32>();
    Ok(match change {
        Change::Set(key, value) => match fields.insert(key, value)? {
            Some(old) => Change::Set(key, old),
            None => Change::Remove(key),
        },
        Change::Remove(key) => match fields.get_index_of(&key) {
            Some(index) => {
                let (_key, value) = fields.remove_index(index);
                Change::Place(index, key, value)
            },
            None => Change::Remove(key),
        },
        Change::Place(index, key, value) => {
            fields.insert_at(index, key, value)?;
            Change::Remove(key)
        },
        Change::Move(from, to) => {
            fields.move_index(from, to);
            Change::Move(to, from)
        },
    })
}
