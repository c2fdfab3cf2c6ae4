//! Calls on a set, as values.
use vecmap_set::VecSet;

/// A command for [`run_set`](crate::run_set): one call on a set.
///
/// Each command names its call and its reply. Instead, the reply is `OutOfRange` if an index is out of range, or
/// `NoMemory` if memory runs out.
#[derive(Debug, Drop)]
#[derive_where(PartialEq, Eq; T: Eq)]
pub enum SetCommand<T: Eq> {
    /// `insert`: `Truth`, whether the element is new.
    Insert(T),
    /// `replace`: `Item`, the replaced element.
    Replace(T),
    /// `get`: `Item`, a clone of the stored element.
    Get(T),
    /// `get_index`: `Item`, a clone.
    GetIndex(usize),
    /// `get_index_of`: `Place`.
    IndexOf(T),
    /// `contains`: `Truth`.
    Contains(T),
    /// `first`: `Item`, a clone.
    First,
    /// `last`: `Item`, a clone.
    Last,
    /// `len`: `Number`.
    Len,
    /// `remove`: `Truth`.
    Remove(T),
    /// `take`: `Item`.
    Take(T),
    /// `swap_remove`: `Truth`.
    SwapRemove(T),
    /// `swap_take`: `Item`.
    SwapTake(T),
    /// `remove_index`: `Item`. An index at or above the number of elements is out of range.
    RemoveIndex(usize),
    /// `swap_remove_index`: `Item`. An index at or above the number of elements is out of range.
    SwapRemoveIndex(usize),
    /// `pop`: `Item`.
    Pop,
    /// `swap_indices`: `Done`. An index at or above the number of elements is out of range.
    SwapIndices(usize, usize),
    /// `truncate`: `Done`.
    Truncate(usize),
    /// `clear`: `Done`.
    Clear,
    /// `reverse`: `Done`.
    Reverse,
    /// `append`: `Done`. On `NoMemory`, the carried set is dropped.
    Append(VecSet<T>),
    /// `split_off`: `Made`. An index above the number of elements is out of range.
    SplitOff(usize),
    /// `to_vec`: `Items`, clones.
    ToVec,
    /// `==`, with the set on the left: `Truth`.
    Equals(VecSet<T>),
    /// `is_subset` of the carried set: `Truth`.
    IsSubset(VecSet<T>),
    /// `is_superset` of the carried set: `Truth`.
    IsSuperset(VecSet<T>),
    /// `is_disjoint`: `Truth`.
    IsDisjoint(VecSet<T>),
    /// `&`, with the set on the left: `Made`.
    Intersect(VecSet<T>),
    /// `|`, with the set on the left: `Made`.
    Unite(VecSet<T>),
    /// `^`, with the set on the left: `Made`.
    Exclusive(VecSet<T>),
    /// `-`, with the set on the left: `Made`.
    Subtract(VecSet<T>),
}
