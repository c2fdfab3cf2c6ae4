//! Calls on a map, as values.
use vecmap_map::VecMap;

/// A command for [`run`](crate::run): one call on a map.
///
/// Each command names its call and its reply. Instead, the reply is `OutOfRange` if an index is out of range, or
/// `NoMemory` if memory runs out.
#[derive(Debug, Drop)]
#[derive_where(PartialEq, Eq; K: Eq, V: Eq)]
pub enum MapCommand<K, V> {
    /// `insert`: `Value`, the previous value.
    Insert(K, V),
    /// `insert_full`: `Full`, the index and the previous value.
    InsertFull(K, V),
    /// `insert_at`: `Moved`, the previous index and value. An index above the number of pairs is out of range.
    InsertAt(usize, K, V),
    /// `insert_key`: `Pair`, the previous pair.
    InsertKey(K, V),
    /// `entry` and `or_insert`: `Kept`, the index, and whether the pair was added.
    OrInsert(K, V),
    /// `get`: `Value`, a clone.
    Get(K),
    /// `get_index`: `Pair`, a clone.
    GetIndex(usize),
    /// `get_index_of`: `Place`.
    IndexOf(K),
    /// `contains_key`: `Truth`.
    ContainsKey(K),
    /// `first`: `Pair`, a clone.
    First,
    /// `last`: `Pair`, a clone.
    Last,
    /// `len`: `Number`.
    Len,
    /// `remove`: `Value`.
    Remove(K),
    /// `remove_entry`: `Pair`.
    RemoveEntry(K),
    /// `swap_remove`: `Value`.
    SwapRemove(K),
    /// `swap_remove_entry`: `Pair`.
    SwapRemoveEntry(K),
    /// `remove_index`: `Pair`. An index at or above the number of pairs is out of range.
    RemoveIndex(usize),
    /// `swap_remove_index`: `Pair`. An index at or above the number of pairs is out of range.
    SwapRemoveIndex(usize),
    /// `pop`: `Pair`.
    Pop,
    /// `swap_indices`: `Done`. An index at or above the number of pairs is out of range.
    SwapIndices(usize, usize),
    /// `truncate`: `Done`.
    Truncate(usize),
    /// `clear`: `Done`.
    Clear,
    /// `reverse`: `Done`.
    Reverse,
    /// `append`: `Done`. On `NoMemory`, the carried map is dropped.
    Append(VecMap<K, V>),
    /// `split_off`: `Rest`. An index above the number of pairs is out of range.
    SplitOff(usize),
    /// `to_vec`: `Pairs`, clones.
    ToVec,
    /// `==`, with the map on the left: `Truth`.
    Equals(VecMap<K, V>),
}
