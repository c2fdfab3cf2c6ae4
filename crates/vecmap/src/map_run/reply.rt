//! The replies to commands on a map.
use vecmap_map::VecMap;

/// The reply to a command on a map.
///
/// It holds clones if the call returns references. After `OutOfRange` and `NoMemory` nothing has changed, and what the
/// command carried is dropped.
#[derive(Debug, Drop)]
#[derive_where(PartialEq, Eq; K: Eq, V: Eq)]
pub enum MapReply<K, V> {
    /// A value, if there is one.
    Value(Option<V>),
    /// The index of the key, and its previous value, if it had one.
    Full(usize, Option<V>),
    /// The previous index and value of the key, if it was present.
    Moved(Option<(usize, V)>),
    /// The index of the key, and whether its pair was added.
    Kept(usize, bool),
    /// A pair, if there is one.
    Pair(Option<(K, V)>),
    /// The index of a key, if it is present.
    Place(Option<usize>),
    /// The `bool` that the call returns.
    Truth(bool),
    /// The number of pairs.
    Number(usize),
    /// The command is done.
    Done,
    /// The pairs from the index on.
    Rest(VecMap<K, V>),
    /// Clones of all pairs, in order.
    Pairs(Vec<(K, V)>),
    /// An index is out of range, and nothing has changed.
    OutOfRange,
    /// Memory ran out, and nothing has changed.
    NoMemory,
}
