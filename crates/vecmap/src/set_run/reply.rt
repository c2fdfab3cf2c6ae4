//! The replies to commands on a set.
use vecmap_set::VecSet;

/// The reply to a command on a set.
///
/// It holds clones if the call returns references. After `OutOfRange` and `NoMemory` nothing has changed, and what the
/// command carried is dropped.
#[derive(Debug, Drop)]
#[derive_where(PartialEq, Eq; T: Eq)]
pub enum SetReply<T: Eq> {
    /// The `bool` that the call returns.
    Truth(bool),
    /// An element, if there is one.
    Item(Option<T>),
    /// The index of an element, if it is present.
    Place(Option<usize>),
    /// The number of elements.
    Number(usize),
    /// The command is done.
    Done,
    /// A set.
    Made(VecSet<T>),
    /// Clones of all elements, in order.
    Items(Vec<T>),
    /// An index is out of range, and nothing has changed.
    OutOfRange,
    /// Memory ran out, and nothing has changed.
    NoMemory,
}
