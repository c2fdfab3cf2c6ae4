//! `VecMap`: a map that keeps its pairs in insertion order, in one vector, and finds keys by `==`.
#![tactic(auto)]

mod bulk;
mod cloning;
mod conversion;
mod drain;
mod entry;
mod equality;
mod extending;
mod formatting;
mod indexing;
mod insertion;
mod iteration;
pub mod laws;
mod lending;
mod lookup;
mod make;
mod mutable_keys;
mod order;
mod removal;
mod room;
mod search;
mod updating;

pub use drain::Drain;
pub use entry::{Entry, OccupiedEntry, VacantEntry};
pub use mutable_keys::MutableKeys;
use std::marker::Model;

/// A map that keeps its pairs in insertion order.
///
/// Keys need neither `Hash` nor `Ord`. A lookup compares them by `==`, in order, so it makes at most `len` comparisons.
/// A contract sees a map as the list of its pairs and its capacity.
///
/// One allocation holds all pairs and nothing else: a pair needs `size_of::<(K, V)>()` bytes. A map is `Eq` if its
/// values are, so it can itself be a key, and `Send` and `Sync` if its keys and values are. It is neither `Hash` nor
/// `Ord` nor `Default`.
///
/// All keys are distinct, unless a caller makes duplicates: by writing a key, or by keys whose clones differ from them.
/// A lookup then finds the first pair with an equal key.
///
/// # Complexity
///
/// A call with a key or a query compares it with the keys in order, up to the first match: at most `len` comparisons.
/// Unless its `# Complexity`, or that of the call that it is like, says otherwise, any other call compares no keys, and
/// no call moves pairs or allocates.
///
/// # Examples
///
/// ```rust
/// use std::alloc::{AllocError, Global};
/// use vecmap::{VecMap, vecmap};
///
/// /// The port of each service, in the order in which they came first.
/// pub fn ports(alloc: Global) -> Result<VecMap<&'static str, u16>, AllocError> {
///     let mut ports = vecmap!(alloc; "http" => 80, "ssh" => 22);
///     ports.insert("http", 8080)?;
///     Ok(ports)
/// }
/// ```
///
/// It returns `{"http": 8080, "ssh": 22}`. The examples of calls are parts of such a function: `alloc` is its argument,
/// and what a line returns is behind it.
///
/// ```
/// let mut map = VecMap::from_array(alloc, [('a', 1), ('b', 2)])?;
/// map.insert('a', 3)? // Some(1)
/// map.get(&'b') // Some(&2)
/// map.as_slice() // [('a', 3), ('b', 2)]
/// ```
#[derive(Drop)]
pub struct VecMap<K, V> {
    pairs: Vec<(K, V)>,
}

impl<K, V> Model for VecMap<K, V> {
    ghost use Rattle.vecmap_map.specs.Contents.{Contents};

    ghost Value = { Contents K V };

    ghost view = { λ m. record { entries = m.pairs.items; capacity = m.pairs.cap } };
}
