//! Maps and sets that keep insertion order and compare by `==`, each over one vector: all that users name.
//!
//! A [`VecMap`] and a [`VecSet`] find their entries by `==`, so keys need neither `Hash` nor `Ord`. They are meant for
//! short lists whose order matters, such as headers, options and symbol tables. [`map`] and [`set`] list their calls.
//!
//! Each call is proved to do what its contract says. A call that can run out of memory returns a `Result`; no call
//! panics or aborts. What must hold before a call is written under `# Preconditions`, and is a `requires` of the
//! contract. The proof of each caller shows that it holds, so nothing is checked at run time.
//!
//! A call that is like another one has its preconditions, its errors and its cost, unless its own comment says
//! something else. Any other call without `# Errors` cannot fail; the `Err` of a search is an index. `# Complexity`
//! counts comparisons, moves and allocations, but not what it costs to drop something.
//!
//! A contract sees a map as its list of pairs and its capacity, and a set as its list of elements and its capacity. A
//! list holds the values themselves, so a definition says which of two equal keys is kept. In the examples of
//! definitions, `1x` is a key that is equal to `1y` and not identical to it. In definitions on closures, `g` and `c`
//! stand for what a closure may do, as `F.Fn`, and `h` for a function of the logic.
//!
//! # Examples
//!
//! ```rust
//! use std::alloc::{AllocError, Global};
//! use std::io;
//! use vecmap::{VecMap, VecSet, vecset};
//!
//! /// A new value replaces the old one, and the key keeps its index.
//! pub fn headers(alloc: Global) -> Result<VecMap<&'static str, u32>, AllocError> {
//!     let mut map = VecMap::new(alloc);
//!     map.insert("age", 10)?;
//!     map.insert("max", 20)?;
//!     map.insert("age", 30)?;
//!     Ok(map)
//! }
//!
//! /// What both sets have, in the order of the first.
//! pub fn common(alloc: Global) -> Result<VecSet<u32>, AllocError> {
//!     let a = vecset!(alloc; 3, 1, 2, 3);
//!     let b = vecset!(alloc; 2, 4, 3);
//!     &a & &b
//! }
//!
//! pub fn main(rt: HostRuntime) -> io::Result<()> {
//!     let headers = headers(rt.alloc())?;
//!     println!(rt; "{headers:?}")?;
//!     let common = common(rt.alloc())?;
//!     println!(rt; "{common:?}")
//! }
//! ```
//!
//! It prints `{"age": 30, "max": 20}` and `{3, 2}`.
#![tactic(auto)]

pub mod macros;
pub mod map;
mod map_run;
pub mod set;
mod set_run;

pub use map_run::{MapCommand, MapReply, run};
pub use set_run::{SetCommand, SetReply, run_set};
pub use std::collections::TryReserveError;
pub use vecmap_base::{Equivalent, Refused, items_distinct, keys_distinct};
pub use vecmap_map::VecMap;
pub use vecmap_set::VecSet;
