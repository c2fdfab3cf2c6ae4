//! `VecSet`, a set that keeps its elements in insertion order, in one vector, and finds them by `==`.
#![tactic(auto)]

mod bulk;
mod cloning;
mod conversion;
mod drain;
mod equality;
mod extending;
mod formatting;
mod indexing;
mod insertion;
mod iteration;
pub mod laws;
mod lazy;
mod lookup;
mod make;
mod operators;
mod order;
mod removal;
mod room;
mod search;

pub use drain::Drain;
pub use lazy::{
    Absent, Difference, FilteredOf, Intersection, Presence, Present, SymmetricDifference, Union,
};
use std::marker::Model;

/// A set that keeps its elements in insertion order, without duplicates.
///
/// Elements need neither `Hash` nor `Ord`. A lookup compares the elements by `==`, in order, up to the first that
/// matches, and of small elements up to seven more. So it makes at most `len` comparisons. A contract sees a set as the
/// list of its elements and its capacity.
///
/// One allocation holds all elements and nothing else: an element needs `size_of::<T>()` bytes. A set is `Eq`, so it
/// can itself be a key or an element, and `Send` and `Sync` if its elements are. It is neither `Hash` nor `Ord` nor
/// `Default`.
///
/// # Complexity
///
/// A call with an element or a query makes at most `len` comparisons. Unless its `# Complexity`, or that of the call
/// that it is like, says otherwise, any other call makes none, and no call moves elements or allocates.
///
/// # Examples
///
/// ```rust
/// use std::alloc::{AllocError, Global};
/// use vecmap::{VecSet, vecset};
///
/// /// What both sets have, in the order of the first.
/// pub fn common(alloc: Global) -> Result<VecSet<u32>, AllocError> {
///     let a = vecset!(alloc; 3, 1, 2, 3);
///     let b = vecset!(alloc; 2, 4, 3);
///     &a & &b
/// }
/// ```
///
/// It returns `{3, 2}`. The examples of calls are parts of such a function: `alloc` is its argument, and what a line
/// returns is behind it.
///
/// ```
/// let mut set = VecSet::from_array(alloc, [3, 1])?;
/// set.insert(2)? // true
/// set.insert(1)? // false
/// set.as_slice() // [3, 1, 2]
/// ```
#[derive(Drop)]
pub struct VecSet<T: Eq> {
    items: Vec<T>,
}

impl<T: Eq> Model for VecSet<T> {
    ghost use Rattle.std.specs.List.{IsDistinct};
    ghost use Rattle.vecmap_set.specs.SetContents.{Contents};

    ghost Value = { Contents T };

    ghost view = { λ s. record { elements = s.items.items; capacity = s.items.cap } };

    ghost invariant = { λ s. IsDistinct T.eq s.items.items };
}
