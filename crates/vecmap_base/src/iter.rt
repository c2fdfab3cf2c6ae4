//! The iterators with an exact length, except drains: over a map's pairs, keys and values and over a set's elements.
mod by_mut;
mod by_reference;
mod by_value;
pub(crate) mod elements;
mod keys;
mod pairs;
mod values;

pub use by_mut::IterMutOf;
pub use by_reference::IterOf;
pub use by_value::IntoIterOf;
pub use keys::{IntoKeys, Keys, KeysMut};
pub use pairs::{IntoIter, Iter, IterMut, IterMut2};
pub use values::{IntoValues, Values, ValuesMut};
