//! Functions over slices and vectors of pairs or elements, the iterators of maps and sets, and the error `Refused`.
//!
//! The functions look up, compare, move, search and retain items, and find and remove duplicates. The definitions that
//! the contracts of every crate use are in `specs/`.
#![tactic(auto)]

mod distinct;
mod drain;
mod duplicates;
mod equality;
mod equivalent;
mod iter;
mod lookup;
mod matching;
mod moving;
pub mod projection;
mod refused;
mod relations;
mod retain;
mod search;
mod steps;
mod try_update;
mod unrolled;
mod update;

pub use distinct::{items_distinct, keys_distinct};
pub use drain::{move_range_last, reverse_from};
pub use duplicates::{dedup_keep_first, dedup_keep_last_value, gather_items, gather_pairs};
pub use equality::pairs_equal;
pub use equivalent::Equivalent;
pub use iter::{
    IntoIter, IntoIterOf, IntoKeys, IntoValues, Iter, IterMut, IterMut2, IterMutOf, IterOf, Keys,
    KeysMut, Values, ValuesMut,
};
pub use lookup::{
    contains_equivalent, contains_item, contains_item_inline, find, find_equivalent, find_item,
    find_item_equivalent, find_item_str, find_str,
};
pub use moving::{insert_reserved, move_to, remove_item, replace_and_move};
pub use refused::Refused;
pub use relations::{are_disjoint, is_subset_of};
pub use retain::{retain_items, retain_pairs, retain_pairs_mut};
pub use search::{partition_point, search_by_index};
pub use steps::Steps;
pub use try_update::try_update_pairs;
pub use update::update_pairs;

/// The iterators over a set's elements.
pub mod items {
    pub use crate::iter::elements::{IntoIter, Iter};
}
