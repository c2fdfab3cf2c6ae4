//! The map and its types.
//!
//! Each call has a comment, a contract and an example where it is defined. These are the calls by topic, with
//! their files in `crates/vecmap_map/src`:
//!
//! - creation and taking apart: `new`, `with_capacity`, `as_slice`, `into_vec`, `allocator` (`make.rt`); `clone` and
//!   the trait `Clone` (`cloning.rt`)
//! - size and capacity: `len`, `is_empty`, `capacity`, `reserve`, `reserve_exact`, `try_reserve`, `try_reserve_exact`,
//!   `shrink_to_fit`, `shrink_to` (`room.rt`)
//! - removal: `clear`, `truncate`, `split_off`, `retain`, `pop`, `remove`, `remove_entry`, `remove_index`,
//!   `swap_remove`, `swap_remove_entry`, `swap_remove_index`, `remove_str` (`removal.rt`); `drain` and its iterator
//!   `Drain` (`drain.rt`)
//! - order: `reverse`, `swap_indices`, `move_index`, `sort_keys`, `sort_by`, `sort_by_cached_key`,
//!   `sort_unstable_keys`, `sort_unstable_by` (`order.rt`)
//! - binary searches: `binary_search_keys`, `binary_search_by`, `binary_search_by_key`, `partition_point` (`search.rt`)
//! - lookups: `contains_key`, `first`, `last`, `get`, `get_index`, `get_full`, `get_key_value`, `get_index_of`,
//!   `has_distinct_keys`, and lookups by a text, whose names end in `_str` (`lookup.rt`)
//! - lookups that return a mutable reference to a value: `get_mut`, `first_mut`, `last_mut`, `get_full_mut`,
//!   `get_index_mut`, `pair_mut`, `get_value_at_mut`, `first_value_mut`, `last_value_mut` (`lending.rt`);
//!   `map[index]`, `map[&key]`, `map["text"]` (`indexing.rt`)
//! - calls that write each value: `set_values`, `update_values`, `try_update_values` (`updating.rt`)
//! - insertion: `insert`, `insert_full`, `insert_key`, `insert_at`, `insert_unique`, `index_or_try_insert_with`
//!   (`insertion.rt`)
//! - many pairs at once: `from_iter`, `from_slice`, `append`, `extend`, `extend_refs`, `extend_pairs`, `collect`
//!   (`bulk.rt`); the trait `Extend` (`extending.rt`); `From<Vec>`, `from_vec_counted`, `from_array`,
//!   `from_vec_unchecked`, `to_vec` (`conversion.rt`)
//! - entries: `entry`, `Entry` (`entry.rt`), `OccupiedEntry` (`entry/occupied.rt`), `VacantEntry` (`entry/vacant.rt`)
//! - iteration: `iter`, `iter_mut`, `keys`, `values`, `values_mut`, `into_keys`, `into_values`, loops (`iteration.rt`);
//!   the iterators themselves (`iter/pairs.rt`, `iter/keys.rt`, `iter/values.rt` of `crates/vecmap_base/src`), and the
//!   three generic types of which they are aliases (`iter/by_reference.rt`, `iter/by_mut.rt`, `iter/by_value.rt`)
//! - mutable references to keys: `MutableKeys`, with `get_full_mut2`, `get_index_mut2`, `retain2`, `iter_mut2`,
//!   `keys_mut`, `as_mut_slice` (`mutable_keys.rt`)
//! - `==` (`equality.rt`), `Debug` (`formatting.rt`), the law that a map fits its capacity (`laws.rt`); the other laws
//!   are in `crates/vecmap_laws`
pub use vecmap_base::{
    IntoIter, IntoKeys, IntoValues, Iter, IterMut, IterMut2, Keys, KeysMut, Values, ValuesMut,
};
pub use vecmap_map::{Drain, Entry, MutableKeys, OccupiedEntry, VacantEntry, VecMap, laws};
