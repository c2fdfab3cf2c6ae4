//! The set and its types.
//!
//! Each call has a comment, a contract and an example where it is defined. These are the calls by topic, with
//! their files in `crates/vecmap_set/src`:
//!
//! - creation and taking apart: `new`, `with_capacity`, `as_slice`, `into_vec`, `allocator` (`make.rt`); `clone` and
//!   the trait `Clone` (`cloning.rt`)
//! - size and capacity: `len`, `is_empty`, `capacity`, `reserve`, `reserve_exact`, `try_reserve`, `try_reserve_exact`,
//!   `shrink_to_fit`, `shrink_to` (`room.rt`)
//! - removal: `clear`, `truncate`, `split_off`, `retain`, `pop`, `remove`, `remove_index`, `swap_remove`,
//!   `swap_remove_index`, `take`, `swap_take`, `remove_str` (`removal.rt`); `drain` and its iterator `Drain`
//!   (`drain.rt`)
//! - order: `reverse`, `swap_indices`, `move_index`, `sort`, `sort_by`, `sort_by_cached_key`, `sort_unstable`,
//!   `sort_unstable_by` (`order.rt`)
//! - binary searches: `binary_search`, `binary_search_by`, `binary_search_by_key`, `partition_point` (`search.rt`)
//! - lookups: `contains`, `first`, `last`, `get`, `get_index`, `get_full`, `get_index_of`, `contains_str`
//!   (`lookup.rt`); `set[index]` (`indexing.rt`)
//! - insertion: `insert`, `insert_full`, `replace`, `insert_unique`, `index_or_try_insert_with` (`insertion.rt`)
//! - many elements at once: `from_iter`, `from_slice`, `append`, `extend`, `extend_copied`, `collect` (`bulk.rt`); the
//!   trait `Extend` (`extending.rt`); `From<Vec>`, `from_vec_counted`, `from_array`, `from_vec_unchecked`, `to_vec`
//!   (`conversion.rt`)
//! - two sets: `is_disjoint`, `is_subset`, `is_superset`, `==` (`equality.rt`); `difference`, `intersection`,
//!   `symmetric_difference`, `union` (`lazy.rt`) with their iterators (`lazy/`); `&`, `|`, `^`, `-` (`operators.rt`)
//! - iteration: `iter`, loops (`iteration.rt`); the iterators themselves (`iter/elements.rt` of
//!   `crates/vecmap_base/src`), and the two generic types of which they are aliases (`iter/by_reference.rt`,
//!   `iter/by_value.rt`)
//! - `Debug` (`formatting.rt`), the law that a set fits its capacity (`laws.rt`); the other laws are in
//!   `crates/vecmap_laws`
pub use vecmap_base::items::{IntoIter, Iter};
pub use vecmap_set::{Difference, Drain, Intersection, SymmetricDifference, Union, VecSet, laws};
