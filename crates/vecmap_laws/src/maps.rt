//! Laws of maps, and of the definitions that their contracts use. A call of a law costs nothing at run time, and adds
//! the law to what the proof of the caller knows.
mod changes;
mod distinct;
mod equality;
mod insertions;
mod lookups;
mod removals;
mod writes;

pub use crate::lists::{
    eq_is_an_equivalence, key_comparisons_are_bounded, ord_is_a_total_order,
    pairs_of_texts_are_queries, texts_are_queries,
};
pub use changes::{changes_are_undone, filters_keep_lookups, sums_follow_changes};
pub use distinct::{
    insertion_keeps_keys_distinct, parts_keep_keys_distinct, removal_keeps_keys_distinct,
};
pub use equality::{
    equality_ignores_order, equality_is_agreement, equality_is_an_equivalence,
    lengths_tell_of_equality,
};
pub use insertions::{
    bulk_insertions_are_single_ones, collecting_one_more_is_extending, entries_insert_alike,
    first_values_win, insertions_are_found, insertions_at_an_index_are_found,
};
pub use lookups::{equal_keys_find_the_same, queries_find_as_keys};
pub use removals::{
    appending_undoes_splitting, moves_keep_lookups, removals_are_forgotten,
    removals_by_index_are_undone, removals_shorten,
};
pub use writes::{writes_are_insertions, writes_by_queries_are_insertions};
