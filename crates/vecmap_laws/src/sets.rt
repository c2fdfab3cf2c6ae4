//! Laws of sets, and of the definitions that their contracts use. A call of a law costs nothing at run time, and adds
//! the law to what the proof of the caller knows.
mod algebra;
mod distinct;
mod equality;
mod insertions;
mod lookups;
mod removals;

pub use crate::lists::{
    comparisons_are_bounded, eq_is_an_equivalence, ord_is_a_total_order, texts_are_queries,
};
pub use algebra::{
    algebra_is_symmetric, disjoint_sets_have_no_intersection, lazy_iterators_agree_with_operators,
    lazy_iterators_give_no_repeats, lengths_of_intersection_and_union_add_up,
};
pub use distinct::parts_keep_elements_distinct;
pub use equality::{
    disjointness_is_symmetric, equality_ignores_order, equality_is_an_equivalence,
    equality_is_inclusion_both_ways, lengths_tell_of_inclusion,
};
pub use insertions::{
    additions_move_nothing, bulk_additions_are_single_ones, bulk_additions_move_nothing,
    collecting_one_more_is_extending,
};
pub use lookups::{clones_have_the_same_members, queries_find_as_elements};
pub use removals::{appending_undoes_splitting, retain_filters};
