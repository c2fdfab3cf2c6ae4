//! Tests of what no test case of `vecmap_script` can show, since the keys, values and elements there have one type: it has
//! more than 16 bytes, prints, and cannot be copied. The head of each file says what its tests have instead. And callers,
//! in which the mutants in `must-fail` make bugs, and lemmas on each line of `ListStep`.
#![tactic(auto)]

#[cfg(test)]
mod checks;
#[cfg(test)]
mod clones;
#[cfg(test)]
mod comparisons;
pub mod conditions;
#[cfg(test)]
mod equality;
#[cfg(test)]
mod equivalent;
#[cfg(test)]
mod markers;
#[cfg(test)]
mod no_size;
pub mod readme;
#[cfg(test)]
mod types;
