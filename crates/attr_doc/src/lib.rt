//! Attribute documents: sections of texts, each under a name, in the order in which they were first set.
//!
//! Names ignore the case of ASCII letters, and each name stays as it was first written. A document is a [`VecMap`] of
//! sections, and each section is a `VecMap` of its texts. So a name is found by comparing it with the stored names in
//! order. This suits the documents that people write: a few sections with a few names, in an order that has a meaning.
#![tactic(auto)]

mod document;
mod ignoring_case;
mod merge;
mod name;
mod set;

pub use document::Document;
pub use name::Name;
