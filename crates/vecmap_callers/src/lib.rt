//! Functions over maps and sets, proved from the public contracts of the calls that they use, as a user's functions
//! would be.
#![tactic(auto)]

pub mod editor;
pub mod header_lists;
pub mod interner;
pub mod options;
pub mod registry;
pub mod scopes;
pub mod trees;
