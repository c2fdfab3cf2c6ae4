//! The laws of maps and of sets, with their lemmas: for those who prove code over `vecmap`.
//!
//! A law is a function without effect whose contract is a theorem. A call costs nothing at run time, and adds the
//! theorem to what the proof of the caller knows. The lemmas are below `Rattle.vecmap_laws.proofs`, and those of the
//! libraries below `Rattle.vecmap_base.proofs`, `Rattle.vecmap_map.proofs` and `Rattle.vecmap_set.proofs`.
#![tactic(auto)]

mod lists;
pub mod maps;
pub mod sets;
