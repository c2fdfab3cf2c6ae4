//! What the rows of maps and of sets share: items, the words of a row, and what a call has returned. It also makes the
//! calls of slices and vectors.
#![tactic(auto)]

pub mod both;
pub mod given;
mod item;
pub mod listed;
mod log;
pub mod out;
pub mod pulls;
mod row;
pub mod slices;
pub mod words;

pub use item::Item;
pub use log::Log;
pub use out::{MakeError, Out, Outcome, printed};
pub use row::{Call, Row, first_word};
