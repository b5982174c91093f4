//! Which cell feeds which in each slot of a plan.
//! After NASA TM-102716; the code is this project's own.
#![tactic(auto)]

mod bits;
pub mod laws;
mod masks;
mod rows;
mod words;

pub use rows::DepRows;
