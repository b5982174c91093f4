//! Which cells are voted in each slot: one word for each slot.
//! After NASA TM-102716; the words are this project's own.
#![tactic(auto)]

mod bits;
pub mod laws;
mod pattern;

pub use pattern::Pattern;
