//! A journal of sensor values and faults that a number gives, under which the guard holds.
//! This project's own.
#![tactic(auto)]

mod draws;
mod fault;
mod frames;
pub mod laws;
mod line;
mod rows;

pub use frames::generate;
