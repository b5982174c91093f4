//! The cyclic frame table: what runs in each slot and what each actuator is commanded, compiled once.
//! After NASA TM-102716; the code is this project's own.
#![tactic(auto)]

mod build;
mod commands;
mod programs;
mod table;
mod write_back;

pub use table::Table;
