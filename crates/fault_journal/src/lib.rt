//! The journal: what a user says of the frames of a run.
//! This project's own.
#![tactic(auto)]

mod columns;
mod fault;
mod journal;
mod kind;
pub mod laws;
mod limits;
mod number;
mod records;
mod row;
mod row_reader;
mod rows;
mod seen;

pub use fault::JournalFault;
pub use journal::Journal;
