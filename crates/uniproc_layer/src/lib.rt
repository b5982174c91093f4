//! The single processor that never fails, run by the frame table.
//! After NASA TM-102716; the code is this project's own.
#![tactic(auto)]

mod evaluate;
mod uni;

pub use uni::Uni;
