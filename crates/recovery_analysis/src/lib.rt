//! How soon a vote pattern recovers, or a cycle on which it does not.
//! After NASA TM-102716; the words are this project's own.
#![tactic(auto)]

mod cycles;
pub mod laws;
mod levels;
mod steps;
mod verdict;
mod walks;

pub use steps::next_word;
pub use verdict::{Verdict, analyse, within};
