//! The clocks of the replicas: which timings a task file may have, and the moments of each frame.
//! After NASA TM-104196.
#![tactic(auto)]

mod drift;
pub mod laws;
mod moments;
mod rules;

pub use moments::{arrival, begin, in_window, send, sync, vote};
pub use rules::{check_timing, delay_limit};
