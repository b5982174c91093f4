//! Replicas on clocks of their own, whose messages travel as timed events.
//! After NASA TM-104196.
#![tactic(auto)]

mod clocked;
pub mod laws;
mod letters;
mod machine;
mod opening;
mod stepped;
mod ticks;
mod timed;

pub use clocked::Clocked;
pub use stepped::Stepped;
pub use timed::Timed;
