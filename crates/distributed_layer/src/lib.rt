//! The replicated system as a layer that does each frame in phases, with mailboxes.
//! After NASA TM-102716; the code is this project's own.
#![tactic(auto)]

mod comparing;
mod delivering;
mod distributed;
mod frames;
pub mod laws;
mod stepping;
mod turns;

pub use comparing::{frame_of_both, tell_the_same};
pub use distributed::Distributed;
