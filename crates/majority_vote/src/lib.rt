//! What a vote over places chooses: the value of more than half of all places, or the median of those that are named.
//! After NASA TM-102716; the median is this project's own.
#![tactic(auto)]

mod middle;
mod voting;

pub use middle::median;
pub use voting::majority;
