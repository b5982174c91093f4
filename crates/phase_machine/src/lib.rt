//! A replica's frame as four types: no vote comes before the message is sent.
//! After NASA TM-104196; the code is this project's own.
#![tactic(auto)]

mod body;
mod commanding;
mod computing;
mod hearing;
pub mod laws;
mod phase;
mod sending;
mod steps;
mod syncing;
mod telling;
mod voting;

pub use computing::Computing;
pub use phase::Phase;
pub use replica_parts::shade;
pub use sending::Sending;
pub use steps::{begin_at, deliver_at, finish_all, phases, send_at, sync_at, vote_at};
pub use syncing::Syncing;
pub use voting::Voting;
