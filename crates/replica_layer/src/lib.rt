//! The replicated system as a layer that does each frame in one step.
//! After NASA TM-102716; the code is this project's own.
#![tactic(auto)]

mod frames;
mod replicated;

pub use replicated::Replicated;
