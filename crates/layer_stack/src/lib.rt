//! What the layers of the replicated system share: the rows of a frame, who is healthy, where the frames come from, what a layer
//! does, and a run over any layer with the theorem that it recovers.
//! After NASA TM-102716 and NASA TM-104196.
#![tactic(auto)]

mod frame_in;
mod health;
mod inputs;
pub mod laws;
mod layer;
mod run;
mod streaks;

pub use frame_in::FrameIn;
pub use health::healthy;
pub use inputs::Inputs;
pub use layer::Layer;
pub use run::{Run, run_frames};
