//! The timed events of a frame, an agenda that keeps them in order, and pickers that choose among those that are due at once.
//! Only making an agenda takes memory.
//! After NASA TM-104196; the code is this project's own.
#![tactic(auto)]

mod agenda;
mod event;
pub mod laws;
mod picker;

pub use agenda::Agenda;
pub use event::{Event, EventKind};
pub use picker::{First, Last, Picker, Script};
