//! The bytes of a task file to a plan, or to the first test that it fails.
//! This project's own.
#![tactic(auto)]

mod clashes;
mod display;
mod document;
mod fault;
mod file;
pub mod laws;
mod name_list;
mod names;
mod parts;
mod path;
mod places;
mod sections;
mod shape;
mod slots;
mod texts;

pub use display::path_text;
pub use fault::FileFault;
pub use file::read_plan;
pub use path::{Key, Path, Section};
