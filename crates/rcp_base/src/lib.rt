//! What every crate of the platform stands on: saturating arithmetic, words of bits, names, lists, limits, and the traits of
//! the outside.
//! This project's own.
#![tactic(auto)]

mod arithmetic;
pub mod bits;
mod calls;
mod folder;
mod list;
mod mem_folder;
mod mem_sink;
mod memory;
mod name;
mod sink;
mod sure_folder;
mod sure_sink;

pub use arithmetic::{abs, add, div, mul, neg, rem, sub};
pub use folder::{Folder, ReadError};
pub use list::List;
pub use mem_folder::MemFolder;
pub use mem_sink::MemSink;
pub use memory::Memory;
pub use name::Name;
pub use sink::{Sink, WriteError};
pub use sure_folder::SureFolder;
pub use sure_sink::SureSink;

/// The most replicas of a plan.
pub const MAX_REPLICAS: usize = 9;

/// The most cells of a plan.
pub const MAX_CELLS: usize = 64;

/// The most sensors of a plan.
pub const MAX_SENSORS: usize = 64;

/// The most tasks of a plan, and of a slot.
pub const MAX_TASKS: usize = 128;

/// The most slots of a plan.
pub const MAX_SLOTS: usize = 32;

/// The most actuators of a plan.
pub const MAX_ACTUATORS: usize = 32;

/// The most bytes of a task's body or of an actuator's value.
pub const MAX_BODY: usize = 4_096;

/// The most brackets and prefix operators that enclose a token.
pub const MAX_NESTING: usize = 64;

/// The greatest limit on a recovery length: one node more than the most slots have of the most cells.
pub const MAX_RECOVERY: u32 = 2_049;

/// The most frames of a journal.
pub const MAX_FRAMES: u32 = 1_000_000;

/// The most bytes of a task file.
pub const MAX_TASK_FILE: u64 = 1_048_576;

/// The most bytes of a journal.
pub const MAX_JOURNAL: u64 = 67_108_864;
