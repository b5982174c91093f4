//! Tasks and expressions as code for a stack of numbers: compiled once, and then run with no walk and no memory.
//! This project's own.
#![tactic(auto)]

mod code;
mod compiler;
mod emit;
mod instruction;
mod machine;
mod runner;
mod steps;
mod value;

pub use code::Code;
pub use compiler::{compile, compile_expr};
pub use instruction::Instruction;
pub use runner::Runner;
pub use steps::Steps;
