//! The task language: bodies of tasks and expressions of actuators, read from their text.
//! This project's own.
#![tactic(auto)]

mod fault;
mod labels;
pub mod laws;
mod lexer;
mod names;
mod parser;
mod printer;
mod reader;
mod scan;
mod statements;
mod token;

pub use fault::LangFault;
pub use parser::{parse_body, parse_expr};
pub use printer::print_body;
