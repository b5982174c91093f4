//! Every line that the program prints, made in one buffer.
//! This project's own.
#![tactic(auto)]

mod label;
mod lines;
mod piece;
mod words;

pub use label::Label;
pub use lines::Lines;
