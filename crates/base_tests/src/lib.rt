//! Tests of the base crate and of votes, over their public calls.
//! This project's own.
#![tactic(auto)]

#[cfg(test)]
mod memory;
#[cfg(test)]
mod values;
#[cfg(test)]
mod votes;
