//! Tests of which cell feeds which, vote patterns, their analysis and their thinning, over their public calls.
//! This project's own.
#![tactic(auto)]

#[cfg(test)]
mod cases;
#[cfg(test)]
mod needs;
#[cfg(test)]
mod plans;
#[cfg(test)]
mod thinning;
#[cfg(test)]
mod verdicts;
#[cfg(test)]
mod votes;
#[cfg(test)]
mod within;
