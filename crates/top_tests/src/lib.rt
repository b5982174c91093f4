//! Tests of the top call: what the program answers and prints, with values that were worked by hand from the rules.
//! One helper makes the call, and lines of text are the cases.
//! This project's own.
#![tactic(auto)]

#[cfg(test)]
mod call;
#[cfg(test)]
mod case;
#[cfg(test)]
mod check;
#[cfg(test)]
mod events;
#[cfg(test)]
mod files;
#[cfg(test)]
mod frames;
#[cfg(test)]
mod generated;
#[cfg(test)]
mod ideal;
#[cfg(test)]
mod journals;
#[cfg(test)]
mod layers;
#[cfg(test)]
mod outside;
#[cfg(test)]
mod replay;
#[cfg(test)]
mod summary;
#[cfg(test)]
mod task_files;
#[cfg(test)]
mod thin;
#[cfg(test)]
mod words;
