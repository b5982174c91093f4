//! Tests of clocks, compiled code, events, messages and mailboxes, over their public calls.
//! This project's own.
#![tactic(auto)]

#[cfg(test)]
mod clocks;
#[cfg(test)]
mod code;
#[cfg(test)]
mod events;
#[cfg(test)]
mod mailboxes;
#[cfg(test)]
mod messages;
