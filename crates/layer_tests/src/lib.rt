//! Tests of layers, over their public calls.
//! This project's own.
#![tactic(auto)]

#[cfg(test)]
mod cases;
#[cfg(test)]
mod deliveries;
#[cfg(test)]
mod kinds;
#[cfg(test)]
mod on_clocks;
#[cfg(test)]
mod phases;
#[cfg(test)]
mod replicas;
#[cfg(test)]
mod shown;
#[cfg(test)]
mod worked;
