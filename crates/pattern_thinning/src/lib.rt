//! Takes votes away until none can be spared.
//! After NASA TM-102716; the limit and the order are this project's own.
#![tactic(auto)]

pub mod laws;
mod reach;
mod thinning;

pub use thinning::thin;
