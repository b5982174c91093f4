//! What a control computer is to do: the parts of a plan, and the definitions of what they mean.
//! After NASA TM-102716.
#![tactic(auto)]

mod checked_plan;
mod expr;
pub mod laws;
mod node;
mod plan;
mod task;

pub use checked_plan::Plan;
pub use expr::{Expr, Op};
pub use node::Node;
pub use plan::{ActuatorRow, PlanParts, SlotRow, Timing, Variable};
pub use task::{LetRow, SetRow, Task};
