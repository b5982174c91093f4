//! The parts of a plan, as a task file lists them.
//! After NASA TM-102716; names, lengths and limits are this project's own.
use crate::{Expr, Task};
use rcp_base::{List, Name};

/// The lengths of a frame's four phases in ticks, and the bounds on clocks and messages.
#[derive(Clone, Copy, Debug, PartialEq, Eq)]
pub struct Timing {
    pub compute: i64,
    pub broadcast: i64,
    pub vote: i64,
    pub sync: i64,
    /// The greatest skew of a healthy replica, in ticks.
    pub skew: i64,
    /// The greatest drift rate of a healthy replica, in parts per million.
    pub drift_ppm: i64,
    /// The least and the greatest delay of a healthy replica's messages, in ticks.
    pub delay_min: i64,
    pub delay_max: i64,
    /// The greatest skew and drift rate that a journal may give.
    pub skew_limit: i64,
    pub drift_limit_ppm: i64,
}

/// A sensor or a cell, and its value before the first frame.
#[derive(Debug, Drop)]
pub struct Variable {
    pub name: Name,
    pub initial: i64,
}

/// A row of the cyclic frame table: the tasks that run, in order, and the cells that are voted.
#[derive(Debug, Drop)]
pub struct SlotRow {
    pub tasks: List<u16>,
    pub votes: List<u16>,
}

/// An actuator, and the expression that commands it.
#[derive(Debug, Drop)]
pub struct ActuatorRow {
    pub name: Name,
    pub value: Expr,
}

/// The parts of a plan.
#[derive(Debug, Drop)]
pub struct PlanParts {
    pub replicas: u32,
    pub timing: Timing,
    pub sensors: List<Variable>,
    pub cells: List<Variable>,
    pub tasks: List<Task>,
    pub slots: List<SlotRow>,
    pub actuators: List<ActuatorRow>,
    /// The cells that are voted by the median, rising; the others are voted by the majority.
    pub medians: List<u16>,
    /// The number of nodes that no unvoted walk is to have after thinning.
    pub recovery_limit: Option<u32>,
}
