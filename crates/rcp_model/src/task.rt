//! Tasks: let rows, then set rows. How the two were mixed in the text isn't kept.
//! This project's own.
use crate::Expr;
use rcp_base::{List, Name};

/// A name for a value within a task.
#[derive(Debug, Drop)]
pub struct LetRow {
    pub name: Name,
    pub value: Expr,
}

/// The value that a task gives to a cell.
#[derive(Debug, Drop)]
pub struct SetRow {
    pub cell: u16,
    pub value: Expr,
}

/// A task. Each let reads the lets before it, and all sets read the cells as the task found them.
#[derive(Debug, Drop)]
pub struct Task {
    pub name: Name,
    pub lets: List<LetRow>,
    pub sets: List<SetRow>,
}
