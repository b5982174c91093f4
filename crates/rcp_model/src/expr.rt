//! Expressions of the task language as trees.
//! This project's own.
use sqlite_items::Boxed;

/// An operator of two operands.
#[derive(Clone, Copy, Debug, PartialEq, Eq)]
pub enum Op {
    Add,
    Sub,
    Mul,
    Div,
    Rem,
    Lt,
    Le,
    Gt,
    Ge,
    Eq,
    Ne,
    And,
    Or,
    Min,
    Max,
}

/// An expression. Sensors and cells are numbered as in their plan, lets as in their task.
#[derive(Debug, Drop)]
pub enum Expr {
    Number(i64),
    Sensor(u16),
    Cell(u16),
    Let(u16),
    Neg(Boxed<Expr>),
    Not(Boxed<Expr>),
    Abs(Boxed<Expr>),
    Two(Op, Boxed<Expr>, Boxed<Expr>),
    /// The value, its least and its greatest.
    Clamp(Boxed<Expr>, Boxed<Expr>, Boxed<Expr>),
    /// The test, the value where it is not 0, and the value where it is.
    If(Boxed<Expr>, Boxed<Expr>, Boxed<Expr>),
}
