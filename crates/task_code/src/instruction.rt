//! The instructions of a code.
//! This project's own.
use rcp_model::Op;

/// An instruction. Its operands stand on the stack, the last one on top, and it leaves its value there.
#[derive(Clone, Copy, Debug, PartialEq, Eq)]
pub enum Instruction {
    Number(i64),
    Sensor(u16),
    Cell(u16),
    Let(u16),
    Neg,
    Not,
    Abs,
    Two(Op),
    /// An operator whose right operand is this number.
    WithNumber(Op, i64),
    /// An operator whose right operand is this sensor.
    WithSensor(Op, u16),
    /// An operator whose right operand is this cell.
    WithCell(Op, u16),
    /// An operator whose right operand is this let.
    WithLet(Op, u16),
    Clamp,
    If,
    /// Takes the top as the value of the next let.
    Keep,
    /// Takes the top as the next result.
    Give,
}
