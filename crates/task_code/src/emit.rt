//! From trees to instructions.
//! This project's own.
ghost use Rattle.std.specs.Prelude.{◌≡◌, [], ◌∷◌, ◌++◌, OnOk, MatchOption};
ghost use Rattle.task_code.specs.Compiler.{code_of, lets_code, sets_code, with_operand};
ghost use Rattle.task_code.specs.declared.instruction.Instruction.TheVariants.{Two};

use crate::instruction::Instruction;
use rcp_base::Memory;
use rcp_model::{Expr, LetRow, Op, SetRow};

/// Adds the instructions of an expression.
pub fn emit_expr(code: &mut Vec<Instruction>, e: &Expr) -> Result<(), Memory>
    ensures { OnOk result (code.new.items ≡ code.old.items ++ code_of e.now) }
{
    match e {
        Expr::Number(n) => put(code, Instruction::Number(*n)),
        Expr::Sensor(i) => put(code, Instruction::Sensor(*i)),
        Expr::Cell(i) => put(code, Instruction::Cell(*i)),
        Expr::Let(i) => put(code, Instruction::Let(*i)),
        Expr::Neg(x) => {
            emit_expr(code, x.get())?;
            put(code, Instruction::Neg)
        }
        Expr::Not(x) => {
            emit_expr(code, x.get())?;
            put(code, Instruction::Not)
        }
        Expr::Abs(x) => {
            emit_expr(code, x.get())?;
            put(code, Instruction::Abs)
        }
        Expr::Two(op, a, b) => {
            emit_expr(code, a.get())?;
            if let Some(fused) = with_leaf(*op, b.get()) {
                return put(code, fused);
            }
            emit_expr(code, b.get())?;
            put(code, Instruction::Two(*op))
        }
        Expr::Clamp(x, low, high) => {
            emit_expr(code, x.get())?;
            emit_expr(code, low.get())?;
            emit_expr(code, high.get())?;
            put(code, Instruction::Clamp)
        }
        Expr::If(test, a, b) => {
            emit_expr(code, test.get())?;
            emit_expr(code, a.get())?;
            emit_expr(code, b.get())?;
            put(code, Instruction::If)
        }
    }
}

// The operator with its right operand in it, where that is a leaf.
fn with_leaf(op: Op, e: &Expr) -> Option<Instruction>
    ensures { MatchOption result
        (with_operand op (code_of e.now) ≡ code_of e.now ++ Two op ∷ [])
        (λ fused. with_operand op (code_of e.now) ≡ fused ∷ []) }
{
    match e {
        Expr::Number(n) => Some(Instruction::WithNumber(op, *n)),
        Expr::Sensor(i) => Some(Instruction::WithSensor(op, *i)),
        Expr::Cell(i) => Some(Instruction::WithCell(op, *i)),
        Expr::Let(i) => Some(Instruction::WithLet(op, *i)),
        Expr::Neg(_) => None,
        Expr::Not(_) => None,
        Expr::Abs(_) => None,
        Expr::Two(_, _, _) => None,
        Expr::Clamp(_, _, _) => None,
        Expr::If(_, _, _) => None,
    }
}

/// Adds the instructions of let rows.
pub fn emit_lets(code: &mut Vec<Instruction>, rows: &[LetRow]) -> Result<(), Memory>
    ensures { OnOk result (code.new.items ≡ code.old.items ++ lets_code rows.now) }
{
    for row in rows {
        emit_expr(code, &row.value)?;
        put(code, Instruction::Keep)?;
    }
    Ok(())
}

/// Adds the instructions of set rows.
pub fn emit_sets(code: &mut Vec<Instruction>, rows: &[SetRow]) -> Result<(), Memory>
    ensures { OnOk result (code.new.items ≡ code.old.items ++ sets_code rows.now) }
{
    for row in rows {
        emit_expr(code, &row.value)?;
        put(code, Instruction::Give)?;
    }
    Ok(())
}

/// Adds an instruction.
pub fn put(code: &mut Vec<Instruction>, instruction: Instruction) -> Result<(), Memory>
    ensures { OnOk result (code.new.items ≡ code.old.items ++ instruction ∷ []) }
{
    code.push(instruction)?;
    Ok(())
}
