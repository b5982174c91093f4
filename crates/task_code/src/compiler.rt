//! The compiler's two calls.
//! This project's own.
ghost use Rattle.std.specs.Prelude.{◌≡◌, IfOk};
ghost use Rattle.task_code.specs.Compiler.{task_code, expr_code};
ghost use Rattle.task_code.specs.Correct.{Computes, ComputesExpr};

use crate::code::Code;
use crate::emit::{emit_expr, emit_lets, emit_sets, put};
use crate::instruction::Instruction;
use rcp_base::Memory;
use rcp_model::{Expr, Task};
use std::alloc::Global;

/// The code of a task, whose results are the values of its set rows in order. A let is computed once.
/// More instructions than a `u32` counts are want of memory.
#[tactic(auto, using(crate::proofs::SizeLaws::task_code_computes))]
pub fn compile(alloc: Global, task: &Task) -> Result<Code, Memory>
    ensures code { IfOk result (λ code. code ≡ task_code task.now) }
    ensures computes { IfOk result (Computes task.now) }
{
    let mut instructions = Vec::new(alloc);
    emit_lets(&mut instructions, task.lets.as_slice())?;
    emit_sets(&mut instructions, task.sets.as_slice())?;
    Code::new(instructions)
}

/// The code of an expression that stands alone, whose one result is its value.
/// More instructions than a `u32` counts are want of memory.
#[tactic(auto, using(crate::proofs::SizeLaws::expr_code_computes))]
pub fn compile_expr(alloc: Global, expr: &Expr) -> Result<Code, Memory>
    ensures code { IfOk result (λ code. code ≡ expr_code expr.now) }
    ensures computes { IfOk result (ComputesExpr expr.now) }
{
    let mut instructions = Vec::new(alloc);
    emit_expr(&mut instructions, expr)?;
    put(&mut instructions, Instruction::Give)?;
    Code::new(instructions)
}
