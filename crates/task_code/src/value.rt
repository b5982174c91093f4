//! What single instructions compute.
//! This project's own.
ghost use Rattle.std.specs.Prelude.{◌≡◌, pos, slice_index_or};
ghost use Rattle.rcp_model.specs.Expr as expr;

use rcp_base::{add, div, mul, rem, sub};
use rcp_model::Op;

/// The value at a number, which is 0 where the list has none.
#[inline(always)]
pub fn value_at(values: &[i64], i: u16) -> i64
    ensures { result ≡ slice_index_or values.now i (pos 0) }
{
    values.get(i as usize).copied().unwrap_or(0)
}

#[inline(always)]
pub fn is_true(x: i64) -> bool
    ensures { result ≡ expr.is_true x }
{
    x != 0
}

#[inline(always)]
pub fn truth(b: bool) -> i64
    ensures { result ≡ expr.truth b }
{
    if b { 1 } else { 0 }
}

#[inline(always)]
pub fn op_result(op: Op, a: i64, b: i64) -> i64
    ensures { result ≡ expr.op_result op a b }
{
    match op {
        Op::Add => add(a, b),
        Op::Sub => sub(a, b),
        Op::Mul => mul(a, b),
        Op::Div => div(a, b),
        Op::Rem => rem(a, b),
        Op::Lt => truth(a < b),
        Op::Le => truth(a <= b),
        Op::Gt => truth(a > b),
        Op::Ge => truth(a >= b),
        Op::Eq => truth(a == b),
        Op::Ne => truth(a != b),
        Op::And => truth(is_true(a) && is_true(b)),
        Op::Or => truth(is_true(a) || is_true(b)),
        Op::Min => a.min(b),
        Op::Max => a.max(b),
    }
}
