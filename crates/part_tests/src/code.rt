//! Results of code, against values worked by hand from the rules.
//! This project's own.
ghost use Rattle.std.specs.Prelude.{◌≡◌, ◌+◌, ◌≤◌, [], IfOk};
ghost use Rattle.rcp_model.specs.Expr as expr;
ghost use Rattle.task_code.specs.Compiler.{task_size};
ghost use Rattle.task_code.specs.Correct.{set_values};

use rcp_base::{List, Memory, Name};
use rcp_model::{Expr, LetRow, Op, SetRow, Task};
use sqlite_items::Boxed;
use std::alloc::Global;
use std::marker::Brand;
use std::process::Abort;
use std::sync::ledger::{Blank, Ledger};
use std::test::Fail;
use task_code::{Runner, Steps, compile, compile_expr};

// The values of a task's set rows, by its code and in no more steps than the task is long.
fn values_of<L: Ledger>(
    alloc: Global,
    task: &Task,
    sensors: &[i64],
    cells: &[i64],
    steps: &mut Steps<L>,
) -> Result<Vec<i64>, Memory>
    ensures values { IfOk result (λ values.
        values.items ≡ set_values task.now sensors.now cells.now) }
    ensures steps { steps.new ≤ steps.old + task_size task.now }
{
    let mut codes = Vec::new(alloc);
    codes.push(compile(alloc, task)?)?;
    let mut runner = Runner::new(alloc, codes.as_slice())?;
    let mut out = vec![in alloc; 0; task.sets.len()]?;
    runner.eval_counted(&codes[0], sensors, cells, out.as_mut_slice(), steps);
    Ok(out)
}

// The same in a ledger of its own.
fn values_in<L: Ledger>(
    alloc: Global,
    task: &Task,
    sensors: &[i64],
    cells: &[i64],
    blank: Blank,
) -> Result<Vec<i64>, Memory>
    requires name { blank.name ≡ L.name }
    requires parts { blank.parts ≡ L.parts }
    requires one { L.parts ≡ 1 }
{
    let mut steps = Steps::<L>::new(blank);
    values_of(alloc, task, sensors, cells, &mut steps)
}

// The value of an expression, by its code.
fn value_of(alloc: Global, e: &Expr, sensors: &[i64], cells: &[i64]) -> Result<i64, Memory>
    ensures { IfOk result (λ value. value ≡ expr.value_of e.now [] sensors.now cells.now) }
{
    let mut codes = Vec::new(alloc);
    codes.push(compile_expr(alloc, e)?)?;
    let mut runner = Runner::new(alloc, codes.as_slice())?;
    let mut out = [0];
    runner.eval(&codes[0], sensors, cells, &mut out);
    Ok(out[0])
}

fn number(alloc: Global, n: i64) -> Result<Boxed<Expr>, Memory> {
    Ok(Boxed::new(alloc, Expr::Number(n))?)
}

fn two_of(alloc: Global, op: Op, a: Expr, b: Expr) -> Result<Expr, Memory> {
    Ok(Expr::Two(op, Boxed::new(alloc, a)?, Boxed::new(alloc, b)?))
}

// What an operator makes of two numbers.
fn two(alloc: Global, op: Op, a: i64, b: i64) -> Result<i64, Memory> {
    let e = two_of(alloc, op, Expr::Number(a), Expr::Number(b))?;
    value_of(alloc, &e, &[], &[])
}

fn check_two(rt: &impl Abort, alloc: Global, op: Op, a: i64, b: i64, due: i64) -> Result<(), Fail> {
    assert_eq!(rt; two(alloc, op, a, b)?, due, "{a} and {b}");
    Ok(())
}

fn clamp(alloc: Global, x: i64, low: i64, high: i64) -> Result<i64, Memory> {
    let e = Expr::Clamp(number(alloc, x)?, number(alloc, low)?, number(alloc, high)?);
    value_of(alloc, &e, &[], &[])
}

fn choice(alloc: Global, test: i64) -> Result<i64, Memory> {
    let e = Expr::If(number(alloc, test)?, number(alloc, 1)?, number(alloc, 2)?);
    value_of(alloc, &e, &[], &[])
}

fn opposite(alloc: Global, x: i64) -> Result<i64, Memory> {
    let e = Expr::Not(number(alloc, x)?);
    value_of(alloc, &e, &[], &[])
}

// Two lets, a product and a sum with it, and two sets, which read the cells as they were.
fn small_task(alloc: Global) -> Result<Task, Fail> {
    let name = Name::read("t").ok_or("no name")?;
    let mut lets = List::new(alloc);
    let product = two_of(alloc, Op::Mul, Expr::Sensor(0), Expr::Number(2))?;
    lets.push(LetRow {
        name,
        value: product,
    })?;
    let sum = two_of(alloc, Op::Add, Expr::Let(0), Expr::Cell(1))?;
    lets.push(LetRow { name, value: sum })?;
    let mut sets = List::new(alloc);
    let quotient = two_of(alloc, Op::Div, Expr::Let(1), Expr::Let(0))?;
    sets.push(SetRow {
        cell: 0,
        value: quotient,
    })?;
    let difference = two_of(alloc, Op::Sub, Expr::Cell(0), Expr::Let(1))?;
    sets.push(SetRow {
        cell: 1,
        value: difference,
    })?;
    Ok(Task { name, lets, sets })
}

#[test]
fn a_task_gives_a_value_for_each_set(rt: HostRuntime) -> Result<(), Fail> {
    let alloc = rt.alloc();
    let task = small_task(alloc)?;
    let code = compile(alloc, &task)?;
    assert_eq!(rt; code.len(), 12);
    assert_eq!(rt; code.room(), 2);
    let values = values_in::<Brand>(alloc, &task, &[5], &[10, 20], Blank::new(1))?;
    assert_eq!(rt; values.as_slice(), [3, -20].as_slice());
    Ok(())
}

#[test]
fn quotients_are_cut_toward_zero(rt: HostRuntime) -> Result<(), Fail> {
    let alloc = rt.alloc();
    check_two(&rt, alloc, Op::Div, -7, 2, -3)?;
    check_two(&rt, alloc, Op::Rem, -7, 2, -1)?;
    check_two(&rt, alloc, Op::Div, 5, 0, 0)?;
    check_two(&rt, alloc, Op::Rem, 5, 0, 0)?;
    check_two(&rt, alloc, Op::Div, i64::MIN, -1, i64::MAX)
}

#[test]
fn every_number_but_zero_is_true(rt: HostRuntime) -> Result<(), Fail> {
    let alloc = rt.alloc();
    check_two(&rt, alloc, Op::And, 2, -3, 1)?;
    check_two(&rt, alloc, Op::And, 2, 0, 0)?;
    check_two(&rt, alloc, Op::Or, 0, 5, 1)?;
    check_two(&rt, alloc, Op::Lt, 1, 2, 1)?;
    check_two(&rt, alloc, Op::Ge, 1, 2, 0)?;
    assert_eq!(rt; opposite(alloc, 7)?, 0);
    assert_eq!(rt; opposite(alloc, 0)?, 1);
    assert_eq!(rt; choice(alloc, -9)?, 1);
    assert_eq!(rt; choice(alloc, 0)?, 2);
    Ok(())
}

#[test]
fn the_least_wins_where_ends_cross(rt: HostRuntime) -> Result<(), Fail> {
    let alloc = rt.alloc();
    assert_eq!(rt; clamp(alloc, 5, 0, 3)?, 3);
    assert_eq!(rt; clamp(alloc, -5, 0, 3)?, 0);
    assert_eq!(rt; clamp(alloc, 5, 9, 3)?, 9);
    Ok(())
}

#[test]
fn what_is_not_there_is_zero(rt: HostRuntime) -> Result<(), Fail> {
    let alloc = rt.alloc();
    let e = two_of(alloc, Op::Sub, Expr::Sensor(1), Expr::Let(0))?;
    assert_eq!(rt; value_of(alloc, &e, &[7], &[])?, 0);
    Ok(())
}
