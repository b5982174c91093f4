//! From trees to texts: an operand stands in brackets only where its place wants them.
//! This project's own.
ghost use Rattle.std.specs.Prelude.{◌≡◌, [], ◌∷◌, ◌++◌, flat_map, ℕ, List, length, OnOk, IfOk, codes};
ghost use Rattle.task_lang.specs.Words.{Scope};
ghost use Rattle.task_lang.specs.Printing as spec;
ghost use Rattle.task_lang.specs.Signs as signs;
ghost use Rattle.task_lang.specs.Printing.{placed, printed};
ghost use Rattle.task_lang.specs.ReadBack.{IsReadAs, ReadsBack};

use crate::labels::Labels;
use rcp_base::{List, Memory, Name};
use rcp_model::{Expr, LetRow, Op, SetRow, Task};
use std::alloc::Global;

// Levels and places, from the loosest: `or` has 1, `and` 2, and so on.
const WHOLE: u8 = 1;

const NOT: u8 = 3;

const NEGATION: u8 = 7;

const TIGHTEST: u8 = 8;

/// Adds a whole expression.
pub fn put_expr(alloc: Global, out: &mut List<u8>, labels: &Labels, e: &Expr) -> Result<(), Memory>
    ensures { OnOk result (out.new ≡ out.old ++ spec.expr_text labels.now e.now) }
{
    put_placed(alloc, out, labels, WHOLE, e)
}

// Adds an expression at a place of this least level.
#[cycle(printer)]
fn put_placed(
    alloc: Global,
    out: &mut List<u8>,
    labels: &Labels,
    least: u8,
    e: &Expr,
) -> Result<(), Memory>
    ensures { OnOk result (out.new ≡ out.old ++ placed least (printed labels.now e.now)) }
{
    if level_of(e) < least {
        put_bracketed(alloc, out, labels, e)
    } else {
        put_bare(alloc, out, labels, e)
    }
}

// Adds an expression in brackets.
#[cycle(printer)]
fn put_bracketed(alloc: Global, out: &mut List<u8>, labels: &Labels, e: &Expr) -> Result<(), Memory>
    ensures { OnOk result
        (out.new ≡ out.old ++ (codes "(" ++ (printed labels.now e.now).text ++ codes ")")) }
{
    put(out, b"(")?;
    put_bare(alloc, out, labels, e)?;
    put(out, b")")
}

// Adds an expression without brackets round it.
#[cycle(printer)]
fn put_bare(alloc: Global, out: &mut List<u8>, labels: &Labels, e: &Expr) -> Result<(), Memory>
    ensures { OnOk result (out.new ≡ out.old ++ (printed labels.now e.now).text) }
{
    match e {
        Expr::Number(n) => put(out, n.to_string(alloc)?.as_bytes()),
        Expr::Sensor(i) => put(out, labels.sensor(*i)),
        Expr::Cell(i) => put(out, labels.cell(*i)),
        Expr::Let(i) => put(out, labels.let_(*i)),
        Expr::Neg(a) => {
            put(out, b"-")?;
            put_placed(alloc, out, labels, NEGATION, a.get())
        }
        Expr::Not(a) => {
            put(out, b"not ")?;
            put_placed(alloc, out, labels, NOT, a.get())
        }
        Expr::Abs(a) => put_call(alloc, out, labels, "abs", a.get()),
        Expr::Two(op, a, b) => put_two(alloc, out, labels, *op, a.get(), b.get()),
        Expr::Clamp(a, low, high) => {
            put_triple(alloc, out, labels, "clamp", a.get(), low.get(), high.get())
        }
        Expr::If(test, a, b) => put_triple(alloc, out, labels, "if", test.get(), a.get(), b.get()),
    }
}

// Adds a call of one argument.
#[cycle(printer)]
fn put_call(
    alloc: Global,
    out: &mut List<u8>,
    labels: &Labels,
    word: &str,
    a: &Expr,
) -> Result<(), Memory>
    ensures { OnOk result
        (out.new ≡ out.old ++ (spec.call word.now (printed labels.now a.now ∷ [])).text) }
{
    put(out, word.as_bytes())?;
    put(out, b"(")?;
    put_placed(alloc, out, labels, WHOLE, a)?;
    put(out, b")")
}

// Adds a call of three arguments.
#[cycle(printer)]
fn put_triple(
    alloc: Global,
    out: &mut List<u8>,
    labels: &Labels,
    word: &str,
    a: &Expr,
    b: &Expr,
    c: &Expr,
) -> Result<(), Memory>
    ensures { OnOk result (out.new ≡ out.old ++ (spec.call word.now (printed labels.now a.now
        ∷ printed labels.now b.now ∷ printed labels.now c.now ∷ [])).text) }
{
    put(out, word.as_bytes())?;
    put(out, b"(")?;
    put_placed(alloc, out, labels, WHOLE, a)?;
    put(out, b", ")?;
    put_placed(alloc, out, labels, WHOLE, b)?;
    put(out, b", ")?;
    put_placed(alloc, out, labels, WHOLE, c)?;
    put(out, b")")
}

// Adds an operator and its operands.
#[cycle(printer)]
fn put_two(
    alloc: Global,
    out: &mut List<u8>,
    labels: &Labels,
    op: Op,
    a: &Expr,
    b: &Expr,
) -> Result<(), Memory>
    ensures { OnOk result (out.new
        ≡ out.old ++ (spec.two op (printed labels.now a.now) (printed labels.now b.now)).text) }
{
    if is_call(op) {
        put_pair(alloc, out, labels, sign_of(op), a, b)
    } else {
        put_between(alloc, out, labels, op, a, b)
    }
}

// Adds a call of two arguments.
#[cycle(printer)]
fn put_pair(
    alloc: Global,
    out: &mut List<u8>,
    labels: &Labels,
    word: &str,
    a: &Expr,
    b: &Expr,
) -> Result<(), Memory>
    ensures { OnOk result (out.new ≡ out.old ++
        (spec.call word.now (printed labels.now a.now ∷ printed labels.now b.now ∷ [])).text) }
{
    put(out, word.as_bytes())?;
    put(out, b"(")?;
    put_placed(alloc, out, labels, WHOLE, a)?;
    put(out, b", ")?;
    put_placed(alloc, out, labels, WHOLE, b)?;
    put(out, b")")
}

// Adds an operator between its operands.
#[cycle(printer)]
fn put_between(
    alloc: Global,
    out: &mut List<u8>,
    labels: &Labels,
    op: Op,
    a: &Expr,
    b: &Expr,
) -> Result<(), Memory>
    ensures { OnOk result (out.new ≡ out.old ++ spec.infix_text op (printed labels.now a.now)
        (printed labels.now b.now)) }
{
    put_placed(alloc, out, labels, left_place(op), a)?;
    put(out, b" ")?;
    put(out, sign_of(op).as_bytes())?;
    put(out, b" ")?;
    put_placed(alloc, out, labels, level_of_two(op) + 1, b)
}

/// Adds bytes.
pub fn put(out: &mut List<u8>, bytes: &[u8]) -> Result<(), Memory>
    ensures { OnOk result (out.new ≡ out.old ++ bytes.now) }
{
    for byte in bytes {
        out.push(*byte)?;
    }
    Ok(())
}

fn level_of(e: &Expr) -> u8
    ensures { (scope : Scope) → result ≡ (printed scope e.now).level }
{
    match e {
        Expr::Two(op, _, _) => level_of_two(*op),
        Expr::Not(_) => NOT,
        Expr::Neg(_) => NEGATION,
        _ => TIGHTEST,
    }
}

fn level_of_two(op: Op) -> u8
    ensures { result ≡ signs.level_of op }
{
    match op {
        Op::Or => 1,
        Op::And => 2,
        Op::Eq | Op::Ne | Op::Lt | Op::Le | Op::Gt | Op::Ge => 4,
        Op::Add | Op::Sub => 5,
        Op::Mul | Op::Div | Op::Rem => 6,
        Op::Min | Op::Max => TIGHTEST,
    }
}

// Operators group to the left, but comparisons do not chain.
fn left_place(op: Op) -> u8
    ensures { result ≡ signs.left_place op }
{
    match op {
        Op::Eq | Op::Ne | Op::Lt | Op::Le | Op::Gt | Op::Ge => 5,
        _ => level_of_two(op),
    }
}

fn is_call(op: Op) -> bool
    ensures { result ≡ signs.is_call op }
{
    matches!(op, Op::Min | Op::Max)
}

fn sign_of(op: Op) -> &'static str
    ensures { result.now ≡ signs.sign_of op }
{
    match op {
        Op::Or => "or",
        Op::And => "and",
        Op::Eq => "==",
        Op::Ne => "!=",
        Op::Lt => "<",
        Op::Le => "<=",
        Op::Gt => ">",
        Op::Ge => ">=",
        Op::Add => "+",
        Op::Sub => "-",
        Op::Mul => "*",
        Op::Div => "/",
        Op::Rem => "%",
        Op::Min => "min",
        Op::Max => "max",
    }
}

/// The text of a task's body: its lets in order, then its sets. Out of range numbers of names print nothing.
#[tactic(auto, unfolding(crate::specs::Printing::task_text))]
pub fn print_body(
    alloc: Global,
    task: &Task,
    sensors: &[Name],
    cells: &[Name],
) -> Result<List<u8>, Memory>
    ensures text { IfOk result (λ text. text ≡ spec.task_text sensors.now cells.now task.now) }
    ensures again { IfOk result (λ text. (source : List ℕ)
        → IsReadAs sensors.now cells.now source task.now
        → ReadsBack sensors.now cells.now (length source) task.now text) }
{
    let labels = Labels::new(sensors, cells, task.lets.as_slice());
    let mut out = List::new(alloc);
    put_lets(alloc, &mut out, &labels, task.lets.as_slice())?;
    put_sets(alloc, &mut out, &labels, task.sets.as_slice())?;
    out.pop();
    Ok(out)
}

// Adds each let, with a space behind it.
fn put_lets(
    alloc: Global,
    out: &mut List<u8>,
    labels: &Labels,
    rows: &[LetRow],
) -> Result<(), Memory>
    ensures { OnOk result (out.new ≡ out.old ++ flat_map
        (λ row. spec.let_text labels.now row ++ codes " ") rows.now) }
{
    for row in rows {
        put_let(alloc, out, labels, row)?;
        put(out, b" ")?;
    }
    Ok(())
}

// Adds each set, with a space behind it.
fn put_sets(
    alloc: Global,
    out: &mut List<u8>,
    labels: &Labels,
    rows: &[SetRow],
) -> Result<(), Memory>
    ensures { OnOk result (out.new ≡ out.old ++ flat_map
        (λ row. spec.set_text labels.now row ++ codes " ") rows.now) }
{
    for row in rows {
        put_set(alloc, out, labels, row)?;
        put(out, b" ")?;
    }
    Ok(())
}

// `let NAME = EXPR;`
fn put_let(alloc: Global, out: &mut List<u8>, labels: &Labels, row: &LetRow) -> Result<(), Memory>
    ensures { OnOk result (out.new ≡ out.old ++ spec.let_text labels.now row.now) }
{
    put(out, b"let ")?;
    put(out, row.name.bytes())?;
    put(out, b" = ")?;
    put_expr(alloc, out, labels, &row.value)?;
    put(out, b";")
}

// `CELL := EXPR;`
fn put_set(alloc: Global, out: &mut List<u8>, labels: &Labels, row: &SetRow) -> Result<(), Memory>
    ensures { OnOk result (out.new ≡ out.old ++ spec.set_text labels.now row.now) }
{
    put(out, labels.cell(row.cell))?;
    put(out, b" := ")?;
    put_expr(alloc, out, labels, &row.value)?;
    put(out, b";")
}
