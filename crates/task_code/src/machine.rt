//! The stack machine.
//! This project's own.
ghost use Rattle.std.specs.Prelude.{◌≡◌, ◌+◌, ◌-◌, ◌≤◌, ◌<◌, [], ◌∷◌, ◌++◌, take, drop, length, if◌then◌else◌, IfOk};
ghost use Rattle.std.specs.Int.{int_min, int_max};
ghost use Rattle.rcp_model.specs.Expr as expr;
ghost use Rattle.task_code.specs.Machine as machine;

use crate::instruction::Instruction;
use crate::steps::Steps;
use crate::value::{is_true, op_result, truth, value_at};
use rcp_base::{Memory, abs, neg};
use std::alloc::Global;
use std::sync::ledger::Ledger;

/// What a run holds in memory beside its results: the places of its stack, and those of the lets.
#[derive(Debug, Drop)]
pub struct Machine {
    pub stack: Vec<i64>,
    pub lets: Vec<i64>,
}

/// What a run holds at hand: the top of its stack, the place where what stands below it begins,
/// and how many lets and results it has.
#[derive(Clone, Copy, Debug)]
pub struct Progress {
    pub top: i64,
    pub below: usize,
    pub lets: usize,
    pub given: usize,
}

impl Machine {
    /// A machine with so many places for its stack, and as many for its lets.
    pub fn new(alloc: Global, room: u32) -> Result<Machine, Memory>
        ensures stack { IfOk result (λ machine. length machine.stack.items ≡ room) }
        ensures lets { IfOk result (λ machine. length machine.lets.items ≡ room) }
    {
        Ok(Machine {
            stack: vec![in alloc; 0; room as usize]?,
            lets: vec![in alloc; 0; room as usize]?,
        })
    }

    /// Runs a code from an empty stack, and counts a step for each instruction.
    pub fn run<L: Ledger>(
        &mut self,
        code: &[Instruction],
        sensors: &[i64],
        cells: &[i64],
        out: &mut [i64],
        steps: &mut Steps<L>,
    )
        requires stack { machine.room_of code.now ≤ length self.old.stack.items }
        requires lets { machine.room_of code.now ≤ length self.old.lets.items }
        requires out { length out.old ≡ machine.result_count code.now }
        ensures values { out.new ≡ machine.results code.now sensors.now cells.now }
        ensures stack_room { length self.new.stack.items ≡ length self.old.stack.items }
        ensures lets_room { length self.new.lets.items ≡ length self.old.lets.items }
        ensures steps { steps.new ≡ steps.old + length code.now }
    {
        let stack = self.stack.as_mut_slice();
        let lets = self.lets.as_mut_slice();
        let mut at = Progress {
            top: 0,
            below: stack.len(),
            lets: 0,
            given: 0,
        };
        for instruction in code {
            steps.tick();
            at = act(instruction, sensors, cells, stack, lets, out, at);
        }
    }
}

/// Does one instruction, and tells what is at hand then.
#[inline(always)]
#[tactic(auto, using(crate::proofs::StackLemmas::length_rest))]
pub fn act(
    instruction: &Instruction,
    sensors: &[i64],
    cells: &[i64],
    stack: &mut [i64],
    lets: &mut [i64],
    out: &mut [i64],
    at: Progress,
) -> Progress
    requires below { at.below ≤ length stack.old }
    requires stack { machine.height_after instruction.now (length stack.old - at.below)
        ≤ length stack.old }
    requires lets { machine.lets_after instruction.now at.lets ≤ length lets.old }
    requires results { at.given + machine.gives instruction.now ≤ length out.old }
    ensures step { machine.state_of result stack.new lets.new out.new
        ≡ machine.step sensors.now cells.now instruction.now
        (machine.state_of at stack.old lets.old out.old) }
    ensures below { result.below ≤ length stack.new }
    ensures height { length stack.new - result.below
        ≡ machine.height_after instruction.now (length stack.old - at.below) }
    ensures lets { result.lets ≡ machine.lets_after instruction.now at.lets }
    ensures given { result.given ≡ at.given + machine.gives instruction.now }
{
    let top = at.top;
    let (op, left, b) = match *instruction {
        Instruction::Two(op) => (op, pop(stack, at), top),
        Instruction::WithNumber(op, n) => (op, at, n),
        Instruction::WithSensor(op, i) => (op, at, value_at(sensors, i)),
        Instruction::WithCell(op, i) => (op, at, value_at(cells, i)),
        Instruction::WithLet(op, i) => (op, at, value_at(&lets[..at.lets], i)),
        Instruction::Number(n) => return push(stack, at, n),
        Instruction::Sensor(i) => return push(stack, at, value_at(sensors, i)),
        Instruction::Cell(i) => return push(stack, at, value_at(cells, i)),
        Instruction::Let(i) => return push(stack, at, value_at(&lets[..at.lets], i)),
        Instruction::Neg => return at.with_top(neg(top)),
        Instruction::Not => return at.with_top(truth(!is_true(top))),
        Instruction::Abs => return at.with_top(abs(top)),
        Instruction::Clamp => return clamp(stack, at),
        Instruction::If => return choose(stack, at),
        Instruction::Keep => return keep(stack, lets, at),
        Instruction::Give => return give(stack, out, at),
    };
    left.with_top(op_result(op, left.top, b))
}

impl Progress {
    // The same with another top.
    #[inline(always)]
    fn with_top(self, top: i64) -> Progress
        ensures { result ≡ record self { top = top } }
    {
        Progress { top, ..self }
    }
}

// Puts the top on what stands below it, and a number in its place.
#[inline(always)]
fn push(stack: &mut [i64], at: Progress, x: i64) -> Progress
    requires room { 0 < at.below }
    requires below { at.below ≤ length stack.old }
    ensures pushed { drop result.below stack.new ≡ at.top ∷ drop at.below stack.old }
    ensures result { result ≡ record at { top = x; below = at.below - 1 } }
{
    let below = at.below - 1;
    stack[below] = at.top;
    Progress {
        top: x,
        below,
        ..at
    }
}

// Takes the top away. What stood below it comes up, which is 0 where nothing did.
#[inline(always)]
fn pop(stack: &[i64], at: Progress) -> Progress
    requires { at.below ≤ length stack.now }
    ensures top { result.top ≡ machine.top_of (drop at.below stack.now) }
    ensures rest { drop result.below stack.now ≡ machine.rest_of (drop at.below stack.now) }
    ensures below { result.below ≤ length stack.now }
    ensures height { length stack.now - result.below ≡ length stack.now - at.below - 1 }
    ensures lets { result.lets ≡ at.lets }
    ensures given { result.given ≡ at.given }
{
    match stack.get(at.below) {
        Some(x) => Progress {
            top: *x,
            below: at.below + 1,
            ..at
        },
        None => at.with_top(0),
    }
}

// Takes the top away as the value of the next let.
#[inline(always)]
fn keep(stack: &[i64], lets: &mut [i64], at: Progress) -> Progress
    requires below { at.below ≤ length stack.now }
    requires lets { at.lets < length lets.old }
    ensures top { result.top ≡ machine.top_of (drop at.below stack.now) }
    ensures rest { drop result.below stack.now ≡ machine.rest_of (drop at.below stack.now) }
    ensures below { result.below ≤ length stack.now }
    ensures height { length stack.now - result.below ≡ length stack.now - at.below - 1 }
    ensures kept { take result.lets lets.new ≡ take at.lets lets.old ++ at.top ∷ [] }
    ensures lets { result.lets ≡ at.lets + 1 }
    ensures given { result.given ≡ at.given }
{
    lets[at.lets] = at.top;
    Progress {
        lets: at.lets + 1,
        ..pop(stack, at)
    }
}

// Takes the top away as the next result.
#[inline(always)]
fn give(stack: &[i64], out: &mut [i64], at: Progress) -> Progress
    requires below { at.below ≤ length stack.now }
    requires out { at.given < length out.old }
    ensures top { result.top ≡ machine.top_of (drop at.below stack.now) }
    ensures rest { drop result.below stack.now ≡ machine.rest_of (drop at.below stack.now) }
    ensures below { result.below ≤ length stack.now }
    ensures height { length stack.now - result.below ≡ length stack.now - at.below - 1 }
    ensures lets { result.lets ≡ at.lets }
    ensures results { take result.given out.new ≡ take at.given out.old ++ at.top ∷ [] }
    ensures given { result.given ≡ at.given + 1 }
{
    out[at.given] = at.top;
    Progress {
        given: at.given + 1,
        ..pop(stack, at)
    }
}

// The number between its least and its greatest, of the three topmost.
#[inline(always)]
fn clamp(stack: &[i64], at: Progress) -> Progress
    requires { at.below ≤ length stack.now }
    ensures top { result.top ≡ int_max (machine.top_of (drop at.below stack.now))
        (int_min (machine.top_of (machine.rest_of (drop at.below stack.now))) at.top) }
    ensures rest { drop result.below stack.now
        ≡ machine.rest_of (machine.rest_of (drop at.below stack.now)) }
    ensures below { result.below ≤ length stack.now }
    ensures height { length stack.now - result.below ≡ length stack.now - at.below - 1 - 1 }
    ensures lets { result.lets ≡ at.lets }
    ensures given { result.given ≡ at.given }
{
    let low = pop(stack, at);
    let x = pop(stack, low);
    x.with_top(low.top.max(x.top.min(at.top)))
}

// The chosen number of the three topmost.
#[inline(always)]
fn choose(stack: &[i64], at: Progress) -> Progress
    requires { at.below ≤ length stack.now }
    ensures top { result.top
        ≡ if expr.is_true (machine.top_of (machine.rest_of (drop at.below stack.now)))
        then machine.top_of (drop at.below stack.now) else at.top }
    ensures rest { drop result.below stack.now
        ≡ machine.rest_of (machine.rest_of (drop at.below stack.now)) }
    ensures below { result.below ≤ length stack.now }
    ensures height { length stack.now - result.below ≡ length stack.now - at.below - 1 - 1 }
    ensures lets { result.lets ≡ at.lets }
    ensures given { result.given ≡ at.given }
{
    let a = pop(stack, at);
    let test = pop(stack, a);
    test.with_top(if is_true(test.top) { a.top } else { at.top })
}
