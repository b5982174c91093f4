//! Compiles the tasks and actuators of a plan.
//! This project's own.
ghost use Rattle.std.specs.Prelude.{◌≡◌, map, IfOk};
ghost use Rattle.frame_table.specs.Plan as spec;
ghost use Rattle.frame_table.specs.Tasks.{greatest_length};
ghost use Rattle.task_code.specs.Compiler.{task_code};

use rcp_base::{List, Memory};
use rcp_model::{ActuatorRow, SetRow, SlotRow, Task};
use std::alloc::Global;
use task_code::{Code, compile, compile_expr};

/// The code of each task.
pub fn codes_of(alloc: Global, tasks: &[Task]) -> Result<Vec<Code>, Memory>
    ensures { IfOk result (λ codes. codes.items ≡ map task_code tasks.now) }
{
    let mut codes = Vec::new(alloc);
    for task in tasks {
        codes.push(compile(alloc, task)?)?;
    }
    Ok(codes)
}

/// The code of each actuator's value.
pub fn command_codes(alloc: Global, actuators: &[ActuatorRow]) -> Result<Vec<Code>, Memory>
    ensures { IfOk result (λ codes. codes.items ≡ spec.commands_of actuators.now) }
{
    let mut codes = Vec::new(alloc);
    for actuator in actuators {
        codes.push(compile_expr(alloc, &actuator.value)?)?;
    }
    Ok(codes)
}

/// The cells that each task sets.
pub fn targets_of(alloc: Global, tasks: &[Task]) -> Result<List<List<u16>>, Memory>
    ensures { IfOk result (λ targets. targets ≡ map spec.targets_of tasks.now) }
{
    let mut targets = List::new(alloc);
    for task in tasks {
        targets.push(cells_of(alloc, task.sets.as_slice())?)?;
    }
    Ok(targets)
}

fn cells_of(alloc: Global, rows: &[SetRow]) -> Result<List<u16>, Memory>
    ensures { IfOk result (λ cells. cells ≡ map (λ row. row.cell) rows.now) }
{
    let mut cells = List::new(alloc);
    for row in rows {
        cells.push(row.cell)?;
    }
    Ok(cells)
}

/// The numbers of each slot's tasks.
pub fn slots_of(alloc: Global, rows: &[SlotRow]) -> Result<List<List<u16>>, Memory>
    ensures { IfOk result (λ slots. slots ≡ spec.slots_of rows.now) }
{
    let mut slots = List::new(alloc);
    for row in rows {
        slots.push(copy_of(alloc, row.tasks.as_slice())?)?;
    }
    Ok(slots)
}

fn copy_of(alloc: Global, numbers: &[u16]) -> Result<List<u16>, Memory>
    ensures { IfOk result (λ copy. copy ≡ numbers.now) }
{
    let mut copy = List::new(alloc);
    for number in numbers {
        copy.push(*number)?;
    }
    Ok(copy)
}

/// The length of the longest list.
pub fn longest(lists: &[List<u16>]) -> usize
    ensures { result ≡ greatest_length lists.now }
{
    let mut most = 0;
    for list in lists {
        most = most.max(list.len());
    }
    most
}
