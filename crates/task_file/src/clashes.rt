//! Clashes within the slots of a task file: an entry stands twice, or two tasks set one cell.
//! This project's own.
ghost use Rattle.std.specs.Prelude.{◌≡◌, ◌≤◌, ◌++◌, [], length, All, IfOk, OnOk};
ghost use Rattle.std.specs.List.{list_any};
ghost use Rattle.rcp_base.specs.Answers.{Gives, has_number, unless_fault};
ghost use Rattle.task_file.specs.inner.SlotRows.{IsShortRow};
ghost use Rattle.task_file.specs.Slots as spec;
ghost use Rattle.task_file.specs.Fault.{is_file_memory};

use crate::fault::FileFault;
use crate::path::{Key, Section};
use crate::places::of_entry;
use rcp_base::{List, MAX_CELLS, MAX_SLOTS, MAX_TASKS, Memory};
use rcp_model::{SetRow, SlotRow, Task};
use std::alloc::Global;

/// Whether no slot has an entry twice, or two tasks that set one cell; else the first that does.
pub fn check_slots(alloc: Global, tasks: &[Task], slots: &[SlotRow]) -> Result<(), FileFault>
    requires slots { length slots.now ≤ MAX_SLOTS }
    requires short { All IsShortRow slots.now }
    ensures { Gives is_file_memory (λ done. []) result
        (unless_fault (spec.clash_from tasks.now 0 slots.now)) }
{
    for (i, slot) in slots.iter().enumerate() {
        check_tasks(alloc, tasks, i, slot.tasks.as_slice())?;
        check_votes(i, slot.votes.as_slice())?;
    }
    Ok(())
}

fn check_tasks(alloc: Global, tasks: &[Task], i: usize, numbers: &[u16]) -> Result<(), FileFault>
    requires i { i ≤ MAX_SLOTS }
    requires numbers { length numbers.now ≤ MAX_TASKS }
    ensures { Gives is_file_memory (λ done. []) result
        (unless_fault (spec.task_clash_from tasks.now i [] [] 0 numbers.now)) }
{
    let mut set = List::new(alloc);
    for (j, number) in numbers.iter().enumerate() {
        let rows = rows_of(tasks, *number);
        if has_number(&numbers[..j], *number) || sets_again(set.as_slice(), rows) {
            return Err(clash(i, Key::Tasks, j));
        }
        add_cells(&mut set, rows)?;
    }
    Ok(())
}

fn check_votes(i: usize, numbers: &[u16]) -> Result<(), FileFault>
    requires i { i ≤ MAX_SLOTS }
    requires numbers { length numbers.now ≤ MAX_CELLS }
    ensures { Gives is_file_memory (λ done. []) result
        (unless_fault (spec.vote_clash_from i [] 0 numbers.now)) }
{
    for (j, number) in numbers.iter().enumerate() {
        if has_number(&numbers[..j], *number) {
            return Err(clash(i, Key::Votes, j));
        }
    }
    Ok(())
}

fn clash(i: usize, at: Key, j: usize) -> FileFault
    requires i { i ≤ MAX_SLOTS }
    requires j { j ≤ MAX_TASKS }
    ensures { result ≡ spec.slot_clash i at j }
{
    FileFault::SlotClash {
        path: of_entry(Section::Slot, i as u32, at, j as u32),
    }
}

// What the task of a number sets.
fn rows_of(tasks: &[Task], number: u16) -> &[SetRow]
    ensures { spec.cells_set result.now ≡ spec.cells_of_number tasks.now number }
{
    match tasks.get(number as usize) {
        Some(task) => task.sets.as_slice(),
        None => &[],
    }
}

fn has_number(numbers: &[u16], number: u16) -> bool
    ensures { result ≡ has_number numbers.now number }
{
    numbers.iter().any(|n| *n == number)
}

// Some of the rows sets a cell of the list.
fn sets_again(set: &[u16], rows: &[SetRow]) -> bool
    ensures { result ≡ list_any (λ row. has_number set.now row.cell) rows.now }
{
    rows.iter().any(|row| has_number(set, row.cell))
}

fn add_cells(set: &mut List<u16>, rows: &[SetRow]) -> Result<(), Memory>
    ensures { OnOk result (set.new ≡ set.old ++ spec.cells_set rows.now) }
{
    for row in rows {
        set.push(row.cell)?;
    }
    Ok(())
}
