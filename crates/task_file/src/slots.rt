//! The slots of a task file by the numbers of their tasks and cells.
//! This project's own.
ghost use Rattle.std.specs.Prelude.{◌≡◌, ◌≤◌, length, map, All, IfOk};
ghost use Rattle.rcp_base.specs.Answers.{Gives, each_from};
ghost use Rattle.task_file.specs.inner.Limits.{IsShortSlot};
ghost use Rattle.task_file.specs.inner.SectionViews.{slot_view};
ghost use Rattle.task_file.specs.inner.SlotRows.{IsShortRow};
ghost use Rattle.task_file.specs.Slots as spec;
ghost use Rattle.task_file.specs.Fault.{is_file_memory};

use crate::fault::FileFault;
use crate::name_list::NameList;
use crate::path::{Key, Section};
use crate::places::of_entry;
use crate::sections::RawSlot;
use rcp_base::{List, MAX_CELLS, MAX_SLOTS, MAX_TASKS};
use rcp_model::SlotRow;
use std::alloc::Global;

/// The slots by numbers, where each entry is a name.
#[tactic(auto, unfolding(crate::specs::Slots::slot_rows_of))]
pub fn slot_rows_of(
    alloc: Global,
    tasks: &NameList<'_>,
    cells: &NameList<'_>,
    slots: &[RawSlot<'_>],
) -> Result<List<SlotRow>, FileFault>
    requires tasks { length tasks.now ≤ MAX_TASKS }
    requires cells { length cells.now ≤ MAX_CELLS }
    requires slots { length slots.now ≤ MAX_SLOTS }
    requires short { All IsShortSlot (map slot_view slots.now) }
    ensures rows { Gives is_file_memory (λ rows. rows) result
        (spec.slot_rows_of tasks.now cells.now (map slot_view slots.now)) }
    ensures count { IfOk result (λ rows. length rows ≤ MAX_SLOTS) }
    ensures short { IfOk result (λ rows. All IsShortRow rows) }
{
    let mut rows = List::new(alloc);
    for (i, slot) in slots.iter().enumerate() {
        rows.push(slot_row_of(alloc, tasks, cells, i, slot)?)?;
    }
    Ok(rows)
}

fn slot_row_of(
    alloc: Global,
    tasks: &NameList<'_>,
    cells: &NameList<'_>,
    i: usize,
    slot: &RawSlot<'_>,
) -> Result<SlotRow, FileFault>
    requires tasks { length tasks.now ≤ MAX_TASKS }
    requires cells { length cells.now ≤ MAX_CELLS }
    requires i { i ≤ MAX_SLOTS }
    requires short { IsShortSlot (slot_view slot.now) }
    ensures row { Gives is_file_memory (λ row. row) result
        (spec.slot_row_of tasks.now cells.now i (slot_view slot.now)) }
    ensures short { IfOk result IsShortRow }
{
    let runs = numbers_of(alloc, tasks, i, Key::Tasks, slot.tasks.as_slice())?;
    let votes = numbers_of(alloc, cells, i, Key::Votes, slot.votes.as_slice())?;
    Ok(SlotRow { tasks: runs, votes })
}

// The numbers of the names of a list.
fn numbers_of(
    alloc: Global,
    names: &NameList<'_>,
    i: usize,
    at: Key,
    entries: &[&str],
) -> Result<List<u16>, FileFault>
    requires names { length names.now ≤ MAX_TASKS }
    requires i { i ≤ MAX_SLOTS }
    requires entries { length entries.now ≤ MAX_TASKS }
    ensures numbers { Gives is_file_memory (λ numbers. numbers) result (each_from
        (spec.entry_number names.now i at) 0 (map (λ entry. entry.now) entries.now)) }
    ensures count { IfOk result (λ numbers. length numbers ≡ length entries.now) }
{
    let mut numbers = List::new(alloc);
    for (j, entry) in entries.iter().enumerate() {
        numbers.push(number_of(names, i, at, j, *entry)?)?;
    }
    Ok(numbers)
}

fn number_of(
    names: &NameList<'_>,
    i: usize,
    at: Key,
    j: usize,
    entry: &str,
) -> Result<u16, FileFault>
    requires names { length names.now ≤ MAX_TASKS }
    requires i { i ≤ MAX_SLOTS }
    requires j { j ≤ MAX_TASKS }
    ensures { Gives is_file_memory (λ number. number) result
        (spec.entry_number names.now i at j entry.now) }
{
    match names.number_of(entry) {
        Some(number) => Ok(number as u16),
        None => Err(FileFault::UnknownInSlot {
            path: of_entry(Section::Slot, i as u32, at, j as u32),
        }),
    }
}
