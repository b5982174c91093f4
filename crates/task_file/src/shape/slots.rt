//! The section of slots.
//! This project's own.
ghost use Rattle.std.specs.Prelude.{◌≤◌, length, map, IfOk};
ghost use Rattle.toml.specs.View.{view, table_view};
ghost use Rattle.rcp_base.specs.Answers.{Gives, each_from};
ghost use Rattle.task_file.specs.Fault.{is_file_memory};
ghost use Rattle.task_file.specs.Items as spec;
ghost use Rattle.task_file.specs.inner.SectionViews.{slot_view};

use super::tables::table_of;
use crate::document::{has_only, list_at};
use crate::fault::FileFault;
use crate::path::{Key, Section};
use crate::places::{of_entry, of_table_key};
use crate::sections::RawSlot;
use rcp_base::{List, MAX_CELLS, MAX_TASKS};
use std::alloc::Global;
use toml::{Table, Value};

fn entry_of<'a>(i: u32, at: Key, j: u32, value: &'a Value) -> Result<&'a str, FileFault>
    ensures { Gives is_file_memory (λ entry. entry.now) result
        (spec.entry_of i at j (view value.now)) }
{
    value.as_str().ok_or(FileFault::Shape {
        path: of_entry(Section::Slot, i, at, j),
    })
}

// Each of the entries of a list of a slot.
fn each_entry<'a>(
    alloc: Global,
    i: u32,
    at: Key,
    values: &'a [Value],
) -> Result<List<&'a str>, FileFault>
    requires { length values.now ≤ MAX_TASKS }
    ensures { Gives is_file_memory (map (λ entry. entry.now)) result
        (each_from (spec.entry_of i at) 0 (map view values.now)) }
{
    let mut entries = List::new(alloc);
    for (j, value) in values.iter().enumerate() {
        let entry = entry_of(i, at, j as u32, value)?;
        entries.push(entry)?;
    }
    Ok(entries)
}

fn list_in<'a>(
    i: u32,
    at: Key,
    most: usize,
    word: &str,
    table: &'a Table,
) -> Result<&'a [Value], FileFault>
    ensures list { Gives is_file_memory (λ values. map view values.now) result
        (spec.list_in i at most word.now (table_view table.now)) }
    ensures few { IfOk result (λ values. length values.now ≤ most) }
{
    list_at(table, word, 0, most).ok_or(FileFault::Shape {
        path: of_table_key(Section::Slot, i, at),
    })
}

fn entries_of<'a>(
    alloc: Global,
    i: u32,
    at: Key,
    most: usize,
    word: &str,
    table: &'a Table,
) -> Result<List<&'a str>, FileFault>
    requires { most ≤ MAX_TASKS }
    ensures { Gives is_file_memory (map (λ entry. entry.now)) result
        (spec.entries_of i at most word.now (table_view table.now)) }
{
    let values = list_in(i, at, most, word, table)?;
    each_entry(alloc, i, at, values)
}

fn slot_of<'a>(alloc: Global, i: u32, value: &'a Value) -> Result<RawSlot<'a>, FileFault>
    ensures { Gives is_file_memory slot_view result (spec.slot_of i (view value.now)) }
{
    let table = table_of(Section::Slot, i, value)?;
    let tasks = entries_of(alloc, i, Key::Tasks, MAX_TASKS, "tasks", table)?;
    let votes = entries_of(alloc, i, Key::Votes, MAX_CELLS, "votes", table)?;
    if !has_only(table, &["tasks", "votes"]) {
        return Err(FileFault::Shape {
            path: of_table_key(Section::Slot, i, Key::Unknown),
        });
    }
    Ok(RawSlot { tasks, votes })
}

/// Each of the values of the section of slots.
pub fn each_slot<'a>(alloc: Global, values: &'a [Value]) -> Result<List<RawSlot<'a>>, FileFault>
    requires { length values.now ≤ MAX_TASKS }
    ensures { Gives is_file_memory (map slot_view) result
        (each_from spec.slot_of 0 (map view values.now)) }
{
    let mut slots = List::new(alloc);
    for (i, value) in values.iter().enumerate() {
        let slot = slot_of(alloc, i as u32, value)?;
        slots.push(slot)?;
    }
    Ok(slots)
}
