//! Sections of variables: sensors, and cells.
//! This project's own.
ghost use Rattle.std.specs.Prelude.{◌≡◌, ◌≤◌, length, map};
ghost use Rattle.toml.specs.View.{view, table_view};
ghost use Rattle.rcp_base.specs.Answers.{Gives, each_from};
ghost use Rattle.task_file.specs.Document as found;
ghost use Rattle.task_file.specs.Fault.{is_file_memory};
ghost use Rattle.task_file.specs.Items as spec;
ghost use Rattle.task_file.specs.inner.SectionViews.{variable_view};

use super::tables::{name_in, table_of};
use crate::document::{any_integer_at, has, has_only, text_at};
use crate::fault::FileFault;
use crate::path::{Key, Section};
use crate::places::of_table_key;
use crate::sections::RawVariable;
use rcp_base::{List, MAX_TASKS};
use std::alloc::Global;
use toml::{Table, Value};

fn initial_in(at: Section, i: u32, table: &Table) -> Result<i64, FileFault>
    ensures { Gives is_file_memory (λ initial. initial) result
        (spec.initial_in at i (table_view table.now)) }
{
    any_integer_at(table, "initial").ok_or(FileFault::Shape {
        path: of_table_key(at, i, Key::Initial),
    })
}

fn is_median_word(text: &str) -> Option<bool>
    ensures { result ≡ spec.is_median_word text.now }
{
    match text {
        "majority" => Some(false),
        "median" => Some(true),
        _ => None,
    }
}

fn median_at(table: &Table) -> Option<bool>
    ensures { result ≡ spec.median_at (table_view table.now) }
{
    let text = text_at(table, "vote")?;
    is_median_word(text)
}

// Whether the median votes the variable of a table, which may have the key `vote` or not.
fn median_in(votes: bool, at: Section, i: u32, table: &Table) -> Result<bool, FileFault>
    ensures { Gives is_file_memory (λ median. median) result
        (spec.median_in votes at i (table_view table.now)) }
{
    if !votes || !has(table, "vote") {
        return Ok(false);
    }
    median_at(table).ok_or(FileFault::Shape {
        path: of_table_key(at, i, Key::Vote),
    })
}

fn has_variable_keys(votes: bool, table: &Table) -> bool
    ensures { result ≡ found.has_only (spec.variable_keys votes) (table_view table.now) }
{
    if votes {
        has_only(table, &["name", "initial", "vote"])
    } else {
        has_only(table, &["name", "initial"])
    }
}

fn variable_of<'a>(
    at: Section,
    votes: bool,
    i: u32,
    value: &'a Value,
) -> Result<RawVariable<'a>, FileFault>
    ensures { Gives is_file_memory variable_view result
        (spec.variable_of at votes i (view value.now)) }
{
    let table = table_of(at, i, value)?;
    let name = name_in(at, i, table)?;
    let initial = initial_in(at, i, table)?;
    let median = median_in(votes, at, i, table)?;
    if !has_variable_keys(votes, table) {
        return Err(FileFault::Shape {
            path: of_table_key(at, i, Key::Unknown),
        });
    }
    Ok(RawVariable {
        name,
        initial,
        median,
    })
}

/// Each of the values of a section of variables, which may have the key `vote` or not.
pub fn each_variable<'a>(
    alloc: Global,
    at: Section,
    votes: bool,
    values: &'a [Value],
) -> Result<List<RawVariable<'a>>, FileFault>
    requires { length values.now ≤ MAX_TASKS }
    ensures { Gives is_file_memory (map variable_view) result
        (each_from (spec.variable_of at votes) 0 (map view values.now)) }
{
    let mut variables = List::new(alloc);
    for (i, value) in values.iter().enumerate() {
        let variable = variable_of(at, votes, i as u32, value)?;
        variables.push(variable)?;
    }
    Ok(variables)
}
