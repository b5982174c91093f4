//! Sections of named texts of the task language: tasks, and actuators.
//! This project's own.
ghost use Rattle.std.specs.Prelude.{◌≤◌, length, map};
ghost use Rattle.toml.specs.View.{view, table_view};
ghost use Rattle.rcp_base.specs.Answers.{Gives, each_from};
ghost use Rattle.task_file.specs.Fault.{is_file_memory};
ghost use Rattle.task_file.specs.Items as spec;
ghost use Rattle.task_file.specs.inner.SectionViews.{text_view};

use super::tables::{name_in, table_of};
use crate::document::{has_only, short_text_at};
use crate::fault::FileFault;
use crate::path::{Key, Section};
use crate::places::of_table_key;
use crate::sections::RawText;
use rcp_base::{List, MAX_BODY, MAX_TASKS};
use std::alloc::Global;
use toml::{Table, Value};

fn text_in<'a>(
    at: Section,
    text_key: Key,
    word: &str,
    i: u32,
    table: &'a Table,
) -> Result<&'a str, FileFault>
    ensures { Gives is_file_memory (λ text. text.now) result
        (spec.text_in at text_key word.now i (table_view table.now)) }
{
    short_text_at(table, word, MAX_BODY).ok_or(FileFault::Shape {
        path: of_table_key(at, i, text_key),
    })
}

fn named_text_of<'a>(
    at: Section,
    text_key: Key,
    word: &str,
    i: u32,
    value: &'a Value,
) -> Result<RawText<'a>, FileFault>
    ensures { Gives is_file_memory text_view result
        (spec.named_text_of at text_key word.now i (view value.now)) }
{
    let table = table_of(at, i, value)?;
    let name = name_in(at, i, table)?;
    let text = text_in(at, text_key, word, i, table)?;
    if !has_only(table, &["name", word]) {
        return Err(FileFault::Shape {
            path: of_table_key(at, i, Key::Unknown),
        });
    }
    Ok(RawText { name, text })
}

/// Each of the values of a section of named texts.
pub fn each_text<'a>(
    alloc: Global,
    at: Section,
    text_key: Key,
    word: &str,
    values: &'a [Value],
) -> Result<List<RawText<'a>>, FileFault>
    requires { length values.now ≤ MAX_TASKS }
    ensures { Gives is_file_memory (map text_view) result
        (each_from (spec.named_text_of at text_key word.now) 0 (map view values.now)) }
{
    let mut texts = List::new(alloc);
    for (i, value) in values.iter().enumerate() {
        let text = named_text_of(at, text_key, word, i as u32, value)?;
        texts.push(text)?;
    }
    Ok(texts)
}
