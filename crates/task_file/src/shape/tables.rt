//! The tables of a section, and what those of several sections have.
//! This project's own.
ghost use Rattle.std.specs.Prelude.{◌≤◌, length, map, IfOk};
ghost use Rattle.toml.specs.View.{view, table_view};
ghost use Rattle.rcp_base.specs.Answers.{Gives};
ghost use Rattle.task_file.specs.Fault.{is_file_memory};
ghost use Rattle.task_file.specs.Lookups as spec;

use crate::document::{has, integer_at, list_at, text_at};
use crate::fault::FileFault;
use crate::path::{Key, Section};
use crate::places::{of_section, of_table, of_table_key};
use toml::{Table, Value};

/// An integer at the top that must be there.
pub fn top_integer(
    at: Section,
    least: i64,
    greatest: i64,
    word: &str,
    document: &Table,
) -> Result<i64, FileFault>
    ensures { Gives is_file_memory (λ n. n) result
        (spec.top_integer at least greatest word.now (table_view document.now)) }
{
    integer_at(document, word, least, greatest).ok_or(FileFault::Shape {
        path: of_section(at),
    })
}

/// One that may be absent.
pub fn maybe_integer(
    at: Section,
    least: i64,
    greatest: i64,
    word: &str,
    document: &Table,
) -> Result<Option<i64>, FileFault>
    ensures { Gives is_file_memory (λ n. n) result
        (spec.maybe_integer at least greatest word.now (table_view document.now)) }
{
    if !has(document, word) {
        return Ok(None);
    }
    let integer = top_integer(at, least, greatest, word, document)?;
    Ok(Some(integer))
}

/// The tables of a section that must be there.
pub fn tables_at<'a>(
    at: Section,
    least: usize,
    greatest: usize,
    word: &str,
    document: &'a Table,
) -> Result<&'a [Value], FileFault>
    ensures tables { Gives is_file_memory (λ values. map view values.now) result
        (spec.tables_at at least greatest word.now (table_view document.now)) }
    ensures few { IfOk result (λ values. length values.now ≤ greatest) }
{
    list_at(document, word, least, greatest).ok_or(FileFault::Shape {
        path: of_section(at),
    })
}

/// The tables of a section that may be absent.
pub fn maybe_tables_at<'a>(
    at: Section,
    greatest: usize,
    word: &str,
    document: &'a Table,
) -> Result<&'a [Value], FileFault>
    ensures tables { Gives is_file_memory (λ values. map view values.now) result
        (spec.maybe_tables_at at greatest word.now (table_view document.now)) }
    ensures few { IfOk result (λ values. length values.now ≤ greatest) }
{
    if has(document, word) {
        tables_at(at, 0, greatest, word, document)
    } else {
        Ok(&[])
    }
}

/// A table of a section.
pub fn table_of<'a>(at: Section, i: u32, value: &'a Value) -> Result<&'a Table, FileFault>
    ensures { Gives is_file_memory (λ table. table_view table.now) result
        (spec.table_of at i (view value.now)) }
{
    value.as_table().ok_or(FileFault::Shape {
        path: of_table(at, i),
    })
}

/// The text for a name in a table of a section.
pub fn name_in<'a>(at: Section, i: u32, table: &'a Table) -> Result<&'a str, FileFault>
    ensures { Gives is_file_memory (λ name. name.now) result
        (spec.name_in at i (table_view table.now)) }
{
    text_at(table, "name").ok_or(FileFault::Shape {
        path: of_table_key(at, i, Key::Name),
    })
}
