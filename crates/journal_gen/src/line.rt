//! How a row of a journal is written.
//! This project's own.
ghost use Rattle.std.specs.Prelude.{◌≡◌, ◌++◌, map, OnOk};
ghost use Rattle.std.specs.Fmt.{decimal, signed_decimal};
ghost use Rattle.journal_gen.specs.Written.{line_text};
ghost use Rattle.journal_gen.specs.inner.Columns.{column_bytes, columns_bytes};

use itoa::Buffer;
use rcp_base::Memory;

/// What stands in a column.
#[derive(Clone, Copy)]
pub enum Column<'a> {
    Text(&'a [u8]),
    Count(u32),
    Value(i64),
    Nothing,
}

/// Adds a row: its frame, its kind, and its columns after these.
pub fn put_line(
    text: &mut Vec<u8>,
    frame: u32,
    word: &[u8],
    columns: &[Column<'_>],
) -> Result<(), Memory>
    ensures { OnOk result (text.new.items
        ≡ text.old.items ++ line_text frame word.now (map column_bytes columns.now)) }
{
    put_count(text, frame)?;
    text.push(b',')?;
    text.extend_from_slice(word)?;
    put_columns(text, columns)?;
    text.push(b'\n')?;
    Ok(())
}

// Adds columns, each after a comma.
fn put_columns(text: &mut Vec<u8>, columns: &[Column<'_>]) -> Result<(), Memory>
    ensures { OnOk result (text.new.items ≡ text.old.items ++ columns_bytes columns.now) }
{
    for column in columns {
        text.push(b',')?;
        put_column(text, column)?;
    }
    Ok(())
}

fn put_column(text: &mut Vec<u8>, column: &Column<'_>) -> Result<(), Memory>
    ensures { OnOk result (text.new.items ≡ text.old.items ++ column_bytes column.now) }
{
    match column {
        Column::Text(bytes) => Ok(text.extend_from_slice(bytes)?),
        Column::Count(count) => put_count(text, *count),
        Column::Value(value) => put_value(text, *value),
        Column::Nothing => Ok(()),
    }
}

fn put_count(text: &mut Vec<u8>, count: u32) -> Result<(), Memory>
    ensures { OnOk result (text.new.items ≡ text.old.items ++ decimal count) }
{
    let mut digits = Buffer::new();
    Ok(text.extend_from_slice(digits.format(count).as_bytes())?)
}

fn put_value(text: &mut Vec<u8>, value: i64) -> Result<(), Memory>
    ensures { OnOk result (text.new.items ≡ text.old.items ++ signed_decimal value) }
{
    let mut digits = Buffer::new();
    Ok(text.extend_from_slice(digits.format(value).as_bytes())?)
}
