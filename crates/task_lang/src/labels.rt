//! The names that numbers are printed as.
//! This project's own.
ghost use Rattle.std.specs.Prelude.{◌≡◌};
ghost use Rattle.task_lang.specs.Statements.{scope_of};
ghost use Rattle.task_lang.specs.Printing.{name_at, let_names};

use rcp_base::Name;
use rcp_model::LetRow;
use std::marker::Model;

/// The names of sensors, cells and lets by their numbers. Contracts see them as a scope.
#[derive(Drop)]
pub struct Labels<'a> {
    sensors: &'a [Name],
    cells: &'a [Name],
    lets: &'a [LetRow],
}

impl<'a> Model for Labels<'a> {
    ghost use Rattle.task_lang.specs.Words.{Scope};
    ghost use Rattle.task_lang.specs.Statements.{scope_of};
    ghost use Rattle.task_lang.specs.Printing.{let_names};

    ghost Value = { Scope };

    ghost view = { λ labels. scope_of labels.sensors.now labels.cells.now (let_names labels.lets.now) };
}

impl<'a> Labels<'a> {
    pub fn new(sensors: &'a [Name], cells: &'a [Name], lets: &'a [LetRow]) -> Labels<'a>
        ensures { result ≡ scope_of sensors.now cells.now (let_names lets.now) }
    {
        Labels {
            sensors,
            cells,
            lets,
        }
    }

    /// The name of a sensor, or nothing where there is none of this number; so also of a cell and a let.
    pub fn sensor(&self, i: u16) -> &[u8]
        ensures { result.now ≡ name_at self.now.sensors i }
    {
        name_at(self.sensors, i)
    }

    pub fn cell(&self, i: u16) -> &[u8]
        ensures { result.now ≡ name_at self.now.cells i }
    {
        name_at(self.cells, i)
    }

    pub fn let_(&self, i: u16) -> &[u8]
        ensures { result.now ≡ name_at self.now.lets i }
    {
        let_name_at(self.lets, i)
    }
}

fn name_at(names: &[Name], i: u16) -> &[u8]
    ensures { result.now ≡ name_at names.now i }
{
    match names.get(i as usize) {
        Some(name) => name.bytes(),
        None => b"",
    }
}

fn let_name_at(rows: &[LetRow], i: u16) -> &[u8]
    ensures { result.now ≡ name_at (let_names rows.now) i }
{
    match rows.get(i as usize) {
        Some(row) => row.name.bytes(),
        None => b"",
    }
}
