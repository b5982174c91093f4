//! What a replica holds.
//! After NASA TM-102716.
ghost use Rattle.std.specs.Prelude.{◌≡◌, ◌<◌, length, set, slice_index_or, pos, IfOk};
ghost use Rattle.rcp_model.specs.Uniprocessor.{initial_values};

use rcp_base::Memory;
use rcp_model::Variable;
use std::alloc::Global;
use std::marker::Model;

/// A slot and the cells.
#[derive(Debug, Drop)]
pub struct Held {
    pub(crate) slot: u32,
    pub(crate) cells: Vec<i64>,
}

impl Model for Held {
    ghost use Rattle.rcp_model.specs.Uniprocessor.{ProcessorState};

    ghost Value = { ProcessorState };

    ghost view = { λ held. record { slot = held.slot; cells = held.cells.items } };
}

impl Held {
    /// Slot 0, and the values of these cells before the first frame.
    pub fn new(alloc: Global, cells: &[Variable]) -> Result<Held, Memory>
        ensures { IfOk result (λ held.
            held ≡ record { slot = 0; cells = initial_values cells.now }) }
    {
        Ok(Held {
            slot: 0,
            cells: initial_cells(alloc, cells)?,
        })
    }

    /// The slot.
    pub fn slot(&self) -> u32
        ensures { result ≡ self.now.slot }
    {
        self.slot
    }

    /// The cells.
    pub fn cells(&self) -> &[i64]
        ensures { result.now ≡ self.now.cells }
    {
        self.cells.as_slice()
    }

    /// A cell.
    pub fn cell(&self, cell: u32) -> i64
        requires { cell < length self.now.cells }
        ensures { result ≡ slice_index_or self.now.cells cell (pos 0) }
    {
        self.cells[cell as usize]
    }

    /// Takes another slot.
    pub fn set_slot(&mut self, slot: u32)
        ensures { self.new ≡ record self.old { slot = slot } }
    {
        self.slot = slot;
    }

    /// Gives a cell a value.
    pub fn set_cell(&mut self, cell: u32, value: i64)
        requires { cell < length self.old.cells }
        ensures { self.new ≡ record self.old { cells = set self.old.cells cell value } }
    {
        self.cells[cell as usize] = value;
    }

    /// Takes a slot and as many cells. Takes no memory.
    pub fn take(&mut self, slot: u32, cells: &[i64])
        requires { length self.old.cells ≡ length cells.now }
        ensures { self.new ≡ record { slot = slot; cells = cells.now } }
    {
        self.slot = slot;
        copy_cells(&mut self.cells, cells);
    }

    /// Takes over what another of as many cells holds. Takes no memory.
    pub fn copy_from(&mut self, other: &Held)
        requires { length self.old.cells ≡ length other.now.cells }
        ensures { self.new ≡ other.now }
    {
        self.slot = other.slot;
        copy_cells(&mut self.cells, other.cells.as_slice());
    }
}

// The values of cells before the first frame.
fn initial_cells(alloc: Global, cells: &[Variable]) -> Result<Vec<i64>, Memory>
    ensures { IfOk result (λ values. values.items ≡ initial_values cells.now) }
{
    Ok(cells.iter().map(|cell| cell.initial).collect(alloc)?)
}

/// Takes over the values of a list of the same length. Takes no memory.
pub(crate) fn copy_cells(cells: &mut Vec<i64>, other: &[i64])
    requires { length cells.old.items ≡ length other.now }
    ensures { cells.new.items ≡ other.now }
{
    cells.as_mut_slice().copy_from_slice(other);
}
