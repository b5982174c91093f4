//! Which cells each cell needs in each slot.
//! This project's own.
ghost use Rattle.std.specs.Prelude.{◌≡◌, ◌<◌, ◌≤◌, ◌*◌, length, IfOk};
ghost use Rattle.rcp_base.specs.declared.TheConstants.{MAX_CELLS, MAX_SLOTS};
ghost use Rattle.task_graph.specs.Rows.{AreNeeds, needs_in, IsDependenceOf};

use crate::bits::has_cell;
use crate::masks::masks_of_tasks;
use crate::words::plan_words;
use rcp_base::{Memory, bits};
use rcp_model::{Plan, PlanParts};
use std::alloc::Global;
use std::marker::Model;

/// Which cells each cell needs in each slot. Asking takes no memory.
#[derive(Debug, Drop)]
pub struct DepRows {
    slots: u32,
    cells: u32,
    words: Vec<u64>,
}

impl Model for DepRows {
    ghost use Rattle.std.specs.Prelude.{◌≡◌, ◌*◌, ◌≤◌, length};
    ghost use Rattle.rcp_base.specs.declared.TheConstants.{MAX_CELLS, MAX_SLOTS};
    ghost use Rattle.task_graph.specs.Rows.{Rows};

    ghost Value = { Rows };

    ghost view = { λ rows. record {
      slots = rows.slots;
      cells = rows.cells;
      words = rows.words.items;
    } };

    ghost invariant = { λ rows. (length rows.words.items ≡ rows.slots * rows.cells)
        × (rows.slots ≤ MAX_SLOTS)
        × (rows.cells ≤ MAX_CELLS) };
}

impl DepRows {
    /// Which cells each cell of a plan needs.
    pub fn build(alloc: Global, plan: &Plan) -> Result<DepRows, Memory>
        ensures { IfOk result (IsDependenceOf plan.now) }
    {
        rows_of(alloc, plan.parts())
    }

    /// How many slots there are.
    pub fn slots(&self) -> u32
        ensures value { result ≡ self.now.slots }
        ensures most { result ≤ MAX_SLOTS }
    {
        self.slots
    }

    /// How many cells there are.
    pub fn cells(&self) -> u32
        ensures value { result ≡ self.now.cells }
        ensures most { result ≤ MAX_CELLS }
    {
        self.cells
    }

    /// How many nodes there are: pairs of slot and cell.
    pub fn node_count(&self) -> u32
        ensures value { result ≡ self.now.slots * self.now.cells }
        ensures most { result ≤ MAX_SLOTS * MAX_CELLS }
    {
        self.slots * self.cells
    }

    /// The cells that the cell needs in the slot, as bits, and no other.
    pub fn word(&self, slot: u32, cell: u32) -> u64
        requires slot { slot < self.now.slots }
        requires cell { cell < self.now.cells }
        ensures { AreNeeds self.now slot cell result }
    {
        let needed = self.words[slot as usize * self.cells as usize + cell as usize];
        needed & bits::bits_below(self.cells)
    }

    /// The cell needs that other in the slot.
    pub fn needs(&self, slot: u32, cell: u32, from: u32) -> bool
        requires slot { slot < self.now.slots }
        requires cell { cell < self.now.cells }
        requires from { from < self.now.cells }
        ensures { result ≡ needs_in self.now slot cell from }
    {
        let word = self.words[slot as usize * self.cells as usize + cell as usize];
        has_cell(word, from as usize)
    }
}

// Which cells each cell of parts needs, whether or not they keep the other rules of a plan.
fn rows_of(alloc: Global, parts: &PlanParts) -> Result<DepRows, Memory>
    requires cells { length parts.now.cells ≤ MAX_CELLS }
    requires slots { length parts.now.slots ≤ MAX_SLOTS }
    ensures { IfOk result (IsDependenceOf parts.now) }
{
    let cells = parts.cells.len() as u32;
    let masks = masks_of_tasks(alloc, parts.tasks.as_slice())?;
    let words = plan_words(alloc, masks.as_slice(), cells, parts.slots.as_slice())?;
    Ok(DepRows {
        slots: parts.slots.len() as u32,
        cells,
        words,
    })
}
