//! The cells that feed each cell over the tasks of a slot, from the first task to the last.
//! This project's own.
ghost use Rattle.std.specs.Prelude.{◌≡◌, IfOk, slice_set};
ghost use Rattle.rcp_base.specs.Tables.{table};
ghost use Rattle.task_graph.specs.inner.Masks as spec;

use crate::bits::{bit_of, word_at};
use crate::masks::SetMask;
use rcp_base::{List, Memory, bits};
use rcp_model::SlotRow;
use std::alloc::Global;

// The cells that feed one of the mask's cells.
fn union_of(needs: &[u64], mask: u64) -> u64
    ensures { result ≡ spec.union_of needs.now mask }
{
    let mut union = 0;
    let mut rest = mask;
    while let Some(cell) = bits::first_bit(rest) {
        union |= word_at(needs, cell as usize);
        rest = bits::without_bit(rest, cell);
    }
    union
}

// A cell that isn't there is left out.
#[tactic(auto, using(std::proofs::lemmas::List::set_past))]
fn put(needs: &mut [u64], cell: u16, word: u64)
    ensures { needs.new ≡ slice_set needs.old cell word }
{
    let cell = cell as usize;
    if cell < needs.len() {
        needs[cell] = word;
    }
}

// Carries what feeds each cell over set rows. All of them read what was there before, and the first that sets a cell stands.
fn run_sets(needs: &mut [u64], rows: &[SetMask])
    ensures { needs.new ≡ spec.needs_after_sets needs.old rows.now }
{
    if let Some((row, behind)) = rows.split_first() {
        let feeding = union_of(needs, row.mask);
        run_sets(needs, behind);
        put(needs, row.cell, feeding);
    }
}

// Carries it over the task with that number. One that isn't there changes nothing.
fn run_task(needs: &mut [u64], masks: &[List<SetMask>], number: usize)
    ensures { needs.new ≡ spec.needs_after_task masks.now number needs.old }
{
    if let Some(rows) = masks.get(number) {
        run_sets(needs, rows.as_slice());
    }
}

// Carries it over the tasks with these numbers.
fn run_tasks(needs: &mut [u64], masks: &[List<SetMask>], numbers: &[u16])
    ensures { needs.new ≡ spec.needs_after masks.now numbers.now needs.old }
{
    for number in numbers {
        run_task(needs, masks, *number as usize);
    }
}

// At the begin of a slot each cell is fed by itself.
fn first_needs(alloc: Global, cells: u32) -> Result<Vec<u64>, Memory>
    ensures { IfOk result (λ needs. needs.items ≡ table cells spec.bit_of) }
{
    let mut needs = Vec::new(alloc);
    for cell in 0..cells {
        needs.push(bit_of(cell as usize))?;
    }
    Ok(needs)
}

// What feeds each cell over the tasks of a slot.
fn slot_words(
    alloc: Global,
    masks: &[List<SetMask>],
    cells: u32,
    numbers: &[u16],
) -> Result<Vec<u64>, Memory>
    ensures { IfOk result (λ words. words.items ≡ spec.slot_words masks.now cells numbers.now) }
{
    let mut needs = first_needs(alloc, cells)?;
    run_tasks(needs.as_mut_slice(), masks, numbers);
    Ok(needs)
}

/// The cells that feed each cell, slot by slot, over tasks whose set rows do this.
pub fn plan_words(
    alloc: Global,
    masks: &[List<SetMask>],
    cells: u32,
    slots: &[SlotRow],
) -> Result<Vec<u64>, Memory>
    ensures { IfOk result (λ words. words.items ≡ spec.plan_words masks.now cells slots.now) }
{
    let mut words = Vec::new(alloc);
    for slot in slots {
        let added = slot_words(alloc, masks, cells, slot.tasks.as_slice())?;
        words.extend_from_slice(added.as_slice())?;
    }
    Ok(words)
}
