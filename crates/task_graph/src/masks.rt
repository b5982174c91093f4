//! The cells that an expression reads, and those that each set row of a task reads.
//! This project's own.
ghost use Rattle.std.specs.Prelude.{◌≡◌, [], map, IfOk};
ghost use Rattle.task_graph.specs.inner.Masks as spec;

use crate::bits::{bit_of, word_at};
use rcp_base::{List, Memory};
use rcp_model::{Expr, LetRow, SetRow, Task};
use std::alloc::Global;

/// The cells that an expression reads, over those that the lets read.
pub fn mask_of(e: &Expr, lets: &[u64]) -> u64
    ensures { result ≡ spec.mask_of e.now lets.now }
{
    match e {
        Expr::Number(_) | Expr::Sensor(_) => 0,
        Expr::Cell(i) => bit_of(*i as usize),
        Expr::Let(i) => word_at(lets, *i as usize),
        Expr::Neg(x) | Expr::Not(x) | Expr::Abs(x) => mask_of(x.get(), lets),
        Expr::Two(_, a, b) => mask_of(a.get(), lets) | mask_of(b.get(), lets),
        Expr::Clamp(x, low, high) => {
            mask_of(x.get(), lets) | mask_of(low.get(), lets) | mask_of(high.get(), lets)
        }
        Expr::If(test, a, b) => {
            mask_of(test.get(), lets) | mask_of(a.get(), lets) | mask_of(b.get(), lets)
        }
    }
}

/// The cells that each let reads.
pub fn let_masks(alloc: Global, rows: &[LetRow]) -> Result<Vec<u64>, Memory>
    ensures { IfOk result (λ masks. masks.items ≡ spec.let_masks_after [] rows.now) }
{
    let mut masks = Vec::new(alloc);
    for row in rows {
        let mask = mask_of(&row.value, masks.as_slice());
        masks.push(mask)?;
    }
    Ok(masks)
}

/// What a set row does: the cell that it sets, and the cells that its value reads.
#[derive(Debug, Drop)]
pub struct SetMask {
    pub cell: u16,
    pub mask: u64,
}

// What each set row does, over the masks of the lets.
fn set_masks(alloc: Global, rows: &[SetRow], lets: &[u64]) -> Result<List<SetMask>, Memory>
    ensures { IfOk result (λ masks. masks ≡ map (spec.set_mask lets.now) rows.now) }
{
    let mut masks = List::new(alloc);
    for row in rows {
        masks.push(SetMask {
            cell: row.cell,
            mask: mask_of(&row.value, lets),
        })?;
    }
    Ok(masks)
}

/// What each set row of a task does.
pub fn task_masks(alloc: Global, task: &Task) -> Result<List<SetMask>, Memory>
    ensures { IfOk result (λ masks. masks ≡ spec.task_masks task.now) }
{
    let lets = let_masks(alloc, task.lets.as_slice())?;
    set_masks(alloc, task.sets.as_slice(), lets.as_slice())
}

/// Those of each task.
pub fn masks_of_tasks(alloc: Global, tasks: &[Task]) -> Result<List<List<SetMask>>, Memory>
    ensures { IfOk result (λ masks. masks ≡ map spec.task_masks tasks.now) }
{
    let mut masks = List::new(alloc);
    for task in tasks {
        masks.push(task_masks(alloc, task)?)?;
    }
    Ok(masks)
}
