//! The single processor.
//! After NASA TM-102716; the code is this project's own.
ghost use Rattle.std.specs.Prelude.{◌≡◌, ◌≤◌, ◌<◌, ◌^◌, ℤ, pos, List, [], ◌∷◌, length, slice_index_or, IfOk, option_map};
ghost use Rattle.frame_table.specs.Plan.{IsOf};
ghost use Rattle.rcp_model.specs.declared.plan.PlanParts.{PlanParts};
ghost use Rattle.rcp_model.specs.Uniprocessor as uniprocessor;
ghost use Rattle.uniproc_layer.specs.Uni.{StandsAfter, ideal_commands};

use crate::evaluate::evaluate;
use frame_table::Table;
use rcp_base::Memory;
use rcp_model::{Plan, PlanParts, Variable};
use std::alloc::Global;
use std::marker::Model;

/// A processor that runs a plan frame by frame. Only making it takes memory.
#[derive(Debug, Drop)]
pub struct Uni {
    table: Table,
    slots: u32,
    slot: u32,
    cells: Vec<i64>,
    commands: Vec<i64>,
    // Whether the commands are those of a frame.
    ran: bool,
}

impl Model for Uni {
    ghost use Rattle.std.specs.Prelude.{◌≡◌, ◌<◌, ◌^◌, length, Some, None, if◌then◌else◌};
    ghost use Rattle.uniproc_layer.specs.Uni.{Processor};

    ghost Value = { Processor };

    ghost view = { λ uni. record {
      table = uni.table;
      state = record { slot = uni.slot; cells = uni.cells.items };
      commands = if uni.ran then Some uni.commands.items else None;
    } };

    ghost invariant = { λ uni. (uni.slots ≡ length uni.table.slots)
        × (uni.slot < uni.slots)
        × (length uni.commands.items ≡ length uni.table.commands)
        × (length uni.commands.items < 2 ^ 32) };
}

impl Uni {
    /// The processor before the first frame of a plan.
    pub fn new(alloc: Global, plan: &Plan) -> Result<Uni, Memory>
        ensures { IfOk result (StandsAfter plan.now []) }
    {
        let table = Table::new(alloc, plan)?;
        uni_of(alloc, table, plan.parts())
    }

    /// Runs the slot at hand, goes on to the next one, and evaluates the commands over the cells after it.
    pub fn frame(&mut self, sensors: &[i64])
        ensures { (plan : PlanParts) (past : List (List ℤ)) → StandsAfter plan past self.old
            → StandsAfter plan (sensors.now ∷ past) self.new }
    {
        self.table
            .run_slot(self.slot, sensors, self.cells.as_mut_slice());
        self.slot = (self.slot + 1) % self.slots;
        evaluate(
            &mut self.table,
            sensors,
            self.cells.as_slice(),
            self.commands.as_mut_slice(),
        );
        self.ran = true;
    }

    /// The slot that the next frame runs.
    pub fn slot(&self) -> u32
        ensures { (plan : PlanParts) (past : List (List ℤ)) → StandsAfter plan past self.now
            → result ≡ uniprocessor.ideal_slot plan past }
    {
        self.slot
    }

    /// The cells.
    pub fn cells(&self) -> &[i64]
        ensures { (plan : PlanParts) (past : List (List ℤ)) → StandsAfter plan past self.now
            → result.now ≡ uniprocessor.ideal_cells plan past }
    {
        self.cells.as_slice()
    }

    /// A cell. One that isn't there is 0.
    pub fn cell(&self, cell: u32) -> i64
        ensures { (plan : PlanParts) (past : List (List ℤ)) → StandsAfter plan past self.now
            → result ≡ slice_index_or (uniprocessor.ideal_cells plan past) cell (pos 0) }
    {
        item_of(self.cells.as_slice(), cell)
    }

    /// The command of an actuator in the last frame, and none before the first. That of an actuator that isn't there is 0.
    pub fn command(&self, actuator: u32) -> Option<i64>
        ensures { (plan : PlanParts) (past : List (List ℤ)) → StandsAfter plan past self.now
            → result ≡ option_map (λ commands. slice_index_or commands actuator (pos 0))
            (ideal_commands plan past) }
    {
        if self.ran {
            Some(item_of(self.commands.as_slice(), actuator))
        } else {
            None
        }
    }
}

// The processor before the first frame of parts that have slots, and not too many slots and actuators.
fn uni_of(alloc: Global, table: Table, parts: &PlanParts) -> Result<Uni, Memory>
    requires table { IsOf parts.now table }
    requires slots { (1 ≤ length parts.now.slots) × (length parts.now.slots < 2 ^ 32) }
    requires actuators { length parts.now.actuators < 2 ^ 32 }
    ensures { IfOk result (StandsAfter parts.now []) }
{
    let cells = initial_values(alloc, parts.cells.as_slice())?;
    let commands = vec![in alloc; 0; parts.actuators.len()]?;
    Ok(Uni {
        table,
        slots: parts.slots.len() as u32,
        slot: 0,
        cells,
        commands,
        ran: false,
    })
}

// The number in this place, or 0.
fn item_of(items: &[i64], place: u32) -> i64
    ensures { result ≡ slice_index_or items.now place (pos 0) }
{
    items.get(place as usize).copied().unwrap_or(0)
}

// The values of cells before the first frame.
fn initial_values(alloc: Global, variables: &[Variable]) -> Result<Vec<i64>, Memory>
    ensures { IfOk result (λ values. values.items ≡ uniprocessor.initial_values variables.now) }
{
    Ok(
        variables
            .iter()
            .map(|variable| variable.initial)
            .collect(alloc)?,
    )
}
