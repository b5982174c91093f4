//! The frame table.
//! After NASA TM-102716.
ghost use Rattle.std.specs.Prelude.{◌≡◌, [], IfOk, slice_index_or};
ghost use Rattle.rcp_model.specs.declared.plan.PlanParts.{PlanParts};
ghost use Rattle.rcp_model.specs.Slot.{actuator_at, cells_after_slot, actuator_value};
ghost use Rattle.frame_table.specs.Plan.{IsOf};

use crate::build::slots_of;
use crate::commands::Commands;
use crate::programs::Programs;
use rcp_base::{List, Memory};
use rcp_model::{Plan, PlanParts};
use std::alloc::Global;

/// What runs in each slot and what each actuator is commanded. Running it takes no memory.
#[derive(Debug, Drop)]
pub struct Table {
    programs: Programs,
    slots: List<List<u16>>,
    commands: Commands,
}

impl Table {
    /// The table of a plan.
    pub fn new(alloc: Global, plan: &Plan) -> Result<Table, Memory>
        ensures { IfOk result (IsOf plan.now) }
    {
        table_of(alloc, plan.parts())
    }

    /// Runs the tasks of a slot. A slot that isn't there changes nothing.
    pub fn run_slot(&mut self, slot: u32, sensors: &[i64], cells: &mut [i64])
        ensures cells { (plan : PlanParts) → IsOf plan self.old
            → cells.new ≡ cells_after_slot plan slot sensors.now cells.old }
        ensures table { self.new ≡ self.old }
    {
        let numbers = numbers_of(self.slots.as_slice(), slot as usize);
        self.programs.run(numbers, sensors, cells);
    }

    /// The value that an actuator is commanded. That of an actuator that isn't there is 0.
    #[tactic(auto, using(crate::proofs::PlanLemmas::value_is))]
    pub fn command(&mut self, actuator: u32, sensors: &[i64], cells: &[i64]) -> i64
        ensures value { (plan : PlanParts) → IsOf plan self.old
            → result ≡ actuator_value (actuator_at plan actuator) sensors.now cells.now }
        ensures table { self.new ≡ self.old }
    {
        self.commands.value(actuator as usize, sensors, cells)
    }
}

// The table of a plan's parts.
fn table_of(alloc: Global, parts: &PlanParts) -> Result<Table, Memory>
    ensures { IfOk result (IsOf parts.now) }
{
    Ok(Table {
        programs: Programs::new(alloc, parts.tasks.as_slice())?,
        slots: slots_of(alloc, parts.slots.as_slice())?,
        commands: Commands::new(alloc, parts.actuators.as_slice())?,
    })
}

// The numbers of a slot's tasks.
fn numbers_of(slots: &[List<u16>], slot: usize) -> &[u16]
    ensures { result.now ≡ slice_index_or slots.now slot [] }
{
    match slots.get(slot) {
        Some(numbers) => numbers.as_slice(),
        None => &[],
    }
}
