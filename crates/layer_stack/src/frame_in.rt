//! The rows of one frame.
//! This project's own.
ghost use Rattle.std.specs.Prelude.{◌≡◌, ◌≤◌, length, IfOk, replicate};
ghost use Rattle.rcp_model.specs.declared.plan.PlanParts.{PlanParts};
ghost use Rattle.rcp_model.specs.FrameLimits.{IsFrameOf};
ghost use Rattle.rcp_model.specs.FrameRows.{AreRowsOf, no_rows, quiet_rows};
ghost use Rattle.rcp_model.specs.RowWrites.{cleared};
ghost use Rattle.rcp_model.specs.Uniprocessor.{initial_values};

mod reading;
mod writing;

use rcp_base::Memory;
use rcp_model::{Plan, PlanParts, Variable};
use std::alloc::Global;
use std::marker::Model;

/// The sensor values of a frame, and what a journal says of replicas, messages and clocks in it.
/// Slots and cells are those at the end of the frame, ticks and parts per million those of the frame.
#[derive(Debug, Drop)]
pub struct FrameIn {
    replicas: usize,
    cells: usize,
    actuators: usize,
    delay_min: i64,
    sensors: Vec<i64>,
    downs: Vec<bool>,
    slots: Vec<Option<u32>>,
    skews: Vec<i64>,
    rates: Vec<i64>,
    // By replica and cell, and by replica and actuator.
    cell_values: Vec<Option<i64>>,
    acts: Vec<Option<i64>>,
    // By sender and receiver.
    lie_slots: Vec<Option<u32>>,
    drops: Vec<bool>,
    delays: Vec<i64>,
    // By sender, receiver and cell.
    lies: Vec<Option<i64>>,
    // Whether a row but a sensor's was written in this frame.
    written: bool,
}

impl Model for FrameIn {
    ghost use Rattle.rcp_model.specs.FrameRows.{FrameRows};
    ghost use Rattle.layer_stack.specs.FrameFields.{IsFrame, rows_in};

    ghost Value = { FrameRows };

    ghost view = { rows_in };

    ghost invariant = { IsFrame };
}

impl FrameIn {
    /// The rows of the first frame of a plan: the sensors have their initial values, and there is no other row.
    pub fn new(alloc: Global, plan: &Plan) -> Result<FrameIn, Memory>
        ensures rows { IfOk result (λ frame.
            frame ≡ no_rows plan.now (initial_values plan.now.sensors)) }
        ensures of_plan { IfOk result (IsFrameOf plan.now) }
    {
        frame_of(alloc, plan.parts())
    }

    /// Goes on to the next frame: the sensors keep their values, and all other rows go. Takes no memory.
    pub fn next_frame(&mut self)
        ensures rows { self.new ≡ cleared self.old }
        ensures of_plan { (plan : PlanParts) → IsFrameOf plan self.old → IsFrameOf plan self.new }
    {
        if self.written {
            clear(&mut self.downs, false);
            clear(&mut self.slots, None);
            clear(&mut self.skews, 0);
            clear(&mut self.rates, 0);
            clear(&mut self.cell_values, None);
            clear(&mut self.acts, None);
            clear(&mut self.lie_slots, None);
            clear(&mut self.drops, false);
            clear(&mut self.delays, self.delay_min);
            clear(&mut self.lies, None);
            self.written = false;
        }
    }
}

// Puts one value into every place.
fn clear<T: Copy>(items: &mut Vec<T>, value: T)
    ensures { items.new.items ≡ replicate (length items.old.items) value }
{
    for item in items.iter_mut() {
        *item = value;
    }
}

// The rows of the first frame of parts that are not too many.
fn frame_of(alloc: Global, parts: &PlanParts) -> Result<FrameIn, Memory>
    requires replicas { parts.now.replicas ≤ 9 }
    requires cells { length parts.now.cells ≤ 64 }
    requires actuators { length parts.now.actuators ≤ 32 }
    ensures rows { IfOk result (λ frame.
        frame ≡ no_rows parts.now (initial_values parts.now.sensors)) }
    ensures of_plan { IfOk result (AreRowsOf parts.now) }
{
    let sensors = initial_sensors(alloc, parts.sensors.as_slice())?;
    quiet_frame(
        alloc,
        parts.replicas as usize,
        parts.cells.len(),
        parts.actuators.len(),
        parts.timing.delay_min,
        sensors,
    )
}

// The rows of a frame of these sizes without a row but the sensors.
fn quiet_frame(
    alloc: Global,
    replicas: usize,
    cells: usize,
    actuators: usize,
    delay_min: i64,
    sensors: Vec<i64>,
) -> Result<FrameIn, Memory>
    requires replicas { replicas ≤ 9 }
    requires cells { cells ≤ 64 }
    requires actuators { actuators ≤ 32 }
    ensures { IfOk result (λ frame.
        frame ≡ quiet_rows replicas cells actuators delay_min sensors.items) }
{
    let pairs = replicas * replicas;
    Ok(FrameIn {
        replicas,
        cells,
        actuators,
        delay_min,
        sensors,
        downs: filled(alloc, false, replicas)?,
        slots: filled(alloc, None, replicas)?,
        skews: filled(alloc, 0, replicas)?,
        rates: filled(alloc, 0, replicas)?,
        cell_values: filled(alloc, None, replicas * cells)?,
        acts: filled(alloc, None, replicas * actuators)?,
        lie_slots: filled(alloc, None, pairs)?,
        drops: filled(alloc, false, pairs)?,
        delays: filled(alloc, delay_min, pairs)?,
        lies: filled(alloc, None, pairs * cells)?,
        written: false,
    })
}

// So many places with one value in each.
fn filled<T: Copy>(alloc: Global, value: T, places: usize) -> Result<Vec<T>, Memory>
    ensures { IfOk result (λ items. items.items ≡ replicate places value) }
{
    let mut items = Vec::new(alloc);
    for _place in 0..places {
        items.push(value)?;
    }
    Ok(items)
}

// The values of sensors before the first frame.
fn initial_sensors(alloc: Global, sensors: &[Variable]) -> Result<Vec<i64>, Memory>
    ensures { IfOk result (λ values. values.items ≡ initial_values sensors.now) }
{
    Ok(sensors.iter().map(|sensor| sensor.initial).collect(alloc)?)
}
