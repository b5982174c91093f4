//! Writing the rows of a frame. A later row for the same place stands in the place of the earlier.
//! This project's own.
ghost use Rattle.std.specs.Prelude.{◌≡◌, ◌≢◌, ◌<◌, length};
ghost use Rattle.rcp_model.specs.declared.plan.PlanParts.{PlanParts};
ghost use Rattle.rcp_model.specs.FrameLimits.{IsDelayOf, IsFrameOf, IsWithin};
ghost use Rattle.rcp_model.specs.Slot.{slot_count};
ghost use Rattle.rcp_model.specs.RowWrites.{with_sensor, with_down, with_slot, with_cell, with_act, with_lie, with_lie_slot, with_drop, with_skew, with_rate, with_delay};

use super::FrameIn;

impl FrameIn {
    /// Gives a sensor its value from this frame on.
    #[tactic(auto, unfolding(rcp_model::specs::RowWrites::with_sensor))]
    pub fn set_sensor(&mut self, sensor: u32, value: i64)
        requires { sensor < length self.old.sensors }
        ensures row { self.new ≡ with_sensor self.old sensor value }
        ensures of_plan { (plan : PlanParts) → IsFrameOf plan self.old → IsFrameOf plan self.new }
    {
        self.sensors[sensor as usize] = value;
    }

    /// Takes a replica down in this frame.
    #[tactic(auto, unfolding(rcp_model::specs::RowWrites::with_down))]
    pub fn set_down(&mut self, replica: u32)
        requires { replica < self.old.replicas }
        ensures row { self.new ≡ with_down self.old replica }
        ensures of_plan { (plan : PlanParts) → IsFrameOf plan self.old → IsFrameOf plan self.new }
    {
        self.downs[replica as usize] = true;
        self.written = true;
    }

    /// Overwrites the slot of a replica at the end of this frame.
    #[tactic(auto, unfolding(rcp_model::specs::RowWrites::with_slot))]
    pub fn set_slot(&mut self, replica: u32, slot: u32)
        requires { replica < self.old.replicas }
        ensures row { self.new ≡ with_slot self.old replica slot }
        ensures of_plan { (plan : PlanParts) → IsFrameOf plan self.old → slot < slot_count plan
            → IsFrameOf plan self.new }
    {
        self.slots[replica as usize] = Some(slot);
        self.written = true;
    }

    /// Overwrites a cell of a replica at the end of this frame.
    #[tactic(auto, unfolding(rcp_model::specs::RowWrites::with_cell))]
    pub fn set_cell(&mut self, replica: u32, cell: u32, value: i64)
        requires replica { replica < self.old.replicas }
        requires cell { cell < self.old.cells }
        ensures row { self.new ≡ with_cell self.old replica cell value }
        ensures of_plan { (plan : PlanParts) → IsFrameOf plan self.old → IsFrameOf plan self.new }
    {
        let place = replica as usize * self.cells + cell as usize;
        self.cell_values[place] = Some(value);
        self.written = true;
    }

    /// Overwrites a replica's command for an actuator in this frame.
    #[tactic(auto, unfolding(rcp_model::specs::RowWrites::with_act))]
    pub fn set_act(&mut self, replica: u32, actuator: u32, value: i64)
        requires replica { replica < self.old.replicas }
        requires actuator { actuator < self.old.actuators }
        ensures row { self.new ≡ with_act self.old replica actuator value }
        ensures of_plan { (plan : PlanParts) → IsFrameOf plan self.old → IsFrameOf plan self.new }
    {
        let place = replica as usize * self.actuators + actuator as usize;
        self.acts[place] = Some(value);
        self.written = true;
    }

    /// Sets the value of a cell in the sender's message to one receiver.
    #[tactic(auto, unfolding(rcp_model::specs::RowWrites::with_lie))]
    pub fn set_lie(&mut self, from: u32, to: u32, cell: u32, value: i64)
        requires from { from < self.old.replicas }
        requires to { to < self.old.replicas }
        requires cell { cell < self.old.cells }
        ensures row { self.new ≡ with_lie self.old from to cell value }
        ensures of_plan { (plan : PlanParts) → IsFrameOf plan self.old → from ≢ to
            → IsFrameOf plan self.new }
    {
        let pair = from as usize * self.replicas + to as usize;
        self.lies[pair * self.cells + cell as usize] = Some(value);
        self.written = true;
    }

    /// Sets the slot in the sender's message to one receiver.
    #[tactic(auto, unfolding(rcp_model::specs::RowWrites::with_lie_slot))]
    pub fn set_lieslot(&mut self, from: u32, to: u32, slot: u32)
        requires from { from < self.old.replicas }
        requires to { to < self.old.replicas }
        ensures row { self.new ≡ with_lie_slot self.old from to slot }
        ensures of_plan { (plan : PlanParts) → IsFrameOf plan self.old
            → from ≢ to → slot < slot_count plan → IsFrameOf plan self.new }
    {
        let pair = from as usize * self.replicas + to as usize;
        self.lie_slots[pair] = Some(slot);
        self.written = true;
    }

    /// Takes the sender's message to one receiver away.
    #[tactic(auto, unfolding(rcp_model::specs::RowWrites::with_drop))]
    pub fn set_drop(&mut self, from: u32, to: u32)
        requires from { from < self.old.replicas }
        requires to { to < self.old.replicas }
        ensures row { self.new ≡ with_drop self.old from to }
        ensures of_plan { (plan : PlanParts) → IsFrameOf plan self.old → from ≢ to
            → IsFrameOf plan self.new }
    {
        let pair = from as usize * self.replicas + to as usize;
        self.drops[pair] = true;
        self.written = true;
    }

    /// Sets how late a replica's clock is in this frame, in ticks.
    #[tactic(auto, unfolding(rcp_model::specs::RowWrites::with_skew))]
    pub fn set_skew(&mut self, replica: u32, ticks: i64)
        requires { replica < self.old.replicas }
        ensures row { self.new ≡ with_skew self.old replica ticks }
        ensures of_plan { (plan : PlanParts) → IsFrameOf plan self.old
            → IsWithin plan.timing.skew_limit ticks → IsFrameOf plan self.new }
    {
        self.skews[replica as usize] = ticks;
        self.written = true;
    }

    /// Sets by how much a replica's ticks are longer in this frame, in parts per million.
    #[tactic(auto, unfolding(rcp_model::specs::RowWrites::with_rate))]
    pub fn set_rate(&mut self, replica: u32, ppm: i64)
        requires { replica < self.old.replicas }
        ensures row { self.new ≡ with_rate self.old replica ppm }
        ensures of_plan { (plan : PlanParts) → IsFrameOf plan self.old
            → IsWithin plan.timing.drift_limit_ppm ppm → IsFrameOf plan self.new }
    {
        self.rates[replica as usize] = ppm;
        self.written = true;
    }

    /// Sets how long the sender's message to one receiver takes in this frame, in ticks.
    #[tactic(auto, unfolding(rcp_model::specs::RowWrites::with_delay))]
    pub fn set_delay(&mut self, from: u32, to: u32, ticks: i64)
        requires from { from < self.old.replicas }
        requires to { to < self.old.replicas }
        ensures row { self.new ≡ with_delay self.old from to ticks }
        ensures of_plan { (plan : PlanParts) → IsFrameOf plan self.old
            → from ≢ to → IsDelayOf plan ticks → IsFrameOf plan self.new }
    {
        let pair = from as usize * self.replicas + to as usize;
        self.delays[pair] = ticks;
        self.written = true;
    }
}
