//! What the rows of a frame say.
//! This project's own.
ghost use Rattle.std.specs.Prelude.{◌≡◌, ◌<◌, IsTrue, length};
ghost use Rattle.rcp_model.specs.FrameRows.{is_down, slot_row, cell_row, act_row, lie_row, lie_slot_row, is_dropped, skew_of, rate_of, delay_of};
ghost use Rattle.rcp_model.specs.RowWrites.{cleared};

use super::FrameIn;

impl FrameIn {
    /// How many cells there are.
    pub(crate) fn cells(&self) -> u32
        ensures { result ≡ self.now.cells }
    {
        self.cells as u32
    }

    /// How many actuators there are.
    pub(crate) fn actuators(&self) -> u32
        ensures { result ≡ self.now.actuators }
    {
        self.actuators as u32
    }

    /// The values of the sensors.
    pub fn sensors(&self) -> &[i64]
        ensures { result.now ≡ self.now.sensors }
    {
        self.sensors.as_slice()
    }

    /// Whether nothing but sensors was written in this frame. `false` also where what was written changes nothing.
    pub fn is_quiet(&self) -> bool
        ensures { IsTrue result → self.now ≡ cleared self.now }
    {
        !self.written
    }

    /// Whether a row takes the replica down.
    #[tactic(auto, unfolding(rcp_model::specs::FrameRows::is_down))]
    pub fn down(&self, replica: u32) -> bool
        requires { replica < self.now.replicas }
        ensures { result ≡ is_down self.now replica }
    {
        self.downs[replica as usize]
    }

    /// The slot that a row gives to the replica at the end of the frame.
    #[tactic(auto, unfolding(rcp_model::specs::FrameRows::slot_row))]
    pub fn slot(&self, replica: u32) -> Option<u32>
        requires { replica < self.now.replicas }
        ensures { result ≡ slot_row self.now replica }
    {
        self.slots[replica as usize]
    }

    /// The value that a row gives to a cell of the replica at the end of the frame.
    #[tactic(auto, unfolding(rcp_model::specs::FrameRows::cell_row, rcp_model::specs::FrameRows::entry_at))]
    pub fn cell(&self, replica: u32, cell: u32) -> Option<i64>
        requires replica { replica < self.now.replicas }
        requires cell { cell < self.now.cells }
        ensures { result ≡ cell_row self.now replica cell }
    {
        self.cell_values[replica as usize * self.cells + cell as usize]
    }

    /// The command that a row gives to the replica for an actuator.
    #[tactic(auto, unfolding(rcp_model::specs::FrameRows::act_row, rcp_model::specs::FrameRows::entry_at))]
    pub fn act(&self, replica: u32, actuator: u32) -> Option<i64>
        requires replica { replica < self.now.replicas }
        requires actuator { actuator < self.now.actuators }
        ensures { result ≡ act_row self.now replica actuator }
    {
        self.acts[replica as usize * self.actuators + actuator as usize]
    }

    /// The value that a row sets in the sender's message to one receiver.
    pub fn lie(&self, from: u32, to: u32, cell: u32) -> Option<i64>
        requires from { from < self.now.replicas }
        requires to { to < self.now.replicas }
        requires cell { cell < self.now.cells }
        ensures { result ≡ lie_row self.now from to cell }
    {
        self.lies[(from as usize * self.replicas + to as usize) * self.cells + cell as usize]
    }

    /// The slot that a row sets in the sender's message to one receiver.
    #[tactic(auto, unfolding(rcp_model::specs::FrameRows::lie_slot_row, rcp_model::specs::FrameRows::entry_at))]
    pub fn lieslot(&self, from: u32, to: u32) -> Option<u32>
        requires from { from < self.now.replicas }
        requires to { to < self.now.replicas }
        ensures { result ≡ lie_slot_row self.now from to }
    {
        self.lie_slots[from as usize * self.replicas + to as usize]
    }

    /// Whether a row takes the sender's message to one receiver away.
    #[tactic(auto, unfolding(rcp_model::specs::FrameRows::is_dropped, rcp_model::specs::FrameRows::entry_at))]
    pub fn dropped(&self, from: u32, to: u32) -> bool
        requires from { from < self.now.replicas }
        requires to { to < self.now.replicas }
        ensures { result ≡ is_dropped self.now from to }
    {
        self.drops[from as usize * self.replicas + to as usize]
    }

    /// How late the replica's clock is, in ticks.
    #[tactic(auto, unfolding(rcp_model::specs::FrameRows::skew_of))]
    pub fn skew(&self, replica: u32) -> i64
        requires { replica < self.now.replicas }
        ensures { result ≡ skew_of self.now replica }
    {
        self.skews[replica as usize]
    }

    /// By how much the replica's ticks are longer, in parts per million.
    #[tactic(auto, unfolding(rcp_model::specs::FrameRows::rate_of))]
    pub fn rate(&self, replica: u32) -> i64
        requires { replica < self.now.replicas }
        ensures { result ≡ rate_of self.now replica }
    {
        self.rates[replica as usize]
    }

    /// How long the sender's message to one receiver takes, in ticks.
    #[tactic(auto, unfolding(rcp_model::specs::FrameRows::delay_of, rcp_model::specs::FrameRows::entry_at))]
    pub fn delay(&self, from: u32, to: u32) -> i64
        requires from { from < self.now.replicas }
        requires to { to < self.now.replicas }
        ensures { result ≡ delay_of self.now from to }
    {
        self.delays[from as usize * self.replicas + to as usize]
    }
}
