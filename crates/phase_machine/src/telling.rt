//! What a replica tells in any of its phases, and between two frames.
//! This project's own.
ghost use Rattle.std.specs.Prelude.{◌≡◌, ◌<◌, ℕ, pos, length, option_map, slice_index_or};
ghost use Rattle.std.specs.Option.{option_and_then};
ghost use Rattle.rcp_base.specs.Message.{value_in};
ghost use Rattle.rcp_model.specs.declared.plan.PlanParts.{PlanParts};
ghost use Rattle.rcp_model.specs.FrameRows.{FrameRows};
ghost use Rattle.phase_machine.specs.Phase.{RestsPhase, ShowsSeat};
ghost use Rattle.phase_machine.specs.Phases.{BeforeFrame};
ghost use Rattle.phase_machine.specs.Seats.{Seat};

use crate::phase::Phase;

impl Phase {
    /// The slot in what stands in the mailbox of a sender, if a message does.
    pub fn box_slot(&self, from: u32) -> Option<u32>
        requires { (plan : PlanParts) × (rows : FrameRows) × (replica : ℕ) × (seat : Seat)
            × ShowsSeat plan rows replica self.now seat × (from < plan.replicas) }
        ensures { (plan : PlanParts) (rows : FrameRows) (replica : ℕ) (seat : Seat)
            → ShowsSeat plan rows replica self.now seat
            → result ≡ option_map (λ message. message.slot) (seat.boxes from) }
    {
        match self {
            Phase::Computing(phase) => phase.box_slot(from),
            Phase::Sending(phase) => phase.box_slot(from),
            Phase::Voting(phase) => phase.box_slot(from),
            Phase::Syncing(phase) => phase.box_slot(from),
            Phase::Moving => None,
        }
    }

    /// The value of a cell in it, if a message stands there and names one.
    pub fn box_value(&self, from: u32, cell: u32) -> Option<i64>
        requires { (plan : PlanParts) × (rows : FrameRows) × (replica : ℕ) × (seat : Seat)
            × ShowsSeat plan rows replica self.now seat
            × (from < plan.replicas) × (cell < length plan.cells) }
        ensures { (plan : PlanParts) (rows : FrameRows) (replica : ℕ) (seat : Seat)
            → ShowsSeat plan rows replica self.now seat
            → result ≡ option_and_then (λ message. value_in message cell) (seat.boxes from) }
    {
        match self {
            Phase::Computing(phase) => phase.box_value(from, cell),
            Phase::Sending(phase) => phase.box_value(from, cell),
            Phase::Voting(phase) => phase.box_value(from, cell),
            Phase::Syncing(phase) => phase.box_value(from, cell),
            Phase::Moving => None,
        }
    }

    /// The slot of a replica between two frames.
    pub fn slot(&self) -> u32
        ensures { (plan : PlanParts) (replica : ℕ) (before : BeforeFrame)
            → RestsPhase plan replica self.now before → result ≡ before.held.slot }
    {
        match self {
            Phase::Computing(phase) => phase.slot(),
            _ => 0,
        }
    }

    /// A cell of a replica between two frames.
    pub fn cell(&self, cell: u32) -> i64
        requires { (plan : PlanParts) × (replica : ℕ) × (before : BeforeFrame)
            × RestsPhase plan replica self.now before × (cell < length plan.cells) }
        ensures { (plan : PlanParts) (replica : ℕ) (before : BeforeFrame)
            → RestsPhase plan replica self.now before
            → result ≡ slice_index_or before.held.cells cell (pos 0) }
    {
        match self {
            Phase::Computing(phase) => phase.cell(cell),
            _ => 0,
        }
    }

    /// The command that it gave to an actuator in the last frame.
    pub fn command(&self, actuator: u32) -> Option<i64>
        requires { (plan : PlanParts) × (replica : ℕ) × (before : BeforeFrame)
            × RestsPhase plan replica self.now before × (actuator < length plan.actuators) }
        ensures { (plan : PlanParts) (replica : ℕ) (before : BeforeFrame)
            → RestsPhase plan replica self.now before → actuator < length plan.actuators
            → result ≡ before.commands actuator }
    {
        match self {
            Phase::Computing(phase) => phase.command(actuator),
            _ => None,
        }
    }

    /// The slot in what stood heard of a sender at its last vote.
    pub fn heard_slot(&self, from: u32) -> Option<u32>
        requires { (plan : PlanParts) × (replica : ℕ) × (before : BeforeFrame)
            × RestsPhase plan replica self.now before × (from < plan.replicas) }
        ensures { (plan : PlanParts) (replica : ℕ) (before : BeforeFrame)
            → RestsPhase plan replica self.now before → from < plan.replicas
            → result ≡ option_map (λ message. message.slot)
            (option_and_then (λ ballot. ballot.heard from) before.voted) }
    {
        match self {
            Phase::Computing(phase) => phase.heard_slot(from),
            _ => None,
        }
    }

    /// The value of a cell in it, if a message stood heard and named one.
    pub fn heard_value(&self, from: u32, cell: u32) -> Option<i64>
        requires { (plan : PlanParts) × (replica : ℕ) × (before : BeforeFrame)
            × RestsPhase plan replica self.now before
            × (from < plan.replicas) × (cell < length plan.cells) }
        ensures { (plan : PlanParts) (replica : ℕ) (before : BeforeFrame)
            → RestsPhase plan replica self.now before → from < plan.replicas
            → result ≡ option_and_then (λ message. value_in message cell)
            (option_and_then (λ ballot. ballot.heard from) before.voted) }
    {
        match self {
            Phase::Computing(phase) => phase.heard_value(from, cell),
            _ => None,
        }
    }

    /// The slot that it took at the vote of the last frame, if there was one.
    pub fn voted_slot(&self) -> Option<u32>
        ensures { (plan : PlanParts) (replica : ℕ) (before : BeforeFrame)
            → RestsPhase plan replica self.now before
            → result ≡ option_map (λ ballot. ballot.taken) before.voted }
    {
        match self {
            Phase::Computing(phase) => phase.voted_slot(),
            _ => None,
        }
    }

    /// A cell of it after that vote.
    pub fn voted_cell(&self, cell: u32) -> Option<i64>
        requires { (plan : PlanParts) × (replica : ℕ) × (before : BeforeFrame)
            × RestsPhase plan replica self.now before × (cell < length plan.cells) }
        ensures { (plan : PlanParts) (replica : ℕ) (before : BeforeFrame)
            → RestsPhase plan replica self.now before
            → result
            ≡ option_map (λ ballot. slice_index_or ballot.cells cell (pos 0)) before.voted }
    {
        match self {
            Phase::Computing(phase) => phase.voted_cell(cell),
            _ => None,
        }
    }
}
