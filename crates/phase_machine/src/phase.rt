//! A replica in any of its phases. Each step finds it in the phase that the step is for.
//! This project's own.
ghost use Rattle.std.specs.Prelude.{◌≡◌, ◌<◌, ℕ, IfOk, None, Some, length, if◌then◌else◌};
ghost use Rattle.frame_table.specs.Plan.{IsOf};
ghost use Rattle.rcp_model.specs.declared.plan.PlanParts.{PlanParts};
ghost use Rattle.rcp_model.specs.FrameLimits.{IsFrameOf};
ghost use Rattle.rcp_model.specs.FrameRows.{FrameRows};
ghost use Rattle.rcp_model.specs.Messages.{Letter, is_up, is_voted};
ghost use Rattle.rcp_model.specs.System.{initial_state};
ghost use Rattle.vote_pattern.specs.Votes.{is_in};
ghost use Rattle.phase_machine.specs.Phase.{RestsPhase, ShowsSeat, last_stage, rested};
ghost use Rattle.phase_machine.specs.Phases.{part_of};
ghost use Rattle.phase_machine.specs.Seats.{Computed, Decided, Seat, Told, Waiting, begun_seat, got_seat, own_now, sent_seat, synced_seat, voted_seat};

use crate::computing::Computing;
use crate::sending::Sending;
use crate::syncing::Syncing;
use crate::voting::Voting;
use frame_table::Table;
use layer_stack::FrameIn;
use mailbox::Message;
use rcp_base::Memory;
use rcp_model::Plan;
use std::alloc::Global;
use vote_pattern::Pattern;

/// A replica in one of its phases. No call but `new` takes memory.
#[derive(Debug, Drop)]
pub enum Phase {
    Computing(Computing),
    Sending(Sending),
    Voting(Voting),
    Syncing(Syncing),
    /// On its way from one phase to the next.
    Moving,
}

impl Phase {
    /// A replica of a plan before the first frame.
    pub fn new(alloc: Global, plan: &Plan, replica: u32) -> Result<Phase, Memory>
        requires { replica < plan.now.replicas }
        ensures { IfOk result (λ phase. RestsPhase plan.now replica phase
            (part_of (initial_state plan.now) replica (λ sender. None))) }
    {
        Ok(Phase::Computing(Computing::new(alloc, plan, replica)?))
    }

    /// Begins its frame.
    pub fn begin(self, table: &mut Table, input: &FrameIn) -> Phase
        requires shows { (plan : PlanParts) × (replica : ℕ) × (seat : Seat)
            × ShowsSeat plan input.now replica self seat }
        ensures shows { (plan : PlanParts) (replica : ℕ) (seat : Seat)
            → ShowsSeat plan input.now replica self seat → seat.stage ≡ Waiting
            → IsOf plan table.old
            → ShowsSeat plan input.now replica result (begun_seat plan input.now seat) }
        ensures table { table.new ≡ table.old }
    {
        match self {
            Phase::Computing(phase) => Phase::Sending(phase.begin(table, input)),
            other => other,
        }
    }

    /// Sends its message.
    pub fn send(self, pattern: &Pattern, out: &mut Message) -> Phase
        requires shows { (plan : PlanParts) × (rows : FrameRows) × (replica : ℕ) × (seat : Seat)
            × ShowsSeat plan rows replica self seat
            × (length out.old.values ≡ length plan.cells) }
        ensures shows { (plan : PlanParts) (rows : FrameRows) (replica : ℕ) (seat : Seat)
            → ShowsSeat plan rows replica self seat → seat.stage ≡ Computed
            → is_in pattern.now ≡ is_voted plan
            → ShowsSeat plan rows replica result (sent_seat plan seat) }
        ensures out { (plan : PlanParts) (rows : FrameRows) (replica : ℕ) (seat : Seat)
            → ShowsSeat plan rows replica self seat → seat.stage ≡ Computed
            → is_in pattern.now ≡ is_voted plan → out.new ≡ own_now plan seat }
    {
        match self {
            Phase::Sending(phase) => Phase::Voting(phase.send(pattern, out)),
            other => other,
        }
    }

    /// Votes.
    pub fn vote(self, pattern: &Pattern, table: &mut Table, input: &FrameIn) -> Phase
        requires shows { (plan : PlanParts) × (replica : ℕ) × (seat : Seat)
            × ShowsSeat plan input.now replica self seat }
        ensures shows { (plan : PlanParts) (replica : ℕ) (seat : Seat)
            → ShowsSeat plan input.now replica self seat → seat.stage ≡ Told
            → IsOf plan table.old → is_in pattern.now ≡ is_voted plan
            → ShowsSeat plan input.now replica result (voted_seat plan replica seat) }
        ensures table { table.new ≡ table.old }
    {
        match self {
            Phase::Voting(phase) => Phase::Syncing(phase.vote(pattern, table, input)),
            other => other,
        }
    }

    /// Syncs, and ends its frame.
    pub fn sync(self, input: &FrameIn) -> Phase
        requires shows { (plan : PlanParts) × (replica : ℕ) × (seat : Seat)
            × ShowsSeat plan input.now replica self seat × IsFrameOf plan input.now }
        ensures shows { (plan : PlanParts) (replica : ℕ) (seat : Seat)
            → ShowsSeat plan input.now replica self seat → seat.stage ≡ Decided
            → ShowsSeat plan input.now replica result (synced_seat plan seat) }
    {
        match self {
            Phase::Syncing(phase) => Phase::Computing(phase.end(input)),
            other => other,
        }
    }

    /// Puts a message into the mailbox of its sender.
    pub fn deliver(&mut self, from: u32, message: &Message)
        requires shows { (plan : PlanParts) × (rows : FrameRows) × (replica : ℕ) × (seat : Seat)
            × ShowsSeat plan rows replica self.old seat × (from < plan.replicas)
            × (length message.now.values ≡ length plan.cells) }
        ensures shows { (plan : PlanParts) (rows : FrameRows) (replica : ℕ) (seat : Seat)
            (letter : Letter) → ShowsSeat plan rows replica self.old seat
            → letter.message ≡ message.now
            → ShowsSeat plan rows replica self.new (got_seat from (Some letter) seat) }
    {
        match self {
            Phase::Computing(phase) => phase.deliver(from, message),
            Phase::Sending(phase) => phase.deliver(from, message),
            Phase::Voting(phase) => phase.deliver(from, message),
            Phase::Syncing(phase) => phase.deliver(from, message),
            Phase::Moving => {}
        }
    }

    /// Comes to rest after a frame: a replica that is down skips it, and the others have ended it.
    pub fn finish(self, input: &FrameIn, replica: u32) -> Phase
        requires replica { replica < input.now.replicas }
        requires shows { (plan : PlanParts) × (seat : Seat)
            × ShowsSeat plan input.now replica self seat × IsFrameOf plan input.now }
        ensures rests { (plan : PlanParts) (seat : Seat)
            → ShowsSeat plan input.now replica self seat → IsFrameOf plan input.now
            → seat.stage ≡ last_stage (is_up plan input.now replica)
            → RestsPhase plan replica result (rested plan input.now replica seat
            (if is_up plan input.now replica then seat.ballot else None)) }
    {
        if input.down(replica) {
            self.skip(input)
        } else {
            self
        }
    }

    // Lets a frame go by.
    fn skip(self, input: &FrameIn) -> Phase
        requires shows { (plan : PlanParts) × (replica : ℕ) × (seat : Seat)
            × ShowsSeat plan input.now replica self seat × IsFrameOf plan input.now }
        ensures rests { (plan : PlanParts) (replica : ℕ) (seat : Seat)
            → ShowsSeat plan input.now replica self seat → seat.stage ≡ Waiting
            → RestsPhase plan replica result (rested plan input.now replica seat None) }
    {
        match self {
            Phase::Computing(phase) => Phase::Computing(phase.skip(input)),
            other => other,
        }
    }
}
