//! One replica's step among the phases of all.
//! This project's own.
ghost use Rattle.std.specs.Prelude.{◌≡◌, ◌≢◌, ◌<◌, ◌≤◌, ℕ, IfOk, None, Option, Some, length, set, slice_index_or, if◌then◌else◌};
ghost use Rattle.frame_table.specs.Plan.{IsOf};
ghost use Rattle.mailbox.specs.Mailboxes.{put};
ghost use Rattle.rcp_base.specs.Message.{Content};
ghost use Rattle.rcp_model.specs.declared.plan.PlanParts.{PlanParts};
ghost use Rattle.rcp_model.specs.Ballot.{Ballot};
ghost use Rattle.rcp_model.specs.FrameLimits.{IsFrameOf};
ghost use Rattle.rcp_model.specs.FrameRows.{FrameRows};
ghost use Rattle.rcp_model.specs.Messages.{Letter, is_up, is_voted};
ghost use Rattle.rcp_model.specs.System.{end_of_frame, initial_state};
ghost use Rattle.vote_pattern.specs.Votes.{is_in};
ghost use Rattle.phase_machine.specs.Phase.{AllRest, AllShow, RestsPhase, ShowsSeat, last_stage, rested};
ghost use Rattle.phase_machine.specs.Seats.{Computed, Decided, Seat, Told, Waiting, begun_seat, got_seat, own_now, sent_seat, synced_seat, voted_seat};
ghost use Rattle.phase_machine.specs.declared.phase.Phase.TheVariants.{Moving};

use crate::phase::Phase;
use frame_table::Table;
use layer_stack::FrameIn;
use mailbox::Message;
use rcp_base::Memory;
use rcp_model::Plan;
use std::alloc::Global;
use std::mem;
use vote_pattern::Pattern;

/// All replicas of a plan before the first frame.
pub fn phases(alloc: Global, plan: &Plan) -> Result<Vec<Phase>, Memory>
    ensures rest { IfOk result (λ phases.
        AllRest plan.now phases.items (initial_state plan.now) (λ replica sender. None)) }
    ensures size { IfOk result (λ phases. length phases.items ≡ plan.now.replicas) }
{
    let mut phases = Vec::new(alloc);
    for replica in 0..plan.parts().replicas {
        phases.push(Phase::new(alloc, plan, replica)?)?;
    }
    Ok(phases)
}

/// A replica begins its frame. Takes no memory.
pub fn begin_at(phases: &mut Vec<Phase>, replica: u32, table: &mut Table, input: &FrameIn)
    requires replica { replica < length phases.old.items }
    requires show { (plan : PlanParts) × (seats : ℕ → Seat)
        × AllShow plan input.now phases.old.items seats }
    ensures show { (plan : PlanParts) (seats : ℕ → Seat)
        → AllShow plan input.now phases.old.items seats → (seats replica).stage ≡ Waiting
        → IsOf plan table.old
        → AllShow plan input.now phases.new.items
        (put seats replica (begun_seat plan input.now (seats replica))) }
    ensures table { table.new ≡ table.old }
    ensures size { length phases.new.items ≡ length phases.old.items }
{
    let phase = take_at(phases, replica);
    let phase = phase.begin(table, input);
    put_at(phases, replica, phase);
}

/// A replica sends its message. Takes no memory.
pub fn send_at(phases: &mut Vec<Phase>, replica: u32, pattern: &Pattern, out: &mut Message)
    requires replica { replica < length phases.old.items }
    requires show { (plan : PlanParts) × (rows : FrameRows) × (seats : ℕ → Seat)
        × AllShow plan rows phases.old.items seats
        × (length out.old.values ≡ length plan.cells) }
    ensures show { (plan : PlanParts) (rows : FrameRows) (seats : ℕ → Seat)
        → AllShow plan rows phases.old.items seats → (seats replica).stage ≡ Computed
        → is_in pattern.now ≡ is_voted plan
        → AllShow plan rows phases.new.items
        (put seats replica (sent_seat plan (seats replica))) }
    ensures out { (plan : PlanParts) (rows : FrameRows) (seats : ℕ → Seat)
        → AllShow plan rows phases.old.items seats → (seats replica).stage ≡ Computed
        → is_in pattern.now ≡ is_voted plan → out.new ≡ own_now plan (seats replica) }
    ensures size { length phases.new.items ≡ length phases.old.items }
{
    let phase = take_at(phases, replica);
    let phase = phase.send(pattern, out);
    put_at(phases, replica, phase);
}

/// A replica votes. Takes no memory.
pub fn vote_at(
    phases: &mut Vec<Phase>,
    replica: u32,
    pattern: &Pattern,
    table: &mut Table,
    input: &FrameIn,
)
    requires replica { replica < length phases.old.items }
    requires show { (plan : PlanParts) × (seats : ℕ → Seat)
        × AllShow plan input.now phases.old.items seats }
    ensures show { (plan : PlanParts) (seats : ℕ → Seat)
        → AllShow plan input.now phases.old.items seats → (seats replica).stage ≡ Told
        → IsOf plan table.old → is_in pattern.now ≡ is_voted plan
        → AllShow plan input.now phases.new.items
        (put seats replica (voted_seat plan replica (seats replica))) }
    ensures table { table.new ≡ table.old }
    ensures size { length phases.new.items ≡ length phases.old.items }
{
    let phase = take_at(phases, replica);
    let phase = phase.vote(pattern, table, input);
    put_at(phases, replica, phase);
}

/// A replica syncs, and ends its frame. Takes no memory.
pub fn sync_at(phases: &mut Vec<Phase>, replica: u32, input: &FrameIn)
    requires replica { replica < length phases.old.items }
    requires show { (plan : PlanParts) × (seats : ℕ → Seat)
        × AllShow plan input.now phases.old.items seats × IsFrameOf plan input.now }
    ensures show { (plan : PlanParts) (seats : ℕ → Seat)
        → AllShow plan input.now phases.old.items seats → (seats replica).stage ≡ Decided
        → AllShow plan input.now phases.new.items
        (put seats replica (synced_seat plan (seats replica))) }
    ensures size { length phases.new.items ≡ length phases.old.items }
{
    let phase = take_at(phases, replica);
    let phase = phase.sync(input);
    put_at(phases, replica, phase);
}

/// A message comes to a replica. Takes no memory.
pub fn deliver_at(phases: &mut Vec<Phase>, replica: u32, from: u32, message: &Message)
    requires replica { replica < length phases.old.items }
    requires show { (plan : PlanParts) × (rows : FrameRows) × (seats : ℕ → Seat)
        × AllShow plan rows phases.old.items seats × (from < plan.replicas)
        × (length message.now.values ≡ length plan.cells) }
    ensures show { (plan : PlanParts) (rows : FrameRows) (seats : ℕ → Seat) (letter : Letter)
        → AllShow plan rows phases.old.items seats → letter.message ≡ message.now
        → AllShow plan rows phases.new.items
        (put seats replica (got_seat from (Some letter) (seats replica))) }
    ensures size { length phases.new.items ≡ length phases.old.items }
{
    phases[replica as usize].deliver(from, message);
}

/// All replicas come to rest: those that are down skip their frame, and the others have ended it.
/// Takes no memory.
pub fn finish_all(phases: &mut Vec<Phase>, input: &FrameIn)
    requires size { length phases.old.items ≡ input.now.replicas }
    requires few { length phases.old.items ≤ 9 }
    requires show { (plan : PlanParts) × (seats : ℕ → Seat)
        × AllShow plan input.now phases.old.items seats × IsFrameOf plan input.now }
    ensures rest { (plan : PlanParts) (seats : ℕ → Seat) (done : ℕ)
        (letters : ℕ → ℕ → Option Letter) → AllShow plan input.now phases.old.items seats
        → IsFrameOf plan input.now
        → ((replica : ℕ) → (seats replica).stage ≡ last_stage (is_up plan input.now replica))
        → AllRest plan phases.new.items (end_of_frame plan done input.now
        (λ replica. (seats replica).held)
        (λ replica. if is_up plan input.now replica then (seats replica).ballot else None) letters)
        (λ replica. (seats replica).boxes) }
    ensures size { length phases.new.items ≡ length phases.old.items }
{
    for replica in 0..phases.len() {
        finish_at(phases, replica as u32, input);
    }
}

// A replica comes to rest.
fn finish_at(phases: &mut Vec<Phase>, replica: u32, input: &FrameIn)
    requires replica { replica < length phases.old.items }
    requires input { replica < input.now.replicas }
    requires shows { (plan : PlanParts) × (seat : Seat) × ShowsSeat plan input.now replica
        (slice_index_or phases.old.items replica Moving) seat × IsFrameOf plan input.now }
    ensures here { (plan : PlanParts) (seat : Seat) → ShowsSeat plan input.now replica
        (slice_index_or phases.old.items replica Moving) seat → IsFrameOf plan input.now
        → seat.stage ≡ last_stage (is_up plan input.now replica)
        → RestsPhase plan replica (slice_index_or phases.new.items replica Moving)
        (rested plan input.now replica seat
        (if is_up plan input.now replica then seat.ballot else None)) }
    ensures others { (other : ℕ) → other ≢ replica
        → slice_index_or phases.new.items other Moving
        ≡ slice_index_or phases.old.items other Moving }
    ensures size { length phases.new.items ≡ length phases.old.items }
{
    let phase = take_at(phases, replica);
    let phase = phase.finish(input, replica);
    put_at(phases, replica, phase);
}

// Takes the phase of a replica out.
#[inline(always)]
fn take_at(phases: &mut Vec<Phase>, replica: u32) -> Phase
    requires { replica < length phases.old.items }
    ensures phase { result ≡ slice_index_or phases.old.items replica Moving }
    ensures moving { phases.new.items ≡ set phases.old.items replica Moving }
{
    mem::replace(&mut phases[replica as usize], Phase::Moving)
}

// Gives a replica its phase.
#[inline(always)]
fn put_at(phases: &mut Vec<Phase>, replica: u32, phase: Phase)
    requires { replica < length phases.old.items }
    ensures { phases.new.items ≡ set phases.old.items replica phase }
{
    phases[replica as usize] = phase;
}
