//! What one replica does in each phase of a frame, if it is up.
//! After NASA TM-102716.
ghost use Rattle.std.specs.Prelude.{◌≡◌, ◌<◌, ℕ, true};
ghost use Rattle.frame_table.specs.Plan.{IsOf};
ghost use Rattle.mailbox.specs.Mailboxes.{put};
ghost use Rattle.rcp_model.specs.declared.plan.PlanParts.{PlanParts};
ghost use Rattle.rcp_model.specs.Messages.{is_up, is_voted};
ghost use Rattle.vote_pattern.specs.Votes.{is_in};
ghost use Rattle.phase_machine.specs.Seats.{Computed, Decided, Seat, Told, Waiting, begun_seat, own_now, sent_seat, synced_seat, voted_seat};
ghost use Rattle.replica_parts.specs.Rooms.{HasRoom};
ghost use Rattle.distributed_layer.specs.inner.Amid.{IsUpAt, ShowSeats};
ghost use Rattle.distributed_layer.specs.Together.{all_up};

use frame_table::Table;
use layer_stack::FrameIn;
use mailbox::Message;
use phase_machine::{Phase, begin_at, send_at, sync_at, vote_at};
use replica_parts::Setting;
use vote_pattern::Pattern;

/// It begins the frame.
pub(crate) fn begin_up(
    setting: &Setting,
    replica: u32,
    table: &mut Table,
    input: &FrameIn,
    phases: &mut Vec<Phase>,
)
    requires replica { replica < setting.now.replicas }
    requires can { (plan : PlanParts) × (seats : ℕ → Seat) × IsOf plan table.old
        × IsUpAt plan input.now Waiting seats replica
        × ShowSeats plan setting.now input.now phases.old.items seats }
    ensures seats { (plan : PlanParts) (seats : ℕ → Seat) → IsOf plan table.old
        → IsUpAt plan input.now Waiting seats replica
        → ShowSeats plan setting.now input.now phases.old.items seats
        → ShowSeats plan setting.now input.now phases.new.items (put seats replica
        (all_up plan input.now (λ replica. begun_seat plan input.now) seats replica)) }
    ensures table { table.new ≡ table.old }
{
    if !input.down(replica) {
        begin_at(phases, replica, table, input);
    }
}

/// It sends its message.
pub(crate) fn send_up(
    setting: &Setting,
    replica: u32,
    votes: &Pattern,
    input: &FrameIn,
    phases: &mut Vec<Phase>,
    own: &mut Message,
)
    requires replica { replica < setting.now.replicas }
    requires can { (plan : PlanParts) × (seats : ℕ → Seat)
        × (is_in votes.now ≡ is_voted plan)
        × IsUpAt plan input.now Computed seats replica
        × ShowSeats plan setting.now input.now phases.old.items seats }
    requires room { HasRoom setting.now own.old }
    ensures seats { (plan : PlanParts) (seats : ℕ → Seat)
        → is_in votes.now ≡ is_voted plan
        → IsUpAt plan input.now Computed seats replica
        → ShowSeats plan setting.now input.now phases.old.items seats
        → ShowSeats plan setting.now input.now phases.new.items (put seats replica
        (all_up plan input.now (λ replica. sent_seat plan) seats replica)) }
    ensures own { (plan : PlanParts) (seats : ℕ → Seat)
        → is_in votes.now ≡ is_voted plan
        → IsUpAt plan input.now Computed seats replica
        → ShowSeats plan setting.now input.now phases.old.items seats
        → is_up plan input.now replica ≡ true → own.new ≡ own_now plan (seats replica) }
    ensures room { HasRoom setting.now own.new }
{
    if !input.down(replica) {
        send_at(phases, replica, votes, own);
    }
}

/// It votes.
pub(crate) fn vote_up(
    setting: &Setting,
    replica: u32,
    votes: &Pattern,
    table: &mut Table,
    input: &FrameIn,
    phases: &mut Vec<Phase>,
)
    requires replica { replica < setting.now.replicas }
    requires can { (plan : PlanParts) × (seats : ℕ → Seat) × IsOf plan table.old
        × (is_in votes.now ≡ is_voted plan)
        × IsUpAt plan input.now Told seats replica
        × ShowSeats plan setting.now input.now phases.old.items seats }
    ensures seats { (plan : PlanParts) (seats : ℕ → Seat) → IsOf plan table.old
        → is_in votes.now ≡ is_voted plan
        → IsUpAt plan input.now Told seats replica
        → ShowSeats plan setting.now input.now phases.old.items seats
        → ShowSeats plan setting.now input.now phases.new.items (put seats replica
        (all_up plan input.now (voted_seat plan) seats replica)) }
    ensures table { table.new ≡ table.old }
{
    if !input.down(replica) {
        vote_at(phases, replica, votes, table, input);
    }
}

/// It syncs.
pub(crate) fn sync_up(setting: &Setting, replica: u32, input: &FrameIn, phases: &mut Vec<Phase>)
    requires replica { replica < setting.now.replicas }
    requires can { (plan : PlanParts) × (seats : ℕ → Seat)
        × IsUpAt plan input.now Decided seats replica
        × ShowSeats plan setting.now input.now phases.old.items seats }
    ensures { (plan : PlanParts) (seats : ℕ → Seat)
        → IsUpAt plan input.now Decided seats replica
        → ShowSeats plan setting.now input.now phases.old.items seats
        → ShowSeats plan setting.now input.now phases.new.items (put seats replica
        (all_up plan input.now (λ replica. synced_seat plan) seats replica)) }
{
    if !input.down(replica) {
        sync_at(phases, replica, input);
    }
}
