//! The phases of a frame, each of which all replicas that are up go through before the next.
//! After NASA TM-102716.
ghost use Rattle.std.specs.Prelude.{◌≡◌, ℕ, true, slice_index_or};
ghost use Rattle.frame_table.specs.Plan.{IsOf};
ghost use Rattle.rcp_model.specs.declared.plan.PlanParts.{PlanParts};
ghost use Rattle.rcp_model.specs.Messages.{is_up, is_voted};
ghost use Rattle.vote_pattern.specs.Votes.{is_in};
ghost use Rattle.phase_machine.specs.Seats.{Computed, Decided, Seat, Told, Waiting, begun_seat, own_now, sent_seat, synced_seat, voted_seat};
ghost use Rattle.replica_parts.specs.Rooms.{AreMessages};
ghost use Rattle.replica_parts.specs.States.{no_content};
ghost use Rattle.distributed_layer.specs.inner.Amid.{AreUpAt, ShowSeats};
ghost use Rattle.distributed_layer.specs.Together.{all_up};

use crate::turns::{begin_up, send_up, sync_up, vote_up};
use frame_table::Table;
use layer_stack::FrameIn;
use mailbox::Message;
use phase_machine::Phase;
use replica_parts::Setting;
use vote_pattern::Pattern;

/// Each replica that is up begins the frame.
pub(crate) fn all_begin(
    setting: &Setting,
    table: &mut Table,
    input: &FrameIn,
    phases: &mut Vec<Phase>,
)
    requires can { (plan : PlanParts) × (seats : ℕ → Seat) × IsOf plan table.old
        × AreUpAt plan input.now Waiting seats
        × ShowSeats plan setting.now input.now phases.old.items seats }
    ensures seats { (plan : PlanParts) (seats : ℕ → Seat) → IsOf plan table.old
        → AreUpAt plan input.now Waiting seats
        → ShowSeats plan setting.now input.now phases.old.items seats
        → ShowSeats plan setting.now input.now phases.new.items
        (all_up plan input.now (λ replica. begun_seat plan input.now) seats) }
    ensures table { table.new ≡ table.old }
{
    for replica in 0..setting.replicas() {
        begin_up(setting, replica, table, input, phases);
    }
}

/// Each replica that is up sends its message.
pub(crate) fn all_send(
    setting: &Setting,
    votes: &Pattern,
    input: &FrameIn,
    phases: &mut Vec<Phase>,
    own: &mut Vec<Message>,
)
    requires can { (plan : PlanParts) × (seats : ℕ → Seat) × (is_in votes.now ≡ is_voted plan)
        × AreUpAt plan input.now Computed seats
        × ShowSeats plan setting.now input.now phases.old.items seats }
    requires room { AreMessages setting.now own.old.items }
    ensures seats { (plan : PlanParts) (seats : ℕ → Seat) → is_in votes.now ≡ is_voted plan
        → AreUpAt plan input.now Computed seats
        → ShowSeats plan setting.now input.now phases.old.items seats
        → ShowSeats plan setting.now input.now phases.new.items
        (all_up plan input.now (λ replica. sent_seat plan) seats) }
    ensures own { (plan : PlanParts) (seats : ℕ → Seat) → is_in votes.now ≡ is_voted plan
        → AreUpAt plan input.now Computed seats
        → ShowSeats plan setting.now input.now phases.old.items seats
        → (replica : ℕ) → is_up plan input.now replica ≡ true
        → slice_index_or own.new.items replica no_content ≡ own_now plan (seats replica) }
    ensures room { AreMessages setting.now own.new.items }
{
    for replica in 0..setting.replicas() {
        send_up(
            setting,
            replica,
            votes,
            input,
            phases,
            &mut own[replica as usize],
        );
    }
}

/// Each replica that is up votes.
pub(crate) fn all_vote(
    setting: &Setting,
    votes: &Pattern,
    table: &mut Table,
    input: &FrameIn,
    phases: &mut Vec<Phase>,
)
    requires can { (plan : PlanParts) × (seats : ℕ → Seat) × IsOf plan table.old
        × (is_in votes.now ≡ is_voted plan) × AreUpAt plan input.now Told seats
        × ShowSeats plan setting.now input.now phases.old.items seats }
    ensures seats { (plan : PlanParts) (seats : ℕ → Seat) → IsOf plan table.old
        → is_in votes.now ≡ is_voted plan → AreUpAt plan input.now Told seats
        → ShowSeats plan setting.now input.now phases.old.items seats
        → ShowSeats plan setting.now input.now phases.new.items
        (all_up plan input.now (voted_seat plan) seats) }
    ensures table { table.new ≡ table.old }
{
    for replica in 0..setting.replicas() {
        vote_up(setting, replica, votes, table, input, phases);
    }
}

/// Each replica that is up syncs.
pub(crate) fn all_sync(setting: &Setting, input: &FrameIn, phases: &mut Vec<Phase>)
    requires can { (plan : PlanParts) × (seats : ℕ → Seat)
        × AreUpAt plan input.now Decided seats
        × ShowSeats plan setting.now input.now phases.old.items seats }
    ensures { (plan : PlanParts) (seats : ℕ → Seat)
        → AreUpAt plan input.now Decided seats
        → ShowSeats plan setting.now input.now phases.old.items seats
        → ShowSeats plan setting.now input.now phases.new.items
        (all_up plan input.now (λ replica. synced_seat plan) seats) }
{
    for replica in 0..setting.replicas() {
        sync_up(setting, replica, input, phases);
    }
}
