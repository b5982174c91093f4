//! Letters that lie in a window, put into mailboxes.
//! After NASA TM-104196.
ghost use Rattle.std.specs.Prelude.{◌<◌, ◌≤◌, ℕ};
ghost use Rattle.mailbox.specs.Mailboxes.{put};
ghost use Rattle.rcp_base.specs.declared.TheConstants.{MAX_FRAMES};
ghost use Rattle.rcp_model.specs.declared.plan.PlanParts.{PlanParts};
ghost use Rattle.phase_machine.specs.Seats.{Seat};
ghost use Rattle.replica_parts.specs.Places.{letter_at, letter_in, post_at};
ghost use Rattle.replica_parts.specs.Rooms.{ArePostRows, ArePosts, IsPost};
ghost use Rattle.replica_parts.specs.Windows.{IsWindowOf};
ghost use Rattle.distributed_layer.specs.inner.Amid.{ShowSeats, filled_by};
ghost use Rattle.distributed_layer.specs.Together.{all_filled, filled_seat};

use layer_stack::FrameIn;
use phase_machine::{Phase, deliver_at};
use replica_parts::{Post, Setting, Window, comes};

// Puts a letter into the mailbox of its sender if it lies in the receiver's window.
fn deliver_one(
    setting: &Setting,
    window: &Window,
    input: &FrameIn,
    receiver: u32,
    sender: u32,
    place: &Post,
    phases: &mut Vec<Phase>,
)
    requires can { (plan : PlanParts) × (seats : ℕ → Seat)
        × ShowSeats plan setting.now input.now phases.old.items seats }
    requires receiver { receiver < setting.now.replicas }
    requires sender { sender < setting.now.replicas }
    requires place { IsPost setting.now place.now }
    ensures { (plan : PlanParts) (seats : ℕ → Seat) (frame : ℕ)
        → IsWindowOf plan frame input.now receiver window.now
        → ShowSeats plan setting.now input.now phases.old.items seats
        → ShowSeats plan setting.now input.now phases.new.items
        (put seats receiver (filled_by plan frame input.now receiver sender
        (letter_in place.now) (seats receiver))) }
{
    if comes(window, place) {
        deliver_at(phases, receiver, sender, &place.message);
    }
}

// Puts the letters to one receiver that lie in its window into its mailboxes.
fn deliver_row(
    setting: &Setting,
    frame: u32,
    input: &FrameIn,
    receiver: u32,
    letters: &[Post],
    phases: &mut Vec<Phase>,
)
    requires can { (plan : PlanParts) × (seats : ℕ → Seat)
        × ShowSeats plan setting.now input.now phases.old.items seats }
    requires frame { frame ≤ MAX_FRAMES }
    requires receiver { receiver < setting.now.replicas }
    requires letters { ArePosts setting.now letters.now }
    ensures { (plan : PlanParts) (seats : ℕ → Seat)
        → ShowSeats plan setting.now input.now phases.old.items seats
        → ShowSeats plan setting.now input.now phases.new.items
        (put seats receiver (filled_seat plan frame input.now receiver
        (letter_at letters.now) (seats receiver))) }
{
    let window = Window::new(setting, frame, input, receiver);
    for sender in 0..setting.replicas() {
        deliver_one(
            setting,
            &window,
            input,
            receiver,
            sender,
            &letters[sender as usize],
            phases,
        );
    }
}

/// Puts the letters that lie in their receivers' windows into mailboxes, also of receivers that are
/// down.
pub(crate) fn deliver_all(
    setting: &Setting,
    frame: u32,
    input: &FrameIn,
    letters: &[Vec<Post>],
    phases: &mut Vec<Phase>,
)
    requires can { (plan : PlanParts) × (seats : ℕ → Seat)
        × ShowSeats plan setting.now input.now phases.old.items seats }
    requires frame { frame ≤ MAX_FRAMES }
    requires letters { ArePostRows setting.now letters.now }
    ensures { (plan : PlanParts) (seats : ℕ → Seat)
        → ShowSeats plan setting.now input.now phases.old.items seats
        → ShowSeats plan setting.now input.now phases.new.items
        (all_filled plan frame input.now (post_at letters.now) seats) }
{
    for receiver in 0..setting.replicas() {
        deliver_row(
            setting,
            frame,
            input,
            receiver,
            letters[receiver as usize].as_slice(),
            phases,
        );
    }
}
