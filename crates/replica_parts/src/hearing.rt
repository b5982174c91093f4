//! When letters arrive, and what a replica hears.
//! After NASA TM-104196.
ghost use Rattle.std.specs.Prelude.{◌≡◌, ◌<◌, ◌≤◌, ◌==◌, ℕ, true, length, Some, None, if◌then◌else◌};
ghost use Rattle.rcp_base.specs.declared.TheConstants.{MAX_FRAMES};
ghost use Rattle.rcp_base.specs.Tables.{table};
ghost use Rattle.rcp_model.specs.declared.plan.PlanParts.{PlanParts};
ghost use Rattle.rcp_model.specs.FrameRows.{FrameRows};
ghost use Rattle.rcp_model.specs.Messages as messages;
ghost use Rattle.rcp_model.specs.Messages.{heard_message, in_time};
ghost use Rattle.replica_parts.specs.Ballots.{heard_by};
ghost use Rattle.replica_parts.specs.Windows.{IsWindowOf};
ghost use Rattle.replica_parts.specs.Places.{letter_at, letter_in, message_in, messages_in};
ghost use Rattle.replica_parts.specs.Rooms.{AreHeard, ArePosts, HasRoom, IsHeard, IsPost};
ghost use Rattle.replica_parts.specs.Setting.{IsSettingOf, HasPlanWith};

use crate::ballot::Heard;
use crate::post::Post;
use crate::setting::Setting;
use crate::window::Window;
use clock_model::{arrival, send};
use layer_stack::FrameIn;
use mailbox::Message;

/// The tick at which the sender's message of a frame arrives.
#[tactic(auto, using(crate::proofs::SettingLemmas::rules_of, crate::proofs::SettingLemmas::clock_of, crate::proofs::SettingLemmas::delay_is), unfolding(rcp_model::specs::Messages::arrival_of))]
pub fn arrival_of(setting: &Setting, frame: u32, input: &FrameIn, sender: u32, receiver: u32) -> i64
    requires of { HasPlanWith setting.now input.now }
    requires frame { frame ≤ MAX_FRAMES }
    requires sender { sender < setting.now.replicas }
    requires receiver { receiver < setting.now.replicas }
    ensures { (plan : PlanParts) → IsSettingOf plan setting.now
        → result ≡ messages.arrival_of plan frame input.now sender receiver }
{
    let sent = send(
        &setting.timing,
        frame,
        input.skew(sender),
        input.rate(sender),
    );
    arrival(sent, input.delay(sender, receiver))
}

/// Puts what a receiver hears of a sender into a place: its own message, or the letter of this frame,
/// or the one of the frame before. Takes no memory.
#[tactic(auto, unfolding(rcp_model::specs::Messages::heard_message))]
pub fn hear(
    setting: &Setting,
    frame: u32,
    input: &FrameIn,
    receiver: u32,
    sender: u32,
    own: &Message,
    fresh: &Post,
    late: &Post,
    place: &mut Heard,
)
    requires of { HasPlanWith setting.now input.now }
    requires frame { frame ≤ MAX_FRAMES }
    requires receiver { receiver < setting.now.replicas }
    requires own { HasRoom setting.now own.now }
    requires fresh { IsPost setting.now fresh.now }
    requires late { IsPost setting.now late.now }
    requires room { IsHeard setting.now place.old }
    ensures heard { (plan : PlanParts) → IsSettingOf plan setting.now
        → message_in place.new ≡ heard_message plan frame input.now receiver sender
        own.now (letter_in fresh.now) (letter_in late.now) }
    ensures room { IsHeard setting.now place.new }
{
    let window = Window::new(setting, frame, input, receiver);
    hear_in(&window, sender == receiver, own, fresh, late, place);
}

// Puts what is heard in a window into a place: one's own message where one is the sender, or the letter of this frame,
// or the one of the frame before.
#[tactic(auto, unfolding(rcp_model::specs::Messages::heard_message))]
fn hear_in(
    window: &Window,
    is_own: bool,
    own: &Message,
    fresh: &Post,
    late: &Post,
    place: &mut Heard,
)
    requires own { length place.old.message.values ≡ length own.now.values }
    requires fresh { length place.old.message.values ≡ length fresh.now.message.values }
    requires late { length place.old.message.values ≡ length late.now.message.values }
    ensures heard { (plan : PlanParts) (frame : ℕ) (rows : FrameRows) (receiver sender : ℕ)
        → IsWindowOf plan frame rows receiver window.now → is_own ≡ (sender == receiver)
        → message_in place.new ≡ heard_message plan frame rows receiver sender
        own.now (letter_in fresh.now) (letter_in late.now) }
    ensures room { length place.new.message.values ≡ length place.old.message.values }
{
    if is_own {
        take_message(own, place);
    } else if comes(window, fresh) {
        take_message(&fresh.message, place);
    } else if comes(window, late) {
        take_message(&late.message, place);
    } else {
        place.present = false;
    }
}

/// Puts a message into a place. Takes no memory.
pub fn take_message(message: &Message, place: &mut Heard)
    requires room { length place.old.message.values ≡ length message.now.values }
    ensures message { place.new.message ≡ message.now }
    ensures present { place.new.present ≡ true }
{
    place.message.copy_from(message);
    place.present = true;
}

/// Whether a letter stands in a place and arrives in a window.
pub fn comes(window: &Window, place: &Post) -> bool
    ensures { (plan : PlanParts) (frame : ℕ) (rows : FrameRows) (receiver : ℕ)
        → IsWindowOf plan frame rows receiver window.now
        → in_time plan frame rows receiver (letter_in place.now)
        ≡ (if result then Some place.now.message else None) }
{
    place.present && window.has(place.arrival)
}

/// Puts what a receiver hears of each sender into its places. Takes no memory.
pub fn hear_all(
    setting: &Setting,
    frame: u32,
    input: &FrameIn,
    receiver: u32,
    own: &Message,
    fresh: &[Post],
    late: &[Post],
    places: &mut Vec<Heard>,
)
    requires of { HasPlanWith setting.now input.now }
    requires frame { frame ≤ MAX_FRAMES }
    requires receiver { receiver < setting.now.replicas }
    requires own { HasRoom setting.now own.now }
    requires fresh { ArePosts setting.now fresh.now }
    requires late { ArePosts setting.now late.now }
    requires room { AreHeard setting.now places.old.items }
    ensures heard { (plan : PlanParts) → IsSettingOf plan setting.now
        → messages_in places.new.items ≡ table plan.replicas
        (heard_by plan frame input.now receiver own.now
        (letter_at fresh.now) (letter_at late.now)) }
    ensures room { AreHeard setting.now places.new.items }
{
    let window = Window::new(setting, frame, input, receiver);
    for sender in 0..setting.replicas {
        let number = sender as usize;
        hear_in(
            &window,
            sender == receiver,
            own,
            &fresh[number],
            &late[number],
            &mut places[number],
        );
    }
}
