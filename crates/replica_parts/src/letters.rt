//! What goes out in a frame.
//! After NASA TM-104196.
ghost use Rattle.std.specs.Prelude.{◌≡◌, ◌<◌, ◌≤◌, IfSome, None, Some, length, set, slice_index_or, unwrap_or, if◌then◌else◌};
ghost use Rattle.std.specs.Option.{option_or};
ghost use Rattle.rcp_base.specs.declared.TheConstants.{MAX_FRAMES};
ghost use Rattle.rcp_base.specs.Message.{value_in};
ghost use Rattle.rcp_base.specs.Tables.{table};
ghost use Rattle.rcp_model.specs.declared.plan.PlanParts.{PlanParts};
ghost use Rattle.rcp_model.specs.Messages.{letter_to, message_to};
ghost use Rattle.rcp_model.specs.Messages as messages;
ghost use Rattle.replica_parts.specs.Quiet.{IsQuietArrival};
ghost use Rattle.replica_parts.specs.Places.{letter_in, letters_in, letter_rows};
ghost use Rattle.replica_parts.specs.Rooms.{AreMessages, ArePostRows, ArePosts, HasRoom, IsPost};
ghost use Rattle.replica_parts.specs.Setting.{HasPlanWith, IsSettingOf};
ghost use Rattle.replica_parts.specs.States.{no_content};

use crate::hearing::arrival_of;
use crate::post::Post;
use crate::setting::Setting;
use layer_stack::FrameIn;
use mailbox::Message;

// Puts what goes out as the rows have it, whichever were written.
fn write_by_rows(
    setting: &Setting,
    frame: u32,
    input: &FrameIn,
    own: &Message,
    sender: u32,
    receiver: u32,
    place: &mut Post,
)
    requires of { HasPlanWith setting.now input.now }
    requires frame { frame ≤ MAX_FRAMES }
    requires sender { sender < setting.now.replicas }
    requires receiver { receiver < setting.now.replicas }
    requires own { HasRoom setting.now own.now }
    requires room { IsPost setting.now place.old }
    ensures letter { (plan : PlanParts) → IsSettingOf plan setting.now
        → letter_in place.new ≡ letter_to plan frame input.now own.now sender receiver }
    ensures room { IsPost setting.now place.new }
{
    if goes_out(input, sender, receiver) {
        place.arrival = arrival_of(setting, frame, input, sender, receiver);
        write_message(input, own, sender, receiver, &mut place.message);
        place.present = true;
    } else {
        place.present = false;
    }
}

/// The tick at which all letters of a frame arrive, if only sensors were written.
pub fn quiet_arrival(setting: &Setting, frame: u32, input: &FrameIn) -> Option<i64>
    requires of { HasPlanWith setting.now input.now }
    requires frame { frame ≤ MAX_FRAMES }
    ensures { IfSome result (IsQuietArrival setting.now frame input.now) }
{
    if input.is_quiet() {
        Some(arrival_of(setting, frame, input, 0, 0))
    } else {
        None
    }
}

/// Puts what goes out from a sender of this message to a receiver into a place, with the tick at which all
/// arrive where there is one. Takes no memory.
pub fn put_letter(
    setting: &Setting,
    frame: u32,
    input: &FrameIn,
    arrival: Option<i64>,
    own: &Message,
    sender: u32,
    receiver: u32,
    place: &mut Post,
)
    requires of { HasPlanWith setting.now input.now }
    requires frame { frame ≤ MAX_FRAMES }
    requires arrival { IfSome arrival (IsQuietArrival setting.now frame input.now) }
    requires sender { sender < setting.now.replicas }
    requires receiver { receiver < setting.now.replicas }
    requires own { HasRoom setting.now own.now }
    requires room { IsPost setting.now place.old }
    ensures letter { (plan : PlanParts) → IsSettingOf plan setting.now
        → letter_in place.new ≡ letter_to plan frame input.now own.now sender receiver }
    ensures room { IsPost setting.now place.new }
{
    match arrival {
        Some(tick) => put_message(tick, own, sender != receiver, place),
        None => write_by_rows(setting, frame, input, own, sender, receiver, place),
    }
}

// Puts a message that goes to another into a place, and none where it goes to oneself.
fn put_message(arrival: i64, own: &Message, to_another: bool, place: &mut Post)
    requires { length place.old.message.values ≡ length own.now.values }
    ensures letter { letter_in place.new
        ≡ (if to_another then Some (record { arrival = arrival; message = own.now }) else None) }
    ensures room { length place.new.message.values ≡ length place.old.message.values }
{
    place.present = to_another;
    if to_another {
        place.arrival = arrival;
        place.message.copy_from(own);
    }
}

/// Whether the sender's message to a receiver goes out.
#[tactic(auto, unfolding(rcp_model::specs::Messages::goes_out))]
pub fn goes_out(input: &FrameIn, sender: u32, receiver: u32) -> bool
    requires sender { sender < input.now.replicas }
    requires receiver { receiver < input.now.replicas }
    ensures { (plan : PlanParts) → plan.replicas ≡ input.now.replicas
        → result ≡ messages.goes_out plan input.now sender receiver }
{
    !input.down(sender) && sender != receiver && !input.dropped(sender, receiver)
}

// Writes the message as the rows have it for one receiver.
fn write_message(input: &FrameIn, own: &Message, sender: u32, receiver: u32, message: &mut Message)
    requires sender { sender < input.now.replicas }
    requires receiver { receiver < input.now.replicas }
    requires own { length own.now.values ≡ input.now.cells }
    requires room { length message.old.values ≡ input.now.cells }
    ensures message { message.new ≡ message_to input.now own.now sender receiver }
    ensures room { length message.new.values ≡ input.now.cells }
{
    message.copy_from(own);
    shade(message, input, sender, receiver);
}

/// Changes a message as the rows have it for one receiver. Takes no memory.
#[tactic(auto, unfolding(rcp_model::specs::Messages::message_to))]
pub fn shade(message: &mut Message, input: &FrameIn, from: u32, to: u32)
    requires from { from < input.now.replicas }
    requires to { to < input.now.replicas }
    requires room { length message.old.values ≡ input.now.cells }
    ensures message { message.new ≡ message_to input.now message.old from to }
    ensures room { length message.new.values ≡ input.now.cells }
{
    name_slot(message, input.lieslot(from, to));
    for cell in 0..message.cells() {
        name_value(message, cell, input.lie(from, to, cell));
    }
}

// Names a slot, if there is one.
fn name_slot(message: &mut Message, slot: Option<u32>)
    ensures { message.new ≡ record message.old { slot = unwrap_or slot message.old.slot } }
{
    if let Some(slot) = slot {
        message.set_slot(slot);
    }
}

// Names a value, if there is one.
fn name_value(message: &mut Message, cell: u32, value: Option<i64>)
    requires { cell < length message.old.values }
    ensures { message.new ≡ record message.old {
      values = set message.old.values cell (option_or value (value_in message.old cell));
    } }
{
    if let Some(value) = value {
        message.put(cell, value);
    }
}

/// The letters of a frame to one receiver, by sender. Takes no memory.
pub fn write_row(
    setting: &Setting,
    frame: u32,
    input: &FrameIn,
    own: &[Message],
    receiver: u32,
    row: &mut Vec<Post>,
)
    requires of { HasPlanWith setting.now input.now }
    requires frame { frame ≤ MAX_FRAMES }
    requires receiver { receiver < setting.now.replicas }
    requires own { AreMessages setting.now own.now }
    requires room { ArePosts setting.now row.old.items }
    ensures letters { (plan : PlanParts) → IsSettingOf plan setting.now
        → letters_in row.new.items ≡ table plan.replicas (λ sender. letter_to plan frame input.now
        (slice_index_or own.now sender no_content) sender receiver) }
    ensures room { ArePosts setting.now row.new.items }
{
    let arrival = quiet_arrival(setting, frame, input);
    put_row(setting, frame, input, arrival, own, receiver, row);
}

// The same, with the tick at which all arrive where there is one.
fn put_row(
    setting: &Setting,
    frame: u32,
    input: &FrameIn,
    arrival: Option<i64>,
    own: &[Message],
    receiver: u32,
    row: &mut Vec<Post>,
)
    requires of { HasPlanWith setting.now input.now }
    requires frame { frame ≤ MAX_FRAMES }
    requires arrival { IfSome arrival (IsQuietArrival setting.now frame input.now) }
    requires receiver { receiver < setting.now.replicas }
    requires own { AreMessages setting.now own.now }
    requires room { ArePosts setting.now row.old.items }
    ensures letters { (plan : PlanParts) → IsSettingOf plan setting.now
        → letters_in row.new.items ≡ table plan.replicas (λ sender. letter_to plan frame input.now
        (slice_index_or own.now sender no_content) sender receiver) }
    ensures room { ArePosts setting.now row.new.items }
{
    for sender in 0..setting.replicas {
        let number = sender as usize;
        put_letter(
            setting,
            frame,
            input,
            arrival,
            &own[number],
            sender,
            receiver,
            &mut row[number],
        );
    }
}

/// The letters of a frame, by receiver and sender. Takes no memory.
pub fn write_rows(
    setting: &Setting,
    frame: u32,
    input: &FrameIn,
    own: &[Message],
    rows: &mut Vec<Vec<Post>>,
)
    requires of { HasPlanWith setting.now input.now }
    requires frame { frame ≤ MAX_FRAMES }
    requires own { AreMessages setting.now own.now }
    requires room { ArePostRows setting.now rows.old.items }
    ensures letters { (plan : PlanParts) → IsSettingOf plan setting.now
        → letter_rows rows.new.items ≡ table plan.replicas (λ receiver. table plan.replicas
        (λ sender. letter_to plan frame input.now
        (slice_index_or own.now sender no_content) sender receiver)) }
    ensures room { ArePostRows setting.now rows.new.items }
{
    let arrival = quiet_arrival(setting, frame, input);
    for receiver in 0..setting.replicas {
        put_row(
            setting,
            frame,
            input,
            arrival,
            own,
            receiver,
            &mut rows[receiver as usize],
        );
    }
}
