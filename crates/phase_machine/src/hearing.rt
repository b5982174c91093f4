//! What a replica hears of its mailboxes.
//! After NASA TM-104196.
ghost use Rattle.std.specs.Prelude.{◌≡◌, IfSome, None, Some, length, option_map, if◌then◌else◌};
ghost use Rattle.mailbox.specs.Mailboxes.{AreAlike, AreSized, box_of};
ghost use Rattle.rcp_base.specs.Tables.{table};
ghost use Rattle.replica_parts.specs.Places.{message_in, messages_in};
ghost use Rattle.replica_parts.specs.Rooms.{AreHeard, HasRoom};
ghost use Rattle.phase_machine.specs.Body.{heard_with};

use mailbox::{Boxes, Message};
use replica_parts::{Heard, Setting, take_message};

/// Takes all messages out of mailboxes. Takes no memory.
pub(crate) fn empty(boxes: &mut Boxes)
    ensures none { box_of boxes.new ≡ (λ sender. None) }
    ensures sizes { AreAlike boxes.new boxes.old }
{
    boxes.clear();
}

/// Puts what a replica hears of each sender into its places. Takes no memory.
pub(crate) fn hear_boxes(
    setting: &Setting,
    replica: u32,
    own: &Message,
    boxes: &Boxes,
    places: &mut Vec<Heard>,
)
    requires own { HasRoom setting.now own.now }
    requires boxes { AreSized setting.now.replicas setting.now.cells boxes.now }
    requires room { AreHeard setting.now places.old.items }
    ensures heard { messages_in places.new.items
        ≡ table setting.now.replicas (heard_with replica own.now (box_of boxes.now)) }
    ensures room { AreHeard setting.now places.new.items }
{
    for sender in 0..setting.replicas() {
        hear_one(
            sender == replica,
            own,
            boxes.message(sender),
            &mut places[sender as usize],
        );
    }
}

// Puts one's own message into a place where one is the sender, else what stands in the mailbox.
fn hear_one(is_own: bool, own: &Message, mail: Option<&Message>, place: &mut Heard)
    requires own { length place.old.message.values ≡ length own.now.values }
    requires mail { IfSome mail (λ message.
        length place.old.message.values ≡ length message.now.values) }
    ensures heard { (if is_own then Some own.now
        else option_map (λ message. message.now) mail.entry) ≡ message_in place.new }
    ensures room { length place.new.message.values ≡ length place.old.message.values }
{
    if is_own {
        take_message(own, place);
    } else {
        take_mail(mail, place);
    }
}

// Puts what stands in a mailbox into a place.
fn take_mail(mail: Option<&Message>, place: &mut Heard)
    requires { IfSome mail (λ message.
        length place.old.message.values ≡ length message.now.values) }
    ensures heard { option_map (λ message. message.now) mail.entry ≡ message_in place.new }
    ensures room { length place.new.message.values ≡ length place.old.message.values }
{
    match mail {
        Some(message) => take_message(message, place),
        None => place.present = false,
    }
}
