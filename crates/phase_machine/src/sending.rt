//! A replica that has computed.
//! After NASA TM-104196.
ghost use Rattle.std.specs.Prelude.{◌≡◌, ◌<◌, ℕ, pos, Some, length, option_map, slice_index_or};
ghost use Rattle.std.specs.Option.{option_and_then};
ghost use Rattle.mailbox.specs.Mailboxes.{put};
ghost use Rattle.rcp_base.specs.Message.{value_in};
ghost use Rattle.rcp_model.specs.declared.plan.PlanParts.{PlanParts};
ghost use Rattle.replica_parts.specs.Rooms.{HasRoom};
ghost use Rattle.replica_parts.specs.Setting.{HasPlan};
ghost use Rattle.replica_parts.specs.States.{message_of};
ghost use Rattle.vote_pattern.specs.Votes.{is_in};
ghost use Rattle.phase_machine.specs.Body.{HasBodyRoom};
ghost use Rattle.phase_machine.specs.Phases.{HasComputed, IsSending, IsVoting, OwnsComputed, OwnsSent};

use crate::body::Body;
use crate::voting::Voting;
use mailbox::Message;
use replica_parts::write_own;
use vote_pattern::Pattern;

/// A replica that is to send its message. No call takes memory.
#[derive(Debug, Drop)]
pub struct Sending {
    pub(crate) body: Box<Body>,
}

impl Sending {
    /// Makes the replica's message: its slot, and the cells that are voted there,
    /// as it computed them.
    pub fn send(self, pattern: &Pattern, out: &mut Message) -> Voting
        requires of { HasPlan self.body.value.setting }
        requires out { HasRoom self.body.value.setting out.old }
        requires room { HasBodyRoom self.body.value }
        ensures sent { (plan : PlanParts) (replica : ℕ) (has : HasComputed)
            → IsSending plan replica self has
            → IsVoting plan replica result (record {
              computed = has.computed;
              own = message_of plan (is_in pattern.now) has.computed;
              boxes = has.boxes;
            }) }
        ensures out { (plan : PlanParts) (replica : ℕ) (has : HasComputed)
            → IsSending plan replica self has
            → out.new ≡ message_of plan (is_in pattern.now) has.computed }
    {
        let mut body = self.body;
        send_with(&mut body, pattern, out);
        Voting { body }
    }

    /// Puts a message into the mailbox of its sender.
    pub fn deliver(&mut self, from: u32, message: &Message)
        requires from { from < self.old.body.value.setting.replicas }
        requires cells { HasRoom self.old.body.value.setting message.now }
        requires room { HasBodyRoom self.old.body.value }
        ensures { (plan : PlanParts) (replica : ℕ) (has : HasComputed)
            → IsSending plan replica self.old has
            → IsSending plan replica self.new
            (record has { boxes = put has.boxes from (Some message.now) }) }
    {
        self.body.boxes.put(from, message);
    }

    /// The slot in what stands in the mailbox of a sender, if a message does.
    pub fn box_slot(&self, from: u32) -> Option<u32>
        requires from { from < self.now.body.value.setting.replicas }
        requires room { HasBodyRoom self.now.body.value }
        ensures { (plan : PlanParts) (replica : ℕ) (has : HasComputed)
            → IsSending plan replica self.now has
            → result ≡ option_map (λ message. message.slot) (has.boxes from) }
    {
        self.body.boxes.slot_of(from)
    }

    /// The value of a cell in it, if a message stands there and names one.
    pub fn box_value(&self, from: u32, cell: u32) -> Option<i64>
        requires from { from < self.now.body.value.setting.replicas }
        requires cell { cell < self.now.body.value.setting.cells }
        requires room { HasBodyRoom self.now.body.value }
        ensures { (plan : PlanParts) (replica : ℕ) (has : HasComputed)
            → IsSending plan replica self.now has
            → result ≡ option_and_then (λ message. value_in message cell) (has.boxes from) }
    {
        self.body.boxes.value_of(from, cell)
    }

    /// The slot of the replica.
    pub fn slot(&self) -> u32
        ensures { (plan : PlanParts) (replica : ℕ) (has : HasComputed)
            → IsSending plan replica self.now has → result ≡ has.computed.slot }
    {
        self.body.computed.slot()
    }

    /// A cell as the replica computed it.
    pub fn cell(&self, cell: u32) -> i64
        requires cell { cell < self.now.body.value.setting.cells }
        requires room { HasBodyRoom self.now.body.value }
        ensures { (plan : PlanParts) (replica : ℕ) (has : HasComputed)
            → IsSending plan replica self.now has
            → result ≡ slice_index_or has.computed.cells cell (pos 0) }
    {
        self.body.computed.cell(cell)
    }
}

// Makes the message of a body, and copies it out.
fn send_with(body: &mut Body, pattern: &Pattern, out: &mut Message)
    requires of { HasPlan body.old.setting }
    requires out { HasRoom body.old.setting out.old }
    requires room { HasBodyRoom body.old }
    ensures sent { (plan : PlanParts) (replica : ℕ) (has : HasComputed)
        → OwnsComputed plan replica body.old has
        → OwnsSent plan replica body.new (record {
          computed = has.computed;
          own = message_of plan (is_in pattern.now) has.computed;
          boxes = has.boxes;
        }) }
    ensures out { (plan : PlanParts) (replica : ℕ) (has : HasComputed)
        → OwnsComputed plan replica body.old has
        → out.new ≡ message_of plan (is_in pattern.now) has.computed }
{
    write_own(&body.setting, pattern, &body.computed, &mut body.own);
    out.copy_from(&body.own);
}
