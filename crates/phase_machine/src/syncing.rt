//! A replica that has voted.
//! After NASA TM-104196.
ghost use Rattle.std.specs.Prelude.{◌≡◌, ◌<◌, ℕ, pos, Some, length, option_map, slice_index_or};
ghost use Rattle.std.specs.Option.{option_and_then};
ghost use Rattle.mailbox.specs.Mailboxes.{put};
ghost use Rattle.rcp_base.specs.Message.{value_in};
ghost use Rattle.rcp_model.specs.declared.plan.PlanParts.{PlanParts};
ghost use Rattle.rcp_model.specs.System.{state_after_rows, state_after_sync};
ghost use Rattle.replica_parts.specs.Rooms.{HasRoom};
ghost use Rattle.replica_parts.specs.Setting.{HasPlanWith};
ghost use Rattle.phase_machine.specs.Body.{HasBodyRoom, commands_after_rows};
ghost use Rattle.phase_machine.specs.Phases.{HasVoted, IsComputing, IsSyncing, OwnsBefore, OwnsVoted};

use crate::body::Body;
use crate::commanding::put_rows;
use crate::computing::Computing;
use layer_stack::FrameIn;
use mailbox::Message;
use replica_parts::hold_one;

/// A replica that is to end its frame. No call takes memory.
#[derive(Debug, Drop)]
pub struct Syncing {
    pub(crate) body: Box<Body>,
}

impl Syncing {
    /// Holds what was voted, in the slot that follows the one taken. Then rows overwrite that,
    /// and command.
    pub fn end(self, input: &FrameIn) -> Computing
        requires of { HasPlanWith self.body.value.setting input.now }
        requires room { HasBodyRoom self.body.value }
        ensures { (plan : PlanParts) (replica : ℕ) (has : HasVoted)
            → IsSyncing plan replica self has
            → IsComputing plan replica result (record {
              held = state_after_rows plan input.now replica (state_after_sync plan has.ballot);
              boxes = has.boxes;
              voted = Some has.ballot;
              commands = commands_after_rows input.now replica
                  (λ actuator. Some (has.commands actuator));
            }) }
    {
        let mut body = self.body;
        end_with(&mut body, input);
        Computing { body }
    }

    /// Puts a message into the mailbox of its sender.
    pub fn deliver(&mut self, from: u32, message: &Message)
        requires from { from < self.old.body.value.setting.replicas }
        requires cells { HasRoom self.old.body.value.setting message.now }
        requires room { HasBodyRoom self.old.body.value }
        ensures { (plan : PlanParts) (replica : ℕ) (has : HasVoted)
            → IsSyncing plan replica self.old has
            → IsSyncing plan replica self.new
            (record has { boxes = put has.boxes from (Some message.now) }) }
    {
        self.body.boxes.put(from, message);
    }

    /// The slot in what stands in the mailbox of a sender, if a message does.
    pub fn box_slot(&self, from: u32) -> Option<u32>
        requires from { from < self.now.body.value.setting.replicas }
        requires room { HasBodyRoom self.now.body.value }
        ensures { (plan : PlanParts) (replica : ℕ) (has : HasVoted)
            → IsSyncing plan replica self.now has
            → result ≡ option_map (λ message. message.slot) (has.boxes from) }
    {
        self.body.boxes.slot_of(from)
    }

    /// The value of a cell in it, if a message stands there and names one.
    pub fn box_value(&self, from: u32, cell: u32) -> Option<i64>
        requires from { from < self.now.body.value.setting.replicas }
        requires cell { cell < self.now.body.value.setting.cells }
        requires room { HasBodyRoom self.now.body.value }
        ensures { (plan : PlanParts) (replica : ℕ) (has : HasVoted)
            → IsSyncing plan replica self.now has
            → result ≡ option_and_then (λ message. value_in message cell) (has.boxes from) }
    {
        self.body.boxes.value_of(from, cell)
    }

    /// The slot that was taken.
    pub fn slot(&self) -> u32
        ensures { (plan : PlanParts) (replica : ℕ) (has : HasVoted)
            → IsSyncing plan replica self.now has → result ≡ has.ballot.taken }
    {
        self.body.ballot.taken
    }

    /// A cell after the vote.
    pub fn cell(&self, cell: u32) -> i64
        requires cell { cell < self.now.body.value.setting.cells }
        requires room { HasBodyRoom self.now.body.value }
        ensures { (plan : PlanParts) (replica : ℕ) (has : HasVoted)
            → IsSyncing plan replica self.now has
            → result ≡ slice_index_or has.ballot.cells cell (pos 0) }
    {
        self.body.ballot.cells[cell as usize]
    }

    /// The command that the replica evaluated for an actuator, whatever rows say.
    pub fn command(&self, actuator: u32) -> i64
        requires actuator { actuator < self.now.body.value.setting.actuators }
        requires room { HasBodyRoom self.now.body.value }
        ensures { (plan : PlanParts) (replica : ℕ) (has : HasVoted)
            → IsSyncing plan replica self.now has → result ≡ has.commands actuator }
    {
        self.body.commands[actuator as usize].unwrap_or(0)
    }

    /// The slot in what stood heard of a sender at the vote, its own message included,
    /// whatever was delivered since.
    pub fn heard_slot(&self, from: u32) -> Option<u32>
        requires from { from < self.now.body.value.setting.replicas }
        requires room { HasBodyRoom self.now.body.value }
        ensures { (plan : PlanParts) (replica : ℕ) (has : HasVoted)
            → IsSyncing plan replica self.now has
            → result ≡ option_map (λ message. message.slot) (has.ballot.heard from) }
    {
        self.body.ballot.heard_slot(from)
    }

    /// The value of a cell in it, if the message names one.
    pub fn heard_value(&self, from: u32, cell: u32) -> Option<i64>
        requires from { from < self.now.body.value.setting.replicas }
        requires cell { cell < self.now.body.value.setting.cells }
        requires room { HasBodyRoom self.now.body.value }
        ensures { (plan : PlanParts) (replica : ℕ) (has : HasVoted)
            → IsSyncing plan replica self.now has
            → result ≡ option_and_then (λ message. value_in message cell) (has.ballot.heard from) }
    {
        self.body.ballot.heard_value(from, cell)
    }
}

// Ends a frame with a body: it holds what was voted, and then what rows say.
fn end_with(body: &mut Body, input: &FrameIn)
    requires of { HasPlanWith body.old.setting input.now }
    requires room { HasBodyRoom body.old }
    ensures { (plan : PlanParts) (replica : ℕ) (has : HasVoted)
        → OwnsVoted plan replica body.old has
        → OwnsBefore plan replica body.new (record {
          held = state_after_rows plan input.now replica (state_after_sync plan has.ballot);
          boxes = has.boxes;
          voted = Some has.ballot;
          commands = commands_after_rows input.now replica
              (λ actuator. Some (has.commands actuator));
        }) }
{
    hold_one(
        &body.setting,
        input,
        body.replica,
        &body.ballot,
        &mut body.held,
    );
    put_rows(&body.setting, input, body.replica, &mut body.commands);
}
