//! A replica that has sent.
//! After NASA TM-104196.
ghost use Rattle.std.specs.Prelude.{◌≡◌, ◌<◌, ℕ, pos, Some, length, option_map, slice_index_or};
ghost use Rattle.std.specs.Option.{option_and_then};
ghost use Rattle.frame_table.specs.Plan.{IsOf};
ghost use Rattle.mailbox.specs.Mailboxes.{put};
ghost use Rattle.rcp_base.specs.Message.{value_in};
ghost use Rattle.rcp_model.specs.declared.plan.PlanParts.{PlanParts};
ghost use Rattle.rcp_model.specs.Ballot.{ballot_of};
ghost use Rattle.replica_parts.specs.Ballots.{IsBallotOrNone};
ghost use Rattle.replica_parts.specs.Places.{message_at};
ghost use Rattle.replica_parts.specs.Rooms.{AreVotePlaces, HasBallotRoom, HasCells, HasRoom};
ghost use Rattle.replica_parts.specs.Setting.{HasPlan, IsSettingOf};
ghost use Rattle.vote_pattern.specs.Votes.{is_in};
ghost use Rattle.phase_machine.specs.Body.{HasBodyRoom};
ghost use Rattle.phase_machine.specs.Phases.{HasSent, IsSyncing, IsVoting, OwnsSent, OwnsVoted, evaluated_over, vote_after};

use crate::body::Body;
use crate::commanding::evaluate_all;
use crate::hearing::hear_boxes;
use crate::syncing::Syncing;
use frame_table::Table;
use layer_stack::FrameIn;
use mailbox::Message;
use replica_parts::{Ballot, Held, Setting, vote_heard};
use vote_pattern::Pattern;

/// A replica that is to vote. No call takes memory.
#[derive(Debug, Drop)]
pub struct Voting {
    pub(crate) body: Box<Body>,
}

impl Voting {
    /// Hears what stands in the mailboxes and its own message, takes a slot, votes the cells
    /// and evaluates the commands.
    pub fn vote(self, pattern: &Pattern, table: &mut Table, input: &FrameIn) -> Syncing
        requires of { HasPlan self.body.value.setting }
        requires room { HasBodyRoom self.body.value }
        ensures voted { (plan : PlanParts) (replica : ℕ) (has : HasSent)
            → IsVoting plan replica self has → IsOf plan table.old
            → let ballot = vote_after plan (is_in pattern.now) replica has in
            IsSyncing plan replica result (record {
              ballot = ballot;
              commands = evaluated_over plan input.now.sensors ballot;
              boxes = has.boxes;
            }) }
        ensures table { table.new ≡ table.old }
    {
        let mut body = self.body;
        vote_with(&mut body, pattern, table, input);
        Syncing { body }
    }

    /// Puts a message into the mailbox of its sender.
    pub fn deliver(&mut self, from: u32, message: &Message)
        requires from { from < self.old.body.value.setting.replicas }
        requires cells { HasRoom self.old.body.value.setting message.now }
        requires room { HasBodyRoom self.old.body.value }
        ensures { (plan : PlanParts) (replica : ℕ) (has : HasSent)
            → IsVoting plan replica self.old has
            → IsVoting plan replica self.new
            (record has { boxes = put has.boxes from (Some message.now) }) }
    {
        self.body.boxes.put(from, message);
    }

    /// The slot in what stands in the mailbox of a sender, if a message does.
    pub fn box_slot(&self, from: u32) -> Option<u32>
        requires from { from < self.now.body.value.setting.replicas }
        requires room { HasBodyRoom self.now.body.value }
        ensures { (plan : PlanParts) (replica : ℕ) (has : HasSent)
            → IsVoting plan replica self.now has
            → result ≡ option_map (λ message. message.slot) (has.boxes from) }
    {
        self.body.boxes.slot_of(from)
    }

    /// The value of a cell in it, if a message stands there and names one.
    pub fn box_value(&self, from: u32, cell: u32) -> Option<i64>
        requires from { from < self.now.body.value.setting.replicas }
        requires cell { cell < self.now.body.value.setting.cells }
        requires room { HasBodyRoom self.now.body.value }
        ensures { (plan : PlanParts) (replica : ℕ) (has : HasSent)
            → IsVoting plan replica self.now has
            → result ≡ option_and_then (λ message. value_in message cell) (has.boxes from) }
    {
        self.body.boxes.value_of(from, cell)
    }

    /// The slot of the replica.
    pub fn slot(&self) -> u32
        ensures { (plan : PlanParts) (replica : ℕ) (has : HasSent)
            → IsVoting plan replica self.now has → result ≡ has.computed.slot }
    {
        self.body.computed.slot()
    }

    /// A cell as the replica computed it.
    pub fn cell(&self, cell: u32) -> i64
        requires cell { cell < self.now.body.value.setting.cells }
        requires room { HasBodyRoom self.now.body.value }
        ensures { (plan : PlanParts) (replica : ℕ) (has : HasSent)
            → IsVoting plan replica self.now has
            → result ≡ slice_index_or has.computed.cells cell (pos 0) }
    {
        self.body.computed.cell(cell)
    }
}

// Hears, votes and evaluates with a body.
fn vote_with(body: &mut Body, pattern: &Pattern, table: &mut Table, input: &FrameIn)
    requires of { HasPlan body.old.setting }
    requires room { HasBodyRoom body.old }
    ensures voted { (plan : PlanParts) (replica : ℕ) (has : HasSent)
        → OwnsSent plan replica body.old has → IsOf plan table.old
        → let ballot = vote_after plan (is_in pattern.now) replica has in
        OwnsVoted plan replica body.new (record {
          ballot = ballot;
          commands = evaluated_over plan input.now.sensors ballot;
          boxes = has.boxes;
        }) }
    ensures table { table.new ≡ table.old }
{
    hear_boxes(
        &body.setting,
        body.replica,
        &body.own,
        &body.boxes,
        &mut body.ballot.heard,
    );
    vote_over(
        &body.setting,
        pattern,
        &body.computed,
        &mut body.places,
        &mut body.ballot,
    );
    evaluate_all(
        &body.setting,
        table,
        input.sensors(),
        &body.ballot,
        &mut body.commands,
    );
}

// Votes over what stands heard, with the slot and the cells that were computed.
fn vote_over(
    setting: &Setting,
    pattern: &Pattern,
    computed: &Held,
    places: &mut Vec<Option<i64>>,
    ballot: &mut Ballot,
)
    requires of { HasPlan setting.now }
    requires computed { HasCells setting.now computed.now }
    requires places { AreVotePlaces setting.now places.old.items }
    requires room { HasBallotRoom setting.now ballot.old }
    ensures ballot { (plan : PlanParts) → IsSettingOf plan setting.now
        → IsBallotOrNone plan.replicas ballot.new (Some (ballot_of plan (is_in pattern.now)
        computed.now.slot computed.now.cells (message_at ballot.old.heard.items))) }
    ensures places { AreVotePlaces setting.now places.new.items }
    ensures room { HasBallotRoom setting.now ballot.new }
{
    vote_heard(
        setting,
        pattern,
        computed.slot(),
        computed.cells(),
        places,
        ballot,
    );
}
