//! A replica before a frame.
//! After NASA TM-104196.
ghost use Rattle.std.specs.Prelude.{◌≡◌, ◌<◌, ℕ, pos, IfOk, None, Some, length, option_map, slice_index_or};
ghost use Rattle.std.specs.Option.{option_and_then};
ghost use Rattle.frame_table.specs.Plan.{IsOf};
ghost use Rattle.mailbox.specs.Mailboxes.{put};
ghost use Rattle.rcp_base.specs.Message.{value_in};
ghost use Rattle.rcp_model.specs.declared.plan.PlanParts.{PlanParts};
ghost use Rattle.rcp_model.specs.System.{initial_state, state_after_rows};
ghost use Rattle.replica_parts.specs.Rooms.{HasRoom};
ghost use Rattle.replica_parts.specs.Setting.{HasPlanWith};
ghost use Rattle.replica_parts.specs.States.{state_after_compute};
ghost use Rattle.phase_machine.specs.Body.{HasBodyRoom, commands_after_rows};
ghost use Rattle.phase_machine.specs.Phases.{BeforeFrame, IsComputing, IsSending, OwnsBefore, OwnsComputed, part_of};

use crate::body::Body;
use crate::commanding::take_rows;
use crate::hearing::empty;
use crate::sending::Sending;
use frame_table::Table;
use layer_stack::FrameIn;
use mailbox::Message;
use rcp_base::Memory;
use rcp_model::Plan;
use replica_parts::{compute, hold_one};
use std::alloc::Global;

/// A replica that waits for its frame. No call but `new` takes memory.
#[derive(Debug, Drop)]
pub struct Computing {
    pub(crate) body: Box<Body>,
}

impl Computing {
    /// A replica of a plan before the first frame.
    pub fn new(alloc: Global, plan: &Plan, replica: u32) -> Result<Computing, Memory>
        requires { replica < plan.now.replicas }
        ensures { IfOk result (λ phase. IsComputing plan.now replica phase
            (part_of (initial_state plan.now) replica (λ sender. None))) }
    {
        Ok(Computing {
            body: Box::new(alloc, Body::new(alloc, plan, replica)?)?,
        })
    }

    /// Empties the mailboxes, and computes. The vote and the commands of the last frame are gone.
    pub fn begin(self, table: &mut Table, input: &FrameIn) -> Sending
        requires room { HasBodyRoom self.body.value }
        ensures computed { (plan : PlanParts) (replica : ℕ) (before : BeforeFrame)
            → IsComputing plan replica self before → IsOf plan table.old
            → IsSending plan replica result (record {
              computed = state_after_compute plan input.now.sensors before.held;
              boxes = λ sender. None;
            }) }
        ensures table { table.new ≡ table.old }
    {
        let mut body = self.body;
        begin_with(&mut body, table, input);
        Sending { body }
    }

    /// A frame of a replica that is down: it hears and votes nothing, and rows overwrite
    /// what it holds, and command.
    pub fn skip(self, input: &FrameIn) -> Computing
        requires of { HasPlanWith self.body.value.setting input.now }
        requires room { HasBodyRoom self.body.value }
        ensures { (plan : PlanParts) (replica : ℕ) (before : BeforeFrame)
            → IsComputing plan replica self before
            → IsComputing plan replica result (record {
              held = state_after_rows plan input.now replica before.held;
              boxes = before.boxes;
              voted = None;
              commands = commands_after_rows input.now replica (λ actuator. None);
            }) }
    {
        let mut body = self.body;
        skip_with(&mut body, input);
        Computing { body }
    }

    /// Puts a message into the mailbox of its sender.
    pub fn deliver(&mut self, from: u32, message: &Message)
        requires from { from < self.old.body.value.setting.replicas }
        requires cells { HasRoom self.old.body.value.setting message.now }
        requires room { HasBodyRoom self.old.body.value }
        ensures { (plan : PlanParts) (replica : ℕ) (before : BeforeFrame)
            → IsComputing plan replica self.old before
            → IsComputing plan replica self.new
            (record before { boxes = put before.boxes from (Some message.now) }) }
    {
        self.body.boxes.put(from, message);
    }

    /// The slot in what stands in the mailbox of a sender, if a message does.
    pub fn box_slot(&self, from: u32) -> Option<u32>
        requires from { from < self.now.body.value.setting.replicas }
        requires room { HasBodyRoom self.now.body.value }
        ensures { (plan : PlanParts) (replica : ℕ) (before : BeforeFrame)
            → IsComputing plan replica self.now before
            → result ≡ option_map (λ message. message.slot) (before.boxes from) }
    {
        self.body.boxes.slot_of(from)
    }

    /// The value of a cell in it, if a message stands there and names one.
    pub fn box_value(&self, from: u32, cell: u32) -> Option<i64>
        requires from { from < self.now.body.value.setting.replicas }
        requires cell { cell < self.now.body.value.setting.cells }
        requires room { HasBodyRoom self.now.body.value }
        ensures { (plan : PlanParts) (replica : ℕ) (before : BeforeFrame)
            → IsComputing plan replica self.now before
            → result ≡ option_and_then (λ message. value_in message cell) (before.boxes from) }
    {
        self.body.boxes.value_of(from, cell)
    }

    /// The slot of the replica.
    pub fn slot(&self) -> u32
        ensures { (plan : PlanParts) (replica : ℕ) (before : BeforeFrame)
            → IsComputing plan replica self.now before → result ≡ before.held.slot }
    {
        self.body.held.slot()
    }

    /// A cell of the replica.
    pub fn cell(&self, cell: u32) -> i64
        requires cell { cell < self.now.body.value.setting.cells }
        requires room { HasBodyRoom self.now.body.value }
        ensures { (plan : PlanParts) (replica : ℕ) (before : BeforeFrame)
            → IsComputing plan replica self.now before
            → result ≡ slice_index_or before.held.cells cell (pos 0) }
    {
        self.body.held.cell(cell)
    }

    /// The command that the replica gave to an actuator in the last frame.
    /// `None` before the first frame, and where the replica was down and no row gave it one.
    pub fn command(&self, actuator: u32) -> Option<i64>
        requires actuator { actuator < self.now.body.value.setting.actuators }
        requires room { HasBodyRoom self.now.body.value }
        ensures { (plan : PlanParts) (replica : ℕ) (before : BeforeFrame)
            → IsComputing plan replica self.now before
            → result ≡ before.commands actuator }
    {
        self.body.commands[actuator as usize]
    }

    /// The slot in what stood heard of a sender at the last vote of the replica.
    /// `None` before the first frame, where the replica was down, and where nothing of that sender
    /// stood heard.
    pub fn heard_slot(&self, from: u32) -> Option<u32>
        requires from { from < self.now.body.value.setting.replicas }
        requires room { HasBodyRoom self.now.body.value }
        ensures { (plan : PlanParts) (replica : ℕ) (before : BeforeFrame)
            → IsComputing plan replica self.now before
            → result ≡ option_map (λ message. message.slot)
            (option_and_then (λ ballot. ballot.heard from) before.voted) }
    {
        self.body.ballot.heard_slot(from)
    }

    /// The value of a cell in it. `None` as for the slot, and where the message names no value
    /// for the cell.
    pub fn heard_value(&self, from: u32, cell: u32) -> Option<i64>
        requires from { from < self.now.body.value.setting.replicas }
        requires cell { cell < self.now.body.value.setting.cells }
        requires room { HasBodyRoom self.now.body.value }
        ensures { (plan : PlanParts) (replica : ℕ) (before : BeforeFrame)
            → IsComputing plan replica self.now before
            → result ≡ option_and_then (λ message. value_in message cell)
            (option_and_then (λ ballot. ballot.heard from) before.voted) }
    {
        self.body.ballot.heard_value(from, cell)
    }

    /// The slot that the replica took at the vote of the last frame.
    /// `None` before the first frame, and where the replica was down.
    pub fn voted_slot(&self) -> Option<u32>
        ensures { (plan : PlanParts) (replica : ℕ) (before : BeforeFrame)
            → IsComputing plan replica self.now before
            → result ≡ option_map (λ ballot. ballot.taken) before.voted }
    {
        self.body.ballot.voted_slot()
    }

    /// A cell of the replica after that vote, before rows overwrite it. `None` as for the slot.
    pub fn voted_cell(&self, cell: u32) -> Option<i64>
        requires cell { cell < self.now.body.value.setting.cells }
        requires room { HasBodyRoom self.now.body.value }
        ensures { (plan : PlanParts) (replica : ℕ) (before : BeforeFrame)
            → IsComputing plan replica self.now before
            → result
            ≡ option_map (λ ballot. slice_index_or ballot.cells cell (pos 0)) before.voted }
    {
        self.body.ballot.voted_cell(cell)
    }
}

// Empties the mailboxes of a body, and computes.
fn begin_with(body: &mut Body, table: &mut Table, input: &FrameIn)
    requires room { HasBodyRoom body.old }
    ensures computed { (plan : PlanParts) (replica : ℕ) (before : BeforeFrame)
        → OwnsBefore plan replica body.old before → IsOf plan table.old
        → OwnsComputed plan replica body.new (record {
          computed = state_after_compute plan input.now.sensors before.held;
          boxes = λ sender. None;
        }) }
    ensures table { table.new ≡ table.old }
{
    empty(&mut body.boxes);
    compute(table, input.sensors(), &body.held, &mut body.computed);
}

// Lets a frame go by with a body.
fn skip_with(body: &mut Body, input: &FrameIn)
    requires of { HasPlanWith body.old.setting input.now }
    requires room { HasBodyRoom body.old }
    ensures { (plan : PlanParts) (replica : ℕ) (before : BeforeFrame)
        → OwnsBefore plan replica body.old before
        → OwnsBefore plan replica body.new (record {
          held = state_after_rows plan input.now replica before.held;
          boxes = before.boxes;
          voted = None;
          commands = commands_after_rows input.now replica (λ actuator. None);
        }) }
{
    body.ballot.up = false;
    hold_one(
        &body.setting,
        input,
        body.replica,
        &body.ballot,
        &mut body.held,
    );
    take_rows(&body.setting, input, body.replica, &mut body.commands);
}
