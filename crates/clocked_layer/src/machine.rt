//! The replicas in their phases, with the letters between them: what each event of a block does.
//! After NASA TM-104196.
ghost use Rattle.std.specs.Prelude.{◌≡◌, ◌<◌, ◌≤◌, ◌==◌, ◌+◌, ◌*◌, ℕ, IfOk, List, [], None, length, slice_index_or, true, false};
ghost use Rattle.event_queue.specs.declared.event.Event.{Event};
ghost use Rattle.layer_stack.specs.Layer.{CanRunFrame};
ghost use Rattle.phase_machine.specs.Phase.{AllShow, last_stage};
ghost use Rattle.phase_machine.specs.declared.phase.Phase.TheVariants.{Moving};
ghost use Rattle.phase_machine.specs.Seats.{Computed, Decided, Seat, Told, Waiting, begun_seat, got_seat, synced_seat, voted_seat};
ghost use Rattle.mailbox.specs.Mailboxes.{put};
ghost use Rattle.rcp_base.specs.declared.TheConstants.{MAX_FRAMES};
ghost use Rattle.rcp_model.specs.FrameLimits.{IsFrameOf};
ghost use Rattle.rcp_model.specs.FrameRows.{FrameRows};
ghost use Rattle.rcp_model.specs.Messages.{is_up};
ghost use Rattle.rcp_model.specs.System.{SystemState, initial_state};
ghost use Rattle.rcp_model.specs.declared.plan.PlanParts.{PlanParts};
ghost use Rattle.replica_parts.specs.Places.{letter_in, post_at};
ghost use Rattle.replica_parts.specs.Rooms.{ArePostRows, IsPost};
ghost use Rattle.replica_parts.specs.Setting.{IsSettingOf};
ghost use Rattle.clocked_layer.specs.Block.{Block, at_seat, block_after_delivery, block_after_kind, block_after_send, closed_state, opened_block, put_pair};
ghost use Rattle.clocked_layer.specs.Machine.{IsMachineAt, ShowsBlock, ShowsSome};
ghost use Rattle.clocked_layer.specs.Stepped.{Mail, RestsAt, mail_of_block, no_mail};
ghost use Rattle.clocked_layer.specs.Way.{StageFor};

use crate::letters::{post, remove};
use crate::opening::add_all;
use event_queue::{Agenda, Event, EventKind};
use frame_table::Table;
use layer_stack::FrameIn;
use mailbox::Message;
use phase_machine::laws::resting_replicas_wait;
use phase_machine::{Phase, begin_at, deliver_at, finish_all, phases, send_at, sync_at, vote_at};
use rcp_base::Memory;
use rcp_model::{Plan, Timing};
use replica_parts::laws::votes_of_a_pattern_are_the_plans;
use replica_parts::{Post, Setting, post_rows};
use std::alloc::Global;
use std::mem;
use vote_pattern::Pattern;

/// The replicas of a plan, each in its phase of a frame, and the letters between them.
/// Only making them takes memory.
#[derive(Debug, Drop)]
pub struct Machine {
    pub(crate) setting: Setting,
    pub(crate) timing: Timing,
    pub(crate) votes: Pattern,
    pub(crate) table: Table,
    // How many frames are done.
    pub(crate) done: u32,
    // By replica.
    pub(crate) phases: Vec<Phase>,
    // What the replica says that sends.
    pub(crate) own: Message,
    // Letters of this frame and of the one before, by receiver and sender.
    pub(crate) fresh: Vec<Vec<Post>>,
    pub(crate) late: Vec<Vec<Post>>,
}

impl Machine {
    /// The replicas of a plan before the first frame.
    pub(crate) fn new(alloc: Global, plan: &Plan) -> Result<Machine, Memory>
        ensures { IfOk result (λ machine.
            IsMachineAt machine plan.now (initial_state plan.now) no_mail) }
    {
        let setting = Setting::new(alloc, plan)?;
        let own = Message::new(alloc, setting.cells())?;
        let fresh = post_rows(alloc, &setting)?;
        let late = post_rows(alloc, &setting)?;
        Ok(Machine {
            setting,
            timing: plan.parts().timing,
            votes: Pattern::of(alloc, plan)?,
            table: Table::new(alloc, plan)?,
            done: 0,
            phases: phases(alloc, plan)?,
            own,
            fresh,
            late,
        })
    }

    /// Adds the events of the block of a frame, which is then open. Takes no memory.
    pub(crate) fn prepare(&self, input: &FrameIn, agenda: &mut Agenda)
        requires ready { CanRunFrame (RestsAt (IsMachineAt self.now)) input.now }
        requires empty { agenda.old.left ≡ [] }
        requires room { (4 + 2 * self.now.setting.replicas) * self.now.setting.replicas
            ≤ agenda.old.spare }
        ensures block { (plan : PlanParts) (state : SystemState) (mail : Mail)
            → IsMachineAt self.now plan state mail → IsFrameOf plan input.now
            → ShowsBlock self.now plan input.now (opened_block plan state input.now mail) }
        ensures events { (plan : PlanParts) (state : SystemState) (mail : Mail)
            → IsMachineAt self.now plan state mail
            → agenda.new.left ≡ (opened_block plan state input.now mail).left }
        ensures room { agenda.new.spare + length agenda.new.left ≡ agenda.old.spare }
    {
        resting_replicas_wait();
        add_all(
            agenda,
            &self.setting,
            &self.timing,
            self.done,
            input,
            self.late.as_slice(),
        );
    }

    /// Closes a block of which no event is left, so that all letters of the frame before have come. What is
    /// still on its way is late from now on. Takes no memory.
    pub(crate) fn finish(&mut self, input: &FrameIn)
        requires shows { ShowsSome self.old input.now }
        ensures { (plan : PlanParts) (block : Block) → ShowsBlock self.old plan input.now block
            → ((replica : ℕ)
            → (block.seats replica).stage ≡ last_stage (is_up plan input.now replica))
            → block.late ≡ (λ receiver sender. None)
            → IsMachineAt self.new plan (closed_state plan input.now block) (mail_of_block block) }
    {
        finish_all(&mut self.phases, input);
        mem::swap(&mut self.fresh, &mut self.late);
        self.done += 1;
    }

    /// The phase of a replica.
    pub(crate) fn phase(&self, replica: u32) -> &Phase
        requires { replica < length self.now.phases.items }
        ensures { result.now ≡ slice_index_or self.now.phases.items replica Moving }
    {
        &self.phases[replica as usize]
    }

    // A replica begins.
    fn begin(&mut self, replica: u32, input: &FrameIn)
        requires replica { replica < length self.old.phases.items }
        requires shows { ShowsSome self.old input.now }
        ensures { (plan : PlanParts) (block : Block) (left : List Event)
            → ShowsBlock self.old plan input.now block
            → (block.seats replica).stage ≡ Waiting → ShowsBlock self.new plan input.now
            (record (at_seat (begun_seat plan input.now) block replica) { left = left }) }
    {
        begin_at(&mut self.phases, replica, &mut self.table, input);
    }

    // A replica sends.
    fn send(&mut self, replica: u32, input: &FrameIn)
        requires replica { replica < length self.old.phases.items }
        requires shows { (plan : PlanParts) × (block : Block)
            × ShowsBlock self.old plan input.now block
            × ((block.seats replica).stage ≡ Computed) }
        ensures { (plan : PlanParts) (block : Block) (left : List Event)
            → ShowsBlock self.old plan input.now block
            → (block.seats replica).stage ≡ Computed → ShowsBlock self.new plan input.now
            (record (block_after_send plan input.now block replica) { left = left }) }
    {
        votes_of_a_pattern_are_the_plans();
        send_at(&mut self.phases, replica, &self.votes, &mut self.own);
        post(
            &self.setting,
            self.done,
            input,
            &self.own,
            replica,
            &mut self.fresh,
        );
    }

    // A replica votes.
    fn vote(&mut self, replica: u32, input: &FrameIn)
        requires replica { replica < length self.old.phases.items }
        requires shows { ShowsSome self.old input.now }
        ensures { (plan : PlanParts) (block : Block) (left : List Event)
            → ShowsBlock self.old plan input.now block
            → (block.seats replica).stage ≡ Told → ShowsBlock self.new plan input.now
            (record (at_seat (voted_seat plan replica) block replica) { left = left }) }
    {
        votes_of_a_pattern_are_the_plans();
        vote_at(
            &mut self.phases,
            replica,
            &self.votes,
            &mut self.table,
            input,
        );
    }

    // A replica syncs.
    fn sync(&mut self, replica: u32, input: &FrameIn)
        requires replica { replica < length self.old.phases.items }
        requires shows { ShowsSome self.old input.now }
        ensures { (plan : PlanParts) (block : Block) (left : List Event)
            → ShowsBlock self.old plan input.now block
            → (block.seats replica).stage ≡ Decided → ShowsBlock self.new plan input.now
            (record (at_seat (synced_seat plan) block replica) { left = left }) }
    {
        sync_at(&mut self.phases, replica, input);
    }

    // A letter of this frame comes to its receiver.
    fn deliver_fresh(&mut self, receiver: u32, sender: u32, input: &FrameIn)
        requires receiver { receiver < length self.old.phases.items }
        requires sender { sender < length self.old.phases.items }
        requires shows { ShowsSome self.old input.now }
        ensures { (plan : PlanParts) (block : Block) (left : List Event)
            → ShowsBlock self.old plan input.now block → ShowsBlock self.new plan input.now
            (record (block_after_delivery true block receiver sender) { left = left }) }
    {
        hand_over(
            &self.setting,
            &mut self.phases,
            receiver,
            sender,
            &mut self.fresh,
        );
    }

    // A letter of the frame before comes to its receiver.
    fn deliver_late(&mut self, receiver: u32, sender: u32, input: &FrameIn)
        requires receiver { receiver < length self.old.phases.items }
        requires sender { sender < length self.old.phases.items }
        requires shows { ShowsSome self.old input.now }
        ensures { (plan : PlanParts) (block : Block) (left : List Event)
            → ShowsBlock self.old plan input.now block → ShowsBlock self.new plan input.now
            (record (block_after_delivery false block receiver sender) { left = left }) }
    {
        hand_over(
            &self.setting,
            &mut self.phases,
            receiver,
            sender,
            &mut self.late,
        );
    }

    // A message of this frame, or of the one before, comes to its receiver.
    fn deliver(&mut self, event: &Event, input: &FrameIn)
        requires receiver { event.now.replica < length self.old.phases.items }
        requires sender { event.now.other < length self.old.phases.items }
        requires shows { ShowsSome self.old input.now }
        ensures { (plan : PlanParts) (block : Block) (left : List Event)
            → ShowsBlock self.old plan input.now block → ShowsBlock self.new plan input.now
            (record (block_after_delivery (event.now.frame == block.done) block
            event.now.replica event.now.other) { left = left }) }
    {
        if event.frame == self.done {
            self.deliver_fresh(event.replica, event.other, input);
        } else {
            self.deliver_late(event.replica, event.other, input);
        }
    }

    /// Does what a due event does. Takes no memory.
    pub(crate) fn act(&mut self, event: &Event, input: &FrameIn)
        requires replica { event.now.replica < length self.old.phases.items }
        requires other { event.now.other < length self.old.phases.items }
        requires shows { (plan : PlanParts) × (block : Block)
            × ShowsBlock self.old plan input.now block
            × StageFor event.now.kind (block.seats event.now.replica).stage }
        ensures { (plan : PlanParts) (block : Block) (left : List Event)
            → ShowsBlock self.old plan input.now block
            → StageFor event.now.kind (block.seats event.now.replica).stage
            → ShowsBlock self.new plan input.now (record
            (block_after_kind event.now.kind plan input.now block event.now) { left = left }) }
    {
        match event.kind {
            EventKind::Begin => self.begin(event.replica, input),
            EventKind::Send => self.send(event.replica, input),
            EventKind::Deliver => self.deliver(event, input),
            EventKind::Vote => self.vote(event.replica, input),
            EventKind::Sync => self.sync(event.replica, input),
        }
    }
}

// Puts the letter of a place into its receiver's mailbox, if one stands there.
fn deliver_post(phases: &mut Vec<Phase>, receiver: u32, sender: u32, place: &Post)
    requires receiver { receiver < length phases.old.items }
    requires shows { (plan : PlanParts) × (rows : FrameRows) × (seats : ℕ → Seat)
        × AllShow plan rows phases.old.items seats × (sender < plan.replicas)
        × (length place.now.message.values ≡ length plan.cells) }
    ensures shows { (plan : PlanParts) (rows : FrameRows) (seats : ℕ → Seat)
        → AllShow plan rows phases.old.items seats → AllShow plan rows phases.new.items
        (put seats receiver (got_seat sender (letter_in place.now) (seats receiver))) }
    ensures size { length phases.new.items ≡ length phases.old.items }
{
    if place.present {
        deliver_at(phases, receiver, sender, &place.message);
    }
}

// Puts a letter that is on its way into its receiver's mailbox.
fn hand_over(
    setting: &Setting,
    phases: &mut Vec<Phase>,
    receiver: u32,
    sender: u32,
    letters: &mut Vec<Vec<Post>>,
)
    requires receiver { (receiver < length phases.old.items) × (receiver < setting.now.replicas) }
    requires sender { sender < setting.now.replicas }
    requires room { ArePostRows setting.now letters.old.items }
    requires shows { (plan : PlanParts) × (rows : FrameRows) × (seats : ℕ → Seat)
        × AllShow plan rows phases.old.items seats × IsSettingOf plan setting.now }
    ensures shows { (plan : PlanParts) (rows : FrameRows) (seats : ℕ → Seat)
        → AllShow plan rows phases.old.items seats → AllShow plan rows phases.new.items
        (put seats receiver (got_seat sender
        (post_at letters.old.items receiver sender) (seats receiver))) }
    ensures size { length phases.new.items ≡ length phases.old.items }
    ensures letters { post_at letters.new.items
        ≡ put_pair (post_at letters.old.items) receiver sender None }
    ensures room { ArePostRows setting.now letters.new.items }
{
    let place = &letters[receiver as usize][sender as usize];
    deliver_post(phases, receiver, sender, place);
    remove(setting, letters, receiver, sender);
}
