//! The events of a block, put into an agenda as it opens.
//! After NASA TM-104196.
ghost use Rattle.std.specs.Prelude.{◌≡◌, ◌<◌, ◌≤◌, ◌+◌, ◌-◌, ◌*◌, IfSome};
ghost use Rattle.event_queue.specs.Agenda.{in_turn_from};
ghost use Rattle.rcp_base.specs.declared.TheConstants.{MAX_FRAMES};
ghost use Rattle.rcp_model.specs.declared.plan.PlanParts.{PlanParts};
ghost use Rattle.rcp_model.specs.System.{SystemState, fresh_letter};
ghost use Rattle.replica_parts.specs.Places.{letter_in, post_at};
ghost use Rattle.replica_parts.specs.Rooms.{ArePostRows};
ghost use Rattle.replica_parts.specs.Setting.{HasPlanWith, IsSettingOf};
ghost use Rattle.clocked_layer.specs.Events as events;
ghost use Rattle.clocked_layer.specs.Events.{block_events, events_from, fresh_events, late_events};
ghost use Rattle.clocked_layer.specs.Opening.{AddsUpTo, AreTicksOf, ComeTogether, IsTimingWith, deliveries, deliveries_to, moment_at, moment_events};

use crate::ticks::{BlockTicks, Moment, arrival_in, block_ticks, kind_of, quiet_tick, tick_of};
use event_queue::{Agenda, Event, EventKind};
use layer_stack::FrameIn;
use rcp_model::Timing;
use replica_parts::{Post, Setting};

// An event of a replica's own.
fn own_event(kind: EventKind, frame: u32, replica: u32, tick: i64) -> Event
    ensures { result ≡ events.own_event kind frame replica tick }
{
    Event {
        tick,
        kind,
        replica,
        other: 0,
        frame,
    }
}

// The sender's message of a frame comes to a receiver.
fn delivery(frame: u32, receiver: u32, sender: u32, tick: i64) -> Event
    ensures { result ≡ events.delivery frame receiver sender tick }
{
    Event {
        tick,
        kind: EventKind::Deliver,
        replica: receiver,
        other: sender,
        frame,
    }
}

// Adds a moment of a replica's own, where it is up.
fn add_moment_at(
    agenda: &mut Agenda,
    timing: &Timing,
    frame: u32,
    input: &FrameIn,
    moment: Moment,
    replica: u32,
)
    requires of { IsTimingWith timing.now input.now }
    requires frame { frame < MAX_FRAMES }
    requires replica { replica < input.now.replicas }
    requires room { 1 ≤ agenda.old.spare }
    ensures events { (plan : PlanParts) → plan.timing ≡ timing.now
        → plan.replicas ≡ input.now.replicas → agenda.new.left
        ≡ in_turn_from agenda.old.left (moment_at plan frame input.now moment replica) }
    ensures room { AddsUpTo 1 agenda.old agenda.new }
{
    if !input.down(replica) {
        let tick = tick_of(timing, frame, input, moment, replica);
        agenda.add(own_event(kind_of(moment), frame, replica, tick));
    }
}

// Adds a moment of a replica's own, with the tick at which all come to it where there is one.
fn put_moment(
    agenda: &mut Agenda,
    timing: &Timing,
    frame: u32,
    input: &FrameIn,
    moment: Moment,
    together: Option<i64>,
    replica: u32,
)
    requires of { IsTimingWith timing.now input.now }
    requires frame { frame < MAX_FRAMES }
    requires together { IfSome together (ComeTogether timing.now frame input.now moment) }
    requires replica { replica < input.now.replicas }
    requires room { 1 ≤ agenda.old.spare }
    ensures events { (plan : PlanParts) → plan.timing ≡ timing.now
        → plan.replicas ≡ input.now.replicas → agenda.new.left
        ≡ in_turn_from agenda.old.left (moment_at plan frame input.now moment replica) }
    ensures room { AddsUpTo 1 agenda.old agenda.new }
{
    match together {
        Some(tick) => agenda.add(own_event(kind_of(moment), frame, replica, tick)),
        None => add_moment_at(agenda, timing, frame, input, moment, replica),
    }
}

// Adds a moment of all replicas.
fn add_moment(
    agenda: &mut Agenda,
    setting: &Setting,
    timing: &Timing,
    frame: u32,
    input: &FrameIn,
    moment: Moment,
)
    requires of { HasPlanWith setting.now input.now }
    requires timing { timing.now ≡ setting.now.timing }
    requires frame { frame < MAX_FRAMES }
    requires room { setting.now.replicas ≤ agenda.old.spare }
    ensures events { (plan : PlanParts) → IsSettingOf plan setting.now → agenda.new.left
        ≡ in_turn_from agenda.old.left (moment_events plan frame input.now moment) }
    ensures room { AddsUpTo setting.now.replicas agenda.old agenda.new }
{
    let together = quiet_tick(timing, frame, input, moment);
    for replica in 0..setting.replicas() {
        put_moment(agenda, timing, frame, input, moment, together, replica);
    }
}

// Adds the delivery of a message of this frame, where it goes out and arrives within the block.
fn add_fresh(
    agenda: &mut Agenda,
    setting: &Setting,
    frame: u32,
    input: &FrameIn,
    ticks: &BlockTicks,
    receiver: u32,
    sender: u32,
)
    requires of { HasPlanWith setting.now input.now }
    requires frame { frame < MAX_FRAMES }
    requires ticks { AreTicksOf setting.now frame input.now ticks.now }
    requires receiver { receiver < setting.now.replicas }
    requires sender { sender < setting.now.replicas }
    requires room { 1 ≤ agenda.old.spare }
    ensures events { (plan : PlanParts) (state : SystemState) → IsSettingOf plan setting.now
        → state.done ≡ frame → agenda.new.left ≡ in_turn_from agenda.old.left
        (fresh_events plan frame receiver sender
        (fresh_letter plan state input.now receiver sender)) }
    ensures room { AddsUpTo 1 agenda.old agenda.new }
{
    if let Some(tick) = arrival_in(setting, frame, input, ticks, sender, receiver) {
        if tick < ticks.end {
            agenda.add(delivery(frame, receiver, sender, tick));
        }
    }
}

// Adds the delivery of a letter of the frame before, where one stands in a place.
fn add_late(agenda: &mut Agenda, frame: u32, receiver: u32, sender: u32, place: &Post)
    requires room { 1 ≤ agenda.old.spare }
    ensures events { agenda.new.left ≡ in_turn_from agenda.old.left
        (late_events frame receiver sender (letter_in place.now)) }
    ensures room { AddsUpTo 1 agenda.old agenda.new }
{
    if place.present {
        agenda.add(delivery(frame.saturating_sub(1), receiver, sender, place.arrival));
    }
}

// Adds what comes to a receiver from a sender.
fn add_from(
    agenda: &mut Agenda,
    setting: &Setting,
    frame: u32,
    input: &FrameIn,
    ticks: &BlockTicks,
    late: &[Vec<Post>],
    receiver: u32,
    sender: u32,
)
    requires of { HasPlanWith setting.now input.now }
    requires frame { frame < MAX_FRAMES }
    requires ticks { AreTicksOf setting.now frame input.now ticks.now }
    requires late { ArePostRows setting.now late.now }
    requires receiver { receiver < setting.now.replicas }
    requires sender { sender < setting.now.replicas }
    requires room { 2 ≤ agenda.old.spare }
    ensures events { (plan : PlanParts) (state : SystemState) → IsSettingOf plan setting.now
        → state.done ≡ frame → post_at late.now ≡ state.letters → agenda.new.left
        ≡ in_turn_from agenda.old.left (events_from plan state input.now receiver sender) }
    ensures room { AddsUpTo 2 agenda.old agenda.new }
{
    add_fresh(agenda, setting, frame, input, ticks, receiver, sender);
    let place = &late[receiver as usize][sender as usize];
    add_late(agenda, frame, receiver, sender, place);
}

// Adds what comes to a receiver.
fn add_to(
    agenda: &mut Agenda,
    setting: &Setting,
    frame: u32,
    input: &FrameIn,
    ticks: &BlockTicks,
    late: &[Vec<Post>],
    receiver: u32,
)
    requires of { HasPlanWith setting.now input.now }
    requires frame { frame < MAX_FRAMES }
    requires ticks { AreTicksOf setting.now frame input.now ticks.now }
    requires late { ArePostRows setting.now late.now }
    requires receiver { receiver < setting.now.replicas }
    requires room { 2 * setting.now.replicas ≤ agenda.old.spare }
    ensures events { (plan : PlanParts) (state : SystemState) → IsSettingOf plan setting.now
        → state.done ≡ frame → post_at late.now ≡ state.letters → agenda.new.left
        ≡ in_turn_from agenda.old.left (deliveries_to plan state input.now receiver) }
    ensures room { AddsUpTo (2 * setting.now.replicas) agenda.old agenda.new }
{
    for sender in 0..setting.replicas() {
        add_from(agenda, setting, frame, input, ticks, late, receiver, sender);
    }
}

// Adds what comes to all receivers.
fn add_deliveries(
    agenda: &mut Agenda,
    setting: &Setting,
    frame: u32,
    input: &FrameIn,
    ticks: &BlockTicks,
    late: &[Vec<Post>],
)
    requires of { HasPlanWith setting.now input.now }
    requires frame { frame < MAX_FRAMES }
    requires ticks { AreTicksOf setting.now frame input.now ticks.now }
    requires late { ArePostRows setting.now late.now }
    requires room { 2 * setting.now.replicas * setting.now.replicas ≤ agenda.old.spare }
    ensures events { (plan : PlanParts) (state : SystemState) → IsSettingOf plan setting.now
        → state.done ≡ frame → post_at late.now ≡ state.letters → agenda.new.left
        ≡ in_turn_from agenda.old.left (deliveries plan state input.now) }
    ensures room { AddsUpTo (2 * setting.now.replicas * setting.now.replicas)
        agenda.old agenda.new }
{
    for receiver in 0..setting.replicas() {
        add_to(agenda, setting, frame, input, ticks, late, receiver);
    }
}

/// Adds the events of the block of a frame. Takes no memory. They are added moment by moment, since
/// each then comes behind those before it, in most frames.
pub(crate) fn add_all(
    agenda: &mut Agenda,
    setting: &Setting,
    timing: &Timing,
    frame: u32,
    input: &FrameIn,
    late: &[Vec<Post>],
)
    requires of { HasPlanWith setting.now input.now }
    requires timing { timing.now ≡ setting.now.timing }
    requires frame { frame < MAX_FRAMES }
    requires late { ArePostRows setting.now late.now }
    requires room { (4 + 2 * setting.now.replicas) * setting.now.replicas ≤ agenda.old.spare }
    ensures events { (plan : PlanParts) (state : SystemState) → IsSettingOf plan setting.now
        → state.done ≡ frame → post_at late.now ≡ state.letters → agenda.new.left
        ≡ in_turn_from agenda.old.left (block_events plan state input.now) }
    ensures room { AddsUpTo ((4 + 2 * setting.now.replicas) * setting.now.replicas)
        agenda.old agenda.new }
{
    let ticks = block_ticks(setting, frame, input);
    add_moment(agenda, setting, timing, frame, input, Moment::Begins);
    add_moment(agenda, setting, timing, frame, input, Moment::Sends);
    add_deliveries(agenda, setting, frame, input, &ticks, late);
    add_moment(agenda, setting, timing, frame, input, Moment::Votes);
    add_moment(agenda, setting, timing, frame, input, Moment::Syncs);
}
