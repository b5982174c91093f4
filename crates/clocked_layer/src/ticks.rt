//! A replica's moments in a frame and the arrivals of messages, by the frame's rows.
//! After NASA TM-104196.
ghost use Rattle.std.specs.Prelude.{◌≡◌, ◌==◌, ◌<◌, ◌≤◌, IfSome, None, Some, not, if◌then◌else◌};
ghost use Rattle.clock_model.specs.Order as moments;
ghost use Rattle.rcp_base.specs.declared.TheConstants.{MAX_FRAMES};
ghost use Rattle.rcp_model.specs.declared.plan.PlanParts.{PlanParts};
ghost use Rattle.replica_parts.specs.Setting.{HasPlanWith, IsSettingOf};
ghost use Rattle.clocked_layer.specs.Opening as opening;
ghost use Rattle.clocked_layer.specs.Opening.{AreTicksOf, ComeTogether, IsTimingWith};

use clock_model::{begin, send, sync, vote};
use event_queue::EventKind;
use layer_stack::FrameIn;
use rcp_model::Timing;
use replica_parts::laws::quiet_frames_are_alike;
use replica_parts::{Setting, arrival_of, end_tick, goes_out, quiet_arrival};

/// A moment of a replica's own, in the order in which they come.
#[derive(Clone, Copy, Debug)]
pub(crate) enum Moment {
    Begins,
    Sends,
    Votes,
    Syncs,
}

/// Where it begins.
pub(crate) fn begin_of(timing: &Timing, frame: u32, input: &FrameIn, replica: u32) -> i64
    requires of { IsTimingWith timing.now input.now }
    requires frame { frame ≤ MAX_FRAMES }
    requires replica { replica < input.now.replicas }
    ensures { (plan : PlanParts) → plan.timing ≡ timing.now
        → result ≡ moments.begin_of plan frame input.now replica }
{
    begin(timing, frame, input.skew(replica))
}

/// Where it sends.
pub(crate) fn send_of(timing: &Timing, frame: u32, input: &FrameIn, replica: u32) -> i64
    requires of { IsTimingWith timing.now input.now }
    requires frame { frame ≤ MAX_FRAMES }
    requires replica { replica < input.now.replicas }
    ensures { (plan : PlanParts) → plan.timing ≡ timing.now
        → result ≡ moments.send_of plan frame input.now replica }
{
    send(timing, frame, input.skew(replica), input.rate(replica))
}

/// Where it votes.
pub(crate) fn vote_of(timing: &Timing, frame: u32, input: &FrameIn, replica: u32) -> i64
    requires of { IsTimingWith timing.now input.now }
    requires frame { frame ≤ MAX_FRAMES }
    requires replica { replica < input.now.replicas }
    ensures { (plan : PlanParts) → plan.timing ≡ timing.now
        → result ≡ moments.vote_of plan frame input.now replica }
{
    vote(timing, frame, input.skew(replica), input.rate(replica))
}

/// Where it syncs.
pub(crate) fn sync_of(timing: &Timing, frame: u32, input: &FrameIn, replica: u32) -> i64
    requires of { IsTimingWith timing.now input.now }
    requires frame { frame ≤ MAX_FRAMES }
    requires replica { replica < input.now.replicas }
    ensures { (plan : PlanParts) → plan.timing ≡ timing.now
        → result ≡ moments.sync_of plan frame input.now replica }
{
    sync(timing, frame, input.skew(replica), input.rate(replica))
}

/// Where it comes to a moment.
pub(crate) fn tick_of(
    timing: &Timing,
    frame: u32,
    input: &FrameIn,
    moment: Moment,
    replica: u32,
) -> i64
    requires of { IsTimingWith timing.now input.now }
    requires frame { frame ≤ MAX_FRAMES }
    requires replica { replica < input.now.replicas }
    ensures { (plan : PlanParts) → plan.timing ≡ timing.now
        → result ≡ opening.tick_of plan frame input.now moment replica }
{
    match moment {
        Moment::Begins => begin_of(timing, frame, input, replica),
        Moment::Sends => send_of(timing, frame, input, replica),
        Moment::Votes => vote_of(timing, frame, input, replica),
        Moment::Syncs => sync_of(timing, frame, input, replica),
    }
}

/// The kind of the event that a moment is.
pub(crate) fn kind_of(moment: Moment) -> EventKind
    ensures { result ≡ opening.kind_of moment }
{
    match moment {
        Moment::Begins => EventKind::Begin,
        Moment::Sends => EventKind::Send,
        Moment::Votes => EventKind::Vote,
        Moment::Syncs => EventKind::Sync,
    }
}

/// The tick at which all replicas come to a moment, if only sensors were written.
pub(crate) fn quiet_tick(
    timing: &Timing,
    frame: u32,
    input: &FrameIn,
    moment: Moment,
) -> Option<i64>
    requires of { IsTimingWith timing.now input.now }
    requires frame { frame ≤ MAX_FRAMES }
    ensures { IfSome result (ComeTogether timing.now frame input.now moment) }
{
    quiet_frames_are_alike();
    if input.is_quiet() {
        Some(tick_of(timing, frame, input, moment, 0))
    } else {
        None
    }
}

/// What all messages of a frame share: the tick at which its block ends and, if only sensors were written,
/// the one at which they arrive.
#[derive(Clone, Copy, Debug)]
pub(crate) struct BlockTicks {
    pub(crate) end: i64,
    pub(crate) arrival: Option<i64>,
}

/// These ticks of a frame.
pub(crate) fn block_ticks(setting: &Setting, frame: u32, input: &FrameIn) -> BlockTicks
    requires of { HasPlanWith setting.now input.now }
    requires frame { frame < MAX_FRAMES }
    ensures { AreTicksOf setting.now frame input.now result }
{
    quiet_frames_are_alike();
    BlockTicks {
        end: end_tick(setting, frame),
        arrival: quiet_arrival(setting, frame, input),
    }
}

// When the sender's message arrives by the rows, whichever were written, if it goes out.
fn arrival_by_rows(
    setting: &Setting,
    frame: u32,
    input: &FrameIn,
    sender: u32,
    receiver: u32,
) -> Option<i64>
    requires of { HasPlanWith setting.now input.now }
    requires frame { frame < MAX_FRAMES }
    requires sender { sender < setting.now.replicas }
    requires receiver { receiver < setting.now.replicas }
    ensures { (plan : PlanParts) → IsSettingOf plan setting.now
        → result ≡ opening.arrival_in plan frame input.now sender receiver }
{
    if goes_out(input, sender, receiver) {
        Some(arrival_of(setting, frame, input, sender, receiver))
    } else {
        None
    }
}

/// When the sender's message arrives, if it goes out.
pub(crate) fn arrival_in(
    setting: &Setting,
    frame: u32,
    input: &FrameIn,
    ticks: &BlockTicks,
    sender: u32,
    receiver: u32,
) -> Option<i64>
    requires of { HasPlanWith setting.now input.now }
    requires frame { frame < MAX_FRAMES }
    requires ticks { AreTicksOf setting.now frame input.now ticks.now }
    requires sender { sender < setting.now.replicas }
    requires receiver { receiver < setting.now.replicas }
    ensures { (plan : PlanParts) → IsSettingOf plan setting.now
        → result ≡ opening.arrival_in plan frame input.now sender receiver }
{
    match ticks.arrival {
        Some(tick) => to_another(tick, sender, receiver),
        None => arrival_by_rows(setting, frame, input, sender, receiver),
    }
}

// The tick, where a message goes to another.
fn to_another(tick: i64, sender: u32, receiver: u32) -> Option<i64>
    ensures { result ≡ (if not (sender == receiver) then Some tick else None) }
{
    if sender != receiver { Some(tick) } else { None }
}
