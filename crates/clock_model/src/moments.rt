//! The moments of a frame at one replica, in real ticks since the first frame's begin by a right clock.
//! After NASA TM-104196; the formulas are this project's own.
ghost use Rattle.std.specs.Prelude.{◌≡◌, ◌+ℤ◌};
ghost use Rattle.rcp_model.specs.Moments.{local_ticks, begin_tick, send_tick, vote_tick, sync_tick, arrival_tick, is_in_window};
ghost use Rattle.rcp_model.specs.TimingRules.{KeepsRules};
ghost use Rattle.clock_model.specs.Moments.{IsBeginTick, IsClock, IsDelay, IsFrameTick, IsSendTick, MayBegin};
ghost use Rattle.clock_model.specs.Ranges.{IsSpan};

use crate::drift::rounded_down;
use crate::rules::frame_length;
use rcp_model::Timing;

/// The tick at which a replica begins a frame, with its skew in ticks.
pub fn begin(timing: &Timing, frame: u32, skew: i64) -> i64
    requires { MayBegin timing.now frame skew }
    ensures value { result ≡ begin_tick timing.now frame skew }
    ensures range { IsBeginTick result }
{
    i64::from(frame) * frame_length(timing) + skew
}

// The tick at which so many ticks of a frame have passed by a replica's own clock.
fn passed(timing: &Timing, frame: u32, skew: i64, rate: i64, ticks: i64) -> i64
    requires clock { IsClock timing.now frame skew rate }
    requires span { IsSpan ticks }
    ensures value { result ≡ begin_tick timing.now frame skew +ℤ local_ticks rate ticks }
    ensures range { IsFrameTick result }
{
    begin(timing, frame, skew) + ticks + rounded_down(ticks, rate)
}

/// The tick at which it has computed, and sends. Its skew is in ticks, and its rate in parts per million,
/// by which each tick of its clock is longer than a real one.
pub fn send(timing: &Timing, frame: u32, skew: i64, rate: i64) -> i64
    requires clock { IsClock timing.now frame skew rate }
    requires rules { KeepsRules timing.now }
    ensures value { result ≡ send_tick timing.now frame skew rate }
    ensures range { IsSendTick result }
{
    passed(timing, frame, skew, rate, timing.compute)
}

/// The tick at which it votes, with its skew in ticks and its rate in parts per million.
pub fn vote(timing: &Timing, frame: u32, skew: i64, rate: i64) -> i64
    requires { IsClock timing.now frame skew rate }
    ensures value { result ≡ vote_tick timing.now frame skew rate }
    ensures range { IsFrameTick result }
{
    passed(timing, frame, skew, rate, timing.compute + timing.broadcast)
}

/// The tick at which it has voted, and syncs, with its skew in ticks and its rate in parts per million.
pub fn sync(timing: &Timing, frame: u32, skew: i64, rate: i64) -> i64
    requires { IsClock timing.now frame skew rate }
    ensures value { result ≡ sync_tick timing.now frame skew rate }
    ensures range { IsFrameTick result }
{
    passed(
        timing,
        frame,
        skew,
        rate,
        timing.compute + timing.broadcast + timing.vote,
    )
}

/// The tick at which a message arrives, of the tick at which it was sent and its delay in ticks.
pub fn arrival(send: i64, delay: i64) -> i64
    requires sent { IsSendTick send }
    requires delay { IsDelay delay }
    ensures { result ≡ arrival_tick send delay }
{
    send + delay
}

/// Whether a tick of arrival is in a replica's window of a frame, from its begin to its vote, both included.
/// Its skew is in ticks, and its rate in parts per million.
pub fn in_window(timing: &Timing, frame: u32, skew: i64, rate: i64, arrival: i64) -> bool
    requires { IsClock timing.now frame skew rate }
    ensures { result ≡ is_in_window timing.now frame skew rate arrival }
{
    begin(timing, frame, skew) <= arrival && arrival <= vote(timing, frame, skew, rate)
}
