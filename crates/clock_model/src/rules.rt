//! The five rules that the timing of an accepted task file keeps, tested in their order.
//! After NASA TM-104196; the numbers and their formulas are this project's own.
ghost use Rattle.std.specs.Prelude.{◌≡◌, ◌↔◌, pos, ◌≤ℤ◌, IsTrue, Some, None, OnOk, IfErr, IsOk};
ghost use Rattle.rcp_model.specs.TimingRules.{AreInRange, PhasesLast, BroadcastFits, NoneIsEarly, FramesStayApart, LimitsNest, KeepsRules, first_failed_rule};
ghost use Rattle.rcp_model.specs.TimingRules as model;
ghost use Rattle.clock_model.specs.Ranges.{ClocksNest, DelaysNest};

use crate::drift::{drift, limit_drift};
use rcp_model::Timing;

// The first rule.
fn phases_last(timing: &Timing) -> bool
    ensures { IsTrue result ↔ PhasesLast timing.now }
{
    1 <= timing.compute && 1 <= timing.broadcast && 1 <= timing.vote && 1 <= timing.sync
}

// The ticks that skew, drift and delay of healthy replicas may take of a broadcast.
fn broadcast_need(timing: &Timing) -> i64
    requires { AreInRange timing.now }
    ensures { result ≡ model.broadcast_need timing.now }
{
    timing.skew
        + drift(timing, timing.compute)
        + drift(timing, timing.compute + timing.broadcast)
        + timing.delay_max
}

// The second rule.
fn broadcast_fits(timing: &Timing) -> bool
    requires { AreInRange timing.now }
    ensures { IsTrue result ↔ BroadcastFits timing.now }
{
    broadcast_need(timing) <= timing.broadcast
}

// The ticks that skew and drift of healthy replicas may take of those before a message arrives.
fn arrival_need(timing: &Timing) -> i64
    requires { AreInRange timing.now }
    ensures { result ≡ model.arrival_need timing.now }
{
    timing.skew + drift(timing, timing.compute)
}

// The third rule.
fn none_is_early(timing: &Timing) -> bool
    requires { AreInRange timing.now }
    ensures { IsTrue result ↔ NoneIsEarly timing.now }
{
    arrival_need(timing) <= timing.compute + timing.delay_min
}

// The ticks that skew and drift of any replicas may take of a sync.
fn sync_need(timing: &Timing) -> i64
    requires { AreInRange timing.now }
    ensures { result ≡ model.sync_need timing.now }
{
    2 * timing.skew_limit + limit_drift(timing, timing.compute + timing.broadcast + timing.vote)
}

// The fourth rule.
fn frames_stay_apart(timing: &Timing) -> bool
    requires { AreInRange timing.now }
    ensures { IsTrue result ↔ FramesStayApart timing.now }
{
    sync_need(timing) < timing.sync
}

/// The ticks of the four phases together.
pub fn frame_length(timing: &Timing) -> i64
    requires { AreInRange timing.now }
    ensures value { result ≡ model.frame_length timing.now }
    ensures range { (pos 0 ≤ℤ result) × (result ≤ℤ pos 4_000_000_000) }
{
    timing.compute + timing.broadcast + timing.vote + timing.sync
}

/// The greatest delay that a journal may give, in ticks.
pub fn delay_limit(timing: &Timing) -> i64
    requires { AreInRange timing.now }
    ensures value { result ≡ model.delay_limit_of timing.now }
    ensures range { result ≤ℤ pos 10_000_000_000 }
{
    frame_length(timing) - 2 * timing.skew_limit - 2 * limit_drift(timing, timing.compute) - 1
}

// The half of the fifth rule on skew and drift.
fn clocks_nest(timing: &Timing) -> bool
    ensures { IsTrue result ↔ ClocksNest timing.now }
{
    timing.skew <= timing.skew_limit
        && timing.drift_ppm <= timing.drift_limit_ppm
        && timing.drift_limit_ppm <= 1_000
}

// Its half on delays.
fn delays_nest(timing: &Timing) -> bool
    requires { AreInRange timing.now }
    ensures { IsTrue result ↔ DelaysNest timing.now }
{
    let limit = delay_limit(timing);
    timing.delay_min <= timing.delay_max && timing.delay_max <= limit
}

// The fifth rule.
fn limits_nest(timing: &Timing) -> bool
    requires { AreInRange timing.now }
    ensures { IsTrue result ↔ LimitsNest timing.now }
{
    clocks_nest(timing) && delays_nest(timing)
}

/// Whether a timing keeps the five rules, and else the number of the first that it breaks.
/// Lengths, skews and delays are in ticks, drift rates in parts per million.
pub fn check_timing(timing: &Timing) -> Result<(), u8>
    requires { AreInRange timing.now }
    ensures ok { OnOk result (first_failed_rule timing.now ≡ None) }
    ensures err { IfErr result (λ rule. first_failed_rule timing.now ≡ Some rule) }
    ensures keeps { IsOk result ↔ KeepsRules timing.now }
{
    if !phases_last(timing) {
        Err(1)
    } else if !broadcast_fits(timing) {
        Err(2)
    } else if !none_is_early(timing) {
        Err(3)
    } else if !frames_stay_apart(timing) {
        Err(4)
    } else if !limits_nest(timing) {
        Err(5)
    } else {
        Ok(())
    }
}
