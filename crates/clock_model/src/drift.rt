//! The ticks by which clocks may drift, rounded up, and by which they do, rounded down.
//! This project's own.
ghost use Rattle.std.specs.Prelude.{◌≡◌};
ghost use Rattle.rcp_model.specs.Rounding.{parts_rounded_down, parts_rounded_up};
ghost use Rattle.rcp_model.specs.TimingRules.{IsTimingNumber, AreInRange, drift_of, limit_drift_of};
ghost use Rattle.clock_model.specs.Ranges.{IsSpan, IsDrift, IsRate, IsStretch};

use rcp_model::Timing;

// So many parts per million of a number, rounded up.
fn rounded_up(x: i64, ppm: i64) -> i64
    requires span { IsSpan x }
    requires rate { IsTimingNumber ppm }
    ensures value { result ≡ parts_rounded_up x ppm }
    ensures range { IsDrift result }
{
    (x * ppm + 999_999) / 1_000_000
}

/// So many parts per million of a number, rounded down.
pub fn rounded_down(x: i64, ppm: i64) -> i64
    requires span { IsSpan x }
    requires rate { IsRate ppm }
    ensures value { result ≡ parts_rounded_down x ppm }
    ensures range { IsStretch result }
{
    (x * ppm).div_euclid(1_000_000)
}

/// The ticks by which a healthy replica's clock may drift over so many ticks.
pub fn drift(timing: &Timing, ticks: i64) -> i64
    requires timing { AreInRange timing.now }
    requires span { IsSpan ticks }
    ensures value { result ≡ drift_of timing.now ticks }
    ensures range { IsDrift result }
{
    rounded_up(ticks, timing.drift_ppm)
}

/// The same for any replica's clock.
pub fn limit_drift(timing: &Timing, ticks: i64) -> i64
    requires timing { AreInRange timing.now }
    requires span { IsSpan ticks }
    ensures value { result ≡ limit_drift_of timing.now ticks }
    ensures range { IsDrift result }
{
    rounded_up(ticks, timing.drift_limit_ppm)
}
