//! The limits of what a row's numbers may be.
//! This project's own.
ghost use Rattle.std.specs.Prelude.{◌≡◌, ◌<◌, ◌≤◌, ◌&&◌, length, not, true};
ghost use Rattle.std.specs.Ordering.{int_eq};
ghost use Rattle.rcp_model.specs.TimingRules.{IsTimingNumber, AreInRange};
ghost use Rattle.fault_journal.specs.Limits as spec;
ghost use Rattle.fault_journal.specs.Seen.{HasPlace};

use crate::row::{Kind, Row, WrittenRow};
use clock_model::delay_limit;
use rcp_base::MAX_FRAMES;
use rcp_model::PlanParts;

/// Whether all numbers of a row are within their limits.
#[tactic(auto, unfolding(crate::specs::Limits::is_within_limits))]
pub fn is_within_limits(plan: &PlanParts, row: &WrittenRow) -> bool
    requires timing { AreInRange plan.now.timing }
    requires slots { length plan.now.slots ≤ 32 }
    ensures { result ≡ spec.is_within_limits plan.now row.now }
{
    frame_is_there(row.kind, row.frame)
        && are_replicas(plan.replicas, row)
        && value_is_permitted(plan, row.kind, row.value)
}

/// The row with its numbers in the types that their limits allow.
pub fn packed(plan: &PlanParts, row: &WrittenRow) -> Row
    requires replicas { plan.now.replicas ≤ 9 }
    requires item { row.now.item < 64 }
    requires limits { spec.is_within_limits plan.now row.now ≡ true }
    ensures row { result ≡ spec.packed row.now }
    ensures place { HasPlace result }
{
    Row {
        frame: row.frame as u32,
        kind: row.kind,
        replica: row.replica as u8,
        receiver: row.receiver as u8,
        item: row.item,
        value: row.value,
    }
}

// The replicas of a row are there, and no message goes to its sender.
fn are_replicas(count: u32, row: &WrittenRow) -> bool
    ensures { result ≡ (spec.is_below count row.now.replica && spec.is_below count row.now.receiver
        && not (spec.is_on_a_message row.now.kind && int_eq row.now.replica row.now.receiver)) }
{
    is_below(count, row.replica) && is_below(count, row.receiver) && !is_to_its_sender(row)
}

// A row on a message has two replicas: this one has one.
fn is_to_its_sender(row: &WrittenRow) -> bool
    ensures { result
        ≡ (spec.is_on_a_message row.now.kind && int_eq row.now.replica row.now.receiver) }
{
    is_on_a_message(row.kind) && row.replica == row.receiver
}

// From 0 on, and less than so many.
fn is_below(count: u32, x: i64) -> bool
    ensures { result ≡ spec.is_below count x }
{
    0 <= x && x < i64::from(count)
}

// From 0 up to a limit.
fn is_up_to(limit: i64, x: i64) -> bool
    ensures { result ≡ spec.is_up_to limit x }
{
    0 <= x && x <= limit
}

// At most so far from 0.
fn is_within(limit: i64, x: i64) -> bool
    requires { IsTimingNumber limit }
    ensures { result ≡ spec.is_within limit x }
{
    -limit <= x && x <= limit
}

// The frame of an end row is the number of frames, and that of another row is one of them.
fn frame_is_there(kind: Kind, frame: i64) -> bool
    ensures { result ≡ spec.frame_is_there kind frame }
{
    match kind {
        Kind::End => 1 <= frame && frame <= i64::from(MAX_FRAMES),
        _ => is_below(MAX_FRAMES, frame),
    }
}

fn is_on_a_message(kind: Kind) -> bool
    ensures { result ≡ spec.is_on_a_message kind }
{
    matches!(kind, Kind::Lie | Kind::LieSlot | Kind::Drop | Kind::Delay)
}

fn value_is_permitted(plan: &PlanParts, kind: Kind, value: i64) -> bool
    requires timing { AreInRange plan.now.timing }
    requires slots { length plan.now.slots ≤ 32 }
    ensures { result ≡ spec.value_is_permitted plan.now kind value }
{
    match kind {
        Kind::Slot | Kind::LieSlot => is_below(plan.slots.len() as u32, value),
        Kind::Skew => is_within(plan.timing.skew_limit, value),
        Kind::Rate => is_within(plan.timing.drift_limit_ppm, value),
        Kind::Delay => is_up_to(delay_limit(&plan.timing), value),
        _ => true,
    }
}
