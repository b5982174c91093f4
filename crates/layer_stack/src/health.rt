//! Which replicas are healthy in a frame.
//! This project's own.
ghost use Rattle.std.specs.Prelude.{◌≡◌, ◌<◌, ◌&&◌, ◌≤ℤ◌, pos, length, is_none};
ghost use Rattle.rcp_model.specs.declared.plan.PlanParts.{PlanParts};
ghost use Rattle.rcp_model.specs.FrameLimits.{IsFrameOf};
ghost use Rattle.rcp_model.specs.FrameRows.{AreRowsOf, cell_row, act_row, lie_row};
ghost use Rattle.rcp_base.specs.Search.{all_below};
ghost use Rattle.rcp_model.specs.Health as model;

use crate::frame_in::FrameIn;
use rcp_model::{Plan, PlanParts, Timing};

/// Whether no row of the frame touches a replica or its messages, and its clock and its delays are within the bounds of the plan.
pub fn healthy(plan: &Plan, input: &FrameIn, replica: u32) -> bool
    requires rows { IsFrameOf plan.now input.now }
    requires replica { replica < plan.now.replicas }
    ensures { result ≡ model.is_healthy plan.now input.now replica }
{
    is_healthy(plan.parts(), input, replica)
}

// The same over the parts of a plan, whose bound on drift rates is no less than 0.
#[tactic(auto, unfolding(rcp_model::specs::Health::is_healthy))]
fn is_healthy(parts: &PlanParts, input: &FrameIn, replica: u32) -> bool
    requires rows { AreRowsOf parts.now input.now }
    requires replica { replica < parts.now.replicas }
    requires drift { pos 0 ≤ℤ parts.now.timing.drift_ppm }
    ensures { result ≡ model.is_healthy parts.now input.now replica }
{
    is_unharmed(parts, input, replica)
        && keeps_time(&parts.timing, input, replica)
        && is_timely_to_all(parts, input, replica)
}

// Whether no row touches the replica or its messages, as none does where only sensors were written.
#[tactic(auto, using(crate::proofs::QuietLaws::unharmed))]
fn is_unharmed(parts: &PlanParts, input: &FrameIn, replica: u32) -> bool
    requires rows { AreRowsOf parts.now input.now }
    requires replica { replica < parts.now.replicas }
    ensures { result ≡ (model.is_untouched parts.now input.now replica
        && all_below parts.now.replicas (model.is_faithful parts.now input.now replica)) }
{
    if input.is_quiet() {
        return true;
    }
    is_untouched(input, replica) && is_faithful_to_all(parts, input, replica)
}

// Whether no row changes or drops one of the replica's messages.
fn is_faithful_to_all(parts: &PlanParts, input: &FrameIn, sender: u32) -> bool
    requires rows { AreRowsOf parts.now input.now }
    requires sender { sender < parts.now.replicas }
    ensures { result ≡ all_below parts.now.replicas
        (model.is_faithful parts.now input.now sender) }
{
    (0..parts.replicas).all(|receiver| is_faithful(input, sender, receiver))
}

// Whether each of them takes no less and no longer than those of a healthy replica.
fn is_timely_to_all(parts: &PlanParts, input: &FrameIn, sender: u32) -> bool
    requires rows { AreRowsOf parts.now input.now }
    requires sender { sender < parts.now.replicas }
    ensures { result ≡ all_below parts.now.replicas
        (model.is_timely parts.now input.now sender) }
{
    (0..parts.replicas).all(|receiver| is_timely(&parts.timing, input, sender, receiver))
}

// Whether no row takes the replica down, or overwrites its slot, a cell or a command.
#[tactic(auto, unfolding(rcp_model::specs::Health::is_untouched))]
fn is_untouched(input: &FrameIn, replica: u32) -> bool
    requires { replica < input.now.replicas }
    ensures { (plan : PlanParts) → AreRowsOf plan input.now →
        result ≡ model.is_untouched plan input.now replica }
{
    !input.down(replica)
        && input.slot(replica).is_none()
        && has_no_cell(input, replica)
        && has_no_act(input, replica)
}

// Whether no row overwrites a cell of the replica.
fn has_no_cell(input: &FrameIn, replica: u32) -> bool
    requires { replica < input.now.replicas }
    ensures { result ≡ all_below input.now.cells
        (λ cell. is_none (cell_row input.now replica cell)) }
{
    (0..input.cells()).all(|cell| input.cell(replica, cell).is_none())
}

// Whether no row overwrites a command of the replica.
fn has_no_act(input: &FrameIn, replica: u32) -> bool
    requires { replica < input.now.replicas }
    ensures { result ≡ all_below input.now.actuators
        (λ actuator. is_none (act_row input.now replica actuator)) }
{
    (0..input.actuators()).all(|actuator| input.act(replica, actuator).is_none())
}

// Whether the replica's clock is within the bounds of a healthy one.
#[tactic(auto, unfolding(rcp_model::specs::Health::keeps_time))]
fn keeps_time(timing: &Timing, input: &FrameIn, replica: u32) -> bool
    requires replica { replica < input.now.replicas }
    requires drift { pos 0 ≤ℤ timing.now.drift_ppm }
    ensures { (plan : PlanParts) → plan.timing ≡ timing.now →
        result ≡ model.keeps_time plan input.now replica }
{
    let skew = input.skew(replica);
    let rate = input.rate(replica);
    0 <= skew && skew <= timing.skew && -timing.drift_ppm <= rate && rate <= timing.drift_ppm
}

// Whether no row changes or drops the replica's message to a receiver.
#[tactic(auto, unfolding(rcp_model::specs::Health::is_faithful))]
fn is_faithful(input: &FrameIn, sender: u32, receiver: u32) -> bool
    requires sender { sender < input.now.replicas }
    requires receiver { receiver < input.now.replicas }
    ensures { (plan : PlanParts) → AreRowsOf plan input.now →
        result ≡ model.is_faithful plan input.now sender receiver }
{
    !input.dropped(sender, receiver)
        && input.lieslot(sender, receiver).is_none()
        && has_no_lie(input, sender, receiver)
}

// Whether no row sets a value in the message.
fn has_no_lie(input: &FrameIn, sender: u32, receiver: u32) -> bool
    requires sender { sender < input.now.replicas }
    requires receiver { receiver < input.now.replicas }
    ensures { result ≡ all_below input.now.cells
        (λ cell. is_none (lie_row input.now sender receiver cell)) }
{
    (0..input.cells()).all(|cell| input.lie(sender, receiver, cell).is_none())
}

// Whether the message takes no less and no longer than that of a healthy replica.
#[tactic(auto, unfolding(rcp_model::specs::Health::is_timely))]
fn is_timely(timing: &Timing, input: &FrameIn, sender: u32, receiver: u32) -> bool
    requires sender { sender < input.now.replicas }
    requires receiver { receiver < input.now.replicas }
    ensures { (plan : PlanParts) → plan.timing ≡ timing.now →
        result ≡ model.is_timely plan input.now sender receiver }
{
    let delay = input.delay(sender, receiver);
    timing.delay_min <= delay && delay <= timing.delay_max
}
