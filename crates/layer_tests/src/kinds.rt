//! Kinds of layers, and the worked cases that a layer of each kind runs.
//! This project's own.
use crate::cases::Case;
use crate::shown::{check_frames, check_start, check_votes};
use crate::worked::{COUNTER_RUNS, MOTOR_FRAMES, MOTOR_RUNS, MOTOR_VOTES, START};
use layer_stack::Layer;
use rcp_base::Memory;
use rcp_model::Plan;
use std::alloc::Global;
use std::process::Abort;
use std::test::Fail;

/// A kind of layer.
pub trait Kind {
    ghost use Rattle.std.specs.Prelude.{IfOk};
    ghost use Rattle.rcp_model.specs.System.{initial_state};

    type Made: Layer + Drop;

    /// A layer of this kind over a plan, before the first frame.
    fn fresh(&self, alloc: Global, plan: &Plan) -> Result<Self::Made, Memory>
        ensures { IfOk result (λ layer.
            Self.Made.is_at layer plan.now (initial_state plan.now)) };
}

// After each frame of a case a fresh layer shows what the case says.
fn check_each_frame<K: Kind>(
    rt: &impl Abort,
    alloc: Global,
    kind: &K,
    block: &str,
) -> Result<(), Fail> {
    let case = Case::read(alloc, block)?;
    let plan = case.plan(alloc)?;
    let layer = kind.fresh(alloc, &plan)?;
    check_frames(rt, alloc, &case, &plan, layer)
}

// Before the first frame it shows what the case says.
fn check_before<K: Kind>(
    rt: &impl Abort,
    alloc: Global,
    kind: &K,
    block: &str,
) -> Result<(), Fail> {
    let case = Case::read(alloc, block)?;
    let plan = case.plan(alloc)?;
    let layer = kind.fresh(alloc, &plan)?;
    check_start(rt, alloc, &case, &plan, layer)
}

// What it heard, voted and commands in the last frame of a case is what the case says.
fn check_voted<K: Kind>(rt: &impl Abort, alloc: Global, kind: &K, block: &str) -> Result<(), Fail> {
    let case = Case::read(alloc, block)?;
    let plan = case.plan(alloc)?;
    let layer = kind.fresh(alloc, &plan)?;
    check_votes(rt, alloc, &case, &plan, layer)
}

// Each frame of each of these cases.
fn check_runs<K: Kind>(rt: &impl Abort, alloc: Global, kind: &K, cases: &str) -> Result<(), Fail> {
    for block in cases.split("\n\n") {
        check_each_frame(rt, alloc, kind, block)?;
    }
    Ok(())
}

// The last frame of each of these cases.
fn check_all_voted<K: Kind>(
    rt: &impl Abort,
    alloc: Global,
    kind: &K,
    cases: &str,
) -> Result<(), Fail> {
    for block in cases.split("\n\n") {
        check_voted(rt, alloc, kind, block)?;
    }
    Ok(())
}

/// A layer of this kind starts as the plan says, passes faults of the motor, masks a fault of one frame, votes the counter by
/// majority and by the median, and votes what it hears.
pub fn check_worked<K: Kind>(rt: &impl Abort, alloc: Global, kind: &K) -> Result<(), Fail> {
    check_before(rt, alloc, kind, START)?;
    check_runs(rt, alloc, kind, MOTOR_RUNS)?;
    check_runs(rt, alloc, kind, MOTOR_FRAMES)?;
    check_runs(rt, alloc, kind, COUNTER_RUNS)?;
    check_all_voted(rt, alloc, kind, MOTOR_VOTES)
}
