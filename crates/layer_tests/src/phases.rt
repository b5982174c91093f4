//! The replicated system in phases runs the worked cases, and tells what the one in one step tells.
//! This project's own.
ghost use Rattle.std.specs.Prelude.{◌≡◌, ◌<◌, length};
ghost use Rattle.distributed_layer.specs.Comparing.{AreBothAt};
ghost use Rattle.rcp_model.specs.System.{SystemState, initial_state};

use crate::cases::Case;
use crate::kinds::{Kind, check_worked};
use crate::replicas::InOneStep;
use crate::worked::START;
use distributed_layer::{Distributed, frame_of_both, tell_the_same};
use layer_stack::{FrameIn, Layer};
use rcp_base::Memory;
use rcp_model::Plan;
use std::alloc::Global;
use std::process::Abort;
use std::test::Fail;

/// In phases.
struct InPhases;

impl Kind for InPhases {
    type Made = Distributed;

    fn fresh(&self, alloc: Global, plan: &Plan) -> Result<Distributed, Memory> {
        Distributed::new(alloc, plan)
    }
}

#[test]
fn in_phases_the_worked_cases_run(rt: HostRuntime) -> Result<(), Fail> {
    check_worked(&rt, rt.alloc(), &InPhases)
}

// Of each cell, of the first actuator and of a sender.
fn check_same<L: Layer, M: Layer>(
    rt: &impl Abort,
    plan: &Plan,
    one: &L,
    other: &M,
    replica: u32,
    from: u32,
)
    requires at { (state : SystemState)
        × AreBothAt (L.is_at one.now) (M.is_at other.now) plan.now state }
    requires replica { replica < plan.now.replicas }
    requires from { from < plan.now.replicas }
    requires actuator { 0 < length plan.now.actuators }
{
    for cell in 0..plan.parts().cells.len() as u32 {
        assert!(rt;
            tell_the_same(one, other, replica, from, cell, 0),
            "{replica} {cell}"
        );
    }
}

// Two layers before the first frame of a plan tell the same after a frame, by whichever kinds of layer.
fn check_frame<L: Layer + Drop, M: Layer + Drop>(
    rt: &impl Abort,
    alloc: Global,
    plan: &Plan,
    mut one: L,
    mut other: M,
) -> Result<(), Fail>
    requires one { L.is_at one plan.now (initial_state plan.now) }
    requires other { M.is_at other plan.now (initial_state plan.now) }
{
    assert!(rt; 0 < plan.parts().actuators.len());
    let input = FrameIn::new(alloc, plan)?;
    frame_of_both(&mut one, &mut other, &input);
    for replica in 0..plan.parts().replicas {
        check_same(rt, plan, &one, &other, replica, 0);
    }
    Ok(())
}

// A layer tells the same as a fresh one of a kind.
fn check_against<L: Layer + Drop, M: Kind>(
    rt: &impl Abort,
    alloc: Global,
    plan: &Plan,
    one: L,
    kind: &M,
) -> Result<(), Fail>
    requires { L.is_at one plan.now (initial_state plan.now) }
{
    let other = kind.fresh(alloc, plan)?;
    check_frame(rt, alloc, plan, one, other)
}

// Fresh layers of two kinds tell the same.
fn check_kinds<K: Kind, M: Kind>(
    rt: &impl Abort,
    alloc: Global,
    one: &K,
    other: &M,
) -> Result<(), Fail> {
    let case = Case::read(alloc, START)?;
    let plan = case.plan(alloc)?;
    let layer = one.fresh(alloc, &plan)?;
    check_against(rt, alloc, &plan, layer, other)
}

#[test]
fn in_one_step_and_in_phases_the_same_is_told(rt: HostRuntime) -> Result<(), Fail> {
    check_kinds(&rt, rt.alloc(), &InOneStep, &InPhases)
}
