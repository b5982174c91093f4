//! The replicated system in one step runs the worked cases.
//! This project's own.
use crate::kinds::{Kind, check_worked};
use rcp_base::Memory;
use rcp_model::Plan;
use replica_layer::Replicated;
use std::alloc::Global;
use std::test::Fail;

/// In one step.
pub struct InOneStep;

impl Kind for InOneStep {
    type Made = Replicated;

    fn fresh(&self, alloc: Global, plan: &Plan) -> Result<Replicated, Memory> {
        Replicated::new(alloc, plan)
    }
}

#[test]
fn in_one_step_the_worked_cases_run(rt: HostRuntime) -> Result<(), Fail> {
    check_worked(&rt, rt.alloc(), &InOneStep)
}
