//! A run over a layer: what it has seen of a history, and what the replicas vote.
//! After NASA TM-102716.
ghost use Rattle.std.specs.Prelude.{◌≡◌, ◌<◌, ◌≤◌, ◌+◌, ◌↔◌, ℕ, suc, IsTrue, IfOk, length, slice_get, Some, List, []};
ghost use Rattle.rcp_base.specs.Tables.{table};
ghost use Rattle.rcp_model.specs.declared.plan.PlanParts.{PlanParts};
ghost use Rattle.rcp_model.specs.FrameRows.{FrameRows};
ghost use Rattle.rcp_model.specs.FrameRows as rows;
ghost use Rattle.rcp_model.specs.Health.{is_working, MeetsGuard};
ghost use Rattle.rcp_model.specs.History.{History, past_of};
ghost use Rattle.rcp_model.specs.PlanGraph.{graph_of_plan};
ghost use Rattle.rcp_model.specs.System.{SystemState, actuator_vote, initial_state, state_after};
ghost use Rattle.rcp_model.specs.Walk.{HasNoWalk};
ghost use Rattle.layer_stack.specs.Recovery.{MatchesIdeal};
ghost use Rattle.layer_stack.specs.Run.{CanRun, IsStanding, StandsFor, last_rows};

use crate::frame_in::FrameIn;
use crate::inputs::Inputs;
use crate::laws::replicas_recover;
use crate::layer::Layer;
use crate::streaks::{count_frame, full_streaks, has_healthy_majority};
use majority_vote::majority;
use rcp_base::{MAX_REPLICAS, Memory};
use rcp_model::Plan;
use std::alloc::Global;

/// A layer that runs a plan, and the health that was seen so far for a recovery length in frames.
/// It keeps counts, and no history.
#[derive(Drop)]
pub struct Run<'p, L> {
    plan: &'p Plan,
    length: u32,
    layer: L,
    // For how many frames each replica has been healthy, up to one more than the length.
    streaks: Vec<u64>,
    guard: bool,
    // The rows of the last frame.
    input: FrameIn,
}

impl<'p, L: Layer + Drop> Run<'p, L> {
    /// A run before the first frame, over a layer before the first frame of this plan.
    pub fn new(alloc: Global, plan: &'p Plan, length: u32, layer: L) -> Result<Run<'p, L>, Memory>
        requires layer { L.is_at layer plan.now (initial_state plan.now) }
        requires length { 1 ≤ length }
        ensures stands { IfOk result (λ run. StandsFor L.is_at run []) }
        ensures plan { IfOk result (λ run. run.plan.now ≡ plan.now) }
        ensures length { IfOk result (λ run. run.length ≡ length) }
        ensures layer { IfOk result (λ run. run.layer ≡ layer) }
    {
        let input = FrameIn::new(alloc, plan)?;
        let streaks = full_streaks(alloc, plan, length)?;
        Ok(Run {
            plan,
            length,
            layer,
            streaks,
            guard: true,
            input,
        })
    }
}

impl<'p, L: Layer> Run<'p, L> {
    /// Whether in each frame so far more than half of the replicas were healthy through it and the length before it.
    pub fn guard(&self) -> bool
        ensures { (past : List FrameRows) → StandsFor L.is_at self.now past
            → IsTrue result ↔ MeetsGuard self.now.plan.now self.now.length past }
    {
        self.guard
    }

    /// Whether a replica was healthy in the last frames, as many as the length.
    pub fn working(&self, replica: u32) -> bool
        requires stands { IsStanding L.is_at self.now }
        requires replica { replica < self.now.plan.now.replicas }
        ensures { (past : List FrameRows) → StandsFor L.is_at self.now past
            → result ≡ is_working self.now.plan.now self.now.length past replica }
    {
        u64::from(self.length) <= self.streaks[replica as usize]
    }

    /// Whether a replica was down in the last frame. None was before the first.
    pub fn is_down(&self, replica: u32) -> bool
        requires stands { IsStanding L.is_at self.now }
        requires replica { replica < self.now.plan.now.replicas }
        ensures { (past : List FrameRows) → StandsFor L.is_at self.now past
            → result ≡ rows.is_down (last_rows self.now.plan.now past) replica }
    {
        self.input.down(replica)
    }

    /// The command that more than half of all replicas gave to an actuator in the last frame.
    /// `None` where there is no such command, and before the first frame.
    pub fn vote(&self, actuator: u32) -> Option<i64>
        requires stands { IsStanding L.is_at self.now }
        requires actuator { actuator < length self.now.plan.now.actuators }
        ensures { (past : List FrameRows) → StandsFor L.is_at self.now past
            → let plan = self.now.plan.now in
            result ≡ actuator_vote plan (state_after plan past) actuator }
    {
        voted_command(self.plan, &self.layer, actuator)
    }

    /// The layer.
    pub fn layer(&self) -> &L
        ensures { result.now ≡ self.now.layer }
    {
        &self.layer
    }
}

// The command that more than half of all replicas gave to an actuator.
#[tactic(auto, unfolding(rcp_model::specs::System::actuator_vote, rcp_model::specs::Command::voted_command))]
fn voted_command<L: Layer>(plan: &Plan, layer: &L, actuator: u32) -> Option<i64>
    requires at { (state : SystemState) × L.is_at layer.now plan.now state }
    requires actuator { actuator < length plan.now.actuators }
    ensures { (state : SystemState) → L.is_at layer.now plan.now state
        → result ≡ actuator_vote plan.now state actuator }
{
    let replicas = plan.parts().replicas;
    let mut commands = [None; MAX_REPLICAS];
    for replica in 0..replicas {
        commands[replica as usize] = layer.command(replica, actuator);
    }
    majority(&commands[..replicas as usize])
}

// Runs one more frame.
fn run_frame<L: Layer, I: Inputs>(run: &mut Run<'_, L>, inputs: &mut I)
    requires ready { (history : History) × I.tells inputs.old run.old.plan.now history
        × CanRun L.is_at run.old history (I.done inputs.old) 1 }
    ensures stands { (history : History) → I.tells inputs.old run.old.plan.now history
        → CanRun L.is_at run.old history (I.done inputs.old) 1
        → StandsFor L.is_at run.new (past_of history (I.done inputs.new)) }
    ensures went { (history : History) (rows : FrameRows)
        → I.tells inputs.old run.old.plan.now history
        → CanRun L.is_at run.old history (I.done inputs.old) 1
        → slice_get history (I.done inputs.old) ≡ Some rows
        → L.went run.old.layer rows run.new.layer }
    ensures history { (history : History) → I.tells inputs.old run.old.plan.now history
        → I.tells inputs.new run.new.plan.now history }
    ensures done { I.done inputs.new ≡ suc (I.done inputs.old) }
    ensures plan { run.new.plan ≡ run.old.plan }
    ensures length { run.new.length ≡ run.old.length }
{
    inputs.fill(&mut run.input);
    run.layer.frame(&run.input);
    count_frame(run.plan, &run.input, run.length, &mut run.streaks);
    run.guard = run.guard & has_healthy_majority(run.length, run.streaks.as_slice());
}

/// Runs so many more frames. Takes no memory.
///
/// After them the run stands for all frames of the inputs that are done. Under the guard, its working replicas hold and its
/// votes are what the single processor holds and commands, where no unvoted walk of the plan has as many nodes as its length.
pub fn run_frames<L: Layer, I: Inputs>(run: &mut Run<'_, L>, inputs: &mut I, count: u32)
    requires ready { (history : History) × I.tells inputs.old run.old.plan.now history
        × CanRun L.is_at run.old history (I.done inputs.old) count }
    ensures stands { (history : History) → I.tells inputs.old run.old.plan.now history
        → CanRun L.is_at run.old history (I.done inputs.old) count
        → StandsFor L.is_at run.new (past_of history (I.done inputs.new)) }
    ensures recovers { (history : History) → I.tells inputs.old run.old.plan.now history
        → CanRun L.is_at run.old history (I.done inputs.old) count
        → let plan = run.new.plan.now in let past = past_of history (I.done inputs.new) in
        HasNoWalk (graph_of_plan plan) run.new.length → MeetsGuard plan run.new.length past
        → MatchesIdeal plan run.new.length (state_after plan past) past }
    ensures went { (history : History) (rows : FrameRows) → count ≡ 1
        → I.tells inputs.old run.old.plan.now history
        → CanRun L.is_at run.old history (I.done inputs.old) count
        → slice_get history (I.done inputs.old) ≡ Some rows
        → L.went run.old.layer rows run.new.layer }
    ensures history { (history : History) → I.tells inputs.old run.old.plan.now history
        → I.tells inputs.new run.new.plan.now history }
    ensures done { I.done inputs.new ≡ I.done inputs.old + count }
    ensures plan { run.new.plan ≡ run.old.plan }
    ensures length { run.new.length ≡ run.old.length }
{
    for _frame in 0..count {
        run_frame(run, inputs);
    }
    replicas_recover();
}
