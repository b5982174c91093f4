//! The text of a run over any layer, frame by frame.
//! After NASA TM-102716; the text is this project's own.
ghost use Rattle.std.specs.Prelude.{◌≡◌, ◌<◌, ◌≤◌, ℕ, List, [], ◌∷◌, length, take, OnOk};
ghost use Rattle.rcp_base.specs.Adding.{Adds};
ghost use Rattle.rcp_base.specs.declared.TheConstants.{MAX_CELLS};
ghost use Rattle.rcp_base.specs.Tables.{table};
ghost use Rattle.rcp_base.specs.Writing.{Writes};
ghost use Rattle.layer_stack.specs.Inputs.{IsHistoryOf};
ghost use Rattle.layer_stack.specs.Layer.{cell_in};
ghost use Rattle.layer_stack.specs.Run.{IsStanding, StandsFor};
ghost use Rattle.rcp_model.specs.declared.plan.PlanParts.{PlanParts};
ghost use Rattle.rcp_model.specs.FrameRows.{FrameRows};
ghost use Rattle.rcp_model.specs.History.{History, past_of};
ghost use Rattle.rcp_model.specs.System.{SystemState};
ghost use Rattle.rcp_top.specs.Replay as spec;

use crate::send::add;
use layer_stack::{Inputs, Layer, Run, run_frames};
use rcp_base::{MAX_CELLS, Sink, WriteError};
use rcp_model::Plan;
use trace_text::{Label, Lines};

// The cells of a replica, in the first places.
fn cells_of<L: Layer>(layer: &L, replica: u32, count: usize) -> [i64; MAX_CELLS]
    requires few { count ≤ MAX_CELLS }
    requires at { (plan : PlanParts) × (state : SystemState) × L.is_at layer.now plan state
        × (replica < plan.replicas) × (count ≡ length plan.cells) }
    ensures { (plan : PlanParts) (state : SystemState) → L.is_at layer.now plan state
        → replica < plan.replicas → count ≡ length plan.cells
        → take count result ≡ table count (cell_in state replica) }
{
    let mut cells = [0; MAX_CELLS];
    for cell in 0..count {
        cells[cell] = layer.cell(replica, cell as u32);
    }
    cells
}

// The line of a replica, with what it holds after the last frame.
fn write_replica<L: Layer, S: Sink>(
    lines: &mut Lines,
    plan: &Plan,
    run: &Run<'_, L>,
    replica: u32,
    out: &mut S,
    so_far: Result<(), WriteError>,
) -> Result<(), WriteError>
    requires plan { run.now.plan.now ≡ plan.now }
    requires replica { replica < plan.now.replicas }
    requires stands { IsStanding L.is_at run.now }
    ensures { (rows : FrameRows) (past : List FrameRows)
        → StandsFor L.is_at run.now (rows ∷ past)
        → Adds (S.state out.old) (S.state out.new) so_far result
        (spec.held_line plan.now run.now.length rows past replica) }
{
    let layer = run.layer();
    let count = plan.parts().cells.len();
    let cells = cells_of(layer, replica, count);
    let down = run.is_down(replica);
    let working = run.working(replica);
    add(
        out,
        so_far,
        lines.replica(replica, down, layer.slot(replica), &cells[..count], working),
    )
}

// A line for each replica.
fn write_replicas<L: Layer, S: Sink>(
    lines: &mut Lines,
    plan: &Plan,
    run: &Run<'_, L>,
    out: &mut S,
    mut so_far: Result<(), WriteError>,
) -> Result<(), WriteError>
    requires plan { run.now.plan.now ≡ plan.now }
    requires stands { IsStanding L.is_at run.now }
    ensures { (rows : FrameRows) (past : List FrameRows)
        → StandsFor L.is_at run.now (rows ∷ past)
        → Adds (S.state out.old) (S.state out.new) so_far result
        (spec.held_lines plan.now run.now.length rows past) }
{
    for replica in 0..plan.parts().replicas {
        so_far = write_replica(lines, plan, run, replica, out, so_far);
    }
    so_far
}

// The line of an actuator, with what was voted for it in the last frame.
fn write_vote<L: Layer, S: Sink>(
    lines: &mut Lines,
    plan: &Plan,
    run: &Run<'_, L>,
    actuator: u32,
    out: &mut S,
    so_far: Result<(), WriteError>,
) -> Result<(), WriteError>
    requires plan { run.now.plan.now ≡ plan.now }
    requires actuator { actuator < length plan.now.actuators }
    requires stands { IsStanding L.is_at run.now }
    ensures { (past : List FrameRows) → StandsFor L.is_at run.now past
        → Adds (S.state out.old) (S.state out.new) so_far result
        (spec.voted_line plan.now past actuator) }
{
    let name = &plan.parts().actuators.as_slice()[actuator as usize].name;
    add(out, so_far, lines.vote(name, run.vote(actuator)))
}

// A line for each actuator.
fn write_votes<L: Layer, S: Sink>(
    lines: &mut Lines,
    plan: &Plan,
    run: &Run<'_, L>,
    out: &mut S,
    mut so_far: Result<(), WriteError>,
) -> Result<(), WriteError>
    requires plan { run.now.plan.now ≡ plan.now }
    requires stands { IsStanding L.is_at run.now }
    ensures { (past : List FrameRows) → StandsFor L.is_at run.now past
        → Adds (S.state out.old) (S.state out.new) so_far result
        (spec.voted_lines plan.now past) }
{
    for actuator in 0..plan.parts().actuators.len() {
        so_far = write_vote(lines, plan, run, actuator as u32, out, so_far);
    }
    so_far
}

// The lines of frame t, the last for which the run stands.
fn write_frame<L: Layer, S: Sink>(
    lines: &mut Lines,
    plan: &Plan,
    run: &Run<'_, L>,
    t: u32,
    out: &mut S,
    so_far: Result<(), WriteError>,
) -> Result<(), WriteError>
    requires plan { run.now.plan.now ≡ plan.now }
    requires stands { IsStanding L.is_at run.now }
    ensures { (rows : FrameRows) (past : List FrameRows)
        → StandsFor L.is_at run.now (rows ∷ past) → t ≡ length past
        → Adds (S.state out.old) (S.state out.new) so_far result
        (spec.replay_frame_text plan.now run.now.length rows past) }
{
    let so_far = add(out, so_far, lines.frame_guard(t, run.guard()));
    let so_far = write_votes(lines, plan, run, out, so_far);
    write_replicas(lines, plan, run, out, so_far)
}

/// Runs all frames of the inputs, and writes the lines of each frame and the end line.
/// Takes no memory but what the sink takes. Each line is one call of the sink.
///
/// The run is one of this plan. It and the inputs are before the first frame.
pub fn replay_lines<L: Layer, I: Inputs, S: Sink>(
    plan: &Plan,
    run: &mut Run<'_, L>,
    inputs: &mut I,
    lines: &mut Lines,
    out: &mut S,
) -> Result<(), WriteError>
    requires plan { run.old.plan.now ≡ plan.now }
    requires start { StandsFor L.is_at run.old [] }
    requires inputs { (history : History)
        × I.tells inputs.old plan.now history × IsHistoryOf plan.now history }
    requires first { I.done inputs.old ≡ 0 }
    ensures text { (history : History)
        → I.tells inputs.old plan.now history → IsHistoryOf plan.now history
        → Writes (S.state out.old) (S.state out.new) result
        (spec.run_text plan.now run.old.length history) }
    ensures stands { (history : History)
        → I.tells inputs.old plan.now history → IsHistoryOf plan.now history
        → StandsFor L.is_at run.new (past_of history (I.done inputs.new)) }
    ensures all { (history : History) → I.tells inputs.old plan.now history
        → OnOk result (I.done inputs.new ≡ length history) }
    ensures history { (history : History) → I.tells inputs.old plan.now history
        → I.tells inputs.new plan.now history }
    ensures plan { run.new.plan ≡ run.old.plan }
    ensures length { run.new.length ≡ run.old.length }
{
    let frames = inputs.frames();
    let mut so_far = Ok(());
    for t in 0..frames {
        run_frames(run, inputs, 1);
        so_far = write_frame(lines, plan, run, t, out, so_far);
        if so_far.is_err() {
            return so_far;
        }
    }
    add(out, so_far, lines.count(Label::End, frames as u64))
}
