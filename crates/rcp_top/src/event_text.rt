//! The text of the events of a run over replicas on clocks, frame by frame.
//! After NASA TM-104196; the text is this project's own.
ghost use Rattle.std.specs.Prelude.{◌≡◌, ℕ, [], flat_map, length, Some, OnOk};
ghost use Rattle.rcp_base.specs.Adding.{Adds};
ghost use Rattle.rcp_base.specs.Writing.{Writes};
ghost use Rattle.clocked_layer.specs.Stepped.{RestsAt};
ghost use Rattle.layer_stack.specs.Inputs.{IsHistoryOf};
ghost use Rattle.layer_stack.specs.Run.{StandsFor};
ghost use Rattle.rcp_model.specs.History.{History, past_of};
ghost use Rattle.rcp_top.specs.Events as spec;
ghost use Rattle.trace_text.specs.Lines.{event_line};

use crate::send::add;
use clocked_layer::{Stepped, Timed};
use event_queue::Event;
use layer_stack::{Inputs, Run, run_frames};
use rcp_base::{Sink, WriteError};
use rcp_model::Plan;
use trace_text::{Label, Lines};

// The line of each event.
fn write_each<S: Sink>(
    lines: &mut Lines,
    events: &[Event],
    out: &mut S,
    mut so_far: Result<(), WriteError>,
) -> Result<(), WriteError>
    ensures { Adds (S.state out.old) (S.state out.new) so_far result
        (flat_map event_line events.now) }
{
    for event in events {
        so_far = add(out, so_far, lines.event(event));
    }
    so_far
}

// The lines of frame t, with its events.
fn write_block<S: Sink>(
    lines: &mut Lines,
    events: &[Event],
    t: u32,
    out: &mut S,
    so_far: Result<(), WriteError>,
) -> Result<(), WriteError>
    ensures { Adds (S.state out.old) (S.state out.new) so_far result
        (spec.block_text t events.now) }
{
    let so_far = add(out, so_far, lines.frame(t));
    write_each(lines, events, out, so_far)
}

/// Runs all frames of the inputs, and writes the line of each frame, the lines of its events once it has run, and the end
/// line. Takes no memory but what the sink takes. Each line is one call of the sink.
///
/// The run is one of this plan. It and the inputs are before the first frame. The events come in the order in which the picker
/// of the run's block tells that it will pick; of one that does not tell, no order is said.
pub fn event_lines<B: Stepped, I: Inputs, S: Sink>(
    plan: &Plan,
    run: &mut Run<'_, Timed<B>>,
    inputs: &mut I,
    lines: &mut Lines,
    out: &mut S,
) -> Result<(), WriteError>
    requires plan { run.old.plan.now ≡ plan.now }
    requires start { StandsFor (λ timed. RestsAt (B.rests timed.block)) run.old [] }
    requires inputs { (history : History)
        × I.tells inputs.old plan.now history × IsHistoryOf plan.now history }
    requires first { I.done inputs.old ≡ 0 }
    ensures text { (history : History) (answers : ℕ → ℕ)
        → I.tells inputs.old plan.now history → IsHistoryOf plan.now history
        → B.answers run.old.layer.block ≡ Some answers
        → Writes (S.state out.old) (S.state out.new) result
        (spec.events_text plan.now answers history) }
    ensures stands { (history : History)
        → I.tells inputs.old plan.now history → IsHistoryOf plan.now history
        → StandsFor (λ timed. RestsAt (B.rests timed.block)) run.new
        (past_of history (I.done inputs.new)) }
    ensures all { (history : History) → I.tells inputs.old plan.now history
        → OnOk result (I.done inputs.new ≡ length history) }
    ensures history { (history : History) → I.tells inputs.old plan.now history
        → I.tells inputs.new plan.now history }
    ensures plan { run.new.plan ≡ run.old.plan }
    ensures length { run.new.length ≡ run.old.length }
{
    let frames = inputs.frames();
    let mut so_far = Ok(());
    for t in 0..frames {
        run_frames(run, inputs, 1);
        so_far = write_block(lines, run.layer().block().log(), t, out, so_far);
        if so_far.is_err() {
            return so_far;
        }
    }
    add(out, so_far, lines.count(Label::End, frames as u64))
}
