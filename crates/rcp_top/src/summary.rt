//! `summary FILE JOURNAL`: what a run of the replicas on clocks amounts to.
//! After NASA TM-102716; the text is this project's own.
ghost use Rattle.std.specs.Prelude.{◌≡◌, ◌≤◌, ℕ, [], length};
ghost use Rattle.rcp_base.specs.Writing.{Writes};
ghost use Rattle.fault_journal.specs.Telling.{IsJournalOf, history_in};
ghost use Rattle.layer_stack.specs.Inputs.{IsHistoryOf};
ghost use Rattle.layer_stack.specs.Run.{StandsFor};
ghost use Rattle.rcp_model.specs.History.{History, past_of};
ghost use Rattle.rcp_model.specs.System.{initial_state};
ghost use Rattle.rcp_top.specs.Frames.{ShowsRun};
ghost use Rattle.rcp_top.specs.Summary as spec;
ghost use Rattle.rcp_top.specs.Summary.{summary_for};

use crate::counts::Counts;
use crate::form::Summary;
use crate::layers::Layers;
use crate::read::RunFiles;
use crate::shown::Shown;
use clocked_layer::Timed;
use fault_journal::Journal;
use layer_stack::{Inputs, Layer, Run, run_frames};
use rcp_base::{Sink, WriteError};
use rcp_model::Plan;
use std::alloc::Global;
use trace_text::{Label, Lines};

impl Shown for RunFiles<Summary> {
    ghost shows = { ShowsRun summary_for };

    fn write<S: Sink, K: Layers>(
        self,
        alloc: Global,
        layers: &mut K,
        lines: &mut Lines,
        out: &mut S,
    ) -> Result<(), WriteError> {
        let mut journal = self.journal;
        let plan = &self.judged.plan;
        let length = self.judged.length;
        let layer = Timed::new(layers.da(alloc, plan)?);
        write_over(alloc, lines, plan, length, layer, &mut journal, out)
    }
}

// Writes what the frames of a journal amount to, by a layer before the first frame.
fn write_over<L: Layer + Drop, S: Sink>(
    alloc: Global,
    lines: &mut Lines,
    plan: &Plan,
    length: u32,
    layer: L,
    journal: &mut Journal,
    out: &mut S,
) -> Result<(), WriteError>
    requires layer { L.is_at layer plan.now (initial_state plan.now) }
    requires length { 1 ≤ length }
    requires journal { IsJournalOf plan.now journal.old }
    ensures { Writes (S.state out.old) (S.state out.new) result
        (spec.summary_text plan.now length (history_in plan.now journal.old)) }
{
    let mut run = Run::new(alloc, plan, length, layer)?;
    write_run(lines, plan, length, &mut run, journal, out)
}

// Writes the recovery length of a run before its first frame, and then what all its frames amount to.
fn write_run<L: Layer, S: Sink>(
    lines: &mut Lines,
    plan: &Plan,
    length: u32,
    run: &mut Run<'_, L>,
    journal: &mut Journal,
    out: &mut S,
) -> Result<(), WriteError>
    requires plan { run.old.plan.now ≡ plan.now }
    requires length { run.old.length ≡ length }
    requires start { StandsFor L.is_at run.old [] }
    requires journal { IsJournalOf plan.now journal.old }
    ensures { Writes (S.state out.old) (S.state out.new) result
        (spec.summary_text plan.now length (history_in plan.now journal.old)) }
{
    out.write_all(lines.count(Label::Recovery, length as u64))?;
    summary_lines(plan, run, journal, lines, out)
}

/// Runs all frames of the inputs, and writes how many there are and what they amount to.
/// Takes no memory but what the sink takes. Each line is one call of the sink.
///
/// The run is one of this plan. It and the inputs are before the first frame.
pub fn summary_lines<L: Layer, I: Inputs, S: Sink>(
    plan: &Plan,
    run: &mut Run<'_, L>,
    inputs: &mut I,
    lines: &mut Lines,
    out: &mut S,
) -> Result<(), WriteError>
    requires plan { run.old.plan.now ≡ plan.now }
    requires start { StandsFor L.is_at run.old [] }
    requires inputs { (history : History)
        × I.tells inputs.old plan.now history × IsHistoryOf plan.now history }
    requires first { I.done inputs.old ≡ 0 }
    ensures text { (history : History)
        → I.tells inputs.old plan.now history → IsHistoryOf plan.now history
        → Writes (S.state out.old) (S.state out.new) result
        (spec.sum_text plan.now run.old.length history) }
    ensures stands { (history : History)
        → I.tells inputs.old plan.now history → IsHistoryOf plan.now history
        → StandsFor L.is_at run.new (past_of history (I.done inputs.new)) }
    ensures all { (history : History) → I.tells inputs.old plan.now history
        → I.done inputs.new ≡ length history }
    ensures history { (history : History) → I.tells inputs.old plan.now history
        → I.tells inputs.new plan.now history }
    ensures plan { run.new.plan ≡ run.old.plan }
    ensures length { run.new.length ≡ run.old.length }
{
    let frames = inputs.frames();
    let mut counts = Counts::new();
    for _frame in 0..frames {
        run_frames(run, inputs, 1);
        counts = counts.with_frame(plan, run);
    }
    counts.write(frames, lines, out)
}
