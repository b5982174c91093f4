//! `replay FILE JOURNAL`, alone or with the word of a layer: the run of the replicated system.
//! After NASA TM-102716; the text is this project's own.
ghost use Rattle.std.specs.Prelude.{◌≡◌, ◌≤◌, []};
ghost use Rattle.rcp_base.specs.Writing.{Writes};
ghost use Rattle.fault_journal.specs.Telling.{IsJournalOf, history_in};
ghost use Rattle.layer_stack.specs.Run.{StandsFor};
ghost use Rattle.rcp_model.specs.System.{initial_state};
ghost use Rattle.rcp_top.specs.Frames.{ShowsRun};
ghost use Rattle.rcp_top.specs.Replay as spec;
ghost use Rattle.rcp_top.specs.Replay.{replay_for};

use crate::form::LayerWord;
use crate::layers::Layers;
use crate::read::RunFiles;
use crate::replay_text::replay_lines;
use crate::shown::Shown;
use clocked_layer::Timed;
use fault_journal::Journal;
use layer_stack::{Layer, Run};
use rcp_base::{Sink, WriteError};
use rcp_model::Plan;
use std::alloc::Global;
use trace_text::{Label, Lines};

impl Shown for RunFiles<LayerWord> {
    ghost shows = { ShowsRun replay_for };

    fn write<S: Sink, K: Layers>(
        self,
        alloc: Global,
        layers: &mut K,
        lines: &mut Lines,
        out: &mut S,
    ) -> Result<(), WriteError> {
        let layer = self.asked;
        let mut journal = self.journal;
        let plan = &self.judged.plan;
        let length = self.judged.length;
        match layer {
            LayerWord::Rs => {
                write_in_one_step(alloc, layers, lines, plan, length, &mut journal, out)
            }
            LayerWord::Ds => write_in_phases(alloc, layers, lines, plan, length, &mut journal, out),
            LayerWord::Da => write_on_clocks(alloc, layers, lines, plan, length, &mut journal, out),
        }
    }
}

// Writes the recovery length of a run before its first frame, and then all its frames.
fn write_run<L: Layer, S: Sink>(
    lines: &mut Lines,
    plan: &Plan,
    length: u32,
    run: &mut Run<'_, L>,
    journal: &mut Journal,
    out: &mut S,
) -> Result<(), WriteError>
    requires plan { run.old.plan.now ≡ plan.now }
    requires length { run.old.length ≡ length }
    requires start { StandsFor L.is_at run.old [] }
    requires journal { IsJournalOf plan.now journal.old }
    ensures { Writes (S.state out.old) (S.state out.new) result
        (spec.replay_text plan.now length (history_in plan.now journal.old)) }
{
    out.write_all(lines.count(Label::Recovery, length as u64))?;
    replay_lines(plan, run, journal, lines, out)
}

// Writes the text of the replicated system over the frames of a journal, by a layer before the first frame.
fn write_over<L: Layer + Drop, S: Sink>(
    alloc: Global,
    lines: &mut Lines,
    plan: &Plan,
    length: u32,
    layer: L,
    journal: &mut Journal,
    out: &mut S,
) -> Result<(), WriteError>
    requires layer { L.is_at layer plan.now (initial_state plan.now) }
    requires length { 1 ≤ length }
    requires journal { IsJournalOf plan.now journal.old }
    ensures { Writes (S.state out.old) (S.state out.new) result
        (spec.replay_text plan.now length (history_in plan.now journal.old)) }
{
    let mut run = Run::new(alloc, plan, length, layer)?;
    write_run(lines, plan, length, &mut run, journal, out)
}

// The same by the replicas in one step.
fn write_in_one_step<S: Sink, K: Layers>(
    alloc: Global,
    layers: &mut K,
    lines: &mut Lines,
    plan: &Plan,
    length: u32,
    journal: &mut Journal,
    out: &mut S,
) -> Result<(), WriteError>
    requires length { 1 ≤ length }
    requires journal { IsJournalOf plan.now journal.old }
    ensures { Writes (S.state out.old) (S.state out.new) result
        (spec.replay_text plan.now length (history_in plan.now journal.old)) }
{
    let layer = layers.rs(alloc, plan)?;
    write_over(alloc, lines, plan, length, layer, journal, out)
}

// The same by the replicas in phases.
fn write_in_phases<S: Sink, K: Layers>(
    alloc: Global,
    layers: &mut K,
    lines: &mut Lines,
    plan: &Plan,
    length: u32,
    journal: &mut Journal,
    out: &mut S,
) -> Result<(), WriteError>
    requires length { 1 ≤ length }
    requires journal { IsJournalOf plan.now journal.old }
    ensures { Writes (S.state out.old) (S.state out.new) result
        (spec.replay_text plan.now length (history_in plan.now journal.old)) }
{
    let layer = layers.ds(alloc, plan)?;
    write_over(alloc, lines, plan, length, layer, journal, out)
}

// The same by the replicas on clocks.
fn write_on_clocks<S: Sink, K: Layers>(
    alloc: Global,
    layers: &mut K,
    lines: &mut Lines,
    plan: &Plan,
    length: u32,
    journal: &mut Journal,
    out: &mut S,
) -> Result<(), WriteError>
    requires length { 1 ≤ length }
    requires journal { IsJournalOf plan.now journal.old }
    ensures { Writes (S.state out.old) (S.state out.new) result
        (spec.replay_text plan.now length (history_in plan.now journal.old)) }
{
    let layer = Timed::new(layers.da(alloc, plan)?);
    write_over(alloc, lines, plan, length, layer, journal, out)
}
