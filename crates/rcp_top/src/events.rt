//! `events FILE JOURNAL first`, or `last`: the timed events of the replicas on clocks.
//! After NASA TM-104196; the text is this project's own.
ghost use Rattle.std.specs.Prelude.{◌≡◌, ◌≤◌, ℕ, Some};
ghost use Rattle.rcp_base.specs.Writing.{Writes};
ghost use Rattle.clocked_layer.specs.Stepped.{no_mail};
ghost use Rattle.fault_journal.specs.Telling.{IsJournalOf, history_in};
ghost use Rattle.rcp_model.specs.System.{initial_state};
ghost use Rattle.rcp_top.specs.Events as spec;
ghost use Rattle.rcp_top.specs.Events.{answers_of, events_for};
ghost use Rattle.rcp_top.specs.Frames.{ShowsRun};
ghost use Rattle.rcp_top.specs.declared.form.EventOrder.TheVariants as order;

use crate::event_text::event_lines;
use crate::form::EventOrder;
use crate::layers::Layers;
use crate::read::RunFiles;
use crate::shown::Shown;
use clocked_layer::{Stepped, Timed};
use fault_journal::Journal;
use layer_stack::Run;
use rcp_base::{Sink, WriteError};
use rcp_model::Plan;
use std::alloc::Global;
use trace_text::Lines;

impl Shown for RunFiles<EventOrder> {
    ghost shows = { ShowsRun events_for };

    fn write<S: Sink, K: Layers>(
        self,
        alloc: Global,
        layers: &mut K,
        lines: &mut Lines,
        out: &mut S,
    ) -> Result<(), WriteError> {
        let order = self.asked;
        let mut journal = self.journal;
        let plan = &self.judged.plan;
        let length = self.judged.length;
        match order {
            EventOrder::First => write_first(alloc, layers, lines, plan, length, &mut journal, out),
            EventOrder::Last => write_last(alloc, layers, lines, plan, length, &mut journal, out),
        }
    }
}

// Writes the events of all frames of a journal, by replicas before the first frame.
fn write_events<B: Stepped + Drop, S: Sink>(
    alloc: Global,
    lines: &mut Lines,
    plan: &Plan,
    length: u32,
    block: B,
    journal: &mut Journal,
    out: &mut S,
) -> Result<(), WriteError>
    requires rests { B.rests block plan.now (initial_state plan.now) no_mail }
    requires length { 1 ≤ length }
    requires journal { IsJournalOf plan.now journal.old }
    ensures { (answers : ℕ → ℕ) → B.answers block ≡ Some answers
        → Writes (S.state out.old) (S.state out.new) result
        (spec.events_text plan.now answers (history_in plan.now journal.old)) }
{
    let mut run = Run::new(alloc, plan, length, Timed::new(block))?;
    event_lines(plan, &mut run, journal, lines, out)
}

// The same, where the first of the events that are due is taken.
fn write_first<S: Sink, K: Layers>(
    alloc: Global,
    layers: &mut K,
    lines: &mut Lines,
    plan: &Plan,
    length: u32,
    journal: &mut Journal,
    out: &mut S,
) -> Result<(), WriteError>
    requires length { 1 ≤ length }
    requires journal { IsJournalOf plan.now journal.old }
    ensures { Writes (S.state out.old) (S.state out.new) result
        (events_for order.First plan.now (history_in plan.now journal.old)) }
{
    let block = layers.da(alloc, plan)?;
    write_events(alloc, lines, plan, length, block, journal, out)
}

// The same, where the last of them is taken.
fn write_last<S: Sink, K: Layers>(
    alloc: Global,
    layers: &mut K,
    lines: &mut Lines,
    plan: &Plan,
    length: u32,
    journal: &mut Journal,
    out: &mut S,
) -> Result<(), WriteError>
    requires length { 1 ≤ length }
    requires journal { IsJournalOf plan.now journal.old }
    ensures { Writes (S.state out.old) (S.state out.new) result
        (events_for order.Last plan.now (history_in plan.now journal.old)) }
{
    let block = layers.da_last(alloc, plan)?;
    write_events(alloc, lines, plan, length, block, journal, out)
}
