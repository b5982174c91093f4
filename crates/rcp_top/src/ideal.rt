//! `ideal FILE JOURNAL`: the run of one faultless processor.
//! After NASA TM-102716.
ghost use Rattle.std.specs.Prelude.{◌≡◌, ◌^◌, ◌<◌, ◌≤◌, ℤ, List, [], ◌∷◌, length, Some};
ghost use Rattle.rcp_base.specs.Adding.{Adds};
ghost use Rattle.rcp_base.specs.declared.TheConstants.{MAX_CELLS};
ghost use Rattle.rcp_base.specs.States.{IsLater};
ghost use Rattle.rcp_base.specs.Writing.{Writes};
ghost use Rattle.fault_journal.specs.Telling.{IsJournalOf, history_in};
ghost use Rattle.layer_stack.specs.Inputs.{IsHistoryOf};
ghost use Rattle.rcp_model.specs.History.{History};
ghost use Rattle.rcp_model.specs.FrameLimits.{IsFrameOf};
ghost use Rattle.rcp_model.specs.FrameRows.{no_rows};
ghost use Rattle.rcp_model.specs.Uniprocessor.{ideal_command, initial_values};
ghost use Rattle.uniproc_layer.specs.Uni.{StandsAfter};
ghost use Rattle.rcp_top.specs.Finds.{Finds};
ghost use Rattle.rcp_top.specs.Ideal as spec;
ghost use Rattle.rcp_top.specs.Ideal.{ShowsIdeal, ideal_of};

use crate::layers::Layers;
use crate::read::{read_journal_at, read_plan_at};
use crate::send::add;
use crate::shown::Shown;
use crate::stop::Stop;
use fault_journal::Journal;
use layer_stack::{FrameIn, Inputs};
use rcp_base::{Folder, Sink, WriteError};
use rcp_model::{Plan, PlanParts};
use std::alloc::Global;
use trace_text::{Label, Lines};
use uniproc_layer::Uni;

/// A plan, and a journal of it before its first frame.
#[derive(Drop)]
pub struct Ideal {
    pub plan: Plan,
    pub journal: Journal,
}

/// Reads the plan and the journal.
pub fn read_ideal<'a, F: Folder>(
    alloc: Global,
    folder: &mut F,
    file: &'a str,
    journal: &'a str,
) -> Result<Ideal, Stop<'a>>
    ensures finds { Finds ShowsIdeal (F.state folder.old) (F.state folder.new)
        (ideal_of file.now journal.now) result }
    ensures later { IsLater (F.state folder.old) (F.state folder.new) }
{
    let plan = read_plan_at(alloc, folder, file)?.plan;
    let journal = read_journal_at(alloc, folder, &plan, journal)?;
    Ok(Ideal { plan, journal })
}

impl Shown for Ideal {
    ghost shows = { ShowsIdeal };

    fn write<S: Sink, K: Layers>(
        self,
        alloc: Global,
        _layers: &mut K,
        lines: &mut Lines,
        out: &mut S,
    ) -> Result<(), WriteError> {
        let mut journal = self.journal;
        write_ideal(alloc, lines, &self.plan, &mut journal, out)
    }
}

fn write_votes<S: Sink>(
    lines: &mut Lines,
    plan: &PlanParts,
    uni: &Uni,
    out: &mut S,
    mut so_far: Result<(), WriteError>,
) -> Result<(), WriteError>
    requires { length plan.now.actuators < 2 ^ 32 }
    ensures { (sensors : List ℤ) (past : List (List ℤ))
        → StandsAfter plan.now (sensors ∷ past) uni.now
        → Adds (S.state out.old) (S.state out.new) so_far result
        (spec.vote_lines plan.now.actuators
        (λ actuator. Some (ideal_command plan.now actuator sensors past))) }
{
    let actuators = plan.actuators.as_slice();
    for number in 0..actuators.len() {
        let command = uni.command(number as u32);
        so_far = add(out, so_far, lines.vote(&actuators[number].name, command));
    }
    so_far
}

// The lines of frame t, after which the processor stands.
fn write_frame<S: Sink>(
    lines: &mut Lines,
    plan: &PlanParts,
    uni: &Uni,
    t: u32,
    out: &mut S,
    so_far: Result<(), WriteError>,
) -> Result<(), WriteError>
    requires few { length plan.now.actuators < 2 ^ 32 }
    requires cells { length plan.now.cells ≤ MAX_CELLS }
    requires stands { (sensors : List ℤ) × (past : List (List ℤ))
        × StandsAfter plan.now (sensors ∷ past) uni.now }
    ensures { (sensors : List ℤ) (past : List (List ℤ))
        → StandsAfter plan.now (sensors ∷ past) uni.now
        → Adds (S.state out.old) (S.state out.new) so_far result
        (spec.next_frame_text plan.now sensors t past) }
{
    let so_far = add(out, so_far, lines.frame(t));
    let so_far = write_votes(lines, plan, uni, out, so_far);
    add(out, so_far, lines.ideal(uni.slot(), uni.cells()))
}

// Runs all frames of the inputs, and writes their lines and the end line.
// Takes no memory but what the sink takes.
fn run_frames<I: Inputs, S: Sink>(
    lines: &mut Lines,
    plan: &PlanParts,
    uni: &mut Uni,
    inputs: &mut I,
    input: &mut FrameIn,
    out: &mut S,
) -> Result<(), WriteError>
    requires few { length plan.now.actuators < 2 ^ 32 }
    requires cells { length plan.now.cells ≤ MAX_CELLS }
    requires start { StandsAfter plan.now [] uni.old }
    requires inputs { (history : History)
        × I.tells inputs.old plan.now history × IsHistoryOf plan.now history }
    requires first { I.done inputs.old ≡ 0 }
    requires input { input.old ≡ no_rows plan.now (initial_values plan.now.sensors) }
    requires of_plan { IsFrameOf plan.now input.old }
    ensures { (history : History)
        → I.tells inputs.old plan.now history → IsHistoryOf plan.now history
        → Writes (S.state out.old) (S.state out.new) result
        (spec.ideal_text plan.now (spec.sensors_of_history history)) }
{
    let frames = inputs.frames();
    let mut so_far = Ok(());
    for t in 0..frames {
        inputs.fill(input);
        uni.frame(input.sensors());
        so_far = write_frame(lines, plan, uni, t, out, so_far);
        if so_far.is_err() {
            return so_far;
        }
    }
    add(out, so_far, lines.count(Label::End, frames as u64))
}

// Runs all frames of a journal by a processor before its first frame.
fn run_journal<S: Sink>(
    alloc: Global,
    lines: &mut Lines,
    plan: &Plan,
    uni: &mut Uni,
    journal: &mut Journal,
    out: &mut S,
) -> Result<(), WriteError>
    requires start { StandsAfter plan.now [] uni.old }
    requires journal { IsJournalOf plan.now journal.old }
    ensures { Writes (S.state out.old) (S.state out.new) result
        (spec.ideal_text plan.now (spec.sensors_of_history (history_in plan.now journal.old))) }
{
    let mut input = FrameIn::new(alloc, plan)?;
    run_frames(lines, plan.parts(), uni, journal, &mut input, out)
}

// Writes the text of the single processor over the frames of a journal.
fn write_ideal<S: Sink>(
    alloc: Global,
    lines: &mut Lines,
    plan: &Plan,
    journal: &mut Journal,
    out: &mut S,
) -> Result<(), WriteError>
    requires { IsJournalOf plan.now journal.old }
    ensures { Writes (S.state out.old) (S.state out.new) result
        (spec.ideal_text plan.now (spec.sensors_of_history (history_in plan.now journal.old))) }
{
    let mut uni = Uni::new(alloc, plan)?;
    run_journal(alloc, lines, plan, &mut uni, journal, out)
}
