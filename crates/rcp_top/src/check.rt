//! `check FILE`: the analysis of a plan's vote pattern.
//! This project's own.
ghost use Rattle.rcp_base.specs.Adding.{Adds};
ghost use Rattle.rcp_base.specs.States.{IsLater};
ghost use Rattle.rcp_base.specs.Writing.{Writes};
ghost use Rattle.rcp_model.specs.PlanGraph.{graph_of_plan};
ghost use Rattle.vote_pattern.specs.Votes.{AreVotesOf};
ghost use Rattle.rcp_top.specs.Finds.{Finds};
ghost use Rattle.rcp_top.specs.Check as spec;
ghost use Rattle.rcp_top.specs.Check.{ShowsCheck, check_of};

use crate::judge::Judged;
use crate::layers::Layers;
use crate::pattern_text::{write_pattern, write_recovery};
use crate::read::read_plan_at;
use crate::send::add_made;
use crate::shown::Shown;
use crate::stop::Stop;
use rcp_base::{Folder, Sink, WriteError};
use rcp_model::{Node, Plan};
use std::alloc::Global;
use trace_text::Lines;
use vote_pattern::Pattern;

/// A plan with its vote pattern, and how soon that recovers.
#[derive(Drop)]
pub struct Check {
    pub judged: Judged,
    pub pattern: Pattern,
}

/// Reads the plan, and analyses its pattern.
pub fn read_check<'a, F: Folder>(
    alloc: Global,
    folder: &mut F,
    file: &'a str,
) -> Result<Check, Stop<'a>>
    ensures finds { Finds ShowsCheck (F.state folder.old) (F.state folder.new)
        (check_of file.now) result }
    ensures later { IsLater (F.state folder.old) (F.state folder.new) }
{
    let judged = read_plan_at(alloc, folder, file)?;
    let pattern = Pattern::of(alloc, &judged.plan)?;
    Ok(Check { judged, pattern })
}

impl Shown for Check {
    ghost shows = { ShowsCheck };

    fn write<S: Sink, K: Layers>(
        self,
        _alloc: Global,
        _layers: &mut K,
        lines: &mut Lines,
        out: &mut S,
    ) -> Result<(), WriteError> {
        let judged = &self.judged;
        write_check(
            lines,
            &judged.plan,
            &self.pattern,
            judged.length,
            judged.walk.as_slice(),
            out,
        )
    }
}

// Writes the tasks, the votes of a plan, and how soon they recover.
#[tactic(auto, using(rcp_base::proofs::AddingLaws::adds_all), unfolding(crate::specs::Check::check_text))]
fn write_check<S: Sink>(
    lines: &mut Lines,
    plan: &Plan,
    pattern: &Pattern,
    length: u32,
    walk: &[Node],
    out: &mut S,
) -> Result<(), WriteError>
    requires { AreVotesOf (graph_of_plan plan.now) pattern.now }
    ensures { Writes (S.state out.old) (S.state out.new) result
        (spec.check_text plan.now length walk.now) }
{
    let so_far = write_tasks(lines, plan, out, Ok(()));
    let so_far = write_pattern(lines, plan, pattern, out, so_far);
    write_recovery(lines, plan, length, walk, out, so_far)
}

// A line for each task.
fn write_tasks<S: Sink>(
    lines: &mut Lines,
    plan: &Plan,
    out: &mut S,
    mut so_far: Result<(), WriteError>,
) -> Result<(), WriteError>
    ensures { Adds (S.state out.old) (S.state out.new) so_far result (spec.task_lines plan.now) }
{
    for task in 0..plan.parts().tasks.len() {
        so_far = add_made(out, so_far, lines.task(plan, task as u32));
    }
    so_far
}
