//! `thin FILE`: a plan's vote pattern without the votes that can be spared.
//! This project's own.
ghost use Rattle.std.specs.Prelude.{◌≡◌, ◌≤◌, false, IfOk, IfSome};
ghost use Rattle.rcp_base.specs.States.{IsLater};
ghost use Rattle.rcp_base.specs.Writing.{Writes};
ghost use Rattle.rcp_model.specs.PlanGraph.{graph_of_plan};
ghost use Rattle.rcp_model.specs.Levels.{has_cycle};
ghost use Rattle.task_graph.specs.Rows.{IsDependenceOf};
ghost use Rattle.vote_pattern.specs.Votes.{AreVotesOf};
ghost use Rattle.rcp_top.specs.Finds.{Finds};
ghost use Rattle.rcp_top.specs.Thin as spec;
ghost use Rattle.rcp_top.specs.Thin.{IsThinned, ShowsThin, thin_of, thinned_graph};

use crate::layers::Layers;
use crate::pattern_text::{write_pattern, write_recovery};
use crate::read::read_plan_at;
use crate::send::add;
use crate::shown::Shown;
use crate::stop::Stop;
use pattern_thinning::thin;
use rcp_base::{Folder, List, Memory, Sink, WriteError};
use rcp_model::{Node, Plan};
use recovery_analysis::{Verdict, analyse};
use std::alloc::Global;
use task_graph::DepRows;
use trace_text::{Label, Lines};
use vote_pattern::Pattern;

/// A vote pattern without the votes that could be spared, how many they were, and how soon it recovers.
#[derive(Drop)]
pub struct Thinned {
    pub pattern: Pattern,
    pub spared: u32,
    pub length: u32,
    pub walk: List<Node>,
}

/// A plan with its thinned pattern.
#[derive(Drop)]
pub struct Thin {
    pub plan: Plan,
    pub thinned: Thinned,
}

/// Reads the plan, and thins its pattern.
pub fn read_thin<'a, F: Folder>(
    alloc: Global,
    folder: &mut F,
    file: &'a str,
) -> Result<Thin, Stop<'a>>
    ensures finds { Finds ShowsThin (F.state folder.old) (F.state folder.new)
        (thin_of file.now) result }
    ensures later { IsLater (F.state folder.old) (F.state folder.new) }
{
    let judged = read_plan_at(alloc, folder, file)?;
    let thinned = thinned_pattern(alloc, &judged.plan, &judged.rows)?;
    Ok(Thin {
        plan: judged.plan,
        thinned,
    })
}

// The limit on recovery that is kept, if there is one.
#[tactic(auto, using(crate::proofs::ThinLemmas::limit_is_some))]
fn limit_of(plan: &Plan) -> Option<u32>
    ensures is { result ≡ plan.now.recovery_limit }
    ensures some { IfSome result (λ k. 1 ≤ k) }
{
    plan.parts().recovery_limit
}

// The thinned pattern of a plan whose pattern has no unvoted cycle.
fn thinned_pattern(alloc: Global, plan: &Plan, rows: &DepRows) -> Result<Thinned, Memory>
    requires rows { IsDependenceOf plan.now rows.now }
    requires good { has_cycle (graph_of_plan plan.now) ≡ false }
    ensures { IfOk result (IsThinned plan.now) }
{
    let mut pattern = Pattern::of(alloc, plan)?;
    let spared = thin(alloc, rows, &mut pattern, limit_of(plan))?;
    match analyse(alloc, rows, &pattern)? {
        Verdict::Recovers { length, walk } => Ok(Thinned {
            pattern,
            spared,
            length,
            walk,
        }),
        Verdict::Cycle { .. } => unreachable!(),
    }
}

impl Shown for Thin {
    ghost shows = { ShowsThin };

    fn write<S: Sink, K: Layers>(
        self,
        _alloc: Global,
        _layers: &mut K,
        lines: &mut Lines,
        out: &mut S,
    ) -> Result<(), WriteError> {
        let thinned = &self.thinned;
        write_thin(
            lines,
            &self.plan,
            &thinned.pattern,
            thinned.spared,
            thinned.length,
            thinned.walk.as_slice(),
            out,
        )
    }
}

// Writes the votes that are left of a plan's, how many were spared, and how soon they recover.
#[tactic(auto, using(rcp_base::proofs::AddingLaws::adds_all), unfolding(crate::specs::Thin::thin_text))]
fn write_thin<S: Sink>(
    lines: &mut Lines,
    plan: &Plan,
    pattern: &Pattern,
    spared: u32,
    length: u32,
    walk: &[Node],
    out: &mut S,
) -> Result<(), WriteError>
    requires { AreVotesOf (thinned_graph plan.now) pattern.now }
    ensures { Writes (S.state out.old) (S.state out.new) result
        (spec.thin_text plan.now spared length walk.now) }
{
    let so_far = write_pattern(lines, plan, pattern, out, Ok(()));
    let so_far = add(out, so_far, lines.count(Label::Spared, spared as u64));
    write_recovery(lines, plan, length, walk, out, so_far)
}
