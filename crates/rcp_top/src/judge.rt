//! Judges the vote pattern of a plan.
//! This project's own.
ghost use Rattle.std.specs.Prelude.{◌≡◌, IfOk};
ghost use Rattle.rcp_model.specs.PlanGraph.{graph_of_plan};
ghost use Rattle.recovery_analysis.specs.Verdict.{verdict_of};
ghost use Rattle.task_graph.specs.Rows.{IsDependenceOf};

use rcp_base::{List, Memory};
use rcp_model::{Node, Plan};
use recovery_analysis::{Verdict, analyse};
use std::alloc::Global;
use task_graph::DepRows;
use vote_pattern::Pattern;

/// What is known of a plan's pattern, and the cells that each cell needs, by which it was found.
#[derive(Drop)]
pub struct Judgement {
    pub rows: DepRows,
    pub verdict: Verdict,
}

/// Whether the plan's pattern has an unvoted cycle, else how soon it recovers.
pub fn judge(alloc: Global, plan: &Plan) -> Result<Judgement, Memory>
    ensures rows { IfOk result (λ found. IsDependenceOf plan.now found.rows) }
    ensures verdict { IfOk result (λ found. found.verdict ≡ verdict_of (graph_of_plan plan.now)) }
{
    let rows = DepRows::build(alloc, plan)?;
    let pattern = Pattern::of(alloc, plan)?;
    let verdict = analyse(alloc, &rows, &pattern)?;
    Ok(Judgement { rows, verdict })
}

/// A plan whose pattern has no unvoted cycle, the cells that each cell needs, and how soon the pattern recovers.
#[derive(Drop)]
pub struct Judged {
    pub plan: Plan,
    pub rows: DepRows,
    pub length: u32,
    pub walk: List<Node>,
}
