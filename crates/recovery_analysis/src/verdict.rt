//! Whether a vote pattern recovers: how soon, or a cycle on which it does not.
//! After NASA TM-102716; the code is this project's own.
ghost use Rattle.std.specs.Prelude.{◌≡◌, ◌≤◌, IfOk, IsOk};
ghost use Rattle.recovery_analysis.specs.Graphs.{graph_of};
ghost use Rattle.recovery_analysis.specs.Verdict.{IsVerdict, IsVerdictOfGraphs, TellsWithin, TellsWithinOfGraphs};

use crate::cycles::cycle_of;
use crate::levels::{Levels, first_level, least_of, next_level};
use crate::walks::walk_before;
use rcp_base::{List, Memory};
use rcp_model::Node;
use std::alloc::Global;
use task_graph::DepRows;
use vote_pattern::Pattern;

/// What the analysis finds.
#[derive(Debug, Drop)]
pub enum Verdict {
    Recovers { length: u32, walk: List<Node> },
    Cycle { nodes: List<Node> },
}

/// An unvoted cycle exactly where there is one, else the recovery length.
pub fn analyse(alloc: Global, rows: &DepRows, pattern: &Pattern) -> Result<Verdict, Memory>
    requires slots { rows.now.slots ≡ pattern.now.slots }
    requires cells { rows.now.cells ≡ pattern.now.cells }
    ensures verdict { IfOk result (IsVerdict (graph_of rows.now pattern.now)) }
    ensures graph { IfOk result (IsVerdictOfGraphs rows.now pattern.now) }
{
    let count = rows.node_count();
    let mut levels = Levels::new(alloc, rows, pattern);
    let mut last = Node { slot: 0, cell: 0 };
    for depth in 0..count + 1 {
        levels.push()?;
        match levels.least(depth) {
            Some(node) => last = node,
            None => {
                let walk = walk_before(alloc, &levels, depth, last)?;
                let length = depth + 1;
                return Ok(Verdict::Recovers { length, walk });
            }
        }
    }
    let nodes = cycle_of(alloc, &levels, last)?;
    Ok(Verdict::Cycle { nodes })
}

/// Whether no unvoted walk has so many nodes. Takes no memory, so that it never answers that memory ran out.
pub fn within(_alloc: Global, rows: &DepRows, pattern: &Pattern, limit: u32) -> Result<bool, Memory>
    requires slots { rows.now.slots ≡ pattern.now.slots }
    requires cells { rows.now.cells ≡ pattern.now.cells }
    requires limit { 1 ≤ limit }
    ensures within { IfOk result (TellsWithin limit (graph_of rows.now pattern.now)) }
    ensures graph { IfOk result (TellsWithinOfGraphs limit rows.now pattern.now) }
    ensures ok { IsOk result }
{
    let count = rows.node_count();
    let steps = if limit <= count { limit - 1 } else { count };
    let mut level = first_level(rows, pattern);
    for _depth in 0..steps {
        if least_of(rows.slots(), &level).is_none() {
            return Ok(true);
        }
        level = next_level(rows, pattern, &level);
    }
    let longest = least_of(rows.slots(), &level);
    Ok(longest.is_none())
}
