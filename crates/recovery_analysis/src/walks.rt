//! The walk that is shown: from the least node of a level back, each time by the least node.
//! This project's own.
ghost use Rattle.std.specs.Prelude.{◌≡◌, ◌<◌, ◌≤◌, ◌+◌, ◌-◌, IfOk};
ghost use Rattle.rcp_model.specs.Witness.{IsWitnessWalkOf};
ghost use Rattle.recovery_analysis.specs.inner.Levels.{graph_in, IsLeastAt};

use crate::levels::Levels;
use rcp_base::{List, Memory};
use rcp_model::Node;
use std::alloc::Global;

/// A list of these nodes.
pub fn list_of(alloc: Global, nodes: &[Node]) -> Result<List<Node>, Memory>
    ensures { IfOk result (λ list. list ≡ nodes.now) }
{
    let mut list = List::new(alloc);
    for node in nodes {
        list.push(*node)?;
    }
    Ok(list)
}

// The walk of `depth + 1` nodes.
fn walk_of(alloc: Global, levels: &Levels, depth: u32, last: Node) -> Result<List<Node>, Memory>
    requires depth { depth < levels.now.count }
    requires last { IsLeastAt (graph_in levels.now) depth last }
    ensures { IfOk result (IsWitnessWalkOf (graph_in levels.now) (depth + 1)) }
{
    let mut nodes = Vec::new(alloc);
    let mut node = last;
    for i in 0..depth {
        nodes.push(node)?;
        node = levels.back(depth - 1 - i, node);
    }
    nodes.push(node)?;
    nodes.reverse();
    let list = list_of(alloc, nodes.as_slice())?;
    Ok(list)
}

/// The walk of `depth` nodes.
pub fn walk_before(
    alloc: Global,
    levels: &Levels,
    depth: u32,
    last: Node,
) -> Result<List<Node>, Memory>
    requires depth { depth ≤ levels.now.count }
    requires last { 0 < depth → IsLeastAt (graph_in levels.now) (depth - 1) last }
    ensures { IfOk result (IsWitnessWalkOf (graph_in levels.now) depth) }
{
    if depth == 0 {
        return Ok(List::new(alloc));
    }
    walk_of(alloc, levels, depth - 1, last)
}
