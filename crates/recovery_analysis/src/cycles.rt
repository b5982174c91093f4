//! The cycle that is shown: back from the least core node to a cycle, and then once round it.
//! A core node ends an unvoted walk of more nodes than there are, so that a core node steps to it.
//! This project's own.
ghost use Rattle.std.specs.Prelude.{IsTrue, ◌≡◌, IfOk};
ghost use Rattle.rcp_model.specs.inner.Around.{IsLeastAround};
ghost use Rattle.rcp_model.specs.Levels.{is_core};
ghost use Rattle.rcp_model.specs.Shown.{start_node, back_node, path};
ghost use Rattle.rcp_model.specs.Walk.{node_count};
ghost use Rattle.rcp_model.specs.Witness.{IsWitnessCycle};
ghost use Rattle.recovery_analysis.specs.inner.Levels.{graph_in, HaveCycle};

use crate::levels::Levels;
use crate::walks::list_of;
use rcp_base::{List, Memory};
use rcp_model::Node;
use std::alloc::Global;

// One step back in the core.
fn core_back(levels: &Levels, node: Node) -> Node
    requires levels { HaveCycle levels.now }
    requires node { IsTrue (is_core (graph_in levels.now) node) }
    ensures value { result ≡ back_node (graph_in levels.now) node }
    ensures core { IsTrue (is_core (graph_in levels.now) result) }
{
    levels.back(levels.node_count(), node)
}

// The node to which as many steps back as there are nodes lead from the least core node.
fn reached(levels: &Levels, start: Node) -> Node
    requires levels { HaveCycle levels.now }
    requires start { start ≡ start_node (graph_in levels.now) }
    ensures { let g = graph_in levels.now in result ≡ path g (node_count g) }
{
    let mut node = start;
    for _i in 0..levels.node_count() {
        node = core_back(levels, node);
    }
    node
}

// The least node of the cycle.
fn turn(levels: &Levels, reached: Node) -> Node
    requires levels { HaveCycle levels.now }
    requires reached { let g = graph_in levels.now in reached ≡ path g (node_count g) }
    ensures { IsLeastAround (graph_in levels.now) result }
{
    let mut node = reached;
    let mut least = reached;
    for _i in 0..levels.node_count() {
        node = core_back(levels, node);
        if node < least {
            least = node;
        }
    }
    least
}

// The cycle from its least node.
fn gather(alloc: Global, levels: &Levels, least: Node) -> Result<List<Node>, Memory>
    requires levels { HaveCycle levels.now }
    requires least { IsLeastAround (graph_in levels.now) least }
    ensures { IfOk result (IsWitnessCycle (graph_in levels.now)) }
{
    let mut nodes = Vec::new(alloc);
    let mut node = least;
    for _i in 0..levels.node_count() {
        node = core_back(levels, node);
        nodes.push(node)?;
        if node == least {
            nodes.reverse();
            let list = list_of(alloc, nodes.as_slice())?;
            return Ok(list);
        }
    }
    unreachable!()
}

/// The cycle of a graph with a core.
pub fn cycle_of(alloc: Global, levels: &Levels, start: Node) -> Result<List<Node>, Memory>
    requires levels { HaveCycle levels.now }
    requires start { start ≡ start_node (graph_in levels.now) }
    ensures { IfOk result (IsWitnessCycle (graph_in levels.now)) }
{
    let node = reached(levels, start);
    let least = turn(levels, node);
    gather(alloc, levels, least)
}
