//! Takes votes away until none can be spared.
//! After NASA TM-102716; the limit and the order are this project's own.
ghost use Rattle.std.specs.Prelude.{◌≡◌, ◌<◌, ◌≤◌, ◌+◌, ◌*◌, ◌/◌, ◌%◌, ◌&&◌, if◌then◌else◌, nat_lt, true, List, IfOk, IfSome, IsOk, OnOk};
ghost use Rattle.rcp_model.specs.declared.node.Node.{Node};
ghost use Rattle.rcp_model.specs.Thinning.{is_good, thinned_at};
ghost use Rattle.rcp_model.specs.Walk.{IsNode, IsUnvotedCycle};
ghost use Rattle.vote_pattern.specs.Laws.{one_if};
ghost use Rattle.vote_pattern.specs.Votes.{AreVotesOf, vote_count};
ghost use Rattle.recovery_analysis.specs.Graphs.{graph_of, IsOneSize};
ghost use Rattle.rcp_model.specs.Node.{make_node};
ghost use Rattle.pattern_thinning.specs.inner.Reach as reach_spec;
ghost use Rattle.pattern_thinning.specs.Thinned.{IsThinnedFor};

use crate::reach::is_on_walk;
use rcp_base::Memory;
use rcp_model::Node;
use recovery_analysis::within;
use std::alloc::Global;
use task_graph::DepRows;
use vote_pattern::Pattern;

// The node of a number, in the order of nodes.
fn node_at(rows: &DepRows, number: u32) -> Node
    requires { number < rows.now.slots * rows.now.cells }
    ensures value { result ≡ make_node (number / rows.now.cells) (number % rows.now.cells) }
    ensures slot { result.slot < rows.now.slots }
    ensures cell { result.cell < rows.now.cells }
{
    let cells = rows.cells();
    Node {
        slot: number / cells,
        cell: number % cells,
    }
}

// The least number of steps that no unvoted walk of a good pattern has.
fn step_limit(rows: &DepRows, limit: Option<u32>) -> u32
    ensures { result ≡ reach_spec.step_limit limit (rows.now.slots * rows.now.cells) }
{
    let count = rows.node_count();
    let Some(limit) = limit else {
        return count;
    };
    if 0 < limit && limit <= count {
        limit - 1
    } else {
        count
    }
}

// Tries the vote of one node: takes it away where a good pattern is left, and answers whether it did.
fn try_vote(rows: &DepRows, pattern: &mut Pattern, node: Node, limit: Option<u32>) -> bool
    requires size { IsOneSize rows.now pattern.old }
    requires node { IsNode (graph_of rows.now pattern.old) node }
    requires good { is_good limit (graph_of rows.now pattern.old) ≡ true }
    ensures size { IsOneSize rows.now pattern.new }
    ensures good { is_good limit (graph_of rows.now pattern.new) ≡ true }
    ensures tried { AreVotesOf (thinned_at limit (graph_of rows.now pattern.old) node) pattern.new }
    ensures count { vote_count pattern.new + one_if result ≡ vote_count pattern.old }
{
    if !pattern.has(node.slot, node.cell) {
        return false;
    }
    pattern.clear(node.slot, node.cell);
    if is_on_walk(rows, &*pattern, node, step_limit(rows, limit)) {
        pattern.set(node.slot, node.cell);
        return false;
    }
    true
}

// The same of each vote, once, by slot and then by cell; answers how many it took.
fn try_votes(rows: &DepRows, pattern: &mut Pattern, limit: Option<u32>) -> u32
    requires size { IsOneSize rows.now pattern.old }
    requires good { is_good limit (graph_of rows.now pattern.old) ≡ true }
    ensures thinned { IsThinnedFor limit rows.now pattern.old pattern.new }
    ensures count { vote_count pattern.new + result ≡ vote_count pattern.old }
{
    let count = rows.node_count();
    let mut spared = 0;
    for number in 0..count {
        let node = node_at(rows, number);
        if try_vote(rows, pattern, node, limit) {
            spared += 1;
        }
    }
    spared
}

// Whether the pattern is good. Takes no memory.
fn is_good_pattern(
    alloc: Global,
    rows: &DepRows,
    pattern: &Pattern,
    limit: Option<u32>,
) -> Result<bool, Memory>
    requires size { IsOneSize rows.now pattern.now }
    requires no_cycle { let g = graph_of rows.now pattern.now in
        (nodes : List Node) → IsUnvotedCycle g nodes → ⊥ }
    requires limit { IfSome limit (λ k. 1 ≤ k) }
    ensures good { IfOk result (λ good. good ≡ is_good limit (graph_of rows.now pattern.now)) }
    ensures ok { IsOk result }
{
    match limit {
        None => Ok(true),
        Some(most) => within(alloc, rows, pattern, most),
    }
}

/// Tries each vote once, by slot and then by cell, and takes it away where a good pattern is left; answers how many it took.
/// Takes no memory, so that it never answers that memory ran out.
pub fn thin(
    alloc: Global,
    rows: &DepRows,
    pattern: &mut Pattern,
    limit: Option<u32>,
) -> Result<u32, Memory>
    requires slots { rows.now.slots ≡ pattern.old.slots }
    requires cells { rows.now.cells ≡ pattern.old.cells }
    requires no_cycle { let g = graph_of rows.now pattern.old in
        (nodes : List Node) → IsUnvotedCycle g nodes → ⊥ }
    requires limit { IfSome limit (λ k. 1 ≤ k) }
    ensures thinned { OnOk result (IsThinnedFor limit rows.now pattern.old pattern.new) }
    ensures count { IfOk result (λ many. vote_count pattern.new + many ≡ vote_count pattern.old) }
    ensures ok { IsOk result }
{
    if is_good_pattern(alloc, rows, &*pattern, limit)? {
        Ok(try_votes(rows, pattern, limit))
    } else {
        Ok(0)
    }
}
