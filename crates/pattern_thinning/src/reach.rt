//! Whether an unvoted walk of so many steps passes through a node.
//! Each step leads to the next slot, so that one word has all cells that are reached, and one all from which a node is reached.
//! This project's own.
ghost use Rattle.std.specs.Prelude.{◌≡◌, ◌↔◌, ℕ, ◌+◌, ◌%◌, ◌<◌, IsTrue, MatchOption};
ghost use Rattle.rcp_model.specs.Levels.{level};
ghost use Rattle.rcp_model.specs.Walk.{IsUnvoted};
ghost use Rattle.recovery_analysis.specs.Graphs.{graph_of, IsOneSize};
ghost use Rattle.pattern_thinning.specs.inner.Reach.{ArePrevious, ComesBack, IsFarthest, IsOnWalk};

use rcp_base::bits;
use rcp_model::Node;
use recovery_analysis::next_word;
use task_graph::DepRows;
use vote_pattern::Pattern;

// The slot after, in turn.
fn slot_after(rows: &DepRows, slot: u32) -> u32
    requires { slot < rows.now.slots }
    ensures value { result ≡ (slot + 1) % rows.now.slots }
    ensures within { result < rows.now.slots }
{
    let slots = rows.slots();
    (slot + 1) % slots
}

// The slot before, in turn.
fn slot_before(rows: &DepRows, slot: u32) -> u32
    requires { slot < rows.now.slots }
    ensures turn { slot ≡ (result + 1) % rows.now.slots }
    ensures within { result < rows.now.slots }
{
    if slot == 0 {
        rows.slots() - 1
    } else {
        slot - 1
    }
}

// The unvoted cells of the slot before that feed a cell of the word in the slot, as bits.
fn previous_word(rows: &DepRows, pattern: &Pattern, word: u64, before: u32, slot: u32) -> u64
    requires size { IsOneSize rows.now pattern.now }
    requires before { before < rows.now.slots }
    requires slot { slot < rows.now.slots }
    ensures { ArePrevious (graph_of rows.now pattern.now) word before slot result }
{
    let mut feeding = 0;
    for cell in 0..rows.cells() {
        if bits::has_bit(word, cell) {
            feeding |= rows.word(slot, cell);
        }
    }
    feeding & pattern.unvoted(before)
}

// How many steps a longest walk on from the node has, of those that have no more than the most; none where steps lead back to it.
fn steps_on(rows: &DepRows, pattern: &Pattern, node: Node, most: u32) -> Option<u32>
    requires size { IsOneSize rows.now pattern.now }
    requires node { IsUnvoted (graph_of rows.now pattern.now) node }
    ensures { let g = graph_of rows.now pattern.now in
        MatchOption result (ComesBack g node) (IsFarthest g node most) }
{
    let _cells = rows.cells();
    let mut slot = node.slot;
    let mut frontier = bits::with_bit(0, node.cell);
    for step in 0..most {
        slot = slot_after(rows, slot);
        frontier = next_word(rows, pattern, frontier, slot);
        if bits::first_bit(frontier).is_none() {
            return Some(step);
        }
        if slot == node.slot && bits::has_bit(frontier, node.cell) {
            return None;
        }
    }
    Some(most)
}

// Whether an unvoted walk of so many steps ends in the node.
fn ends_walk(rows: &DepRows, pattern: &Pattern, node: Node, steps: u32) -> bool
    requires size { IsOneSize rows.now pattern.now }
    requires node { IsUnvoted (graph_of rows.now pattern.now) node }
    ensures { result ≡ level (graph_of rows.now pattern.now) steps node }
{
    let _cells = rows.cells();
    let mut slot = node.slot;
    let mut frontier = bits::with_bit(0, node.cell);
    for _step in 0..steps {
        let before = slot_before(rows, slot);
        frontier = previous_word(rows, pattern, frontier, before, slot);
        slot = before;
        if bits::first_bit(frontier).is_none() {
            return false;
        }
    }
    true
}

/// Whether the node is on an unvoted walk of so many steps.
pub fn is_on_walk(rows: &DepRows, pattern: &Pattern, node: Node, steps: u32) -> bool
    requires size { IsOneSize rows.now pattern.now }
    requires node { IsUnvoted (graph_of rows.now pattern.now) node }
    ensures { IsTrue result ↔ IsOnWalk (graph_of rows.now pattern.now) steps node }
{
    match steps_on(rows, pattern, node, steps) {
        None => true,
        Some(on) => ends_walk(rows, pattern, node, steps - on),
    }
}
