//! Which nodes end an unvoted walk of so many nodes: levels, each one word for each slot.
//! A walk of one node more ends where a node of the level before steps to.
//! This project's own.
ghost use Rattle.std.specs.Prelude.{◌≡◌, ◌<◌, ◌≤◌, ◌+◌, ◌*◌, IsTrue, OnOk};
ghost use Rattle.rcp_base.specs.declared.TheConstants.{MAX_CELLS, MAX_SLOTS};
ghost use Rattle.rcp_model.specs.Levels.{level, node_before};
ghost use Rattle.rcp_model.specs.Walk as walk;
ghost use Rattle.recovery_analysis.specs.Graphs.{graph_of, IsOneSize};
ghost use Rattle.recovery_analysis.specs.inner.Levels.{AnswersLeast, FindsLeast, graph_in, IsLevel, IsLevelAfter};

use crate::steps::{next_word, slot_before};
use rcp_base::{MAX_SLOTS, Memory, bits};
use rcp_model::Node;
use std::alloc::Global;
use std::marker::Model;
use task_graph::DepRows;
use vote_pattern::Pattern;

/// The level of walks of one node: all that are unvoted.
pub fn first_level(rows: &DepRows, pattern: &Pattern) -> [u64; MAX_SLOTS]
    requires { IsOneSize rows.now pattern.now }
    ensures { IsLevel (graph_of rows.now pattern.now) 0 result }
{
    let mut level = [0; MAX_SLOTS];
    for slot in 0..rows.slots() {
        level[slot as usize] = pattern.unvoted(slot);
    }
    level
}

/// The level of walks of one node more.
pub fn next_level(rows: &DepRows, pattern: &Pattern, level: &[u64; MAX_SLOTS]) -> [u64; MAX_SLOTS]
    requires { IsOneSize rows.now pattern.now }
    ensures { IsLevelAfter (graph_of rows.now pattern.now) level.now result }
{
    let mut next = [0; MAX_SLOTS];
    for slot in 0..rows.slots() {
        let before = slot_before(rows, pattern, slot);
        next[slot as usize] = next_word(rows, pattern, level[before as usize], slot);
    }
    next
}

/// The least node of a level.
pub fn least_of(slots: u32, level: &[u64; MAX_SLOTS]) -> Option<Node>
    requires { slots ≤ MAX_SLOTS }
    ensures { FindsLeast slots level.now result }
{
    for slot in 0..slots {
        if let Some(cell) = bits::first_bit(level[slot as usize]) {
            return Some(Node { slot, cell });
        }
    }
    None
}

/// Levels, one after the other.
#[derive(Drop)]
pub struct Levels<'a> {
    rows: &'a DepRows,
    pattern: &'a Pattern,
    words: Vec<[u64; MAX_SLOTS]>,
}

impl<'a> Model for Levels<'a> {
    ghost use Rattle.recovery_analysis.specs.inner.Levels as spec;
    ghost use Rattle.recovery_analysis.specs.inner.LevelFields.{IsLevels, levels_in};

    ghost Value = { spec.Levels };

    ghost view = { levels_in };

    ghost invariant = { IsLevels };
}

impl<'a> Levels<'a> {
    pub fn new(alloc: Global, rows: &'a DepRows, pattern: &'a Pattern) -> Levels<'a>
        requires { IsOneSize rows.now pattern.now }
        ensures { result ≡ record { rows = rows.now; votes = pattern.now; count = 0 } }
    {
        Levels {
            rows,
            pattern,
            words: Vec::new(alloc),
        }
    }

    /// How many nodes there are.
    pub fn node_count(&self) -> u32
        ensures value { result ≡ walk.node_count (graph_in self.now) }
        ensures most { result ≤ MAX_SLOTS * MAX_CELLS }
    {
        self.rows.node_count()
    }

    /// Adds a level.
    pub fn push(&mut self) -> Result<(), Memory>
        ensures { OnOk result (self.new ≡ record self.old { count = self.old.count + 1 }) }
    {
        let level = match self.words.last() {
            Some(level) => next_level(self.rows, self.pattern, level),
            None => first_level(self.rows, self.pattern),
        };
        self.words.push(level)?;
        Ok(())
    }

    /// The least node that ends an unvoted walk of `depth + 1` nodes.
    pub fn least(&self, depth: u32) -> Option<Node>
        requires { depth < self.now.count }
        ensures { AnswersLeast (graph_in self.now) depth result }
    {
        least_of(self.rows.slots(), &self.words[depth as usize])
    }

    /// The least node that steps to a node and ends an unvoted walk of `depth + 1` nodes.
    pub fn back(&self, depth: u32, node: Node) -> Node
        requires depth { depth < self.now.count }
        requires node { IsTrue (level (graph_in self.now) (depth + 1) node) }
        ensures { result ≡ node_before (graph_in self.now) depth node }
    {
        let slot = slot_before(self.rows, self.pattern, node.slot);
        let level = self.words[depth as usize][slot as usize];
        match bits::first_bit(self.rows.word(node.slot, node.cell) & level) {
            Some(cell) => Node { slot, cell },
            None => unreachable!(),
        }
    }
}
