//! The lines of a plan: its tasks, its votes, and walks over its cells.
//! This project's own.
ghost use Rattle.std.specs.Prelude.{◌≡◌, ◌<◌, ◌++◌, ◌==◌, length, slice_index_or, IfOk, OnOk};
ghost use Rattle.std.specs.Fmt.{decimal};
ghost use Rattle.rcp_base.specs.Search.{any_below};
ghost use Rattle.rcp_model.specs.declared.task.Task.{Task};
ghost use Rattle.rcp_model.specs.Plan.{variable_names};
ghost use Rattle.vote_pattern.specs.Votes.{is_in, votes_at};
ghost use Rattle.trace_text.specs.PlanLines as spec;

use super::Lines;
use crate::piece::Piece;
use itoa::Buffer;
use rcp_base::{List, Memory, Name};
use rcp_model::{Node, Plan, PlanParts, Task, Variable};
use std::alloc::Global;
use task_lang::print_body;
use vote_pattern::Pattern;

impl Lines {
    /// `task NAME BODY`
    pub fn task(&mut self, plan: &Plan, task: u32) -> Result<&[u8], Memory>
        requires { task < length plan.now.tasks }
        ensures { (d : Task) → IfOk result (λ line. line.now
            ≡ spec.task_line (variable_names plan.now.sensors) (variable_names plan.now.cells)
            (slice_index_or plan.now.tasks task d)) }
    {
        self.task_of(plan.parts(), task)
    }

    /// `slot S votes NAME NAME ..`, or `slot S votes -`
    #[tactic(auto, unfolding(crate::specs::PlanLines::slot_line))]
    pub fn slot_votes(&mut self, plan: &Plan, pattern: &Pattern, slot: u32) -> Result<&[u8], Memory>
        requires { slot < pattern.now.slots }
        ensures { IfOk result (λ line.
            line.now ≡ spec.slot_line plan.now.cells slot (votes_at pattern.now slot)) }
    {
        self.begin(&[
            Piece::Text(b"slot "),
            Piece::Count(slot as u64),
            Piece::Text(b" votes"),
        ]);
        self.add_votes(plan.parts().cells.as_slice(), pattern, slot)?;
        self.add(dash_if(has_none(pattern, slot)))?;
        self.end()
    }

    /// `walk S:CELL S:CELL ..`, or `walk -`
    #[tactic(auto, unfolding(crate::specs::PlanLines::walk_line))]
    pub fn walk(&mut self, plan: &Plan, nodes: &[Node]) -> Result<&[u8], Memory>
        ensures { IfOk result (λ line. line.now ≡ spec.walk_line plan.now.cells nodes.now) }
    {
        self.begin(&[Piece::Text(b"walk")]);
        self.add_nodes(plan.parts().cells.as_slice(), nodes)?;
        self.add(dash_if(nodes.is_empty()))?;
        self.end()
    }

    /// `pattern refused: cycle S:CELL S:CELL ..`
    #[tactic(auto, unfolding(crate::specs::PlanLines::pattern_refused_line))]
    pub fn cycle(&mut self, plan: &Plan, nodes: &[Node]) -> Result<&[u8], Memory>
        ensures { IfOk result (λ line.
            line.now ≡ spec.pattern_refused_line plan.now.cells nodes.now) }
    {
        self.begin(&[Piece::Text(b"pattern refused: cycle")]);
        self.add_nodes(plan.parts().cells.as_slice(), nodes)?;
        self.end()
    }

    fn task_of(&mut self, plan: &PlanParts, task: u32) -> Result<&[u8], Memory>
        requires { task < length plan.now.tasks }
        ensures { (d : Task) → IfOk result (λ line. line.now
            ≡ spec.task_line (variable_names plan.now.sensors) (variable_names plan.now.cells)
            (slice_index_or plan.now.tasks task d)) }
    {
        let sensors = names_of(self.alloc, plan.sensors.as_slice())?;
        let cells = names_of(self.alloc, plan.cells.as_slice())?;
        self.task_over(plan.tasks.get(task as usize), &sensors, &cells)
    }

    // The line of a task over sensors and cells with these names.
    #[tactic(auto, unfolding(crate::specs::PlanLines::task_line))]
    fn task_over(
        &mut self,
        task: &Task,
        sensors: &List<Name>,
        cells: &List<Name>,
    ) -> Result<&[u8], Memory>
        ensures { IfOk result (λ line.
            line.now ≡ spec.task_line sensors.now cells.now task.now) }
    {
        self.begin(&[
            Piece::Text(b"task "),
            Piece::Text(task.name.bytes()),
            Piece::Text(b" "),
        ]);
        let body = print_body(self.alloc, task, sensors.as_slice(), cells.as_slice())?;
        self.add(body.as_slice())?;
        self.end()
    }

    // Each cell that the slot votes, after a space.
    fn add_votes(&mut self, cells: &[Variable], pattern: &Pattern, slot: u32) -> Result<(), Memory>
        requires { slot < pattern.now.slots }
        ensures { OnOk result (self.new.line.items
            ≡ self.old.line.items ++ spec.cells_text cells.now (votes_at pattern.now slot)) }
    {
        for cell in 0..pattern.cells() {
            if pattern.has(slot, cell) {
                self.add(b" ")?;
                self.add_cell(cells, cell)?;
            }
        }
        Ok(())
    }

    // Each node after a space.
    fn add_nodes(&mut self, cells: &[Variable], nodes: &[Node]) -> Result<(), Memory>
        ensures { OnOk result (self.new.line.items
            ≡ self.old.line.items ++ spec.nodes_text cells.now nodes.now) }
    {
        for node in nodes {
            self.add(b" ")?;
            self.add_count(node.slot)?;
            self.add(b":")?;
            self.add_cell(cells, node.cell)?;
        }
        Ok(())
    }

    // The name of a cell, and nothing where there is no such cell.
    fn add_cell(&mut self, cells: &[Variable], cell: u32) -> Result<(), Memory>
        ensures { OnOk result (self.new.line.items
            ≡ self.old.line.items ++ spec.cell_name cells.now cell) }
    {
        match cells.get(cell as usize) {
            Some(cell) => self.add(cell.name.bytes()),
            None => Ok(()),
        }
    }

    fn add_count(&mut self, n: u32) -> Result<(), Memory>
        ensures { OnOk result (self.new.line.items ≡ self.old.line.items ++ decimal n) }
    {
        let mut digits = Buffer::new();
        self.add(digits.format(n).as_bytes())
    }
}

// The names of sensors or cells.
fn names_of(alloc: Global, variables: &[Variable]) -> Result<List<Name>, Memory>
    ensures { IfOk result (λ names. names ≡ variable_names variables.now) }
{
    let mut names = List::new(alloc);
    for variable in variables {
        names.push(variable.name)?;
    }
    Ok(names)
}

// A dash, where nothing is listed.
fn dash_if(none: bool) -> &'static [u8]
    ensures { result.now ≡ spec.dash_if none }
{
    if none { b" -" } else { b"" }
}

// Whether the slot votes none.
fn has_none(pattern: &Pattern, slot: u32) -> bool
    requires { slot < pattern.now.slots }
    ensures { result ≡ (length (votes_at pattern.now slot) == 0) }
{
    !has_some(pattern, slot)
}

// Whether it votes some cell.
fn has_some(pattern: &Pattern, slot: u32) -> bool
    requires { slot < pattern.now.slots }
    ensures { result ≡ any_below pattern.now.cells (is_in pattern.now slot) }
{
    (0..pattern.cells()).any(|cell| pattern.has(slot, cell))
}
