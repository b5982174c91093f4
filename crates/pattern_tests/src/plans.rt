//! Plans by name, and patterns as they stand in the tables: for each slot a word of ones and zeros, one for each cell.
//! This project's own.
ghost use Rattle.std.specs.Prelude.{◌≡◌, ◌<◌, IsTrue};

use example_plans::{counter, motor, pitch};
use rcp_model::Plan;
use std::alloc::{AllocError, Global};
use std::test::Fail;
use task_file::{FileFault, read_plan};
use task_graph::DepRows;
use vote_pattern::Pattern;

// The first slot copies the first cell to the second, and the second slot does nothing.
const COPY: &str = r#"replicas = 3
timing = { compute = 30000, broadcast = 10000, vote = 4000, sync = 6000, skew = 50, drift_ppm = 100, delay_min = 100, delay_max = 2000, skew_limit = 500, drift_limit_ppm = 500 }
cell = [
  { name = "a", initial = 0 },
  { name = "b", initial = 0 },
]
task = [
  { name = "copy", body = "b := a;" },
]
slot = [
  { tasks = ["copy"], votes = [] },
  { tasks = [], votes = [] },
]
"#;

// The plan of that name, which for any other name is the copy's.
fn read_named(alloc: Global, name: &str) -> Result<Plan, FileFault> {
    match name {
        "motor" => motor(alloc),
        "counter" => counter(alloc),
        "pitch" => pitch(alloc),
        _ => read_plan(alloc, COPY.as_bytes()),
    }
}

/// The same in a test.
pub fn plan_named(alloc: Global, name: &str) -> Result<Plan, Fail> {
    Ok(read_named(alloc, name).map_err(|_| "no plan")?)
}

/// The rows and the pattern are of one size.
pub fn fit(rows: &DepRows, pattern: &Pattern) -> bool
    ensures slots { IsTrue result → rows.now.slots ≡ pattern.now.slots }
    ensures cells { IsTrue result → rows.now.cells ≡ pattern.now.cells }
{
    rows.slots() == pattern.slots() && rows.cells() == pattern.cells()
}

/// The pattern has such a slot and such a cell.
pub fn has_room(pattern: &Pattern, slot: u32, cell: u32) -> bool
    ensures slot { IsTrue result → slot < pattern.now.slots }
    ensures cell { IsTrue result → cell < pattern.now.cells }
{
    slot < pattern.slots() && cell < pattern.cells()
}

/// Gives the pattern a vote, or takes it away.
pub fn put_vote(pattern: &mut Pattern, slot: u32, cell: u32, vote: bool) -> Result<(), Fail> {
    if !has_room(&*pattern, slot, cell) {
        return Err("no such node".into());
    }
    if vote {
        pattern.set(slot, cell);
    } else {
        pattern.clear(slot, cell);
    }
    Ok(())
}

fn put_slot(pattern: &mut Pattern, slot: u32, votes: &str) -> Result<(), Fail> {
    let mut cell = 0u32;
    for vote in votes.bytes() {
        put_vote(pattern, slot, cell, vote == b'1')?;
        cell = cell.saturating_add(1);
    }
    Ok(())
}

fn put_votes(pattern: &mut Pattern, votes: &str) -> Result<(), Fail> {
    let mut slot = 0u32;
    for word in votes.split(' ') {
        put_slot(pattern, slot, word)?;
        slot = slot.saturating_add(1);
    }
    Ok(())
}

// The pattern with these votes.
fn pattern_with(alloc: Global, rows: &DepRows, votes: &str) -> Result<Pattern, Fail> {
    let mut pattern = Pattern::new(alloc, rows.slots(), rows.cells())?;
    put_votes(&mut pattern, votes)?;
    Ok(pattern)
}

// A plan's own pattern for a dash, else one with these votes.
fn pattern_of(alloc: Global, plan: &Plan, rows: &DepRows, votes: &str) -> Result<Pattern, Fail> {
    if votes == "-" {
        Ok(Pattern::of(alloc, plan)?)
    } else {
        pattern_with(alloc, rows, votes)
    }
}

fn parts_of(alloc: Global, plan: &Plan, votes: &str) -> Result<(DepRows, Pattern), Fail> {
    let rows = DepRows::build(alloc, plan)?;
    let pattern = pattern_of(alloc, plan, &rows, votes)?;
    Ok((rows, pattern))
}

/// The rows of a plan, and its own pattern for a dash, else one with these votes.
pub fn rows_and_pattern(
    alloc: Global,
    name: &str,
    votes: &str,
) -> Result<(DepRows, Pattern), Fail> {
    let plan = plan_named(alloc, name)?;
    parts_of(alloc, &plan, votes)
}

// A slot's votes, parted by a space from those of the slot before.
fn show_slot(text: &mut String, pattern: &Pattern, slot: u32) -> Result<(), AllocError>
    requires { slot < pattern.now.slots }
{
    text.push_str(if slot == 0 { "" } else { " " })?;
    for cell in 0..pattern.cells() {
        text.push_str(if pattern.has(slot, cell) { "1" } else { "0" })?;
    }
    Ok(())
}

/// A pattern as it stands in the tables.
pub fn votes_of(alloc: Global, pattern: &Pattern) -> Result<String, AllocError> {
    let mut text = String::new(alloc);
    for slot in 0..pattern.slots() {
        show_slot(&mut text, pattern, slot)?;
    }
    Ok(text)
}
