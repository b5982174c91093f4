//! Which cells the cells of the motor need, worked by hand.
//! This project's own.
ghost use Rattle.std.specs.Prelude.{◌<◌};

use crate::cases::check_answer;
use crate::plans::plan_named;
use std::alloc::{AllocError, Global};
use std::test::Fail;
use task_graph::DepRows;

// By slot and cell: whether it needs the position, the error and the sum, and the same as a word.
const NEEDS: &str = "\
0 0:100 1
0 1:100 1
0 2:101 5
1 0:101 5
1 1:010 2
1 2:001 4
";

// Which cells a cell needs, as ones and zeros.
fn put_needs(text: &mut String, rows: &DepRows, slot: u32, cell: u32) -> Result<(), AllocError>
    requires slot { slot < rows.now.slots }
    requires cell { cell < rows.now.cells }
{
    for from in 0..rows.cells() {
        text.push_str(if rows.needs(slot, cell, from) {
            "1"
        } else {
            "0"
        })?;
    }
    Ok(())
}

fn needs_of(alloc: Global, rows: &DepRows, slot: u32, cell: u32) -> Result<String, AllocError>
    requires slot { slot < rows.now.slots }
    requires cell { cell < rows.now.cells }
{
    let mut text = String::new(alloc);
    put_needs(&mut text, rows, slot, cell)?;
    Ok(text)
}

fn put_line(
    alloc: Global,
    text: &mut String,
    rows: &DepRows,
    slot: u32,
    cell: u32,
) -> Result<(), AllocError>
    requires slot { slot < rows.now.slots }
    requires cell { cell < rows.now.cells }
{
    let needs = needs_of(alloc, rows, slot, cell)?;
    let word = rows.word(slot, cell);
    let line = format!(in alloc; "{slot} {cell}:{} {word}\n", needs.as_str())?;
    text.push_str(line.as_str())
}

fn put_slot(alloc: Global, text: &mut String, rows: &DepRows, slot: u32) -> Result<(), AllocError>
    requires { slot < rows.now.slots }
{
    for cell in 0..rows.cells() {
        put_line(alloc, text, rows, slot, cell)?;
    }
    Ok(())
}

fn all_needs(alloc: Global, rows: &DepRows) -> Result<String, AllocError> {
    let mut text = String::new(alloc);
    for slot in 0..rows.slots() {
        put_slot(alloc, &mut text, rows, slot)?;
    }
    Ok(text)
}

// How many slots, cells and nodes there are.
fn sizes(alloc: Global, rows: &DepRows) -> Result<String, AllocError> {
    format!(in alloc; "{} {} {}", rows.slots(), rows.cells(), rows.node_count())
}

fn motor_rows(alloc: Global) -> Result<DepRows, Fail> {
    let plan = plan_named(alloc, "motor")?;
    Ok(DepRows::build(alloc, &plan)?)
}

#[test]
fn the_motor_has_its_sizes(rt: HostRuntime) -> Result<(), Fail> {
    let rows = motor_rows(rt.alloc())?;
    let found = sizes(rt.alloc(), &rows)?;
    check_answer(&rt, "motor", found.as_str(), "2 3 6");
    Ok(())
}

#[test]
fn the_motor_needs_its_cells(rt: HostRuntime) -> Result<(), Fail> {
    let rows = motor_rows(rt.alloc())?;
    let found = all_needs(rt.alloc(), &rows)?;
    check_answer(&rt, "motor", found.as_str(), NEEDS);
    Ok(())
}
