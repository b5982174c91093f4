//! Whole files: the parts of a good one, and the fault of each that is changed, worked by hand from the rules.
//! This project's own.
use crate::cases::{check_answer, check_lines, halves, replaced};
use rcp_base::Name;
use rcp_model::{ActuatorRow, Plan, PlanParts, SlotRow, Task, Variable};
use std::alloc::{AllocError, Global};
use std::process::Abort;
use std::str;
use std::test::Fail;
use task_file::{FileFault, Key, Path, Section, path_text, read_plan};

const FILE: &str = r#"replicas = 3
timing = { compute = 30000, broadcast = 10000, vote = 4000, sync = 6000, skew = 50, drift_ppm = 100, delay_min = 100, delay_max = 2000, skew_limit = 500, drift_limit_ppm = 500 }
sensor = [{ name = "s", initial = -1 }]
cell = [{ name = "n", initial = 0 }, { name = "m", initial = 7 }]
task = [{ name = "first", body = "n := n + 1;" }, { name = "last", body = "m := s;" }]
slot = [{ tasks = ["first", "last"], votes = ["n", "m"] }]
actuator = [{ name = "out", value = "n + m" }]
"#;

// Parts of the file, what stands in their place, and the fault.
const FAULTS: &str = r#"replicas = 3 => replicas => no document
replicas = 3 => replicas = 10 => shape replicas
replicas = 3 => replicas = "3" => shape replicas
timing = { => time = { => shape timing
sync = 6000,  =>  => shape timing.sync
skew = 50 => skew = 1000000001 => shape timing.skew
compute = 30000 => compute = -1, more = 0 => shape timing.compute
drift_limit_ppm = 500 => drift_limit_ppm = 500, more = 0 => shape timing.?
[{ name = "s", initial = -1 }] => 7 => shape sensor
[{ name = "n", initial = 0 }, { name = "m", initial = 7 }] => [] => shape cell
{ name = "m", initial = 7 } => 4 => shape cell[1]
name = "m" => title = "m" => shape cell[1].name
initial = 7 => initial = "7" => shape cell[1].initial
initial = 7 => initial = 7, last = 2 => shape cell[1].?
"m := s;" => ["m := s;"] => shape task[1].body
["first", "last"] => "first" => shape slot[0].tasks
["n", "m"] => ["n", 3] => shape slot[0].votes[1]
, votes = ["n", "m"] =>  => shape slot[0].votes
value = "n + m" => value = 1 => shape actuator[0].value
actuator = => speed = => shape ?
name = "s" => name = "S" => bad name sensor[0].name
name = "m" => name = "s" => bad name cell[1].name
name = "last" => name = "first" => bad name task[1].name
name = "out" => name = "let" => bad name actuator[0].name
m := s; => m := ; => syntax task[1].body 5
m := s; => m := q; => unknown name task[1].body 5
m := s; => q := s; => bad target task[1].body 0
"n + m" => "n + q" => unknown name actuator[0].value 4
["first", "last"] => ["first", "none"] => unknown in slot slot[0].tasks[1]
["n", "m"] => ["n", "s"] => unknown in slot slot[0].votes[1]
["first", "last"] => ["first", "first"] => clash slot[0].tasks[1]
m := s; => n := s; => clash slot[0].tasks[1]
["n", "m"] => ["n", "n"] => clash slot[0].votes[1]
sync = 6000 => sync = 0 => timing 1
"#;

/// The fault and its place in words.
pub fn told(alloc: Global, fault: FileFault) -> Result<String, AllocError> {
    match fault {
        FileFault::TooLong => format!(in alloc; "too long"),
        FileFault::NotToml => format!(in alloc; "no document"),
        FileFault::Shape { path } => format!(in alloc; "shape {path}"),
        FileFault::BadName { path } => format!(in alloc; "bad name {path}"),
        FileFault::Syntax { path, byte } => format!(in alloc; "syntax {path} {byte}"),
        FileFault::UnknownName { path, byte } => format!(in alloc; "unknown name {path} {byte}"),
        FileFault::BadTarget { path, byte } => format!(in alloc; "bad target {path} {byte}"),
        FileFault::UnknownInSlot { path } => format!(in alloc; "unknown in slot {path}"),
        FileFault::SlotClash { path } => format!(in alloc; "clash {path}"),
        FileFault::Timing { rule } => format!(in alloc; "timing {rule}"),
        FileFault::Memory => format!(in alloc; "memory"),
    }
}

/// The fault of a file in words.
pub fn fault_in(alloc: Global, bytes: &[u8]) -> Result<String, Fail> {
    match read_plan(alloc, bytes) {
        Ok(_) => Err(Fail::from("no fault")),
        Err(fault) => Ok(told(alloc, fault)?),
    }
}

// The fault of the file with one part in place of another.
fn fault_of(alloc: Global, change: &str) -> Result<String, Fail> {
    let (old, new) = halves(change);
    let text = replaced(alloc, FILE, old, new)?;
    fault_in(alloc, text.as_bytes())
}

#[test]
fn each_fault_is_told_with_its_place(rt: HostRuntime) -> Result<(), Fail> {
    check_lines(
        &rt,
        rt.alloc(),
        FAULTS,
        |alloc, change| fault_of(alloc, change),
    )
}

// The plan of the good file.
fn good_plan(alloc: Global) -> Result<Plan, Fail> {
    Ok(read_plan(alloc, FILE.as_bytes()).map_err(|_| "refused")?)
}

fn put_name(text: &mut String, name: &Name) -> Result<(), Fail> {
    text.push_str(str::from_utf8(name.bytes())?)?;
    text.push_str("; ")?;
    Ok(())
}

fn put_variable(alloc: Global, text: &mut String, row: &Variable) -> Result<(), Fail> {
    let value = format!(in alloc; "{} ", row.initial)?;
    text.push_str(value.as_str())?;
    put_name(text, &row.name)
}

// The values of sensors or cells before the first frame, each with its name.
fn variables(alloc: Global, rows: &[Variable]) -> Result<String, Fail> {
    let mut text = String::new(alloc);
    for row in rows {
        put_variable(alloc, &mut text, row)?;
    }
    Ok(text)
}

fn task_names(alloc: Global, rows: &[Task]) -> Result<String, Fail> {
    let mut text = String::new(alloc);
    for row in rows {
        put_name(&mut text, &row.name)?;
    }
    Ok(text)
}

fn actuator_names(alloc: Global, rows: &[ActuatorRow]) -> Result<String, Fail> {
    let mut text = String::new(alloc);
    for row in rows {
        put_name(&mut text, &row.name)?;
    }
    Ok(text)
}

fn put_slot(alloc: Global, text: &mut String, slot: &SlotRow) -> Result<(), AllocError> {
    let (tasks, votes) = (slot.tasks.as_slice(), slot.votes.as_slice());
    let item = format!(in alloc; "{tasks:?} {votes:?}; ")?;
    text.push_str(item.as_str())
}

// The numbers of each slot's tasks and of the cells that it votes.
fn slots(alloc: Global, rows: &[SlotRow]) -> Result<String, AllocError> {
    let mut text = String::new(alloc);
    for row in rows {
        put_slot(alloc, &mut text, row)?;
    }
    Ok(text)
}

fn numbers(alloc: Global, parts: &PlanParts) -> Result<String, AllocError> {
    format!(in alloc; "{} {}", parts.replicas, parts.timing.drift_ppm)
}

#[test]
fn a_good_file_gives_its_numbers(rt: HostRuntime) -> Result<(), Fail> {
    let plan = good_plan(rt.alloc())?;
    let text = numbers(rt.alloc(), plan.parts())?;
    check_answer(&rt, "numbers", text.as_str(), "3 100");
    Ok(())
}

#[test]
fn a_good_file_gives_its_sensors(rt: HostRuntime) -> Result<(), Fail> {
    let plan = good_plan(rt.alloc())?;
    let text = variables(rt.alloc(), plan.parts().sensors.as_slice())?;
    check_answer(&rt, "sensors", text.as_str(), "-1 s; ");
    Ok(())
}

#[test]
fn a_good_file_gives_its_cells(rt: HostRuntime) -> Result<(), Fail> {
    let plan = good_plan(rt.alloc())?;
    let text = variables(rt.alloc(), plan.parts().cells.as_slice())?;
    check_answer(&rt, "cells", text.as_str(), "0 n; 7 m; ");
    Ok(())
}

#[test]
fn a_good_file_gives_its_tasks(rt: HostRuntime) -> Result<(), Fail> {
    let plan = good_plan(rt.alloc())?;
    let text = task_names(rt.alloc(), plan.parts().tasks.as_slice())?;
    check_answer(&rt, "tasks", text.as_str(), "first; last; ");
    Ok(())
}

#[test]
fn a_good_file_gives_its_slots(rt: HostRuntime) -> Result<(), Fail> {
    let plan = good_plan(rt.alloc())?;
    let text = slots(rt.alloc(), plan.parts().slots.as_slice())?;
    check_answer(&rt, "slots", text.as_str(), "[0, 1] [0, 1]; ");
    Ok(())
}

#[test]
fn a_good_file_gives_its_actuators(rt: HostRuntime) -> Result<(), Fail> {
    let plan = good_plan(rt.alloc())?;
    let text = actuator_names(rt.alloc(), plan.parts().actuators.as_slice())?;
    check_answer(&rt, "actuators", text.as_str(), "out; ");
    Ok(())
}

#[test]
fn the_longest_file_is_read(rt: HostRuntime) -> Result<(), Fail> {
    let bytes = vec![in rt.alloc(); b'#'; 1_048_576]?;
    let fault = fault_in(rt.alloc(), bytes.as_slice())?;
    check_answer(&rt, "1,048,576 bytes", fault.as_str(), "shape replicas");
    Ok(())
}

#[test]
fn one_byte_more_is_too_long(rt: HostRuntime) -> Result<(), Fail> {
    let bytes = vec![in rt.alloc(); b'#'; 1_048_577]?;
    let fault = fault_in(rt.alloc(), bytes.as_slice())?;
    check_answer(&rt, "1,048,577 bytes", fault.as_str(), "too long");
    Ok(())
}

fn check_place(rt: &impl Abort, alloc: Global, path: Path, due: &str) -> Result<(), Fail> {
    let text = path_text(alloc, &path)?;
    assert_eq!(rt; text.as_slice(), due.as_bytes(), "{due}");
    Ok(())
}

// A place without an entry of a list.
fn place(section: Section, index: Option<u32>, key: Option<Key>) -> Path {
    Path {
        section,
        index,
        key,
        item: None,
    }
}

#[test]
fn sections_are_printed(rt: HostRuntime) -> Result<(), Fail> {
    let alloc = rt.alloc();
    let check = |section, due| check_place(&rt, alloc, place(section, None, None), due);
    check(Section::Replicas, "replicas")?;
    check(Section::Format, "format")?;
    check(Section::RecoveryLimit, "recovery_limit")?;
    check(Section::Unknown, "?")
}

#[test]
fn places_are_printed_as_far_as_they_go(rt: HostRuntime) -> Result<(), Fail> {
    let alloc = rt.alloc();
    let path = place(Section::Cell, Some(0), Some(Key::Vote));
    check_place(&rt, alloc, path, "cell[0].vote")?;
    let path = place(Section::Timing, None, Some(Key::DriftLimitPpm));
    check_place(&rt, alloc, path, "timing.drift_limit_ppm")?;
    check_place(&rt, alloc, place(Section::Cell, Some(2), None), "cell[2]")?;
    let path = place(Section::Task, Some(127), Some(Key::Unknown));
    check_place(&rt, alloc, path, "task[127].?")?;
    let path = Path {
        item: Some(10),
        ..place(Section::Slot, Some(0), Some(Key::Tasks))
    };
    check_place(&rt, alloc, path, "slot[0].tasks[10]")
}
