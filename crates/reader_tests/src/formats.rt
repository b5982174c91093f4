//! Format 2 of a task file, and what format 1 has not: lines that stand before the counter's file, a part of it, what stands
//! in its place, and the fault.
//! This project's own.
use crate::cases::{check_answer, check_lines, halves, replaced};
use crate::task_files::fault_in;
use example_plans::{COUNTER, MOTOR};
use rcp_model::Plan;
use std::alloc::{AllocError, Global};
use std::test::Fail;
use task_file::read_plan;

const FAULTS: &str = r#"format = 3 => replicas = 3 => replicas = 2 => shape format
format = 0 => replicas = 3 => replicas = 3 => shape format
format = "2" => replicas = 3 => replicas = 10 => shape format
# format 1 => initial = 0 => initial = 0, vote = "median" => shape cell[0].?
format = 1 => initial = 0 => initial = 0, vote = "majority" => shape cell[0].?
recovery_limit = 5 => replicas = 3 => replicas = 3 => shape ?
format = 1 / recovery_limit = 5 => replicas = 3 => replicas = 3 => shape ?
format = 2 => initial = 0 => initial = 0, vote = "mean" => shape cell[0].vote
format = 2 => initial = 0 => initial = 0, vote = 1 => shape cell[0].vote
format = 2 => initial = 0 => initial = 0, vote = "median", more = 1 => shape cell[0].?
format = 2 / recovery_limit = 0 => replicas = 3 => replicas = 3 => shape recovery_limit
format = 2 / recovery_limit = 2050 => replicas = 3 => replicas = 3 => shape recovery_limit
format = 2 / recovery_limit = 0 => replicas = 3 => replicas = 10 => shape replicas
format = 2 / recovery_limit = 0 => compute = 30000 => compute = -1 => shape recovery_limit
"#;

fn slash_parted(head: &str) -> (&str, &str) {
    head.split_once(" / ").unwrap_or((head, ""))
}

// A file with one or two lines before it, which a slash parts.
fn headed(alloc: Global, head: &str, file: &str) -> Result<String, AllocError> {
    let (first, second) = slash_parted(head);
    format!(in alloc; "{first}\n{second}\n{file}")
}

// The fault of the counter's file with these lines and a part in place of another.
fn fault_of(alloc: Global, case: &str) -> Result<String, Fail> {
    let (head, change) = halves(case);
    let (old, new) = halves(change);
    let file = replaced(alloc, COUNTER, old, new)?;
    let text = headed(alloc, head, file.as_str())?;
    fault_in(alloc, text.as_bytes())
}

#[test]
fn other_formats_are_refused_with_their_place(rt: HostRuntime) -> Result<(), Fail> {
    check_lines(&rt, rt.alloc(), FAULTS, |alloc, case| fault_of(alloc, case))
}

// The cells that are voted by the median, and the limit.
fn shown(alloc: Global, plan: &Plan) -> Result<String, AllocError> {
    let parts = plan.parts();
    format!(in alloc; "{:?} {:?}", parts.medians.as_slice(), parts.recovery_limit)
}

// The same of the plan that a file with these lines before it gives.
fn plan_shown(alloc: Global, head: &str, file: &str) -> Result<String, Fail> {
    let text = headed(alloc, head, file)?;
    let plan = read_plan(alloc, text.as_bytes()).map_err(|_| "refused")?;
    Ok(shown(alloc, &plan)?)
}

#[test]
fn format_2_gives_medians_and_a_limit(rt: HostRuntime) -> Result<(), Fail> {
    let old = r#""err", initial = 0 }"#;
    let new = r#""err", initial = 0, vote = "median" }"#;
    let file = replaced(rt.alloc(), MOTOR, old, new)?;
    let head = "format = 2 / recovery_limit = 2049";
    let text = plan_shown(rt.alloc(), head, file.as_str())?;
    check_answer(&rt, head, text.as_str(), "[1] Some(2049)");
    Ok(())
}

#[test]
fn format_1_has_neither(rt: HostRuntime) -> Result<(), Fail> {
    let text = plan_shown(rt.alloc(), "format = 1", MOTOR)?;
    check_answer(&rt, "format = 1", text.as_str(), "[] None");
    Ok(())
}
