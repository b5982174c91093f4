//! Whether walks keep within a limit. Each line has a plan, its votes and a limit, and then the answer.
//! This project's own.
use crate::cases::{check_lines, colon_parted, number};
use crate::plans::{fit, rows_and_pattern};
use recovery_analysis::within;
use std::alloc::Global;
use std::process::Abort;
use std::test::Fail;
use task_graph::DepRows;
use vote_pattern::Pattern;

const LIMITS: &str = "\
motor:-:1 => no
motor:-:2 => no
motor:-:3 => yes
motor:-:4 => yes
motor:-:7 => yes
motor:-:2049 => yes
motor:-:4294967295 => yes
motor:111 100:1 => no
motor:111 100:2 => yes
motor:111 111:1 => yes
motor:111 111:2049 => yes
motor:000 000:4294967295 => no
counter:-:1 => yes
counter:-:2 => yes
counter:0:1 => no
counter:0:2 => no
pitch:-:9 => no
pitch:-:10 => yes
pitch:-:11 => yes";

fn is_within(alloc: Global, rows: &DepRows, pattern: &Pattern, limit: u32) -> Result<bool, Fail> {
    if !fit(rows, pattern) || limit == 0 {
        return Err("another size".into());
    }
    Ok(within(alloc, rows, pattern, limit)?)
}

fn yes_or_no(is: bool) -> &'static str {
    if is { "yes" } else { "no" }
}

fn within_answer(alloc: Global, case: &str) -> Result<String, Fail> {
    let (name, rest) = colon_parted(case);
    let (votes, limit) = colon_parted(rest);
    let (rows, pattern) = rows_and_pattern(alloc, name, votes)?;
    let is = is_within(alloc, &rows, &pattern, number(limit)?)?;
    Ok(String::from_str(alloc, yes_or_no(is))?)
}

#[test]
fn walks_keep_within_their_recovery_length(rt: HostRuntime) -> Result<(), Fail> {
    check_lines(
        &rt,
        rt.alloc(),
        LIMITS,
        |alloc, case| within_answer(alloc, case),
    )
}

fn check_outside(
    rt: &impl Abort,
    alloc: Global,
    rows: &DepRows,
    pattern: &Pattern,
    limit: u32,
) -> Result<(), Fail> {
    let is = is_within(alloc, rows, pattern, limit)?;
    assert_eq!(rt; is, false, "{limit}");
    Ok(())
}

// On a cycle walks have any number of nodes.
#[test]
fn a_cycle_keeps_within_no_limit(rt: HostRuntime) -> Result<(), Fail> {
    let (rows, pattern) = rows_and_pattern(rt.alloc(), "motor", "001 010")?;
    for limit in 1..2_100 {
        check_outside(&rt, rt.alloc(), &rows, &pattern, limit)?;
    }
    Ok(())
}
