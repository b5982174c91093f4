//! Votes that can be spared. Each line has a plan, its votes and a limit or a dash, then the votes that are left and how many
//! were taken away.
//! This project's own.
ghost use Rattle.std.specs.Prelude.{◌≤◌, IfSome};

use crate::cases::{check_lines, colon_parted};
use crate::plans::{fit, rows_and_pattern, votes_of};
use pattern_thinning::thin;
use recovery_analysis::{Verdict, analyse};
use std::alloc::{AllocError, Global};
use std::test::Fail;
use task_graph::DepRows;
use vote_pattern::Pattern;

// Of the copy, all votes: the first slot can do without its votes while the second has both; then the first cell's last vote
// alone keeps it off a cycle, and the second cell is copied anew in each frame. Where two votes of the first cell stand, the
// one that is tried first goes.
const THINNED: &str = "\
copy:11 11:- => 00 10 3
copy:10 10:- => 00 10 1
copy:10 00:- => 10 00 0
copy:00 10:- => 00 10 0
copy:11 00:- => 10 00 1
copy:10 01:- => 10 00 1
motor:111 111:- => 000 101 4
motor:111 111:3 => 000 101 4
motor:111 111:2 => 000 111 3
motor:111 111:1 => 111 111 0
motor:-:- => 001 100 0
motor:-:2 => 001 100 0
counter:-:- => 1 0
counter:-:1 => 1 0";

// No limit for a dash.
fn limit_of(text: &str) -> Option<u32>
    ensures { IfSome result (λ limit. 1 ≤ limit) }
{
    match text.parse::<u32>() {
        Ok(limit) if 0 < limit => Some(limit),
        _ => None,
    }
}

fn shown(alloc: Global, pattern: &Pattern, spared: u32) -> Result<String, AllocError> {
    let votes = votes_of(alloc, pattern)?;
    format!(in alloc; "{} {spared}", votes.as_str())
}

// Thins a pattern that has no cycle.
fn thinned(
    alloc: Global,
    rows: &DepRows,
    pattern: &mut Pattern,
    limit: Option<u32>,
) -> Result<u32, Fail>
    requires { IfSome limit (λ limit. 1 ≤ limit) }
{
    if !fit(rows, &*pattern) {
        return Err("another size".into());
    }
    let Verdict::Recovers { .. } = analyse(alloc, rows, &*pattern)? else {
        return Err("a cycle".into());
    };
    Ok(thin(alloc, rows, pattern, limit)?)
}

// What thinning leaves of a plan's votes.
fn votes_left(alloc: Global, case: &str) -> Result<String, Fail> {
    let (name, rest) = colon_parted(case);
    let (votes, limit) = colon_parted(rest);
    let (rows, mut pattern) = rows_and_pattern(alloc, name, votes)?;
    let spared = thinned(alloc, &rows, &mut pattern, limit_of(limit))?;
    Ok(shown(alloc, &pattern, spared)?)
}

#[test]
fn votes_are_spared_in_their_order(rt: HostRuntime) -> Result<(), Fail> {
    check_lines(
        &rt,
        rt.alloc(),
        THINNED,
        |alloc, case| votes_left(alloc, case),
    )
}
