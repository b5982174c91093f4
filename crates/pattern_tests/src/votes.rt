//! Votes that are given and taken away, worked by hand.
//! This project's own.
ghost use Rattle.std.specs.Prelude.{◌≡◌};

use crate::cases::{check_answer, number, parted};
use crate::plans::{put_vote, rows_and_pattern, votes_of};
use std::alloc::{AllocError, Global};
use std::process::Abort;
use std::test::Fail;
use vote_pattern::Pattern;

// One change after the other of two slots and three cells, then the votes and how many there are.
const CHANGES: &str = "\
+ 0 2 => 001 000 1
+ 1 0 => 001 100 2
+ 1 2 => 001 101 3
+ 1 2 => 001 101 3
- 1 0 => 001 001 2
- 0 0 => 001 001 2";

fn word_parted(text: &str) -> (&str, &str) {
    text.split_once(' ').unwrap_or((text, ""))
}

fn change(pattern: &mut Pattern, case: &str) -> Result<(), Fail> {
    let (sign, node) = word_parted(case);
    let (slot, cell) = word_parted(node);
    put_vote(pattern, number(slot)?, number(cell)?, sign == "+")
}

fn shown(alloc: Global, pattern: &Pattern) -> Result<String, AllocError> {
    let votes = votes_of(alloc, pattern)?;
    format!(in alloc; "{} {}", votes.as_str(), pattern.count())
}

fn check_shown(
    rt: &impl Abort,
    alloc: Global,
    line: &str,
    pattern: &Pattern,
    due: &str,
) -> Result<(), Fail> {
    let found = shown(alloc, pattern)?;
    check_answer(rt, line, found.as_str(), due);
    Ok(())
}

fn check_change(
    rt: &impl Abort,
    alloc: Global,
    line: &str,
    pattern: &mut Pattern,
) -> Result<(), Fail> {
    let (case, due) = parted(line);
    change(pattern, case)?;
    check_shown(rt, alloc, line, &*pattern, due)
}

fn check_changes(rt: &impl Abort, alloc: Global, pattern: &mut Pattern) -> Result<(), Fail> {
    for line in CHANGES.lines() {
        check_change(rt, alloc, line, pattern)?;
    }
    Ok(())
}

#[test]
fn a_new_pattern_has_no_vote(rt: HostRuntime) -> Result<(), Fail> {
    let pattern = Pattern::new(rt.alloc(), 2, 3)?;
    check_shown(&rt, rt.alloc(), "none", &pattern, "000 000 0")
}

#[test]
fn votes_are_given_and_taken_away(rt: HostRuntime) -> Result<(), Fail> {
    let mut pattern = Pattern::new(rt.alloc(), 2, 3)?;
    check_changes(&rt, rt.alloc(), &mut pattern)
}

// Whether the last two cells of the last slot are voted, and how many votes there are.
fn last_votes(alloc: Global, pattern: &Pattern) -> Result<String, AllocError>
    requires slots { pattern.now.slots ≡ 32 }
    requires cells { pattern.now.cells ≡ 64 }
{
    let (next, last) = (pattern.has(31, 62), pattern.has(31, 63));
    format!(in alloc; "{next} {last} {}", pattern.count())
}

#[test]
fn the_last_place_of_the_largest_pattern_is_there(rt: HostRuntime) -> Result<(), Fail> {
    let mut pattern = Pattern::new(rt.alloc(), 32, 64)?;
    pattern.set(31, 63);
    assert_eq!(rt; pattern.unvoted(31), u64::MAX >> 1);
    let found = last_votes(rt.alloc(), &pattern)?;
    check_answer(&rt, "31 63", found.as_str(), "false true 1");
    Ok(())
}

fn check_plan(rt: &impl Abort, alloc: Global, name: &str, due: &str) -> Result<(), Fail> {
    let (_, pattern) = rows_and_pattern(alloc, name, "-")?;
    check_shown(rt, alloc, name, &pattern, due)
}

#[test]
fn a_plan_has_its_pattern(rt: HostRuntime) -> Result<(), Fail> {
    check_plan(&rt, rt.alloc(), "motor", "001 100 2")?;
    check_plan(&rt, rt.alloc(), "pitch", "10000 00000 00100 00000 2")
}
