//! `check FILE`: votes, recovery length and walk, and the unvoted cycle for which a pattern is refused.
//! This project's own.
use crate::call::check;
use crate::case::{changed_often, check_all, parted};
use crate::files::TWO_FRAMES;
use example_plans::MOTOR;
use std::alloc::Global;
use std::process::Abort;
use std::test::Fail;

// In the fourth, the names stand in the order of the cells, and not in that of the file. The fifth has the votes that
// `thin` leaves of the motor with all votes. A limit on recovery changes nothing here.
const CHECKED: &str = r#"0 motor check T
task sense err := cmd - pos;
task integrate sum := clamp(sum + err, -100, 100);
task move pos := pos + sum / 2;
slot 0 votes sum
slot 1 votes pos
votes 2
recovery 3
walk 0:err 1:err

0 pitch check T
task filter let d = rate - q; q := q + d / 4;
task shape ref := clamp(stick * 3, -900, 900);
task law out := clamp((ref - q) * 2 + trim, -3000, 3000);
task moder mode := if(abs(stick) < 5, 1, 0);
task trimmer trim := if(mode == 1, clamp(trim + (ref - q) / 8, -500, 500), 0);
slot 0 votes q
slot 1 votes -
slot 2 votes trim
slot 3 votes -
votes 2
recovery 10
walk 0:ref 1:ref 2:ref 3:trim 0:trim 1:out 2:out 3:out 0:out

0 counter check T
task count n := n + 1;
slot 0 votes n
votes 1
recovery 1
walk -

0 motor check T
| votes = ["sum"] => votes = ["sum", "pos", "err"]
task sense err := cmd - pos;
task integrate sum := clamp(sum + err, -100, 100);
task move pos := pos + sum / 2;
slot 0 votes pos err sum
slot 1 votes pos
votes 4
recovery 2
walk 1:err

0 motor check T
| votes = ["sum"] => votes = []
| votes = ["pos"] => votes = ["pos", "sum"]
task sense err := cmd - pos;
task integrate sum := clamp(sum + err, -100, 100);
task move pos := pos + sum / 2;
slot 0 votes -
slot 1 votes pos sum
votes 2
recovery 3
walk 0:err 1:err

0 counter check T
| replicas = 3 => format = 2~recovery_limit = 1~replicas = 3
task count n := n + 1;
slot 0 votes n
votes 1
recovery 1
walk -

0 motor check T
| replicas = 3 => format = 2~recovery_limit = 2~replicas = 3
task sense err := cmd - pos;
task integrate sum := clamp(sum + err, -100, 100);
task move pos := pos + sum / 2;
slot 0 votes sum
slot 1 votes pos
votes 2
recovery 3
walk 0:err 1:err

4 counter check T
| ["n"] => []
pattern refused: cycle 0:n"#;

// Parts of the motor's file, what stands in their place, and the cycle of the pattern.
const MOTOR_CYCLES: &str = r#"votes = ["pos"] => votes = [] => 0:pos 1:pos
votes = ["sum"] => votes = [] => 0:sum 1:sum
votes = ["sum"] => votes = [] && votes = ["pos"] => votes = [] => 0:pos 1:pos
votes = ["sum"] => votes = ["err"] && votes = ["pos"] => votes = ["sum"] => 0:pos 1:pos
"#;

// The forms that read a plan, some with a journal that is none.
const FORMS: &str = "check T
thin T
ideal T J
ideal T Y
ideal T B
replay T J
replay T J rs
replay T Y rs
replay T B rs
events T J first
events T Y last
";

#[test]
fn a_vote_pattern_is_analysed(rt: HostRuntime) -> Result<(), Fail> {
    check_all(&rt, rt.alloc(), CHECKED)
}

fn check_form(
    rt: &impl Abort,
    alloc: Global,
    line: &str,
    file: &str,
    text: &str,
) -> Result<(), Fail> {
    let files = (file.as_bytes(), TWO_FRAMES.as_bytes());
    check(rt, alloc, line, files, ("4", text))
}

// No form runs over this file, whose pattern is refused with this text.
fn check_refused(rt: &impl Abort, alloc: Global, file: &str, text: &str) -> Result<(), Fail> {
    for line in FORMS.lines() {
        check_form(rt, alloc, line, file, text)?;
    }
    Ok(())
}

fn check_cycle(rt: &impl Abort, alloc: Global, line: &str) -> Result<(), Fail> {
    let (changes, cycle) = parted(line);
    let file = changed_often(alloc, MOTOR, changes)?;
    let text = format!(in alloc; "pattern refused: cycle {cycle}\n")?;
    check_refused(rt, alloc, file.as_str(), text.as_str())
}

#[test]
fn an_unvoted_cycle_is_refused(rt: HostRuntime) -> Result<(), Fail> {
    for line in MOTOR_CYCLES.lines() {
        check_cycle(&rt, rt.alloc(), line)?;
    }
    Ok(())
}
