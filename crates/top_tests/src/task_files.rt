//! Task files that are accepted, and the first fault of others.
//! This project's own.
use crate::call::{FORMS_OF_FILE, FORMS_OF_JOURNAL, check_forms, check_runs};
use crate::case::{changed_often, parted, replaced};
use crate::files::{TWO_FRAMES, in_brackets};
use example_plans::{COUNTER, MOTOR};
use std::alloc::Global;
use std::process::Abort;
use std::test::Fail;

// Parts of the counter's file, and what may stand in their place.
const COUNTER_ACCEPTED: &str = r#"replicas = 3 => replicas = 9~sensor = []
initial = 0 => initial = -9223372036854775808
["count"] => []
name = "n", initial = 0 => initial = 0, name = "n"
actuator = [~  { name = "out", value = "n" },~] => actuator = []
actuator = [~  { name = "out", value = "n" },~] => 
name = "out" => name = "n"
n := n + 1; => n:=n+0001;
n := n + 1; => let x = (n * 1); n := if(x < 3, x, 0);
value = "n" => value = "clamp(n, 0, 9)"
replicas = 3 => format = 1~replicas = 3
replicas = 3 => format = 2~recovery_limit = 1~replicas = 3
replicas = 3 => replicas = 3~recovery_limit = 2049~format = 2
replicas = 3 => format = 2~replicas = 3 && initial = 0 => vote = "median", initial = 0
replicas = 3 => format = 2~replicas = 3 && initial = 0 => initial = 0, vote = "majority"
"#;

// The same with the motor's file.
const MOTOR_ACCEPTED: &str = r#"delay_max = 2000 => delay_max = 9943
name = "motor" => name = "cmd"
"#;

// Parts of the counter's file, what stands in their place, and the fault that the file then has.
const COUNTER_FAULTS: &str = r#"replicas = 3 => format = 3~replicas = 10 => E03 format
replicas = 3 => format = 0~replicas = 3 => E03 format
replicas = 3 => format = "2"~replicas = 3 => E03 format
replicas = 3 => format = 2~recovery_limit = 0~replicas = 10 => E03 replicas
replicas = 3 => format = 2~recovery_limit = 0~replicas = 3 => E03 recovery_limit
replicas = 3 => format = 2~recovery_limit = 2050~replicas = 3 => E03 recovery_limit
replicas = 3 => format = 2~recovery_limit = "2"~replicas = 3 => E03 recovery_limit
replicas = 3 => recovery_limit = 2~replicas = 3 => E03 ?
initial = 0 => initial = 0, vote = "median" => E03 cell[0].?
replicas = 3 => format = 2~replicas = 3 && initial = 0 => initial = 0, vote = "mean" => E03 cell[0].vote
replicas = 3 => format = 2~replicas = 3 && initial = 0 => initial = 0, vote = 2 => E03 cell[0].vote
replicas = 3 => replicas = 10 => E03 replicas
replicas = 3 => replicas = 0 => E03 replicas
replicas = 3 => replicas = "3" => E03 replicas
replicas = 3 => speed = 1 => E03 replicas
replicas = 3 => replicas = 3~speed = 1 => E03 ?
timing = { => clock = { => E03 timing
timing = { => timing = 3~clock = { => E03 timing
compute = 30000,  =>  => E03 timing.compute
broadcast = 10000 => broadcast = true => E03 timing.broadcast
vote = 4000 => vote = -1 => E03 timing.vote
sync = 6000,  =>  => E03 timing.sync
skew = 50,  =>  => E03 timing.skew
drift_ppm = 100,  =>  => E03 timing.drift_ppm
delay_min = 100 => delay_min = 1.5 => E03 timing.delay_min
delay_max = 2000 => delay_max = "2" => E03 timing.delay_max
skew_limit = 500,  =>  => E03 timing.skew_limit
drift_limit_ppm = 500 => drift_limit_ppm = 1000000001 => E03 timing.drift_limit_ppm
skew = 50 => skew = 50, jitter = 1 => E03 timing.?
replicas = 3 => replicas = 3~sensor = 3 => E03 sensor
replicas = 3 => replicas = 3~sensor = [{ name = "s" }] => E03 sensor[0].initial
replicas = 3 => replicas = 3~sensor = [{ name = "s", initial = 0, unit = 1 }] => E03 sensor[0].?
cell = [~  { name = "n", initial = 0 },~] =>  => E03 cell
cell = [~  { name = "n", initial = 0 },~] => cell = [] => E03 cell
cell = [~  { name = "n", initial = 0 },~] => cell = { name = "n" } => E03 cell
cell = [~  { name = "n", initial = 0 },~] => cell = [3] => E03 cell[0]
initial = 0 => initial = "0" => E03 cell[0].initial
initial = 0 => initial = 9223372036854775808 => E02
name = "n" => name = 7 => E03 cell[0].name
body = => text = => E03 task[0].body
body = => body = 3, text = => E03 task[0].body
["count"] => "count" => E03 slot[0].tasks
["count"] => ["count", 1] => E03 slot[0].tasks[1]
["n"] => [true] => E03 slot[0].votes[0]
, votes = ["n"] =>  => E03 slot[0].votes
["n"] => ["n"], length = 1 => E03 slot[0].?
value = "n" => value = 0 => E03 actuator[0].value
actuator = => actuator = 3~unit = => E03 actuator
name = "n" => name = "N" => E04 cell[0].name
name = "n" => name = "let" => E04 cell[0].name
name = "n" => name = "a23456789012345678901234567890123" => E04 cell[0].name
name = "count" => name = "Count" => E04 task[0].name
name = "out" => name = "" => E04 actuator[0].name
n := n + 1; =>  => E05 task[0].body byte 0
n := n + 1; => n := 9223372036854775808; => E05 task[0].body byte 5
n := n + 1; => n := n + 1 => E05 task[0].body byte 10
n := n + 1; => n := n < 1 < 2; => E05 task[0].body byte 11
n := n + 1; => m := n + 1; => E07 task[0].body byte 0
n := n + 1; => n := m; => E06 task[0].body byte 5
n := n + 1; => n := 1; n := 2; => E07 task[0].body byte 8
n := n + 1; => let n = 1; n := 2; => E07 task[0].body byte 4
n := n + 1; => let x = x; n := x; => E06 task[0].body byte 8
value = "n" => value = "" => E05 actuator[0].value byte 0
value = "n" => value = "n +" => E05 actuator[0].value byte 3
value = "n" => value = "n;" => E05 actuator[0].value byte 1
value = "n" => value = "1 + m" => E06 actuator[0].value byte 4
["count"] => ["other"] => E08 slot[0].tasks[0]
["count"] => ["count", "n"] => E08 slot[0].tasks[1]
["n"] => ["count"] => E08 slot[0].votes[0]
["count"] => ["count", "count"] => E09 slot[0].tasks[1]
["n"] => ["n", "n"] => E09 slot[0].votes[1]
compute = 30000 => compute = 0 => E10 rule 1
delay_max = 2000 => delay_max = 9944 => E10 rule 2
skew_limit = 500 => skew_limit = 2989 => E10 rule 4
drift_limit_ppm = 500 => drift_limit_ppm = 1001 => E10 rule 5
name = "n" => name = "N" && replicas = 3 => replicas = 3~speed = 1 => E03 ?
name = "n" => name = "N" && value = "n" => value = "" => E04 cell[0].name
value = "n" => value = "" && ["count"] => ["other"] => E05 actuator[0].value byte 0
value = "n" => value = "" && n + 1 => m => E06 task[0].body byte 5
["count"] => ["count", "count"] && votes = ["n"] } => votes = [] }, { tasks = ["x"], votes = [] } => E08 slot[1].tasks[0]
["n"] => ["n", "n"] && compute = 30000 => compute = 0 => E09 slot[0].votes[1]
"#;

// The same with the motor's file.
const MOTOR_FAULTS: &str = r#"name = "err" => name = "cmd" => E04 cell[1].name
name = "integrate" => name = "sense" => E04 task[1].name
err := cmd - pos; => err := cmd - poz; => E06 task[0].body byte 13
pos := pos + sum / 2; => cmd := 1; => E07 task[2].body byte 0
tasks = ["move"] => tasks = ["move", "pos"] => E08 slot[1].tasks[1]
tasks = ["sense", "integrate"] => tasks = ["sense", "integrate", "sense2"] && task = [ => task = [~  { name = "sense2", body = "err := cmd;" }, => E09 slot[0].tasks[2]
"#;

fn check_accepted(rt: &impl Abort, alloc: Global, file: &str, line: &str) -> Result<(), Fail> {
    let file = changed_often(alloc, file, line)?;
    check_runs(rt, alloc, line, file.as_str(), TWO_FRAMES)
}

// Each line has changes with which the file is accepted.
fn are_accepted(rt: &impl Abort, alloc: Global, file: &str, lines: &str) -> Result<(), Fail> {
    for line in lines.lines() {
        check_accepted(rt, alloc, file, line)?;
    }
    Ok(())
}

fn check_changed(rt: &impl Abort, alloc: Global, file: &str, line: &str) -> Result<(), Fail> {
    let (changes, fault) = parted(line);
    let file = changed_often(alloc, file, changes)?;
    check_fault(rt, alloc, file.as_bytes(), fault)
}

// Each line has changes and the fault that the file then has.
fn have_faults(rt: &impl Abort, alloc: Global, file: &str, lines: &str) -> Result<(), Fail> {
    for line in lines.lines() {
        check_changed(rt, alloc, file, line)?;
    }
    Ok(())
}

// No form runs over this file, which has this fault. That the journal has a fault too is not seen.
fn check_fault(rt: &impl Abort, alloc: Global, file: &[u8], fault: &str) -> Result<(), Fail> {
    let text = format!(in alloc; "task file refused: {fault}\n")?;
    let files = (file, b"no journal".as_slice());
    let due = ("3", text.as_str());
    check_forms(rt, alloc, FORMS_OF_FILE, files, due)?;
    check_forms(rt, alloc, FORMS_OF_JOURNAL, files, due)
}

#[test]
fn other_task_files_are_accepted(rt: HostRuntime) -> Result<(), Fail> {
    are_accepted(&rt, rt.alloc(), COUNTER, COUNTER_ACCEPTED)?;
    are_accepted(&rt, rt.alloc(), MOTOR, MOTOR_ACCEPTED)
}

#[test]
fn a_task_file_is_refused_at_its_first_fault(rt: HostRuntime) -> Result<(), Fail> {
    have_faults(&rt, rt.alloc(), COUNTER, COUNTER_FAULTS)?;
    have_faults(&rt, rt.alloc(), MOTOR, MOTOR_FAULTS)
}

#[test]
fn files_that_are_no_document_are_refused(rt: HostRuntime) -> Result<(), Fail> {
    let alloc = rt.alloc();
    check_fault(&rt, alloc, b"", "E03 replicas")?;
    check_fault(&rt, alloc, b"no = toml = at all", "E02")?;
    check_fault(&rt, alloc, b"\xff", "E02")
}

#[test]
fn the_longest_file_is_read(rt: HostRuntime) -> Result<(), Fail> {
    let longest = "#".repeat(rt.alloc(), 1_048_576)?;
    check_fault(&rt, rt.alloc(), longest.as_bytes(), "E03 replicas")
}

#[test]
fn a_longer_file_is_refused(rt: HostRuntime) -> Result<(), Fail> {
    let longer = "#".repeat(rt.alloc(), 1_048_577)?;
    check_fault(&rt, rt.alloc(), longer.as_bytes(), "E01")
}

// The counter with a body of 4,097 bytes.
fn long_bodied(alloc: Global) -> Result<String, Fail> {
    let blanks = " ".repeat(alloc, 4_085)?;
    let body = format!(in alloc; "n := n + 12;{}", blanks.as_str())?;
    replaced(alloc, COUNTER, "n := n + 1;", body.as_str())
}

#[test]
fn a_longer_text_is_refused(rt: HostRuntime) -> Result<(), Fail> {
    let file = long_bodied(rt.alloc())?;
    check_fault(&rt, rt.alloc(), file.as_bytes(), "E03 task[0].body")
}

#[test]
fn the_bracket_past_the_64th_is_refused(rt: HostRuntime) -> Result<(), Fail> {
    let file = in_brackets(rt.alloc(), 65)?;
    check_fault(&rt, rt.alloc(), file.as_bytes(), "E05 task[0].body byte 69")
}
