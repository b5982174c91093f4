//! `ideal FILE JOURNAL`: the run of one faultless processor.
//! This project's own.
use crate::call::check;
use crate::case::{check_all, parted, replaced};
use crate::files::in_brackets;
use example_plans::{COUNTER, MOTOR};
use std::alloc::{AllocError, Global};
use std::process::Abort;
use std::test::Fail;

// The motor's run, by hand from the tasks.
const MOTOR_TEXT: &str = "frame 0
vote motor 10
ideal slot 1 cells 0 10 10
frame 1
vote motor 10
ideal slot 0 cells 5 10 10
frame 2
vote motor 15
ideal slot 1 cells 5 5 15
frame 3
vote motor 15
ideal slot 0 cells 12 5 15
end 4
";

const COMMANDED: &str = "frame,kind,a,b,c,d
0,sensor,cmd,10,,
4,end,,,,
";

// The same with carriage returns.
const RETURNED: &str = "frame,kind,a,b,c,d\r\n0,sensor,cmd,10,,\r\n4,end,,,,\r\n";

// The same with a row of each kind that changes nothing in this run.
const EVERY_KIND: &str = "frame,kind,a,b,c,d
0,sensor,cmd,10,,
0,down,1,,,
0,cell,2,sum,-77,
0,slot,2,0,,
0,act,0,motor,7,
0,lie,1,0,sum,55
0,lieslot,1,0,1,
1,drop,1,2,,
1,skew,2,50,,
1,rate,2,100,,
2,delay,0,2,10000,
4,end,,,,
";

// Other runs by hand. Of the position's the second has the error -4 - 10 in frame 2, and the third the error 0 before the
// command comes.
const RUNS: &str = r#"0 motor ideal T J
: 1,end,,,,
frame 0
vote motor 0
ideal slot 1 cells 0 0 0
end 1

0 position ideal T J
: 0,sensor,cmd,10,,
: 3,end,,,,
frame 0
vote motor 9
ideal slot 1 cells 0 10
frame 1
vote motor 19
ideal slot 0 cells 10 10
frame 2
vote motor 9
ideal slot 1 cells 10 0
end 3

0 position ideal T J
: 0,sensor,cmd,10,,
: 2,sensor,cmd,-4,,
: 3,end,,,,
frame 0
vote motor 9
ideal slot 1 cells 0 10
frame 1
vote motor 19
ideal slot 0 cells 10 10
frame 2
vote motor -5
ideal slot 1 cells 10 -14
end 3

0 position ideal T J
: 2,sensor,cmd,10,,
: 3,end,,,,
frame 0
vote motor -1
ideal slot 1 cells 0 0
frame 1
vote motor -1
ideal slot 0 cells 0 0
frame 2
vote motor 9
ideal slot 1 cells 0 10
end 3

0 pitch ideal T J
: 0,sensor,rate,8,,
: 0,sensor,stick,100,,
: 4,end,,,,
frame 0
vote elevator 0
ideal slot 1 cells 2 300 0 0 0
frame 1
vote elevator 594
ideal slot 2 cells 3 300 0 0 594
frame 2
vote elevator 594
ideal slot 3 cells 4 300 0 0 594
frame 3
vote elevator 594
ideal slot 0 cells 5 300 0 0 594
end 4

0 counter ideal T J
frame 0
vote out 1
ideal slot 0 cells 1
frame 1
vote out 2
ideal slot 0 cells 2
end 2"#;

// A journal of one frame.
const ONE_FRAME: &str = "frame,kind,a,b,c,d\n1,end,,,,\n";

// Values that the counter's body may give its cell, which has 0 before.
const VALUES: &str = "7 - 4 - 2 => 1
9223372036854775807 + 1 => 9223372036854775807
-9223372036854775807 - 2 => -9223372036854775808
9223372036854775807 * 2 => 9223372036854775807
9223372036854775807 * -2 => -9223372036854775808
-(-9223372036854775807 - 1) => 9223372036854775807
abs(-9223372036854775807 - 1) => 9223372036854775807
5 / 0 => 0
5 % 0 => 0
(-9223372036854775807 - 1) / -1 => 9223372036854775807
(-9223372036854775807 - 1) % -1 => 0
-7 / 2 => -3
-7 % 2 => -1
7 / -2 => -3
7 % -2 => 1
min(3, -4) => -4
max(3, -4) => 3
clamp(5, 0, 10) => 5
clamp(5, 10, 0) => 10
if(2, 3, 4) => 3
if(0, 3, 4) => 4
2 and 3 => 1
2 and 0 => 0
0 or -7 => 1
0 or 0 => 0
not 5 => 0
not 0 => 1
not 0 + 1 => 0
3 == 3 => 1
3 != 3 => 0
3 < 4 => 1
4 <= 3 => 0
4 > 3 => 1
3 >= 4 => 0
1 + 2 * 3 => 7
(1 + 2) * 3 => 9
";

#[test]
fn the_motor_runs_as_worked(rt: HostRuntime) -> Result<(), Fail> {
    for journal in [COMMANDED, RETURNED, EVERY_KIND] {
        let files = (MOTOR.as_bytes(), journal.as_bytes());
        check(&rt, rt.alloc(), "ideal T J", files, ("0", MOTOR_TEXT))?;
    }
    Ok(())
}

#[test]
fn a_run_is_printed_frame_by_frame(rt: HostRuntime) -> Result<(), Fail> {
    check_all(&rt, rt.alloc(), RUNS)
}

// The text of one frame with this value.
fn frame_text(alloc: Global, value: &str) -> Result<String, AllocError> {
    format!(in alloc; "frame 0\nvote out {value}\nideal slot 0 cells {value}\nend 1\n")
}

fn check_value(rt: &impl Abort, alloc: Global, line: &str) -> Result<(), Fail> {
    let (expression, value) = parted(line);
    let file = replaced(alloc, COUNTER, "n + 1", expression)?;
    let text = frame_text(alloc, value)?;
    let files = (file.as_bytes(), ONE_FRAME.as_bytes());
    check(rt, alloc, "ideal T J", files, ("0", text.as_str()))
}

#[test]
fn expressions_have_their_values(rt: HostRuntime) -> Result<(), Fail> {
    for line in VALUES.lines() {
        check_value(&rt, rt.alloc(), line)?;
    }
    Ok(())
}

#[test]
fn brackets_are_read_64_deep(rt: HostRuntime) -> Result<(), Fail> {
    let file = in_brackets(rt.alloc(), 64)?;
    let text = frame_text(rt.alloc(), "1")?;
    let files = (file.as_bytes(), ONE_FRAME.as_bytes());
    check(&rt, rt.alloc(), "ideal T J", files, ("0", text.as_str()))
}
