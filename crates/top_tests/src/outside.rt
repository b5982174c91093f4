//! A folder and a sink that fail, and the lines as the sink gets them.
//! This project's own.
use crate::call::{check_call, folder_of};
use crate::case::{check_all, put_line};
use crate::files::TWO_FRAMES;
use example_plans::COUNTER;
use rcp_base::{MemSink, Memory};
use std::alloc::Global;
use std::process::Abort;
use std::test::Fail;

// A read that fails names its word and leaves no text. A write that fails leaves a front of the text.
const FAILURES: &str = "6 counter ideal T J
! read 1
unreadable: T

6 counter ideal T J
! read 2
unreadable: J

6 counter check T
! read 1
unreadable: T

0 counter check T
! read 2
task count n := n + 1;
slot 0 votes n
votes 1
recovery 1
walk -

7 motor ideal T J
: 0,sensor,cmd,10,,
: 4,end,,,,
! write 3 after 5
frame 0
vote motor 10
> ideal

6 motor replay T J rs
! read 1
unreadable: T

6 motor replay T J rs
! read 2
unreadable: J

7 motor replay T J rs
: 0,sensor,cmd,10,,
: 4,end,,,,
! write 3 after 3
recovery 3
frame 0 guard yes
> vot";

const COUNTED: &str = "frame 0
vote out 1
ideal slot 0 cells 1
frame 1
vote out 2
ideal slot 0 cells 2
end 2
";

const COUNTER_CHECKED: &str = "task count n := n + 1;
slot 0 votes n
votes 1
recovery 1
walk -
";

// How many bytes a failing write has taken.
const TAKEN: u32 = 3;

fn sink_failing_at(alloc: Global, write: u32) -> Result<MemSink, Memory> {
    let mut out = MemSink::new(alloc);
    out.fail_at(write, TAKEN)?;
    Ok(out)
}

// What was written where the write of this line failed.
fn front_with(alloc: Global, written: &str, line: &str) -> Result<String, Fail> {
    let front = line.get(..TAKEN as usize).unwrap_or(line);
    Ok(format!(in alloc; "{written}{front}")?)
}

// Where the write with this number fails after three bytes, this text was written.
fn check_front(
    rt: &impl Abort,
    alloc: Global,
    line: &str,
    files: (&[u8], &[u8]),
    write: u32,
    due: (&str, &str),
) -> Result<(), Fail> {
    let mut folder = folder_of(alloc, files.0, files.1)?;
    let mut out = sink_failing_at(alloc, write)?;
    check_call(rt, alloc, line, &mut folder, &mut out, due)
}

fn check_fronts(
    rt: &impl Abort,
    alloc: Global,
    line: &str,
    files: (&[u8], &[u8]),
    text: &str,
    written: &mut String,
) -> Result<(), Fail> {
    let mut write = 1u32;
    for next in text.lines() {
        let front = front_with(alloc, written.as_str(), next)?;
        check_front(rt, alloc, line, files, write, ("7", front.as_str()))?;
        put_line(written, next)?;
        write = write.saturating_add(1);
    }
    check_front(rt, alloc, line, files, write, ("0", written.as_str()))
}

/// Over these two files, where a write fails after three bytes, these and the lines before were written, and where none fails all
/// of them.
pub fn lines_are_writes(
    rt: &impl Abort,
    alloc: Global,
    line: &str,
    files: (&[u8], &[u8]),
    text: &str,
) -> Result<(), Fail> {
    let mut written = String::new(alloc);
    check_fronts(rt, alloc, line, files, text, &mut written)
}

#[test]
fn failures_are_told(rt: HostRuntime) -> Result<(), Fail> {
    check_all(&rt, rt.alloc(), FAILURES)
}

#[test]
fn each_line_is_one_write(rt: HostRuntime) -> Result<(), Fail> {
    let files = (COUNTER.as_bytes(), TWO_FRAMES.as_bytes());
    lines_are_writes(&rt, rt.alloc(), "ideal T J", files, COUNTED)?;
    lines_are_writes(&rt, rt.alloc(), "check T", files, COUNTER_CHECKED)
}
