//! The frames of a journal, as who runs them sees them: what the rows of each frame say, and who is not healthy in it.
//! This project's own.
ghost use Rattle.std.specs.Prelude.{◌≡◌, ◌<◌, length, IfOk, IsTrue};
ghost use Rattle.rcp_model.specs.History.{History};
ghost use Rattle.rcp_model.specs.FrameLimits.{IsFrameOf};
ghost use Rattle.top_tests.specs.Frames.{CanFillNext, IsAtStart, IsOfMotor};

use crate::case::journal_of;
use fault_journal::{Journal, JournalFault};
use layer_stack::{FrameIn, Inputs, healthy};
use rcp_base::Memory;
use rcp_model::Plan;
use std::alloc::{AllocError, Global};
use std::process::Abort;
use std::test::Fail;

// Rows of each kind for the motor, over four frames.
const ROWS: &str = "0,sensor,cmd,10,,
0,cell,2,sum,-77,
0,down,1,,,
0,act,0,motor,7,
1,slot,2,1,,
1,lie,1,0,sum,55
1,lieslot,1,2,1,
1,drop,2,0,,
2,skew,2,50,,
2,rate,2,100,,
2,delay,0,2,2000,
4,end,,,,
";

// What is told of the frames: the value of the sensor, and then what is not as in a quiet frame. In the third, clocks and a
// message are at the bounds of healthy ones.
const FRAMES: &str = "10; 0 ill; 0 act 7; 1 ill; 1 down; 2 ill; 2 cell 2 -77
10; 1 ill; 1 to 0 cell 2 55; 1 to 2 slot 1; 2 ill; 2 slot 1; 2 to 0 dropped
10; 0 to 2 delay 2000; 2 skew 50; 2 rate 100
10
";

// A row of each kind that speaks of the second replica, and of its message to the third.
const SECOND_ROWS: &str = "0,sensor,cmd,6,,
0,down,1,,,
0,slot,1,0,,
0,cell,1,sum,-3,
0,act,1,motor,8,
0,skew,1,-50,,
0,rate,1,99,,
0,lie,1,2,pos,5
0,lieslot,1,2,1,
0,drop,1,2,,
0,delay,1,2,0,
2,end,,,,
";

const SECOND_FRAMES: &str =
    "6; 1 ill; 1 down; 1 slot 0; 1 cell 2 -3; 1 act 8; 1 skew -50; 1 rate 99; 1 to 2 cell 0 5; 1 to 2 slot 1; 1 to 2 dropped; 1 to 2 delay 0
6
";

fn has_sizes(plan: &Plan) -> bool
    ensures replicas { IsTrue result → plan.now.replicas ≡ 3 }
    ensures sensors { IsTrue result → length plan.now.sensors ≡ 1 }
    ensures cells { IsTrue result → length plan.now.cells ≡ 3 }
    ensures actuators { IsTrue result → length plan.now.actuators ≡ 1 }
{
    let parts = plan.parts();
    parts.replicas == 3
        && parts.sensors.len() == 1
        && parts.cells.len() == 3
        && parts.actuators.len() == 1
}

// The plan of the motor, whose sizes are tested.
fn motor(alloc: Global) -> Result<Plan, Fail>
    ensures { IfOk result (IsOfMotor) }
{
    let plan = example_plans::motor(alloc)?;
    if has_sizes(&plan) {
        Ok(plan)
    } else {
        Err("other sizes".into())
    }
}

// The rows before the first frame of a journal.
fn begin(alloc: Global, plan: &Plan, journal: &Journal) -> Result<FrameIn, Memory>
    requires { (history : History) × IsAtStart plan.now history journal.now }
    ensures { IfOk result (λ input.
        (history : History) × CanFillNext plan.now history journal.now input) }
{
    FrameIn::new(alloc, plan)
}

// Fills in the next frame of a journal, if there is one.
fn fill_next(rt: &impl Abort, plan: &Plan, journal: &mut Journal, input: &mut FrameIn)
    requires { (history : History) × CanFillNext plan.now history journal.old input.old }
    ensures { (history : History) × CanFillNext plan.now history journal.new input.new }
{
    assert!(rt; journal.done() < journal.frames());
    journal.fill(input);
}

// Goes back to before the first frame of a journal.
fn begin_again(
    alloc: Global,
    plan: &Plan,
    journal: &mut Journal,
    input: &FrameIn,
) -> Result<FrameIn, Memory>
    requires { (history : History) × CanFillNext plan.now history journal.old input.now }
    ensures { IfOk result (λ first.
        (history : History) × CanFillNext plan.now history journal.new first) }
{
    journal.rewind();
    begin(alloc, plan, journal)
}

fn put_what(alloc: Global, text: &mut String, of: &str, what: &str) -> Result<(), AllocError> {
    let item = format!(in alloc; "; {of} {what}")?;
    text.push_str(item.as_str())
}

// Puts what is so of a replica or a message.
fn put_flag(
    alloc: Global,
    text: &mut String,
    of: &str,
    what: &str,
    is: bool,
) -> Result<(), AllocError> {
    if is {
        put_what(alloc, text, of, what)
    } else {
        Ok(())
    }
}

fn put_number(
    alloc: Global,
    text: &mut String,
    of: &str,
    what: &str,
    value: i64,
) -> Result<(), AllocError> {
    let item = format!(in alloc; "; {of} {what} {value}")?;
    text.push_str(item.as_str())
}

// Puts a value of a replica or a message, if there is one.
fn put_value(
    alloc: Global,
    text: &mut String,
    of: &str,
    what: &str,
    value: Option<i64>,
) -> Result<(), AllocError> {
    match value {
        Some(value) => put_number(alloc, text, of, what, value),
        None => Ok(()),
    }
}

fn cell_name(alloc: Global, cell: u32) -> Result<String, AllocError> {
    format!(in alloc; "cell {cell}")
}

fn put_cell(
    alloc: Global,
    text: &mut String,
    of: &str,
    cell: u32,
    value: Option<i64>,
) -> Result<(), AllocError> {
    let name = cell_name(alloc, cell)?;
    put_value(alloc, text, of, name.as_str(), value)
}

// A value other than that of a quiet frame.
fn unlike(value: i64, quiet: i64) -> Option<i64> {
    if value == quiet { None } else { Some(value) }
}

fn put_cells(
    alloc: Global,
    text: &mut String,
    of: &str,
    input: &FrameIn,
    replica: u32,
) -> Result<(), AllocError>
    requires replica { replica < input.now.replicas }
    requires cells { input.now.cells ≡ 3 }
{
    for cell in 0..3u32 {
        put_cell(alloc, text, of, cell, input.cell(replica, cell))?;
    }
    Ok(())
}

fn put_lies(
    alloc: Global,
    text: &mut String,
    of: &str,
    input: &FrameIn,
    from: u32,
    to: u32,
) -> Result<(), AllocError>
    requires from { from < input.now.replicas }
    requires to { to < input.now.replicas }
    requires cells { input.now.cells ≡ 3 }
{
    for cell in 0..3u32 {
        put_cell(alloc, text, of, cell, input.lie(from, to, cell))?;
    }
    Ok(())
}

// Puts what the rows say of a replica.
fn put_replica(
    alloc: Global,
    text: &mut String,
    of: &str,
    input: &FrameIn,
    replica: u32,
) -> Result<(), AllocError>
    requires replica { replica < input.now.replicas }
    requires cells { input.now.cells ≡ 3 }
    requires actuators { input.now.actuators ≡ 1 }
{
    put_flag(alloc, text, of, "down", input.down(replica))?;
    let slot = input.slot(replica).map(|slot| i64::from(slot));
    put_value(alloc, text, of, "slot", slot)?;
    put_cells(alloc, text, of, input, replica)?;
    put_value(alloc, text, of, "act", input.act(replica, 0))?;
    put_value(alloc, text, of, "skew", unlike(input.skew(replica), 0))?;
    put_value(alloc, text, of, "rate", unlike(input.rate(replica), 0))
}

// Puts what the rows say of a message.
fn put_message(
    alloc: Global,
    text: &mut String,
    of: &str,
    input: &FrameIn,
    from: u32,
    to: u32,
) -> Result<(), AllocError>
    requires from { from < input.now.replicas }
    requires to { to < input.now.replicas }
    requires cells { input.now.cells ≡ 3 }
{
    put_lies(alloc, text, of, input, from, to)?;
    let slot = input.lieslot(from, to).map(|slot| i64::from(slot));
    put_value(alloc, text, of, "slot", slot)?;
    put_flag(alloc, text, of, "dropped", input.dropped(from, to))?;
    put_value(alloc, text, of, "delay", unlike(input.delay(from, to), 100))
}

// Puts what the rows say of a replica's messages.
fn put_messages(
    alloc: Global,
    text: &mut String,
    input: &FrameIn,
    from: u32,
) -> Result<(), AllocError>
    requires from { from < 3 }
    requires replicas { input.now.replicas ≡ 3 }
    requires cells { input.now.cells ≡ 3 }
{
    for to in 0..3u32 {
        let of = format!(in alloc; "{from} to {to}")?;
        put_message(alloc, text, of.as_str(), input, from, to)?;
    }
    Ok(())
}

// Puts whether a replica is healthy, and what the rows say of it.
fn put_health(
    alloc: Global,
    text: &mut String,
    plan: &Plan,
    input: &FrameIn,
    replica: u32,
) -> Result<(), AllocError>
    requires plan { IsOfMotor plan.now }
    requires rows { IsFrameOf plan.now input.now }
    requires replica { replica < 3 }
{
    let of = format!(in alloc; "{replica}")?;
    put_flag(
        alloc,
        text,
        of.as_str(),
        "ill",
        !healthy(plan, input, replica),
    )?;
    put_replica(alloc, text, of.as_str(), input, replica)
}

// The value of the sensor, and then what is not as in a quiet frame.
fn told(alloc: Global, plan: &Plan, input: &FrameIn) -> Result<String, AllocError>
    requires plan { IsOfMotor plan.now }
    requires rows { IsFrameOf plan.now input.now }
{
    let sensor = input.sensors().first().copied().unwrap_or(0);
    let mut text = format!(in alloc; "{sensor}")?;
    for replica in 0..3u32 {
        put_health(alloc, &mut text, plan, input, replica)?;
        put_messages(alloc, &mut text, input, replica)?;
    }
    Ok(text)
}

fn check_told(rt: &impl Abort, told: &str, due: &str) {
    assert_eq!(rt; told, due);
}

// Fills in the next frame, of which this is told.
fn check_next(
    rt: &impl Abort,
    alloc: Global,
    plan: &Plan,
    journal: &mut Journal,
    input: &mut FrameIn,
    due: &str,
) -> Result<(), Fail>
    requires plan { IsOfMotor plan.now }
    requires next { (history : History) × CanFillNext plan.now history journal.old input.old }
    ensures { (history : History) × CanFillNext plan.now history journal.new input.new }
{
    fill_next(rt, plan, journal, input);
    let text = told(alloc, plan, input)?;
    check_told(rt, text.as_str(), due);
    Ok(())
}

// Fills in frame after frame, of each of which a line tells.
fn check_frames(
    rt: &impl Abort,
    alloc: Global,
    plan: &Plan,
    journal: &mut Journal,
    input: &mut FrameIn,
    frames: &str,
) -> Result<(), Fail>
    requires plan { IsOfMotor plan.now }
    requires next { (history : History) × CanFillNext plan.now history journal.old input.old }
    ensures { (history : History) × CanFillNext plan.now history journal.new input.new }
{
    for line in frames.lines() {
        check_next(rt, alloc, plan, journal, input, line)?;
    }
    Ok(())
}

fn check_done(rt: &impl Abort, done: u32, due: u32) {
    assert_eq!(rt; done, due);
}

// These are all frames of a journal, also when it begins again.
fn check_twice(
    rt: &impl Abort,
    alloc: Global,
    plan: &Plan,
    journal: &mut Journal,
    input: &mut FrameIn,
    frames: &str,
) -> Result<(), Fail>
    requires plan { IsOfMotor plan.now }
    requires next { (history : History) × CanFillNext plan.now history journal.old input.old }
{
    check_frames(rt, alloc, plan, journal, input, frames)?;
    check_done(rt, journal.done(), journal.frames());
    let mut first = begin_again(alloc, plan, journal, &*input)?;
    check_done(rt, journal.done(), 0);
    check_frames(rt, alloc, plan, journal, &mut first, frames)
}

fn check_text(
    rt: &impl Abort,
    alloc: Global,
    plan: &Plan,
    text: &str,
    frames: &str,
) -> Result<(), Fail>
    requires { IsOfMotor plan.now }
{
    let mut journal = Journal::check(alloc, plan, text.as_bytes())?;
    let mut input = begin(alloc, plan, &journal)?;
    check_twice(rt, alloc, plan, &mut journal, &mut input, frames)
}

// A journal with these rows has these frames.
fn check_journal(rt: &impl Abort, alloc: Global, rows: &str, frames: &str) -> Result<(), Fail> {
    let plan = motor(alloc)?;
    let text = journal_of(alloc, rows)?;
    check_text(rt, alloc, &plan, text.as_str(), frames)
}

#[test]
fn each_frame_has_its_rows(rt: HostRuntime) -> Result<(), Fail> {
    let alloc = rt.alloc();
    check_journal(&rt, alloc, ROWS, FRAMES)?;
    check_journal(&rt, alloc, SECOND_ROWS, SECOND_FRAMES)?;
    check_journal(&rt, alloc, "1,end,,,,\n", "0\n")
}

fn fault_of(alloc: Global, plan: &Plan, text: &str) -> Option<JournalFault> {
    Journal::check(alloc, plan, text.as_bytes()).err()
}

#[test]
fn a_row_that_is_repeated_is_a_fault(rt: HostRuntime) -> Result<(), Fail> {
    let plan = example_plans::motor(rt.alloc())?;
    let text = journal_of(rt.alloc(), "0,down,1,,,\n0,down,1,,,\n1,end,,,,\n")?;
    let fault = fault_of(rt.alloc(), &plan, text.as_str());
    assert_eq!(rt; fault, Some(JournalFault::Repeated { row: 2 }));
    Ok(())
}
