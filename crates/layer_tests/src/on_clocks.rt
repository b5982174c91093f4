//! The replicas on clocks run the worked cases, whichever of the events that are due at once is taken.
//! This project's own.
ghost use Rattle.clocked_layer.specs.Stepped.{no_mail};
ghost use Rattle.rcp_model.specs.System.{initial_state};

use crate::cases::Case;
use crate::kinds::{Kind, check_worked};
use crate::shown::{begin, run_all};
use clocked_layer::{Clocked, Stepped, Timed};
use event_queue::{Event, EventKind, First, Last, Picker, Script};
use fault_journal::Journal;
use rcp_base::{List, Memory};
use rcp_model::Plan;
use std::alloc::Global;
use std::process::Abort;
use std::test::Fail;

/// A frame in which a clock and a message are off as far as healthy ones may be, with its events in the order in which the
/// first of those due is taken.
pub const FIRST_LOG: &str = "motor
: 0,skew,2,50,,
: 0,rate,2,100,,
: 0,delay,2,0,2000,
: 1,end,,,,
0 begin 0
0 begin 1
50 begin 2
30000 send 0
30000 send 1
30053 send 2
30100 deliver 1 to 0 of 0
30100 deliver 0 to 1 of 0
30100 deliver 0 to 2 of 0
30100 deliver 1 to 2 of 0
30153 deliver 2 to 1 of 0
32053 deliver 2 to 0 of 0
40000 vote 0
40000 vote 1
40054 vote 2
44000 sync 0
44000 sync 1
44054 sync 2";

// The same where the last is taken.
const LAST_LOG: &str = "motor
: 0,skew,2,50,,
: 0,rate,2,100,,
: 0,delay,2,0,2000,
: 1,end,,,,
0 begin 1
0 begin 0
50 begin 2
30000 send 1
30000 send 0
30053 send 2
30100 deliver 1 to 2 of 0
30100 deliver 0 to 2 of 0
30100 deliver 0 to 1 of 0
30100 deliver 1 to 0 of 0
30153 deliver 2 to 1 of 0
32053 deliver 2 to 0 of 0
40000 vote 1
40000 vote 0
40054 vote 2
44000 sync 1
44000 sync 0
44054 sync 2";

// The same where the second of the first two is taken, and the first from then on.
const SECOND_LOG: &str = "motor
: 0,skew,2,50,,
: 0,rate,2,100,,
: 0,delay,2,0,2000,
: 1,end,,,,
0 begin 1
0 begin 0
50 begin 2
30000 send 0
30000 send 1
30053 send 2
30100 deliver 1 to 0 of 0
30100 deliver 0 to 1 of 0
30100 deliver 0 to 2 of 0
30100 deliver 1 to 2 of 0
30153 deliver 2 to 1 of 0
32053 deliver 2 to 0 of 0
40000 vote 0
40000 vote 1
40054 vote 2
44000 sync 0
44000 sync 1
44054 sync 2";

/// On clocks, with this picker.
struct OnClocks<P> {
    picker: P,
}

impl<P: Picker + Copy + Drop> Kind for OnClocks<P> {
    type Made = Timed<Clocked<P>>;

    fn fresh(&self, alloc: Global, plan: &Plan) -> Result<Timed<Clocked<P>>, Memory> {
        Ok(Timed::new(Clocked::new(alloc, plan, self.picker)?))
    }
}

#[test]
fn where_the_first_is_taken_the_worked_cases_run(rt: HostRuntime) -> Result<(), Fail> {
    check_worked(&rt, rt.alloc(), &OnClocks { picker: First })
}

#[test]
fn where_the_last_is_taken_the_worked_cases_run(rt: HostRuntime) -> Result<(), Fail> {
    check_worked(&rt, rt.alloc(), &OnClocks { picker: Last })
}

fn name_of(kind: EventKind) -> &'static str {
    match kind {
        EventKind::Begin => "begin",
        EventKind::Send => "send",
        EventKind::Deliver => "deliver",
        EventKind::Vote => "vote",
        EventKind::Sync => "sync",
    }
}

// The line of an event, with its line feed.
fn line_of(alloc: Global, event: &Event) -> Result<String, Fail> {
    let name = name_of(event.kind);
    let (tick, replica, other, frame) = (event.tick, event.replica, event.other, event.frame);
    Ok(match event.kind {
        EventKind::Deliver => format!(in alloc; "{tick} {name} {other} to {replica} of {frame}\n")?,
        _ => format!(in alloc; "{tick} {name} {replica}\n")?,
    })
}

fn check_events(rt: &impl Abort, alloc: Global, log: &[Event], due: &str) -> Result<(), Fail> {
    let mut text = String::new(alloc);
    for event in log.iter() {
        text.push_str(line_of(alloc, event)?.as_str())?;
    }
    assert_eq!(rt; text.as_str(), due);
    Ok(())
}

// The events of the last frame of a case are those that it says, in its order.
fn check_last_log<B: Stepped + Drop>(
    rt: &impl Abort,
    alloc: Global,
    case: &Case,
    plan: &Plan,
    block: B,
) -> Result<(), Fail>
    requires { B.rests block plan.now (initial_state plan.now) no_mail }
{
    let mut journal = Journal::check(alloc, plan, case.journal.as_bytes())?;
    let mut run = begin(alloc, plan, 3, Timed::new(block), &journal)?;
    run_all(rt, &mut run, &mut journal);
    check_events(rt, alloc, run.layer().block().log(), case.due.as_str())
}

// The same of replicas on clocks with this picker.
fn check_log<P: Picker + Drop>(
    rt: &impl Abort,
    alloc: Global,
    block: &str,
    picker: P,
) -> Result<(), Fail> {
    let case = Case::read(alloc, block)?;
    let plan = case.plan(alloc)?;
    let clocked = Clocked::new(alloc, &plan, picker)?;
    check_last_log(rt, alloc, &case, &plan, clocked)
}

fn one(alloc: Global, answer: u32) -> Result<List<u32>, Memory> {
    let mut answers = List::new(alloc);
    answers.push(answer)?;
    Ok(answers)
}

#[test]
fn a_picker_orders_what_is_due_at_once(rt: HostRuntime) -> Result<(), Fail> {
    check_log(&rt, rt.alloc(), FIRST_LOG, First)?;
    check_log(&rt, rt.alloc(), LAST_LOG, Last)?;
    let second = Script::new(one(rt.alloc(), 1)?);
    check_log(&rt, rt.alloc(), SECOND_LOG, second)
}
