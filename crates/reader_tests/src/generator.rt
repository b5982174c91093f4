//! Generated journals, whole. The texts were worked out from the rule by another program, in another language.
//! This project's own.
ghost use Rattle.std.specs.Prelude.{◌≤◌};

use crate::cases::{check_answer, replaced};
use example_plans::{MOTOR, counter, motor, pitch};
use fault_journal::Journal;
use journal_gen::generate;
use layer_stack::Inputs;
use rcp_model::Plan;
use std::alloc::Global;
use std::process::Abort;
use std::str;
use std::test::Fail;
use task_file::read_plan;

// The motor, number 7.
const SEVEN: &str = "frame,kind,a,b,c,d
0,sensor,cmd,52,,
2,sensor,cmd,-16,,
3,cell,2,err,16147,
4,end,,,,
";

// The motor, the greatest number.
const GREATEST: &str = "frame,kind,a,b,c,d
2,sensor,cmd,-23,,
3,down,1,,,
4,sensor,cmd,-81,,
8,sensor,cmd,-1,,
11,slot,1,0,,
19,slot,2,0,,
20,sensor,cmd,-70,,
24,sensor,cmd,-96,,
27,drop,2,0,,
28,sensor,cmd,-45,,
30,end,,,,
";

// The counter, which has no sensor and a fault in every fourth frame.
const WITHOUT_SENSORS: &str = "frame,kind,a,b,c,d
1,slot,1,0,,
5,down,2,,,
9,slot,2,0,,
13,down,2,,,
17,slot,1,0,,
21,drop,0,1,,
25,drop,0,1,,
29,slot,0,0,,
33,slot,2,0,,
37,cell,1,n,-9069,
40,end,,,,
";

// The motor with one replica, which never has a fault.
const ALONE: &str = "frame,kind,a,b,c,d
2,sensor,cmd,-18,,
6,sensor,cmd,41,,
8,sensor,cmd,-47,,
12,end,,,,
";

// The motor with nine replicas.
const NINE: &str = "frame,kind,a,b,c,d
2,sensor,cmd,-18,,
3,cell,5,pos,-6191,
4,sensor,cmd,-99,,
8,sensor,cmd,52,,
10,sensor,cmd,65,,
11,cell,2,sum,4885,
14,sensor,cmd,-77,,
16,sensor,cmd,-51,,
19,slot,3,1,,
27,cell,3,err,-9199,
28,sensor,cmd,-58,,
30,sensor,cmd,-94,,
34,sensor,cmd,-31,,
35,down,6,,,
36,sensor,cmd,-75,,
42,sensor,cmd,57,,
43,drop,3,4,,
51,drop,4,5,,
59,cell,0,sum,5855,
60,end,,,,
";

// The pitch controller, with two sensors: frame 32 has both a sensor's row and a fault's.
const PITCH_TEXT: &str = "frame,kind,a,b,c,d
4,sensor,stick,61,,
8,sensor,rate,90,,
10,down,2,,,
14,sensor,rate,-94,,
16,sensor,rate,-14,,
18,sensor,rate,-33,,
20,sensor,rate,-57,,
22,sensor,rate,30,,
24,sensor,stick,-77,,
28,sensor,rate,-98,,
32,sensor,stick,-89,,
32,cell,3,ref,9299,
40,sensor,rate,-47,,
52,sensor,rate,78,,
54,sensor,rate,-68,,
54,drop,0,1,,
58,sensor,rate,53,,
60,end,,,,
";

// How many frames a journal of the plan has, or that it is refused.
fn frames_of(alloc: Global, plan: &Plan, journal: &[u8]) -> Result<u32, Fail> {
    let journal = Journal::check(alloc, plan, journal).map_err(|_| "refused")?;
    Ok(journal.frames())
}

// The journal of a number has this text, and is accepted with as many frames.
fn check_generated(
    rt: &impl Abort,
    alloc: Global,
    plan: &Plan,
    length: u32,
    number: u64,
    frames: u32,
    due: &str,
) -> Result<(), Fail>
    requires length { 1 ≤ length }
    requires some { 1 ≤ frames }
    requires few { frames ≤ 1_000_000 }
{
    let text = generate(alloc, plan, length, number, frames).map_err(|_| "no memory")?;
    check_answer(rt, "text", str::from_utf8(text.as_slice())?, due);
    let read = frames_of(alloc, plan, text.as_slice())?;
    assert_eq!(rt; read, frames);
    Ok(())
}

// The motor with other replicas.
fn motor_of(alloc: Global, replicas: &str) -> Result<Plan, Fail> {
    let text = replaced(alloc, MOTOR, "replicas = 3", replicas)?;
    Ok(read_plan(alloc, text.as_bytes()).map_err(|_| "no plan")?)
}

#[test]
fn a_number_gives_its_journal(rt: HostRuntime) -> Result<(), Fail> {
    let plan = motor(rt.alloc()).map_err(|_| "no plan")?;
    check_generated(&rt, rt.alloc(), &plan, 3, 7, 4, SEVEN)
}

#[test]
fn the_greatest_number_does_too(rt: HostRuntime) -> Result<(), Fail> {
    let plan = motor(rt.alloc()).map_err(|_| "no plan")?;
    check_generated(&rt, rt.alloc(), &plan, 3, u64::MAX, 30, GREATEST)
}

#[test]
fn a_plan_without_sensors_has_faults_alone(rt: HostRuntime) -> Result<(), Fail> {
    let plan = counter(rt.alloc()).map_err(|_| "no plan")?;
    check_generated(&rt, rt.alloc(), &plan, 1, 12, 40, WITHOUT_SENSORS)
}

#[test]
fn one_replica_has_no_fault(rt: HostRuntime) -> Result<(), Fail> {
    let plan = motor_of(rt.alloc(), "replicas = 1")?;
    check_generated(&rt, rt.alloc(), &plan, 3, 5, 12, ALONE)
}

#[test]
fn nine_replicas_take_turns(rt: HostRuntime) -> Result<(), Fail> {
    let plan = motor_of(rt.alloc(), "replicas = 9")?;
    check_generated(&rt, rt.alloc(), &plan, 3, 5, 60, NINE)
}

#[test]
fn a_frame_has_a_sensor_and_a_fault(rt: HostRuntime) -> Result<(), Fail> {
    let plan = pitch(rt.alloc()).map_err(|_| "no plan")?;
    check_generated(&rt, rt.alloc(), &plan, 10, 3, 60, PITCH_TEXT)
}
