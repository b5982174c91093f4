//! `gen FILE NUMBER FRAMES`: journals that a number gives, and a long one summed up. The rows and the digest were worked out by a
//! few lines in another language.
//! This project's own.
use crate::call::{call, check_call, folder_of};
use crate::case::check_all;
use crate::outside::lines_are_writes;
use example_plans::{COUNTER, MOTOR};
use rcp_base::MemSink;
use std::alloc::Global;
use std::process::Abort;
use std::test::Fail;

// Sensor rows and a fault; the same with zeros before the numbers; the greatest number; a plan without sensors.
const JOURNALS: &str = "0 motor gen T 7 4
frame,kind,a,b,c,d
0,sensor,cmd,52,,
2,sensor,cmd,-16,,
3,cell,2,err,16147,
4,end,,,,

0 motor gen T 007 04
frame,kind,a,b,c,d
0,sensor,cmd,52,,
2,sensor,cmd,-16,,
3,cell,2,err,16147,
4,end,,,,

0 motor gen T 18446744073709551615 5
frame,kind,a,b,c,d
2,sensor,cmd,-23,,
3,down,1,,,
4,sensor,cmd,-81,,
5,end,,,,

0 counter gen T 7 6
frame,kind,a,b,c,d
1,drop,2,0,,
5,slot,2,0,,
6,end,,,,

4 counter gen T 7 4
| [\"n\"] => []
pattern refused: cycle 0:n

6 counter gen X 7 4
unreadable: X

3 counter gen B 7 4
task file refused: E02

7 motor gen T 7 4
! write 3 after 5
frame,kind,a,b,c,d
0,sensor,cmd,52,,
> 2,sen";

const QUIET: &str = "frame,kind,a,b,c,d
1,drop,2,0,,
5,slot,2,0,,
6,end,,,,
";

const LONG: &str = "recovery 3
frames 100000
guarded 100000
votes 100000
none 0
working 262500
digest 6111638267737258368
";

// The motor's journal of a hundred thousand frames.
fn long_journal(rt: &impl Abort, alloc: Global) -> Result<MemSink, Fail> {
    let mut folder = folder_of(alloc, MOTOR.as_bytes(), b"")?;
    let mut journal = MemSink::new(alloc);
    let status = call(alloc, "gen T 7 100000", &mut folder, &mut journal)?;
    assert_eq!(rt; status, "0");
    Ok(journal)
}

fn check_long(rt: &impl Abort, alloc: Global) -> Result<(), Fail> {
    let journal = long_journal(rt, alloc)?;
    let mut folder = folder_of(alloc, MOTOR.as_bytes(), journal.bytes())?;
    let mut out = MemSink::new(alloc);
    check_call(rt, alloc, "summary T J", &mut folder, &mut out, ("0", LONG))
}

#[test]
fn journals_are_generated(rt: HostRuntime) -> Result<(), Fail> {
    check_all(&rt, rt.alloc(), JOURNALS)
}

#[test]
fn each_row_is_one_write(rt: HostRuntime) -> Result<(), Fail> {
    let files = (COUNTER.as_bytes(), b"".as_slice());
    lines_are_writes(&rt, rt.alloc(), "gen T 7 6", files, QUIET)
}

#[test]
fn a_long_run_is_summed_up(rt: HostRuntime) -> Result<(), Fail> {
    check_long(&rt, rt.alloc())
}
