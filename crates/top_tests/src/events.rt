//! `events FILE JOURNAL first`, and `last`: the timed events of the replicas on clocks.
//! This project's own.
use crate::case::check_all;
use crate::outside::lines_are_writes;
use example_plans::COUNTER;
use std::test::Fail;

// A clock and a message of the third replica are off as far as healthy ones may be: the events, in each order, and the replay.
const LATE: &str = "0 motor events T J first
: 0,skew,2,50,,
: 0,rate,2,100,,
: 0,delay,2,0,2000,
: 1,end,,,,
frame 0
0 begin 0
0 begin 1
50 begin 2
30000 send 0
30000 send 1
30053 send 2
30100 deliver 1 to 0 of 0
30100 deliver 0 to 1 of 0
30100 deliver 0 to 2 of 0
30100 deliver 1 to 2 of 0
30153 deliver 2 to 1 of 0
32053 deliver 2 to 0 of 0
40000 vote 0
40000 vote 1
40054 vote 2
44000 sync 0
44000 sync 1
44054 sync 2
end 1

0 motor events T J last
: 0,skew,2,50,,
: 0,rate,2,100,,
: 0,delay,2,0,2000,
: 1,end,,,,
frame 0
0 begin 1
0 begin 0
50 begin 2
30000 send 1
30000 send 0
30053 send 2
30100 deliver 1 to 2 of 0
30100 deliver 0 to 2 of 0
30100 deliver 0 to 1 of 0
30100 deliver 1 to 0 of 0
30153 deliver 2 to 1 of 0
32053 deliver 2 to 0 of 0
40000 vote 1
40000 vote 0
40054 vote 2
44000 sync 1
44000 sync 0
44054 sync 2
end 1

0 motor replay T J rs
: 0,skew,2,50,,
: 0,rate,2,100,,
: 0,delay,2,0,2000,
: 1,end,,,,
recovery 3
frame 0 guard yes
vote motor 0
replica 0 up slot 1 cells 0 0 0 working yes
replica 1 up slot 1 cells 0 0 0 working yes
replica 2 up slot 1 cells 0 0 0 working yes
end 1";

// A message that comes in the frame after its own, whose sender is then down, and one that comes after the last frame.
const STALE: &str = "0 counter events T J first
: 0,delay,0,2,20000,
: 1,down,0,,,
: 1,delay,1,2,20000,
: 2,end,,,,
frame 0
0 begin 0
0 begin 1
0 begin 2
30000 send 0
30000 send 1
30000 send 2
30100 deliver 1 to 0 of 0
30100 deliver 2 to 0 of 0
30100 deliver 0 to 1 of 0
30100 deliver 2 to 1 of 0
30100 deliver 1 to 2 of 0
40000 vote 0
40000 vote 1
40000 vote 2
44000 sync 0
44000 sync 1
44000 sync 2
frame 1
50000 begin 1
50000 begin 2
50000 deliver 0 to 2 of 0
80000 send 1
80000 send 2
80100 deliver 1 to 0 of 1
80100 deliver 2 to 0 of 1
80100 deliver 2 to 1 of 1
90000 vote 1
90000 vote 2
94000 sync 1
94000 sync 2
end 2";

// One quiet frame of the counter.
const QUIET: &[u8] = b"frame,kind,a,b,c,d\n1,end,,,,\n";

const QUIET_EVENTS: &str = "frame 0
0 begin 0
0 begin 1
0 begin 2
30000 send 0
30000 send 1
30000 send 2
30100 deliver 1 to 0 of 0
30100 deliver 2 to 0 of 0
30100 deliver 0 to 1 of 0
30100 deliver 2 to 1 of 0
30100 deliver 0 to 2 of 0
30100 deliver 1 to 2 of 0
40000 vote 0
40000 vote 1
40000 vote 2
44000 sync 0
44000 sync 1
44000 sync 2
end 1
";

#[test]
fn events_come_in_the_order_of_the_word(rt: HostRuntime) -> Result<(), Fail> {
    check_all(&rt, rt.alloc(), LATE)
}

#[test]
fn late_messages_come_in_the_next_frame(rt: HostRuntime) -> Result<(), Fail> {
    check_all(&rt, rt.alloc(), STALE)
}

#[test]
fn each_line_of_events_is_one_write(rt: HostRuntime) -> Result<(), Fail> {
    let files = (COUNTER.as_bytes(), QUIET);
    lines_are_writes(&rt, rt.alloc(), "events T J first", files, QUIET_EVENTS)
}
