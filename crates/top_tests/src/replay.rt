//! `replay FILE JOURNAL` with the word of each layer: the run of the replicas, with faults that are masked and faults that are not.
//! This project's own.
use crate::call::{call, folder_of};
use crate::case::{LAYERS, check_all, put_line};
use crate::outside::lines_are_writes;
use example_plans::MOTOR;
use rcp_base::MemSink;
use std::alloc::Global;
use std::process::Abort;
use std::test::Fail;

// A wrong cell of the third replica: alone, with a wrong slot, and one that stays wrong for two healthy frames.
const RECOVERIES: &str = "0 motor replay T J rs
: 0,sensor,cmd,10,,
: 0,cell,2,sum,-77,
: 4,end,,,,
recovery 3
frame 0 guard yes
vote motor 10
replica 0 up slot 1 cells 0 10 10 working yes
replica 1 up slot 1 cells 0 10 10 working yes
replica 2 up slot 1 cells 0 10 -77 working no
frame 1 guard yes
vote motor 10
replica 0 up slot 0 cells 5 10 10 working yes
replica 1 up slot 0 cells 5 10 10 working yes
replica 2 up slot 0 cells 5 10 -77 working no
frame 2 guard yes
vote motor 15
replica 0 up slot 1 cells 5 5 15 working yes
replica 1 up slot 1 cells 5 5 15 working yes
replica 2 up slot 1 cells 5 5 15 working no
frame 3 guard yes
vote motor 15
replica 0 up slot 0 cells 12 5 15 working yes
replica 1 up slot 0 cells 12 5 15 working yes
replica 2 up slot 0 cells 12 5 15 working yes
end 4

0 motor replay T J rs
: 0,sensor,cmd,10,,
: 0,cell,2,sum,-77,
: 0,slot,2,0,,
: 4,end,,,,
recovery 3
frame 0 guard yes
vote motor 10
replica 0 up slot 1 cells 0 10 10 working yes
replica 1 up slot 1 cells 0 10 10 working yes
replica 2 up slot 0 cells 0 10 -77 working no
frame 1 guard yes
vote motor 10
replica 0 up slot 0 cells 5 10 10 working yes
replica 1 up slot 0 cells 5 10 10 working yes
replica 2 up slot 0 cells 5 10 -67 working no
frame 2 guard yes
vote motor 15
replica 0 up slot 1 cells 5 5 15 working yes
replica 1 up slot 1 cells 5 5 15 working yes
replica 2 up slot 1 cells 5 5 15 working no
frame 3 guard yes
vote motor 15
replica 0 up slot 0 cells 12 5 15 working yes
replica 1 up slot 0 cells 12 5 15 working yes
replica 2 up slot 0 cells 12 5 15 working yes
end 4

0 motor replay T J rs
: 0,sensor,cmd,10,,
: 1,cell,2,err,999,
: 1,slot,2,1,,
: 5,end,,,,
recovery 3
frame 0 guard yes
vote motor 10
replica 0 up slot 1 cells 0 10 10 working yes
replica 1 up slot 1 cells 0 10 10 working yes
replica 2 up slot 1 cells 0 10 10 working yes
frame 1 guard yes
vote motor 10
replica 0 up slot 0 cells 5 10 10 working yes
replica 1 up slot 0 cells 5 10 10 working yes
replica 2 up slot 1 cells 5 999 10 working no
frame 2 guard yes
vote motor 15
replica 0 up slot 1 cells 5 5 15 working yes
replica 1 up slot 1 cells 5 5 15 working yes
replica 2 up slot 1 cells 10 999 15 working no
frame 3 guard yes
vote motor 15
replica 0 up slot 0 cells 12 5 15 working yes
replica 1 up slot 0 cells 12 5 15 working yes
replica 2 up slot 0 cells 12 999 15 working no
frame 4 guard yes
vote motor 13
replica 0 up slot 1 cells 12 -2 13 working yes
replica 1 up slot 1 cells 12 -2 13 working yes
replica 2 up slot 1 cells 12 -2 13 working yes
end 5";

// Two replicas that are down; a message with a lie, with a wrong slot, and one that is dropped; commands that rows give; and a
// message that is heard in its last tick, and one that comes one tick later.
const FAULTS: &str = "0 motor replay T J rs
: 0,sensor,cmd,10,,
: 1,down,0,,,
: 1,down,1,,,
: 3,end,,,,
recovery 3
frame 0 guard yes
vote motor 10
replica 0 up slot 1 cells 0 10 10 working yes
replica 1 up slot 1 cells 0 10 10 working yes
replica 2 up slot 1 cells 0 10 10 working yes
frame 1 guard no
vote motor none
replica 0 down slot 1 cells 0 10 10 working no
replica 1 down slot 1 cells 0 10 10 working no
replica 2 up slot 0 cells 5 10 10 working yes
frame 2 guard no
vote motor 10
replica 0 up slot 0 cells 5 10 10 working no
replica 1 up slot 0 cells 5 10 10 working no
replica 2 up slot 0 cells 5 5 15 working yes
end 3

0 motor replay T J rs
: 0,sensor,cmd,10,,
: 0,lie,1,0,sum,55
: 1,end,,,,
recovery 3
frame 0 guard yes
vote motor 10
replica 0 up slot 1 cells 0 10 10 working yes
replica 1 up slot 1 cells 0 10 10 working no
replica 2 up slot 1 cells 0 10 10 working yes
end 1

0 motor replay T J rs
: 0,sensor,cmd,10,,
: 0,lieslot,1,0,1,
: 1,end,,,,
recovery 3
frame 0 guard yes
vote motor 10
replica 0 up slot 1 cells 0 10 10 working yes
replica 1 up slot 1 cells 0 10 10 working no
replica 2 up slot 1 cells 0 10 10 working yes
end 1

0 motor replay T J rs
: 0,sensor,cmd,10,,
: 0,drop,1,0,,
: 1,end,,,,
recovery 3
frame 0 guard yes
vote motor 10
replica 0 up slot 1 cells 0 10 10 working yes
replica 1 up slot 1 cells 0 10 10 working no
replica 2 up slot 1 cells 0 10 10 working yes
end 1

0 motor replay T J rs
: 0,sensor,cmd,10,,
: 0,down,1,,,
: 0,act,0,motor,7,
: 0,act,1,motor,7,
: 1,end,,,,
recovery 3
frame 0 guard no
vote motor 7
replica 0 up slot 1 cells 0 10 10 working no
replica 1 down slot 0 cells 0 0 0 working no
replica 2 up slot 1 cells 0 10 10 working yes
end 1

0 motor replay T J rs
: 0,sensor,cmd,10,,
: 0,cell,2,sum,-77,
: 2,delay,0,2,10000,
: 4,end,,,,
recovery 3
frame 0 guard yes
vote motor 10
replica 0 up slot 1 cells 0 10 10 working yes
replica 1 up slot 1 cells 0 10 10 working yes
replica 2 up slot 1 cells 0 10 -77 working no
frame 1 guard yes
vote motor 10
replica 0 up slot 0 cells 5 10 10 working yes
replica 1 up slot 0 cells 5 10 10 working yes
replica 2 up slot 0 cells 5 10 -77 working no
frame 2 guard no
vote motor 15
replica 0 up slot 1 cells 5 5 15 working no
replica 1 up slot 1 cells 5 5 15 working yes
replica 2 up slot 1 cells 5 5 15 working no
frame 3 guard no
vote motor 15
replica 0 up slot 0 cells 12 5 15 working no
replica 1 up slot 0 cells 12 5 15 working yes
replica 2 up slot 0 cells 12 5 15 working yes
end 4

0 motor replay T J rs
: 0,sensor,cmd,10,,
: 0,cell,2,sum,-77,
: 2,delay,0,2,10001,
: 4,end,,,,
recovery 3
frame 0 guard yes
vote motor 10
replica 0 up slot 1 cells 0 10 10 working yes
replica 1 up slot 1 cells 0 10 10 working yes
replica 2 up slot 1 cells 0 10 -77 working no
frame 1 guard yes
vote motor 10
replica 0 up slot 0 cells 5 10 10 working yes
replica 1 up slot 0 cells 5 10 10 working yes
replica 2 up slot 0 cells 5 10 -77 working no
frame 2 guard no
vote motor 15
replica 0 up slot 1 cells 5 5 15 working no
replica 1 up slot 1 cells 5 5 15 working yes
replica 2 up slot 1 cells 5 5 -72 working no
frame 3 guard no
vote motor 15
replica 0 up slot 0 cells 12 5 15 working no
replica 1 up slot 0 cells 12 5 15 working yes
replica 2 up slot 0 cells 12 5 -72 working yes
end 4";

// A tie of two; a late message that is heard in the next frame, and one that is heard in none; and the median where there is no
// majority.
const COUNTERS: &str = r#"0 counter replay T J rs
| replicas = 3 => replicas = 2
: 0,cell,1,n,5,
: 2,end,,,,
recovery 1
frame 0 guard no
vote out 1
replica 0 up slot 0 cells 1 working yes
replica 1 up slot 0 cells 5 working no
frame 1 guard no
vote out none
replica 0 up slot 0 cells 2 working yes
replica 1 up slot 0 cells 6 working yes
end 2

0 counter replay T J rs
: 0,delay,0,2,20000,
: 1,down,0,,,
: 1,lie,1,2,n,1
: 2,end,,,,
recovery 1
frame 0 guard yes
vote out 1
replica 0 up slot 0 cells 1 working no
replica 1 up slot 0 cells 1 working yes
replica 2 up slot 0 cells 1 working yes
frame 1 guard no
vote out none
replica 0 down slot 0 cells 1 working no
replica 1 up slot 0 cells 2 working no
replica 2 up slot 0 cells 1 working yes
end 2

0 counter replay T J rs
: 0,delay,0,2,19999,
: 1,down,0,,,
: 1,lie,1,2,n,1
: 2,end,,,,
recovery 1
frame 0 guard yes
vote out 1
replica 0 up slot 0 cells 1 working no
replica 1 up slot 0 cells 1 working yes
replica 2 up slot 0 cells 1 working yes
frame 1 guard no
vote out 2
replica 0 down slot 0 cells 1 working no
replica 1 up slot 0 cells 2 working no
replica 2 up slot 0 cells 2 working yes
end 2

0 counter replay T J rs
| replicas = 3 => format = 2~replicas = 2
| initial = 0 => initial = 0, vote = "median"
: 0,cell,1,n,5,
: 2,end,,,,
recovery 1
frame 0 guard no
vote out 1
replica 0 up slot 0 cells 1 working yes
replica 1 up slot 0 cells 5 working no
frame 1 guard no
vote out 2
replica 0 up slot 0 cells 2 working yes
replica 1 up slot 0 cells 2 working yes
end 2

0 counter replay T J rs
| replicas = 3 => format = 2~replicas = 3
| initial = 0 => initial = 0, vote = "median"
: 0,cell,0,n,4,
: 0,cell,1,n,8,
: 2,end,,,,
recovery 1
frame 0 guard no
vote out 1
replica 0 up slot 0 cells 4 working no
replica 1 up slot 0 cells 8 working no
replica 2 up slot 0 cells 1 working yes
frame 1 guard no
vote out 5
replica 0 up slot 0 cells 5 working yes
replica 1 up slot 0 cells 5 working yes
replica 2 up slot 0 cells 5 working yes
end 2"#;

// Journals of the motor whose guard holds in each frame.
const GUARDED: &str = "0,sensor,cmd,10,, 0,cell,2,sum,-77, 4,end,,,,
0,sensor,cmd,10,, 0,cell,2,sum,-77, 0,slot,2,0,, 4,end,,,,
0,sensor,cmd,10,, 1,cell,2,err,999, 1,slot,2,1,, 5,end,,,,";

// A journal with a wrong cell, and what is printed of it.
pub const WRONG_CELL: &str = "frame,kind,a,b,c,d
0,sensor,cmd,10,,
0,cell,2,sum,-77,
4,end,,,,
";

pub const WRONG_CELL_TEXT: &str = "recovery 3
frame 0 guard yes
vote motor 10
replica 0 up slot 1 cells 0 10 10 working yes
replica 1 up slot 1 cells 0 10 10 working yes
replica 2 up slot 1 cells 0 10 -77 working no
frame 1 guard yes
vote motor 10
replica 0 up slot 0 cells 5 10 10 working yes
replica 1 up slot 0 cells 5 10 10 working yes
replica 2 up slot 0 cells 5 10 -77 working no
frame 2 guard yes
vote motor 15
replica 0 up slot 1 cells 5 5 15 working yes
replica 1 up slot 1 cells 5 5 15 working yes
replica 2 up slot 1 cells 5 5 15 working no
frame 3 guard yes
vote motor 15
replica 0 up slot 0 cells 12 5 15 working yes
replica 1 up slot 0 cells 12 5 15 working yes
replica 2 up slot 0 cells 12 5 15 working yes
end 4
";

#[test]
fn a_replica_recovers(rt: HostRuntime) -> Result<(), Fail> {
    check_all(&rt, rt.alloc(), RECOVERIES)
}

#[test]
fn faults_do_what_they_do(rt: HostRuntime) -> Result<(), Fail> {
    check_all(&rt, rt.alloc(), FAULTS)
}

#[test]
fn counters_run_as_worked(rt: HostRuntime) -> Result<(), Fail> {
    check_all(&rt, rt.alloc(), COUNTERS)
}

#[test]
fn each_line_of_a_replay_is_one_write(rt: HostRuntime) -> Result<(), Fail> {
    let files = (MOTOR.as_bytes(), WRONG_CELL.as_bytes());
    for line in [
        "replay T J",
        "replay T J rs",
        "replay T J ds",
        "replay T J da",
    ] {
        lines_are_writes(&rt, rt.alloc(), line, files, WRONG_CELL_TEXT)?;
    }
    Ok(())
}

// The journal with these rows, which spaces part.
fn journal_with(alloc: Global, rows: &str) -> Result<String, Fail> {
    let mut journal = String::from_str(alloc, "frame,kind,a,b,c,d\n")?;
    for row in rows.split_whitespace() {
        put_line(&mut journal, row)?;
    }
    Ok(journal)
}

fn put_votes(votes: &mut String, text: &str) -> Result<(), Fail> {
    for line in text.lines() {
        if line.starts_with("vote ") {
            put_line(votes, line)?;
        }
    }
    Ok(())
}

// The `vote` lines that the motor prints with these words over a journal.
fn votes_of(alloc: Global, line: &str, journal: &str) -> Result<String, Fail> {
    let mut folder = folder_of(alloc, MOTOR.as_bytes(), journal.as_bytes())?;
    let mut out = MemSink::new(alloc);
    let _status = call(alloc, line, &mut folder, &mut out)?;
    let mut votes = String::new(alloc);
    put_votes(
        &mut votes,
        std::str::from_utf8(out.bytes()).map_err(|_| "no text")?,
    )?;
    Ok(votes)
}

fn check_votes(rt: &impl Abort, alloc: Global, layer: &str, rows: &str) -> Result<(), Fail> {
    let journal = journal_with(alloc, rows)?;
    let line = format!(in alloc; "replay T J {layer}")?;
    let replayed = votes_of(alloc, line.as_str(), journal.as_str())?;
    let ideal = votes_of(alloc, "ideal T J", journal.as_str())?;
    assert_eq!(rt; replayed.as_str(), ideal.as_str(), "{layer}: {rows}");
    assert!(rt; !replayed.is_empty(), "{layer}: {rows}");
    Ok(())
}

fn check_votes_of_layers(rt: &impl Abort, alloc: Global, rows: &str) -> Result<(), Fail> {
    for layer in LAYERS {
        check_votes(rt, alloc, layer, rows)?;
    }
    Ok(())
}

#[test]
fn votes_under_the_guard_are_those_of_the_single_processor(rt: HostRuntime) -> Result<(), Fail> {
    for rows in GUARDED.lines() {
        check_votes_of_layers(&rt, rt.alloc(), rows)?;
    }
    Ok(())
}
