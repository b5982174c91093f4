//! Journals that are accepted, and the first fault of others. Rows stand apart by slashes here, without the header.
//! This project's own.
use crate::call::{FORMS_OF_JOURNAL, check_forms, check_runs};
use crate::case::parted;
use example_plans::MOTOR;
use std::alloc::{AllocError, Global};
use std::process::Abort;
use std::test::Fail;

// Journals of the motor that are accepted.
const ACCEPTED: &str = r#"1,end,,,,
001,"end",,,,
1,end,"",,,
/1,end,,,,/
0,sensor,cmd,-9223372036854775808,,/1,end,,,,
0,sensor,cmd,1,,/1,sensor,cmd,1,,/2,end,,,,
0,down,0,,,/0,down,1,,,/1,down,0,,,/2,end,,,,
0,cell,0,pos,1,/0,cell,0,err,1,/0,cell,1,pos,1,/1,end,,,,
0,slot,2,1,,/0,slot,1,-0,,/1,end,,,,
0,lie,1,0,sum,1/0,lie,0,1,sum,1/0,lie,1,0,pos,1/0,lie,1,2,sum,1/1,end,,,,
0,lieslot,1,0,1,/0,drop,1,0,,/0,delay,1,0,0,/0,delay,0,1,48969,/1,end,,,,
0,skew,0,500,,/0,skew,1,-500,,/0,rate,0,500,,/0,rate,1,-500,,/1,end,,,,
0,down,0,,,/0,down,1,,,/5,down,1,,,/7,end,,,,
"#;

// Journals of the motor, and the fault that each has.
const FAULTS: &str = r#"0,sensor,cmd,10,, => J09 row 2
 => J09 row 1
1,end,,,,/1,down,0,,, => J09 row 2
1,end,,,,/2,end,,,, => J09 row 2
1,end,,,,/x => J09 row 2
0,down,1,,/1,end,,,, => J02 row 1
0,down,1,,,,/1,end,,,, => J02 row 1
0,down,1,,,/x/1,end,,,, => J02 row 2
0,down,1,,,/""/1,end,,,, => J02 row 2
0,jump,1,,,/1,end,,,, => J04 row 1
0,,1,,,/1,end,,,, => J04 row 1
0,Down,1,,,/1,end,,,, => J04 row 1
x,jump,1,,,/1,end,,,, => J04 row 1
x,down,0,,,/1,end,,,, => J05 row 1 column 1
,down,0,,,/1,end,,,, => J05 row 1 column 1
+1,down,0,,,/2,end,,,, => J05 row 1 column 1
1 ,down,0,,,/2,end,,,, => J05 row 1 column 1
-,end,,,, => J05 row 1 column 1
x,down,y,,,/1,end,,,, => J05 row 1 column 1
0,sensor,speed,1,,/1,end,,,, => J05 row 1 column 3
0,sensor,pos,1,,/1,end,,,, => J05 row 1 column 3
0,sensor,cmd,9223372036854775808,,/1,end,,,, => J05 row 1 column 4
0,sensor,cmd,-9223372036854775809,,/1,end,,,, => J05 row 1 column 4
0,sensor,cmd,1.5,,/1,end,,,, => J05 row 1 column 4
0,sensor,cmd,1,0,/1,end,,,, => J05 row 1 column 5
0,sensor,cmd,1,,0/1,end,,,, => J05 row 1 column 6
0,down,one,,,/1,end,,,, => J05 row 1 column 3
0,down,0,1,,/1,end,,,, => J05 row 1 column 4
0,down,0,,1,/1,end,,,, => J05 row 1 column 5
0,down,0,,,1/1,end,,,, => J05 row 1 column 6
0,cell,x,pos,1,/1,end,,,, => J05 row 1 column 3
0,cell,0,cmd,1,/1,end,,,, => J05 row 1 column 4
0,cell,0,pos,,/1,end,,,, => J05 row 1 column 5
0,cell,0,pos,1,1/1,end,,,, => J05 row 1 column 6
0,slot,,0,,/1,end,,,, => J05 row 1 column 3
0,slot,0,a,,/1,end,,,, => J05 row 1 column 4
0,slot,0,0,0,/1,end,,,, => J05 row 1 column 5
0,act,motor,motor,1,/1,end,,,, => J05 row 1 column 3
0,act,0,sum,1,/1,end,,,, => J05 row 1 column 4
0,act,0,motor,a,/1,end,,,, => J05 row 1 column 5
0,act,0,motor,1,a/1,end,,,, => J05 row 1 column 6
0,lie,-,0,sum,1/1,end,,,, => J05 row 1 column 3
0,lie,1,b,sum,1/1,end,,,, => J05 row 1 column 4
0,lie,1,0,cmd,1/1,end,,,, => J05 row 1 column 5
0,lie,1,0,sum,/1,end,,,, => J05 row 1 column 6
0,lieslot,a,0,1,/1,end,,,, => J05 row 1 column 3
0,lieslot,1,a,1,/1,end,,,, => J05 row 1 column 4
0,lieslot,1,0,,/1,end,,,, => J05 row 1 column 5
0,lieslot,1,0,1,1/1,end,,,, => J05 row 1 column 6
0,drop,,0,,/1,end,,,, => J05 row 1 column 3
0,drop,1,,,/1,end,,,, => J05 row 1 column 4
0,drop,1,0,0,/1,end,,,, => J05 row 1 column 5
0,drop,1,0,,0/1,end,,,, => J05 row 1 column 6
0,skew,a,1,,/1,end,,,, => J05 row 1 column 3
0,skew,0,,,/1,end,,,, => J05 row 1 column 4
0,skew,0,1,1,/1,end,,,, => J05 row 1 column 5
0,rate,a,1,,/1,end,,,, => J05 row 1 column 3
0,rate,0,--1,,/1,end,,,, => J05 row 1 column 4
0,rate,0,1,,1/1,end,,,, => J05 row 1 column 6
0,delay,a,2,100,/1,end,,,, => J05 row 1 column 3
0,delay,0,a,100,/1,end,,,, => J05 row 1 column 4
0,delay,0,2,,/1,end,,,, => J05 row 1 column 5
0,delay,0,2,100,0/1,end,,,, => J05 row 1 column 6
1,end,0,,, => J05 row 1 column 3
1,end,,0,, => J05 row 1 column 4
1,end,,,0, => J05 row 1 column 5
1,end,,,,0 => J05 row 1 column 6
1,down,0,,,/0,down,x,,,/2,end,,,, => J05 row 2 column 3
0,down,1,,,/0,end,,,, => J06 row 2
1,sensor,cmd,1,,/1,end,,,, => J06 row 2
1,down,0,,,/0,down,1,,,/2,end,,,, => J06 row 2
1,down,0,,,/-1,down,9,,,/2,end,,,, => J06 row 2
0,end,,,, => J07 row 1
1000001,end,,,, => J07 row 1
-1,down,0,,,/1,end,,,, => J07 row 1
1000000,down,0,,,/1000001,end,,,, => J07 row 1
0,down,3,,,/1,end,,,, => J07 row 1
0,down,-1,,,/1,end,,,, => J07 row 1
0,cell,3,pos,1,/1,end,,,, => J07 row 1
0,slot,3,0,,/1,end,,,, => J07 row 1
0,slot,0,2,,/1,end,,,, => J07 row 1
0,slot,0,-1,,/1,end,,,, => J07 row 1
0,act,3,motor,1,/1,end,,,, => J07 row 1
0,lie,3,0,sum,1/1,end,,,, => J07 row 1
0,lie,1,3,sum,1/1,end,,,, => J07 row 1
0,lie,1,1,sum,1/1,end,,,, => J07 row 1
0,lieslot,0,3,1,/1,end,,,, => J07 row 1
0,lieslot,1,0,2,/1,end,,,, => J07 row 1
0,lieslot,0,0,1,/1,end,,,, => J07 row 1
0,drop,3,0,,/1,end,,,, => J07 row 1
0,drop,2,2,,/1,end,,,, => J07 row 1
0,skew,1,501,,/1,end,,,, => J07 row 1
0,skew,1,-501,,/1,end,,,, => J07 row 1
0,skew,3,0,,/1,end,,,, => J07 row 1
0,rate,1,501,,/1,end,,,, => J07 row 1
0,rate,1,-501,,/1,end,,,, => J07 row 1
0,delay,0,1,-1,/1,end,,,, => J07 row 1
0,delay,0,1,48970,/1,end,,,, => J07 row 1
0,delay,1,1,100,/1,end,,,, => J07 row 1
0,down,1,,,/0,down,1,,,/0,down,9,,,/1,end,,,, => J08 row 2
0,sensor,cmd,1,,/0,sensor,cmd,2,,/1,end,,,, => J08 row 2
0,down,0,,,/-0,down,-0,,,/1,end,,,, => J08 row 2
0,cell,1,pos,1,/0,cell,1,err,1,/0,cell,1,pos,2,/1,end,,,, => J08 row 3
0,slot,1,0,,/0,slot,1,1,,/1,end,,,, => J08 row 2
0,act,1,motor,0,/0,act,1,motor,1,/1,end,,,, => J08 row 2
0,lie,1,0,sum,1/0,lie,1,2,sum,1/0,lie,1,0,sum,1/1,end,,,, => J08 row 3
0,lieslot,1,0,0,/0,lieslot,1,0,1,/1,end,,,, => J08 row 2
0,drop,1,0,,/0,drop,0,1,,/0,drop,1,0,,/1,end,,,, => J08 row 3
0,skew,1,0,,/0,skew,1,1,,/1,end,,,, => J08 row 2
0,rate,1,0,,/0,skew,1,0,,/0,rate,1,1,,/1,end,,,, => J08 row 3
0,delay,0,1,100,/0,delay,0,1,101,/1,end,,,, => J08 row 2
3,down,1,,,/4,down,0,,,/4,down,1,,,/4,down,0,,,/5,end,,,, => J08 row 4
"#;

// Texts that have no header. Here too a slash is a line feed.
const NO_HEADER: &str = "/
1,end,,,,
frame,kind,a,b,c/1,end,,,,
frame,kind,a,b,c,d,e/1,end,,,,
Frame,kind,a,b,c,d/1,end,,,,
frame,kind,a,b,c, d/1,end,,,,
kind,frame,a,b,c,d/1,end,,,,
";

// A text with a line feed for each slash and at its end.
fn text_of(alloc: Global, line: &str) -> Result<String, AllocError> {
    let text = line.replace(alloc, "/", "\n")?;
    format!(in alloc; "{}\n", text.as_str())
}

// A journal with these rows.
fn journal_of(alloc: Global, rows: &str) -> Result<String, AllocError> {
    let rows = rows.replace(alloc, "/", "\n")?;
    format!(in alloc; "frame,kind,a,b,c,d\n{}\n", rows.as_str())
}

// The motor runs over this journal in no form, for this fault.
fn check_fault(rt: &impl Abort, alloc: Global, journal: &[u8], fault: &str) -> Result<(), Fail> {
    let text = format!(in alloc; "journal refused: {fault}\n")?;
    let files = (MOTOR.as_bytes(), journal);
    check_forms(rt, alloc, FORMS_OF_JOURNAL, files, ("5", text.as_str()))
}

fn check_accepted(rt: &impl Abort, alloc: Global, rows: &str) -> Result<(), Fail> {
    let journal = journal_of(alloc, rows)?;
    check_runs(rt, alloc, rows, MOTOR, journal.as_str())
}

fn check_rows(rt: &impl Abort, alloc: Global, line: &str) -> Result<(), Fail> {
    let (rows, fault) = parted(line);
    let journal = journal_of(alloc, rows)?;
    check_fault(rt, alloc, journal.as_bytes(), fault)
}

fn check_no_header(rt: &impl Abort, alloc: Global, line: &str) -> Result<(), Fail> {
    let journal = text_of(alloc, line)?;
    check_fault(rt, alloc, journal.as_bytes(), "J03")
}

#[test]
fn journals_within_their_limits_are_accepted(rt: HostRuntime) -> Result<(), Fail> {
    for rows in ACCEPTED.lines() {
        check_accepted(&rt, rt.alloc(), rows)?;
    }
    Ok(())
}

#[test]
fn a_journal_is_refused_at_its_first_fault(rt: HostRuntime) -> Result<(), Fail> {
    for line in FAULTS.lines() {
        check_rows(&rt, rt.alloc(), line)?;
    }
    Ok(())
}

#[test]
fn journals_without_a_header_are_refused(rt: HostRuntime) -> Result<(), Fail> {
    for line in NO_HEADER.lines() {
        check_no_header(&rt, rt.alloc(), line)?;
    }
    check_fault(&rt, rt.alloc(), b"", "J03")
}

#[test]
fn bytes_that_are_no_kind_are_refused(rt: HostRuntime) -> Result<(), Fail> {
    let journal = b"frame,kind,a,b,c,d\n0,\xff,1,,,\n1,end,,,,\n";
    check_fault(&rt, rt.alloc(), journal, "J04 row 1")
}
