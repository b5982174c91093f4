//! The texts that are numbers of a journal, and those that are not, as values of a sensor.
//! This project's own.
use crate::cases::{check_answer, parted};
use example_plans::motor;
use fault_journal::Journal;
use rcp_model::Plan;
use std::alloc::{AllocError, Global};
use std::process::Abort;
use std::test::Fail;

// Texts in the column of the value, and the answer.
const NUMBERS: &str = "0 => accepted
-0 => accepted
007 => accepted
-007 => accepted
9223372036854775807 => accepted
-9223372036854775808 => accepted
- => Column { row: 1, column: 4 }
+1 => Column { row: 1, column: 4 }
1a => Column { row: 1, column: 4 }
9223372036854775808 => Column { row: 1, column: 4 }
-9223372036854775809 => Column { row: 1, column: 4 }
";

fn answer(alloc: Global, plan: &Plan, journal: &[u8]) -> Result<String, AllocError> {
    match Journal::check(alloc, plan, journal) {
        Ok(_) => format!(in alloc; "accepted"),
        Err(fault) => format!(in alloc; "{fault:?}"),
    }
}

fn journal_with(alloc: Global, number: &str) -> Result<String, AllocError> {
    format!(in alloc; "frame,kind,a,b,c,d\n0,sensor,cmd,{number},,\n1,end,,,,\n")
}

fn number_answer(alloc: Global, plan: &Plan, number: &str) -> Result<String, Fail> {
    let journal = journal_with(alloc, number)?;
    Ok(answer(alloc, plan, journal.as_bytes())?)
}

fn check_numbers(rt: &impl Abort, alloc: Global, plan: &Plan) -> Result<(), Fail> {
    for line in NUMBERS.lines() {
        let (number, due) = parted(line);
        let text = number_answer(alloc, plan, number)?;
        check_answer(rt, line, text.as_str(), due);
    }
    Ok(())
}

#[test]
fn digits_and_a_minus_are_numbers(rt: HostRuntime) -> Result<(), Fail> {
    let plan = motor(rt.alloc()).map_err(|_| "no plan")?;
    check_numbers(&rt, rt.alloc(), &plan)
}
