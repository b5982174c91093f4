//! What a run over a layer shows after each frame, in lines.
//! This project's own.
ghost use Rattle.std.specs.Prelude.{◌≡◌, ◌<◌, ◌≤◌, IfOk};
ghost use Rattle.fault_journal.specs.Telling.{IsJournalOf};
ghost use Rattle.layer_stack.specs.Run.{IsStanding};
ghost use Rattle.layer_tests.specs.Runs.{GoesThrough};
ghost use Rattle.rcp_model.specs.History.{History};
ghost use Rattle.rcp_model.specs.System.{initial_state};

use crate::cases::Case;
use fault_journal::Journal;
use layer_stack::{Inputs, Layer, Run, run_frames};
use rcp_base::Memory;
use rcp_model::Plan;
use std::alloc::Global;
use std::process::Abort;
use std::test::Fail;

fn yes_or_no(answer: bool) -> &'static str {
    if answer { "yes" } else { "no" }
}

// What is shown of a command, a slot or a value that may not be there.
fn put_number(alloc: Global, text: &mut String, number: Option<i64>) -> Result<(), Fail> {
    match number {
        Some(number) => text.push_str(format!(in alloc; " {number}")?.as_str())?,
        None => text.push_str(" none")?,
    }
    Ok(())
}

// The cells of a replica.
fn put_cells<L: Layer>(
    alloc: Global,
    plan: &Plan,
    run: &Run<'_, L>,
    replica: u32,
    text: &mut String,
) -> Result<(), Fail>
    requires plan { run.now.plan.now ≡ plan.now }
    requires replica { replica < plan.now.replicas }
    requires stands { IsStanding L.is_at run.now }
{
    for cell in 0..plan.parts().cells.len() as u32 {
        put_number(alloc, text, Some(run.layer().cell(replica, cell)))?;
    }
    Ok(())
}

// A replica, as it is after the frame.
fn put_replica<L: Layer>(
    alloc: Global,
    plan: &Plan,
    run: &Run<'_, L>,
    replica: u32,
    text: &mut String,
) -> Result<(), Fail>
    requires plan { run.now.plan.now ≡ plan.now }
    requires replica { replica < plan.now.replicas }
    requires stands { IsStanding L.is_at run.now }
{
    let place = if run.is_down(replica) { "down" } else { "up" };
    let slot = run.layer().slot(replica);
    text.push_str(format!(in alloc; "replica {replica} {place} slot {slot} cells")?.as_str())?;
    put_cells(alloc, plan, run, replica, text)?;
    let working = yes_or_no(run.working(replica));
    text.push_str(format!(in alloc; " working {working}\n")?.as_str())?;
    Ok(())
}

// The guard, the vote of each actuator and each replica.
fn put_frame<L: Layer>(
    alloc: Global,
    plan: &Plan,
    run: &Run<'_, L>,
    text: &mut String,
) -> Result<(), Fail>
    requires plan { run.now.plan.now ≡ plan.now }
    requires stands { IsStanding L.is_at run.now }
{
    let guard = yes_or_no(run.guard());
    text.push_str(format!(in alloc; "guard {guard} vote")?.as_str())?;
    for actuator in 0..plan.parts().actuators.len() as u32 {
        put_number(alloc, text, run.vote(actuator))?;
    }
    text.push_str("\n")?;
    for replica in 0..plan.parts().replicas {
        put_replica(alloc, plan, run, replica, text)?;
    }
    Ok(())
}

// One frame more.
fn run_next<L: Layer>(rt: &impl Abort, run: &mut Run<'_, L>, journal: &mut Journal)
    requires { (history : History) × GoesThrough L.is_at run.old journal.old history }
    ensures goes { (history : History) × GoesThrough L.is_at run.new journal.new history }
    ensures plan { run.new.plan ≡ run.old.plan }
{
    assert!(rt; journal.done() < journal.frames());
    run_frames(run, journal, 1);
}

// What is shown of all frames of a journal.
fn put_frames<L: Layer>(
    rt: &impl Abort,
    alloc: Global,
    plan: &Plan,
    run: &mut Run<'_, L>,
    journal: &mut Journal,
    text: &mut String,
) -> Result<(), Fail>
    requires plan { run.old.plan.now ≡ plan.now }
    requires goes { (history : History) × GoesThrough L.is_at run.old journal.old history }
{
    for _frame in 0..journal.frames() {
        run_next(rt, run, journal);
        put_frame(alloc, plan, run, text)?;
    }
    Ok(())
}

/// A run over a fresh layer, and the journal before its first frame.
pub fn begin<'p, L: Layer + Drop>(
    alloc: Global,
    plan: &'p Plan,
    length: u32,
    layer: L,
    journal: &Journal,
) -> Result<Run<'p, L>, Memory>
    requires layer { L.is_at layer plan.now (initial_state plan.now) }
    requires length { 1 ≤ length }
    requires journal { IsJournalOf plan.now journal.now }
    ensures goes { IfOk result (λ run.
        (history : History) × GoesThrough L.is_at run journal.now history) }
    ensures plan { IfOk result (λ run. run.plan.now ≡ plan.now) }
{
    Run::new(alloc, plan, length, layer)
}

// What stands heard of a sender.
fn put_heard<L: Layer>(
    alloc: Global,
    plan: &Plan,
    run: &Run<'_, L>,
    to: u32,
    from: u32,
    text: &mut String,
) -> Result<(), Fail>
    requires plan { run.now.plan.now ≡ plan.now }
    requires to { to < plan.now.replicas }
    requires from { from < plan.now.replicas }
    requires stands { IsStanding L.is_at run.now }
{
    text.push_str(format!(in alloc; "{to} hears of {from} slot")?.as_str())?;
    put_number(
        alloc,
        text,
        run.layer().heard_slot(to, from).map(|slot| i64::from(slot)),
    )?;
    text.push_str(" cells")?;
    for cell in 0..plan.parts().cells.len() as u32 {
        put_number(alloc, text, run.layer().heard_value(to, from, cell))?;
    }
    text.push_str("\n")?;
    Ok(())
}

// What a replica voted and commands.
fn put_vote<L: Layer>(
    alloc: Global,
    plan: &Plan,
    run: &Run<'_, L>,
    replica: u32,
    text: &mut String,
) -> Result<(), Fail>
    requires plan { run.now.plan.now ≡ plan.now }
    requires replica { replica < plan.now.replicas }
    requires stands { IsStanding L.is_at run.now }
{
    text.push_str(format!(in alloc; "{replica} takes slot")?.as_str())?;
    put_number(
        alloc,
        text,
        run.layer().voted_slot(replica).map(|slot| i64::from(slot)),
    )?;
    text.push_str(" cells")?;
    for cell in 0..plan.parts().cells.len() as u32 {
        put_number(alloc, text, run.layer().voted_cell(replica, cell))?;
    }
    text.push_str(" commands")?;
    for actuator in 0..plan.parts().actuators.len() as u32 {
        put_number(alloc, text, run.layer().command(replica, actuator))?;
    }
    text.push_str("\n")?;
    Ok(())
}

// What each replica heard in the last frame, what it voted and commands.
fn put_votes<L: Layer>(
    alloc: Global,
    plan: &Plan,
    run: &Run<'_, L>,
    text: &mut String,
) -> Result<(), Fail>
    requires plan { run.now.plan.now ≡ plan.now }
    requires stands { IsStanding L.is_at run.now }
{
    for to in 0..plan.parts().replicas {
        for from in 0..plan.parts().replicas {
            put_heard(alloc, plan, run, to, from, text)?;
        }
        put_vote(alloc, plan, run, to, text)?;
    }
    Ok(())
}

/// Runs all frames of a journal.
pub fn run_all<L: Layer>(rt: &impl Abort, run: &mut Run<'_, L>, journal: &mut Journal)
    requires { (history : History) × GoesThrough L.is_at run.old journal.old history }
    ensures goes { (history : History) × GoesThrough L.is_at run.new journal.new history }
    ensures plan { run.new.plan ≡ run.old.plan }
{
    for _frame in 0..journal.frames() {
        run_next(rt, run, journal);
    }
}

/// A fresh layer of the plan of a case shows, frame by frame, what the case says.
pub fn check_frames<L: Layer + Drop>(
    rt: &impl Abort,
    alloc: Global,
    case: &Case,
    plan: &Plan,
    layer: L,
) -> Result<(), Fail>
    requires layer { L.is_at layer plan.now (initial_state plan.now) }
{
    assert!(rt; 1 <= case.length);
    let mut journal = Journal::check(alloc, plan, case.journal.as_bytes())?;
    let mut run = begin(alloc, plan, case.length, layer, &journal)?;
    let mut text = String::new(alloc);
    put_frames(rt, alloc, plan, &mut run, &mut journal, &mut text)?;
    assert_eq!(rt;
        text.as_str(),
        case.due.as_str(),
        "{}",
        case.journal.as_str()
    );
    Ok(())
}

/// Before the first frame it shows what the case says.
pub fn check_start<L: Layer + Drop>(
    rt: &impl Abort,
    alloc: Global,
    case: &Case,
    plan: &Plan,
    layer: L,
) -> Result<(), Fail>
    requires layer { L.is_at layer plan.now (initial_state plan.now) }
{
    assert!(rt; 1 <= case.length);
    let run = Run::new(alloc, plan, case.length, layer)?;
    let mut text = String::new(alloc);
    put_frame(alloc, plan, &run, &mut text)?;
    put_votes(alloc, plan, &run, &mut text)?;
    assert_eq!(rt; text.as_str(), case.due.as_str());
    Ok(())
}

/// What it heard, voted and commands in the last frame of a case is what the case says.
pub fn check_votes<L: Layer + Drop>(
    rt: &impl Abort,
    alloc: Global,
    case: &Case,
    plan: &Plan,
    layer: L,
) -> Result<(), Fail>
    requires layer { L.is_at layer plan.now (initial_state plan.now) }
{
    assert!(rt; 1 <= case.length);
    let mut journal = Journal::check(alloc, plan, case.journal.as_bytes())?;
    let mut run = begin(alloc, plan, case.length, layer, &journal)?;
    run_all(rt, &mut run, &mut journal);
    let mut text = String::new(alloc);
    put_votes(alloc, plan, &run, &mut text)?;
    assert_eq!(rt;
        text.as_str(),
        case.due.as_str(),
        "{}",
        case.journal.as_str()
    );
    Ok(())
}
