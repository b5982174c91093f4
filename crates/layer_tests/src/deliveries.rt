//! What lies in the mailboxes of the replicas on clocks, event by event.
//! This project's own.
ghost use Rattle.std.specs.Prelude.{◌≡◌, ◌<◌, ◌+◌, IfOk, IfSome, length};
ghost use Rattle.clocked_layer.specs.Stepped.{no_mail};
ghost use Rattle.fault_journal.specs.Telling.{IsJournalOf};
ghost use Rattle.layer_tests.specs.Blocks.{IsOpenFor};
ghost use Rattle.rcp_model.specs.FrameLimits.{IsFrameOf};
ghost use Rattle.rcp_model.specs.System.{initial_state};

use crate::cases::Case;
use crate::on_clocks::FIRST_LOG;
use clocked_layer::{Clocked, Stepped};
use event_queue::{Event, EventKind, First, Picker};
use fault_journal::Journal;
use layer_stack::{FrameIn, Inputs};
use rcp_base::Memory;
use rcp_model::Plan;
use std::alloc::Global;
use std::process::Abort;
use std::test::Fail;

// The rows of the first frame of a journal.
fn first_rows(
    rt: &impl Abort,
    alloc: Global,
    plan: &Plan,
    journal: &mut Journal,
) -> Result<FrameIn, Memory>
    requires journal { IsJournalOf plan.now journal.old }
    ensures { IfOk result (IsFrameOf plan.now) }
{
    assert!(rt; 0 < journal.frames());
    let mut input = FrameIn::new(alloc, plan)?;
    journal.fill(&mut input);
    Ok(input)
}

// What a sender said in the first frame comes to a receiver.
fn delivery(tick: i64, sender: u32, receiver: u32) -> Event {
    Event {
        tick,
        kind: EventKind::Deliver,
        replica: receiver,
        other: sender,
        frame: 0,
    }
}

// Takes the next event of an open block.
fn take_next<B: Stepped>(block: &mut B, plan: &Plan, input: &FrameIn) -> Option<Event>
    requires runs { IsOpenFor (B.runs block.old) plan.now input.now }
    ensures runs { IsOpenFor (B.runs block.new) plan.now input.now }
    ensures fewer { IfSome result (λ event.
        B.events_left block.old ≡ B.events_left block.new + 1) }
{
    block.step(input)
}

// Takes its events up to and with this one. Whether it was among them.
fn step_to<B: Stepped>(block: &mut B, plan: &Plan, input: &FrameIn, due: &Event) -> bool
    requires runs { IsOpenFor (B.runs block.old) plan.now input.now }
    ensures { IsOpenFor (B.runs block.new) plan.now input.now }
{
    while let Some(event) = take_next(block, plan, input) {
        if event == *due {
            return true;
        }
    }
    false
}

// The slot in what lies in a mailbox of an open block. The plan and the rows only tell which block it is.
fn slot_in<B: Stepped>(block: &B, plan: &Plan, input: &FrameIn, to: u32, from: u32) -> Option<u32>
    requires runs { IsOpenFor (B.runs block.now) plan.now input.now }
    requires to { to < plan.now.replicas }
    requires from { from < plan.now.replicas }
{
    block.box_slot(to, from)
}

// The value of a cell in it.
fn value_in<B: Stepped>(
    block: &B,
    plan: &Plan,
    input: &FrameIn,
    to: u32,
    from: u32,
    cell: u32,
) -> Option<i64>
    requires runs { IsOpenFor (B.runs block.now) plan.now input.now }
    requires to { to < plan.now.replicas }
    requires from { from < plan.now.replicas }
    requires cell { cell < length plan.now.cells }
{
    block.box_value(to, from, cell)
}

// A message lies in its receiver's mailbox from its delivery on, and names the one cell that is voted.
fn check_mailboxes<B: Stepped>(rt: &impl Abort, block: &mut B, plan: &Plan, input: &FrameIn)
    requires runs { IsOpenFor (B.runs block.old) plan.now input.now }
{
    assert!(rt; 2 < plan.parts().replicas);
    assert!(rt; 2 < plan.parts().cells.len());
    assert!(rt; step_to(block, plan, input, &delivery(30_100, 1, 0)));
    assert_eq!(rt; slot_in(block, plan, input, 0, 1), Some(0));
    assert_eq!(rt; value_in(block, plan, input, 0, 1, 2), Some(0));
    assert_eq!(rt; value_in(block, plan, input, 0, 1, 0), None);
    assert_eq!(rt; slot_in(block, plan, input, 0, 2), None);
    assert_eq!(rt; slot_in(block, plan, input, 1, 0), None);
    assert_eq!(rt; take_next(block, plan, input), Some(delivery(30_100, 0, 1)));
    assert_eq!(rt; slot_in(block, plan, input, 1, 0), Some(0));
    assert!(rt; step_to(block, plan, input, &delivery(32_053, 2, 0)));
    assert_eq!(rt; slot_in(block, plan, input, 0, 2), Some(0));
}

// The same of the first frame of a case, from a fresh block of its plan.
fn check_deliveries<B: Stepped + Drop>(
    rt: &impl Abort,
    alloc: Global,
    case: &Case,
    plan: &Plan,
    mut block: B,
) -> Result<(), Fail>
    requires fresh { B.rests block plan.now (initial_state plan.now) no_mail }
{
    let mut journal = Journal::check(alloc, plan, case.journal.as_bytes())?;
    let input = first_rows(rt, alloc, plan, &mut journal)?;
    block.open(&input);
    check_mailboxes(rt, &mut block, plan, &input);
    Ok(())
}

// The same of replicas on clocks with this picker.
fn check_clocked<P: Picker + Drop>(
    rt: &impl Abort,
    alloc: Global,
    block: &str,
    picker: P,
) -> Result<(), Fail> {
    let case = Case::read(alloc, block)?;
    let plan = case.plan(alloc)?;
    let clocked = Clocked::new(alloc, &plan, picker)?;
    check_deliveries(rt, alloc, &case, &plan, clocked)
}

#[test]
fn a_message_lies_in_its_mailbox_from_its_delivery_on(rt: HostRuntime) -> Result<(), Fail> {
    check_clocked(&rt, rt.alloc(), FIRST_LOG, First)
}
