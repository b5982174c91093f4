//! The agenda of timed events and the pickers, as who runs a block of events sees them.
//! This project's own.
use event_queue::{Agenda, Event, EventKind, First, Last, Picker, Script};
use rcp_base::List;
use std::alloc::Global;
use std::test::Fail;

// Adds an event where there is room.
fn add(agenda: &mut Agenda, event: Event) -> bool {
    let has_room = 0 < agenda.spare();
    if has_room {
        agenda.add(event);
    }
    has_room
}

// Takes the due event at a place, if it is there, and finds that it stood there.
fn take(agenda: &mut Agenda, i: u32) -> Option<Event> {
    if i < agenda.due() {
        let shown = agenda.due_at(i);
        let event = agenda.take(i);
        return if event == shown { Some(event) } else { None };
    }
    None
}

fn own(tick: i64, kind: EventKind, replica: u32) -> Event {
    Event {
        tick,
        kind,
        replica,
        other: 0,
        frame: 3,
    }
}

fn delivery(tick: i64, replica: u32, other: u32, frame: u32) -> Event {
    Event {
        tick,
        kind: EventKind::Deliver,
        replica,
        other,
        frame,
    }
}

#[test]
fn events_are_due_by_tick_and_kind(rt: HostRuntime) -> Result<(), Fail> {
    let mut agenda = Agenda::new(rt.alloc(), 6)?;
    assert_eq!(rt; agenda.due(), 0);
    let events = [
        own(10, EventKind::Sync, 0),
        delivery(-5, 2, 1, 3),
        own(10, EventKind::Begin, 1),
        delivery(-5, 1, 0, 4),
        delivery(-5, 1, 2, 3),
        delivery(-5, 1, 0, 3),
    ];
    for event in events {
        assert!(rt; add(&mut agenda, event));
    }
    assert_eq!(rt; agenda.spare(), 0);
    assert!(rt; !add(&mut agenda, own(0, EventKind::Vote, 0)));
    assert_eq!(rt; agenda.due(), 4);
    assert_eq!(rt; take(&mut agenda, 4), None);
    assert_eq!(rt; take(&mut agenda, 2), Some(delivery(-5, 1, 2, 3)));
    assert_eq!(rt; agenda.due(), 3);
    assert_eq!(rt; take(&mut agenda, 2), Some(delivery(-5, 2, 1, 3)));
    assert_eq!(rt; take(&mut agenda, 0), Some(delivery(-5, 1, 0, 3)));
    assert_eq!(rt; take(&mut agenda, 0), Some(delivery(-5, 1, 0, 4)));
    assert_eq!(rt; agenda.due(), 1);
    assert!(rt; add(&mut agenda, own(10, EventKind::Begin, 0)));
    assert_eq!(rt; agenda.due(), 2);
    assert_eq!(rt; take(&mut agenda, 0), Some(own(10, EventKind::Begin, 0)));
    assert_eq!(rt; take(&mut agenda, 0), Some(own(10, EventKind::Begin, 1)));
    assert_eq!(rt; take(&mut agenda, 0), Some(own(10, EventKind::Sync, 0)));
    assert_eq!(rt; agenda.due(), 0);
    assert_eq!(rt; agenda.spare(), 6);
    Ok(())
}

// The replicas whose events a picker takes: of 0, 1 and 2, which are due at once, and of 3, which is due later.
fn picked_by<P: Picker>(alloc: Global, mut picker: P) -> Result<Vec<u32>, Fail>
where
    P: Drop,
{
    let mut agenda = Agenda::new(alloc, 4)?;
    for replica in 0..4 {
        let tick = if replica == 3 { 1 } else { 0 };
        add(&mut agenda, own(tick, EventKind::Send, replica));
    }
    let mut replicas = Vec::new(alloc);
    for _ in 0..4 {
        let n = agenda.due();
        let answer = picker.pick(n);
        if let Some(event) = take(&mut agenda, answer.min(n.saturating_sub(1))) {
            replicas.push(event.replica)?;
        }
    }
    Ok(replicas)
}

#[test]
fn pickers_choose_among_due_events(rt: HostRuntime) -> Result<(), Fail> {
    let first = picked_by(rt.alloc(), First)?;
    assert_eq!(rt; first.as_slice(), [0, 1, 2, 3].as_slice());
    let last = picked_by(rt.alloc(), Last)?;
    assert_eq!(rt; last.as_slice(), [2, 1, 0, 3].as_slice());
    let mut answers = List::new(rt.alloc());
    answers.push(1)?;
    answers.push(7)?;
    let scripted = picked_by(rt.alloc(), Script::new(answers))?;
    assert_eq!(rt; scripted.as_slice(), [1, 2, 0, 3].as_slice());
    Ok(())
}
