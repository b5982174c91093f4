//! An agenda of timed events.
//! After NASA TM-104196; the order of events at one tick is this project's own.
ghost use Rattle.std.specs.Prelude.{◌≡◌, ◌+◌, ◌-◌, ◌<◌, ◌≤◌, ◌∷◌, ◌++◌, ◌^◌, [], drop, length, true, IfOk, slice_get, Some};
ghost use Rattle.std.specs.List.{prefix_len, remove};
ghost use Rattle.std.specs.Vec.{vec_capacity};
ghost use Rattle.std.specs.Ordering.{is_lt};
ghost use Rattle.event_queue.specs.Event.{event_cmp};
ghost use Rattle.event_queue.specs.Agenda.{InTurn, inserted, same_moment, due, empty_queue, with_event, without_place};
ghost use Rattle.event_queue.specs.Agenda as spec;

use crate::Event;
use rcp_base::Memory;
use std::alloc::Global;
use std::marker::Model;

/// Events, those first that come first: by tick, kind, replica, other and frame.
#[derive(Debug, Drop)]
pub struct Agenda {
    capacity: u32,
    // In order. Those taken from the front stay until none is left or one is added, so that
    // nothing moves.
    events: Vec<Event>,
    // How many were taken from the front.
    taken: usize,
    // How many of those that are left are due.
    due: u32,
}

impl Model for Agenda {
    ghost use Rattle.event_queue.specs.Agenda.{EventQueue, queue_in, IsAgenda};

    ghost Value = { EventQueue };

    ghost view = { queue_in };

    ghost invariant = { IsAgenda };
}

impl Agenda {
    /// An agenda without events, with room for so many.
    pub fn new(alloc: Global, capacity: u32) -> Result<Agenda, Memory>
        ensures { IfOk result (λ agenda. agenda ≡ empty_queue capacity) }
    {
        Ok(Agenda {
            capacity,
            events: Vec::with_capacity(alloc, capacity as usize)?,
            taken: 0,
            due: 0,
        })
    }

    /// Adds an event at its place. Takes no memory.
    #[inline(always)]
    pub fn add(&mut self, event: Event)
        requires { 0 < self.old.spare }
        ensures { self.new ≡ with_event self.old event }
    {
        remove_front(&mut self.events, self.taken);
        self.taken = 0;
        self.due = due_with(self.events.as_slice(), self.due, &event);
        put_in(&mut self.events, event);
    }

    /// How many events have the least tick and, at it, the least kind. It is 0 exactly where there is none.
    pub fn due(&self) -> u32
        ensures count { result ≡ due self.now.left }
        ensures order { InTurn self.now.left }
    {
        self.due
    }

    /// The due event at a place, of those in order.
    pub fn due_at(&self, i: u32) -> Event
        requires { i < due self.now.left }
        ensures { slice_get self.now.left i ≡ Some result }
    {
        self.events[self.taken + i as usize]
    }

    /// Takes the due event at a place out.
    pub fn take(&mut self, i: u32) -> Event
        requires { i < due self.old.left }
        ensures event { slice_get self.old.left i ≡ Some result }
        ensures queue { self.new ≡ without_place self.old i }
    {
        let event = self.events[self.taken + i as usize];
        self.taken = take_out(&mut self.events, self.taken, i as usize);
        self.due = due_without(&self.events[self.taken..], self.due);
        event
    }

    /// How many more events there is room for.
    pub fn spare(&self) -> u32
        ensures { result ≡ self.now.spare }
    {
        self.capacity - (self.events.len() - self.taken) as u32
    }
}

// Removes so many events from the front.
fn remove_front(events: &mut Vec<Event>, count: usize)
    requires { count ≤ length events.old.items }
    ensures events { events.new.items ≡ drop count events.old.items }
    ensures capacity { vec_capacity events.new ≡ vec_capacity events.old }
{
    if 0 < count {
        close_up(events, count);
    }
}

// Moves those after so many to the front.
#[inline(never)]
fn close_up(events: &mut Vec<Event>, count: usize)
    requires { count ≤ length events.old.items }
    ensures events { events.new.items ≡ drop count events.old.items }
    ensures capacity { vec_capacity events.new ≡ vec_capacity events.old }
{
    let left = events.len() - count;
    events.copy_within(count.., 0);
    events.truncate(left);
}

// Takes out the event at a place of those that are left, and tells how many are gone from the front then.
fn take_out(events: &mut Vec<Event>, taken: usize, i: usize) -> usize
    requires { taken + i < length events.old.items }
    ensures left { drop result events.new.items ≡ remove (drop taken events.old.items) i }
    ensures front { result ≤ length events.new.items }
    ensures fits { length events.new.items ≤ length events.old.items }
    ensures capacity { vec_capacity events.new ≡ vec_capacity events.old }
{
    if 0 < i {
        let _ = events.remove(taken + i);
        return taken;
    }
    if taken + 1 < events.len() {
        return taken + 1;
    }
    events.clear();
    0
}

// How many events are due once one is added to some in order, of which so many are due.
fn due_with(events: &[Event], due: u32, event: &Event) -> u32
    requires turn { InTurn events.now }
    requires due { due ≡ spec.due events.now }
    requires room { length events.now + 1 < 2 ^ 32 }
    ensures { result ≡ spec.due (inserted event.now events.now) }
{
    match events.first() {
        None => 1,
        Some(first) => {
            if is_same_moment(first, event) {
                due + 1
            } else if stands_before(event, first) {
                1
            } else {
                due
            }
        }
    }
}

// How many of these events are due, of which one was taken when so many were.
fn due_without(events: &[Event], due: u32) -> u32
    requires due { 1 < due → due ≡ spec.due events.now + 1 }
    requires room { length events.now < 2 ^ 32 }
    ensures { result ≡ spec.due events.now }
{
    if 1 < due {
        return due - 1;
    }
    match events.first() {
        None => 0,
        Some(first) => count_of_moment(events, first) as u32,
    }
}

// Puts an event at its place among events in order. One that none comes after goes to the end at once.
fn put_in(events: &mut Vec<Event>, event: Event)
    requires turn { InTurn events.old.items }
    requires room { length events.old.items < vec_capacity events.old }
    ensures events { events.new.items ≡ inserted event events.old.items }
    ensures capacity { vec_capacity events.old ≤ vec_capacity events.new }
{
    if is_last(events.as_slice(), &event) {
        let _ = events.push(event);
    } else {
        put_amid(events, event);
    }
}

// Whether no event of some in order comes after one.
fn is_last(events: &[Event], event: &Event) -> bool
    requires turn { InTurn events.now }
    ensures { result ≡ true → inserted event.now events.now ≡ events.now ++ event.now ∷ [] }
{
    match events.last() {
        None => true,
        Some(last) => !stands_before(event, last),
    }
}

// Puts an event at its place among events in order.
#[inline(never)]
fn put_amid(events: &mut Vec<Event>, event: Event)
    requires turn { InTurn events.old.items }
    requires room { length events.old.items < vec_capacity events.old }
    ensures events { events.new.items ≡ inserted event events.old.items }
    ensures capacity { vec_capacity events.old ≤ vec_capacity events.new }
{
    let place = events.partition_point(|other| stands_before(other, &event));
    let _ = events.insert(place, event);
}

// Whether an event comes before another.
fn stands_before(a: &Event, b: &Event) -> bool
    ensures { result ≡ is_lt (event_cmp a.now b.now) }
{
    a < b
}

// Whether two events have one tick and one kind.
fn is_same_moment(a: &Event, b: &Event) -> bool
    ensures { result ≡ same_moment a.now b.now }
{
    a.tick == b.tick && a.kind == b.kind
}

// How many of the first events have the tick and kind of an event.
fn count_of_moment(events: &[Event], event: &Event) -> usize
    ensures { result ≡ prefix_len (same_moment event.now) events.now }
{
    events
        .iter()
        .take_while(|other| is_same_moment(event, other))
        .count()
}
