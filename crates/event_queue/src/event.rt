//! Timed events.
//! After NASA TM-104196; the order of kinds at one tick is this project's own.

/// What an event is, in the order in which events of one tick come.
#[derive(Clone, Copy, Debug, PartialEq, Eq, PartialOrd, Ord)]
pub enum EventKind {
    Begin,
    Send,
    Deliver,
    Vote,
    Sync,
}

/// An event of a frame. A delivery is at its receiver, from the other, of what was sent in the frame. The other events are a
/// replica's own, of other 0. Events are in order by tick, kind, replica, other and frame.
#[derive(Clone, Copy, Debug, PartialEq, Eq, PartialOrd, Ord)]
pub struct Event {
    pub tick: i64,
    pub kind: EventKind,
    pub replica: u32,
    pub other: u32,
    pub frame: u32,
}
