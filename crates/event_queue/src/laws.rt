//! What follows from the order of events, for all events and answers.
//! This project's own.
ghost use Rattle.event_queue.specs.Laws.{EitherLotMayBeFirst, OrderMovesEvents, DueEventsAreTheLeast, EventsLeaveTheirPlace, AnyAnswersMakeALog};

/// Events that are brought into order are the same events, and none comes before one that is ahead of it.
pub fn order_moves_events()
    ensures { OrderMovesEvents }
{}

/// Of two lots of events that are put in among others, either may be the first.
pub fn either_lot_may_be_first()
    ensures { EitherLotMayBeFirst }
{}

/// Of events in order exactly those are due whose tick and kind no other comes before.
pub fn due_events_are_the_least()
    ensures { DueEventsAreTheLeast }
{}

/// What `take` takes out of events in order is the event itself, though others may be like it.
pub fn events_leave_their_place()
    ensures { EventsLeaveTheirPlace }
{}

/// Whatever a picker answers, each event is picked once, and ticks and kinds never fall.
pub fn any_answers_make_a_log()
    ensures { AnyAnswersMakeALog }
{}
