//! What follows from the block of a frame, for every order of its events.
//! This project's own.
ghost use Rattle.clocked_layer.specs.Laws.{EveryInterleavingAgrees, EverySystemBeginsReady, EveryFrameLeavesReady, EveryOrderIsLegal, EveryBlockOpens, EveryDueEventGoesOn, EveryBlockEnds};

use clock_model::laws::moments_keep_order;

/// Every legal log of a frame leads to the state of the next, whatever stood in the mailboxes.
pub fn every_interleaving_agrees()
    ensures { EveryInterleavingAgrees }
{
    moments_keep_order();
}

/// Before the first frame no letter is too late for it.
pub fn every_system_begins_ready()
    ensures { EverySystemBeginsReady }
{}

/// Nor is one after any frame.
pub fn every_frame_leaves_ready()
    ensures { EveryFrameLeavesReady }
{
    moments_keep_order();
}

/// Whatever answers choose among the events that are due, their order is a legal log.
pub fn every_order_is_legal()
    ensures { EveryOrderIsLegal }
{}

/// The block of a frame is under way before its first event.
pub fn every_block_opens()
    ensures { EveryBlockOpens }
{
    moments_keep_order();
}

/// It goes on by each event that is due, which finds its replica at its stage.
pub fn every_due_event_goes_on()
    ensures { EveryDueEventGoesOn }
{}

/// Where no event is left, the log was legal and the state is that of the next frame.
pub fn every_block_ends()
    ensures { EveryBlockEnds }
{}
