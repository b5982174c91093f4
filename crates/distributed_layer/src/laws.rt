//! What follows of a frame that all replicas go through together.
//! This project's own.
ghost use Rattle.distributed_layer.specs.Laws.{PhasesMakeTheNextState};

/// Where all replicas go through each phase together, and hear what lies in their windows, the next
/// state comes of it, whatever stood in the mailboxes before.
pub fn phases_make_the_next_state()
    ensures { PhasesMakeTheNextState }
{}
