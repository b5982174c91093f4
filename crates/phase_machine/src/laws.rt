//! What follows of replicas that rest for the frame that comes.
//! This project's own.
ghost use Rattle.phase_machine.specs.Laws.{RestingReplicasWait};

/// Replicas that rest at a state wait for a frame of any rows, with their parts of that state.
pub fn resting_replicas_wait()
    ensures { RestingReplicasWait }
{}
