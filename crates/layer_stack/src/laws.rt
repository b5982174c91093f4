//! What follows from the definition of the replicated system, for every plan and every past.
//! After NASA TM-102716.
ghost use Rattle.layer_stack.specs.Beginning.{EverySystemBeginsIdeal};
ghost use Rattle.layer_stack.specs.Recovery.{ReplicasRecover, ReplicasRecoverByFrames};

use clock_model::laws::healthy_pairs_hear;
use rcp_model::laws::frames::histories_go_by_frames;
use task_graph::laws::feeding_cells_decide;

/// Before the first frame every replica holds what the single processor holds, is working and not down, the guard holds, and no
/// vote is there.
pub fn every_system_begins_ideal()
    ensures { EverySystemBeginsIdeal }
{}

/// Under the guard each working replica holds what the single processor holds, whatever it held before, and each actuator vote
/// is the command of the single processor.
pub fn replicas_recover()
    ensures { ReplicasRecover }
{
    feeding_cells_decide();
    healthy_pairs_hear();
}

/// The same of each frame of a history under the guard at that frame, whatever comes later.
pub fn replicas_recover_by_frames()
    ensures { ReplicasRecoverByFrames }
{
    replicas_recover();
    histories_go_by_frames();
}
