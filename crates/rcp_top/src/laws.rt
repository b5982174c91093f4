//! What follows from the clause `ends` of the top call, for all calls.
//! This project's own.
ghost use Rattle.rcp_top.specs.EachFrame.{ReplaysTellEachFrame};
ghost use Rattle.rcp_top.specs.Headline.{CutReplaysAreIdealUnderTheGuard, GuardsAreTested, ReplaysAreIdealUnderTheGuard};
ghost use Rattle.rcp_top.specs.Laws.{AllLayersPrintTheSame, AnalysesAreRight, ARunThatCanFinishDoes, NoFailedReadLeavesNoChoice, PatternsAreRefusedAtCycles};

use layer_stack::laws::replicas_recover;
use rcp_model::laws::frames::histories_go_by_frames;
use task_file::laws::accepted_files_are_plans;

/// Where no read failed, a call ends as is due over the folder's own files.
pub fn no_failed_read_leaves_no_choice()
    ensures { NoFailedReadLeavesNoChoice }
{}

/// Where neither folder nor sink failed, the status and the whole text are as is due, or memory ran out.
pub fn a_run_that_can_finish_does()
    ensures { ARunThatCanFinishDoes }
{}

/// A vote pattern is refused exactly where it has an unvoted cycle, in each form, and the line names one.
pub fn patterns_are_refused_at_cycles()
    ensures { PatternsAreRefusedAtCycles }
{}

/// The recovery length and the walk that `check` prints are those of the definitions.
pub fn analyses_are_right()
    ensures { AnalysesAreRight }
{}

/// The forms of `replay` have one outcome, whichever layer their words name.
pub fn all_layers_print_the_same()
    ensures { AllLayersPrintTheSame }
{}

/// The guard that `replay` prints after a frame is the guard.
pub fn guards_are_tested()
    ensures { GuardsAreTested }
{}

/// In each frame, with or without the guard, `replay` prints the guard, the votes and what each replica holds.
pub fn replays_tell_each_frame()
    ensures { ReplaysTellEachFrame }
{
    histories_go_by_frames();
}

/// Under the guard `replay` prints the votes that `ideal` prints, and for each working replica what
/// the single processor holds, byte for byte.
pub fn replays_are_ideal_under_the_guard()
    ensures { ReplaysAreIdealUnderTheGuard }
{
    replicas_recover();
    histories_go_by_frames();
    accepted_files_are_plans();
}

/// The same of a replay that was cut short, as far as it was written.
pub fn cut_replays_are_ideal_under_the_guard()
    ensures { CutReplaysAreIdealUnderTheGuard }
{
    replays_are_ideal_under_the_guard();
}
