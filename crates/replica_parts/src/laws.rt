//! What follows of a plan's pattern for the votes that the definitions take, and what is so of each frame
//! in which only sensors were written.
//! This project's own.
ghost use Rattle.replica_parts.specs.Laws.{QuietFramesAreAlike, VotesOfAPatternAreThePlans};

/// The votes of a plan's pattern are the plan's, for every slot and cell.
pub fn votes_of_a_pattern_are_the_plans()
    ensures { VotesOfAPatternAreThePlans }
{}

/// Where only sensors were written, all replicas and all messages are alike.
pub fn quiet_frames_are_alike()
    ensures { QuietFramesAreAlike }
{}
