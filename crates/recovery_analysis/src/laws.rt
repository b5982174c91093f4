//! What follows from the definition of the verdict, for all graphs.
//! This project's own.
ghost use Rattle.recovery_analysis.specs.Laws.{TheVerdictIsRight};

/// The verdict on a graph, as it is computed, is right.
pub fn the_verdict_is_right()
    ensures { TheVerdictIsRight }
{}
