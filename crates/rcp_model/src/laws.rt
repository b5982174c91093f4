//! What follows from the definitions of a timing, for every timing.
//! This project's own.
ghost use Rattle.rcp_model.specs.Laws.{TheFirstFailedRuleIsTold, TheDelayLimitFollows, PartsAreRounded};

pub mod frames;
pub mod graphs;
pub mod votes;

/// The rule that is told is the first that a timing breaks, and none exactly where the timing keeps all five.
pub fn the_first_failed_rule_is_told()
    ensures { TheFirstFailedRuleIsTold }
{}

/// Where the second and the fourth rule hold and drift is within its limit, so is the greatest delay of healthy replicas.
pub fn the_delay_limit_follows()
    ensures { TheDelayLimitFollows }
{}

/// Parts per million rounded down are the greatest whole number that is no more, and rounded up the least that is no less.
pub fn parts_are_rounded()
    ensures { PartsAreRounded }
{}
