//! What follows from the definitions of votes.
//! After NASA TM-102716; the median is this project's own.
ghost use Rattle.rcp_model.specs.VoteLaws.{AMajorityIsTheMedian, MajoritiesAreTold, MediansAreTold};

/// The value that is told has more than half of all places, and none is told exactly where no value has.
pub fn majorities_are_told()
    ensures { MajoritiesAreTold }
{}

/// The value that is told is the least that half of the named values are at most, and none is told exactly where none is named.
pub fn medians_are_told()
    ensures { MediansAreTold }
{}

/// A value that more than half of all places name is the median, so that a median cell recovers as every other.
pub fn a_majority_is_the_median()
    ensures { AMajorityIsTheMedian }
{}
