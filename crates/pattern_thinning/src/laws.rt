//! What follows from the definition of thinning, for all graphs and limits.
//! This project's own.
ghost use Rattle.pattern_thinning.specs.Laws.{AVoteStaysWhereItIsNeeded, GoodPatternsStayGood, NoVoteIsRedundant, OneThinnedPattern, TheTestOfGoodPatternsIsRight};

/// A pattern is good exactly where the test says so.
pub fn the_test_of_good_patterns_is_right()
    ensures { TheTestOfGoodPatternsIsRight }
{}

/// Where there is no unvoted cycle, the thinned pattern leaves none either, and none of its votes can be spared.
pub fn no_vote_is_redundant()
    ensures { NoVoteIsRedundant }
{}

/// The thinned pattern of a good one is good, and any other pattern is left as it is.
pub fn good_patterns_stay_good()
    ensures { GoodPatternsStayGood }
{}

/// A vote stays exactly where the votes that stay before it, with all votes after it, are not a good pattern.
pub fn a_vote_stays_where_it_is_needed()
    ensures { AVoteStaysWhereItIsNeeded }
{}

/// There is one pattern of which this holds.
pub fn there_is_one_thinned_pattern()
    ensures { OneThinnedPattern }
{}
