//! What follows from the definitions of votes, for all votes.
//! This project's own.
ghost use Rattle.vote_pattern.specs.Laws.{TheCountFollowsTheVotes, VotesOfAGraphAreListedAlike};

/// A vote that is given is one more than before, and one that is taken away is one less.
pub fn the_count_follows_the_votes()
    ensures { TheCountFollowsTheVotes }
{}

/// The votes of a graph are listed and counted as the graph's are.
pub fn votes_of_a_graph_are_listed_alike()
    ensures { VotesOfAGraphAreListedAlike }
{}
