//! The vote of more than half of all places.
//! After R. S. Boyer and J. S. Moore.
ghost use Rattle.std.specs.Prelude.{◌≡◌, false, MatchOption, count_by};
ghost use Rattle.std.specs.Ordering.{int_eq};
ghost use Rattle.rcp_base.specs.Majority.{has_majority, majority_of, names_value};
ghost use Rattle.majority_vote.specs.Candidate.{IsCandidate};

/// The value that stands in more than half of all places; a place that is `None` counts as a place.
/// `None` where there is no such value.
pub fn majority(votes: &[Option<i64>]) -> Option<i64>
    ensures { result ≡ majority_of int_eq votes.now }
{
    let leader = candidate(votes);
    if is_voted(votes, leader) {
        leader
    } else {
        None
    }
}

// Whether a place names a value that stands in more than half of all places.
fn is_voted(votes: &[Option<i64>], place: Option<i64>) -> bool
    ensures { MatchOption place (result ≡ false)
        (λ value. result ≡ has_majority int_eq votes.now value) }
{
    match place {
        Some(value) => votes.len() / 2 < count(votes, value),
        None => false,
    }
}

// The only value that may stand in more than half of all places, by one pass.
fn candidate(votes: &[Option<i64>]) -> Option<i64>
    ensures { IsCandidate votes.now result }
{
    let mut leader = None;
    let mut lead: usize = 0;
    for vote in votes {
        if lead == 0 {
            leader = *vote;
            lead = 1;
        } else if *vote == leader {
            lead += 1;
        } else {
            lead -= 1;
        }
    }
    leader
}

// How many places name a value.
fn count(votes: &[Option<i64>], value: i64) -> usize
    ensures { result ≡ count_by (names_value int_eq value) votes.now }
{
    votes.iter().filter(|vote| names(**vote, value)).count()
}

// Whether a place names a value.
fn names(vote: Option<i64>, value: i64) -> bool
    ensures { result ≡ names_value int_eq value vote }
{
    match vote {
        Some(other) => value == other,
        None => false,
    }
}
