//! The median of the values that places name.
//! This project's own.
ghost use Rattle.std.specs.Prelude.{◌≡◌, count_by, is_some};
ghost use Rattle.rcp_base.specs.Median.{median_of, values_named};
ghost use Rattle.rcp_base.specs.Median as base;
ghost use Rattle.majority_vote.specs.Middle as spec;

/// The least value that some place names, and that at least half of the named values are at most.
/// `None` where no place names a value.
pub fn median(votes: &[Option<i64>]) -> Option<i64>
    ensures { result ≡ median_of votes.now }
{
    let mut least = None;
    for vote in votes {
        least = with_place(votes, *vote, least);
    }
    least
}

// The lesser of the value of a place and another, where the place names one that half of the named values are at most.
fn with_place(votes: &[Option<i64>], place: Option<i64>, least: Option<i64>) -> Option<i64>
    ensures { result ≡ spec.with_place (values_named votes.now) place least }
{
    match place {
        Some(value) => with_value(votes, value, least),
        None => least,
    }
}

// The same of its value.
fn with_value(votes: &[Option<i64>], value: i64, least: Option<i64>) -> Option<i64>
    ensures { result ≡ spec.with_value (values_named votes.now) value least }
{
    if is_half(votes, value) {
        Some(lesser(value, least))
    } else {
        least
    }
}

// The lesser of a number and another, where there is another.
fn lesser(value: i64, least: Option<i64>) -> i64
    ensures { result ≡ spec.lesser value least }
{
    match least {
        Some(other) => value.min(other),
        None => value,
    }
}

// Whether at least half of the named values are at most this one.
fn is_half(votes: &[Option<i64>], value: i64) -> bool
    ensures { result ≡ base.is_half (values_named votes.now) value }
{
    let named = count_named(votes);
    named - named / 2 <= count_at_most(votes, value)
}

// How many places name a value.
fn count_named(votes: &[Option<i64>]) -> usize
    ensures { result ≡ count_by is_some votes.now }
{
    votes.iter().filter(|vote| vote.is_some()).count()
}

// How many places name a value that is at most this one.
fn count_at_most(votes: &[Option<i64>], value: i64) -> usize
    ensures { result ≡ count_by (spec.names_at_most value) votes.now }
{
    votes
        .iter()
        .filter(|vote| is_at_most(**vote, value))
        .count()
}

// Whether a place names a value that is at most this one.
fn is_at_most(place: Option<i64>, value: i64) -> bool
    ensures { result ≡ spec.names_at_most value place }
{
    match place {
        Some(other) => other <= value,
        None => false,
    }
}
