//! Majorities and medians of places, worked by hand. Each line lists the places, then the majority and the median;
//! a dash is a place that names none, or no value.
//! This project's own.
use majority_vote::{majority, median};
use std::alloc::Global;
use std::test::Fail;

const VOTES: &str = "\
:- -
- -:- -
7:7 7
7 -:- 7
7 7 -:7 7
7 - -:- 7
1 1 1 2 2:1 1
1 2 3:- 2
5 9 2:- 5
2 6:- 2
6 2:- 2
4 8 1 -:- 4
0 -5 - - -:- -5
-1 -1 9 -1 - 3:- -1
-1 -1 -1 9:-1 -1
-9223372036854775808 9223372036854775807:- -9223372036854775808";

// The value of a place, or none for a dash.
fn place(text: &str) -> Option<i64> {
    if text == "-" { None } else { text.parse().ok() }
}

fn places(alloc: Global, text: &str) -> Result<Vec<Option<i64>>, Fail> {
    let mut places = Vec::new(alloc);
    for word in text.split_ascii_whitespace() {
        places.push(place(word))?;
    }
    Ok(places)
}

#[test]
fn votes_choose_majorities_and_medians(rt: HostRuntime) -> Result<(), Fail> {
    for line in VOTES.lines() {
        let (named, expected) = line.split_once(':').ok_or("no colon")?;
        let (most, middle) = expected.split_once(' ').ok_or("no space")?;
        let votes = places(rt.alloc(), named)?;
        assert_eq!(rt; majority(votes.as_slice()), place(most), "{line}");
        assert_eq!(rt; median(votes.as_slice()), place(middle), "{line}");
    }
    Ok(())
}
