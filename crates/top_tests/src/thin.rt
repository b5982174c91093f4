//! `thin FILE`: the votes that can be spared.
//! This project's own.
use crate::call::check;
use crate::case::check_all;
use crate::files::TWO_FRAMES;
use std::alloc::{AllocError, Global};
use std::test::Fail;

// The motor with all three cells voted in both slots, and with its own votes, which are all needed; then both with a limit.
const THINNED: &str = r#"0 motor thin T
| votes = ["sum"] => votes = ["sum", "pos", "err"]
| votes = ["pos"] => votes = ["pos", "err", "sum"]
slot 0 votes -
slot 1 votes pos sum
votes 2
spared 4
recovery 3
walk 0:err 1:err

0 motor thin T
slot 0 votes sum
slot 1 votes pos
votes 2
spared 0
recovery 3
walk 0:err 1:err

0 motor thin T
| replicas = 3 => format = 2~recovery_limit = 3~replicas = 3
| votes = ["sum"] => votes = ["sum", "pos", "err"]
| votes = ["pos"] => votes = ["pos", "err", "sum"]
slot 0 votes -
slot 1 votes pos sum
votes 2
spared 4
recovery 3
walk 0:err 1:err

0 motor thin T
| replicas = 3 => format = 2~recovery_limit = 2~replicas = 3
| votes = ["sum"] => votes = ["sum", "pos", "err"]
| votes = ["pos"] => votes = ["pos", "err", "sum"]
slot 0 votes -
slot 1 votes pos err sum
votes 3
spared 3
recovery 2
walk 0:pos

0 motor thin T
| replicas = 3 => format = 2~recovery_limit = 1~replicas = 3
| votes = ["sum"] => votes = ["sum", "pos", "err"]
| votes = ["pos"] => votes = ["pos", "err", "sum"]
slot 0 votes pos err sum
slot 1 votes pos err sum
votes 6
spared 0
recovery 1
walk -

0 motor thin T
| replicas = 3 => format = 2~recovery_limit = 2~replicas = 3
slot 0 votes sum
slot 1 votes pos
votes 2
spared 0
recovery 3
walk 0:err 1:err"#;

#[test]
fn votes_that_can_be_spared_are_taken_away(rt: HostRuntime) -> Result<(), Fail> {
    check_all(&rt, rt.alloc(), THINNED)
}

fn put_cells(alloc: Global, text: &mut String) -> Result<(), AllocError> {
    for cell in 0..64 {
        let lines = format!(in alloc; "[[cell]]\nname = \"c{cell}\"\ninitial = 0\n")?;
        text.push_str(lines.as_str())?;
    }
    Ok(())
}

fn put_task(alloc: Global, text: &mut String) -> Result<(), AllocError> {
    text.push_str("[[task]]\nname = \"shift\"\nbody = \"c0 := c0; ")?;
    for cell in 0..63 {
        let set = format!(in alloc; "c{} := c{cell}; ", cell + 1)?;
        text.push_str(set.as_str())?;
    }
    text.push_str("\"\n")
}

fn put_votes(alloc: Global, text: &mut String) -> Result<(), AllocError> {
    for cell in 0..64 {
        let vote = format!(in alloc; "\"c{cell}\",")?;
        text.push_str(vote.as_str())?;
    }
    Ok(())
}

fn put_slots(alloc: Global, text: &mut String) -> Result<(), AllocError> {
    for _slot in 0..32 {
        text.push_str("[[slot]]\ntasks = [\"shift\"]\nvotes = [")?;
        put_votes(alloc, text)?;
        text.push_str("]\n")?;
    }
    Ok(())
}

// 32 slots, 64 cells, each of which takes the value of the one before it in each slot, and all votes.
fn shifting(alloc: Global) -> Result<String, AllocError> {
    let mut text = String::from_str(alloc, SHIFTING)?;
    put_cells(alloc, &mut text)?;
    put_task(alloc, &mut text)?;
    put_slots(alloc, &mut text)?;
    Ok(text)
}

const SHIFTING: &str = "replicas = 3
timing = { compute = 30000, broadcast = 10000, vote = 4000, sync = 6000, skew = 50, drift_ppm = 100, delay_min = 100, delay_max = 2000, skew_limit = 500, drift_limit_ppm = 500 }
";

fn put_empty_slots(alloc: Global, text: &mut String) -> Result<(), AllocError> {
    for slot in 0..31 {
        let line = format!(in alloc; "slot {slot} votes -\n")?;
        text.push_str(line.as_str())?;
    }
    Ok(())
}

fn put_first_nodes(alloc: Global, text: &mut String) -> Result<(), AllocError> {
    for slot in 0..31 {
        let node = format!(in alloc; " {slot}:c0")?;
        text.push_str(node.as_str())?;
    }
    text.push_str(" 31:c1")
}

fn put_other_nodes(alloc: Global, text: &mut String) -> Result<(), AllocError> {
    for cell in 2..64 {
        let node = format!(in alloc; " {}:c{cell}", (30 + cell) % 32)?;
        text.push_str(node.as_str())?;
    }
    text.push_str("\n")
}

// One vote of the first cell is needed. A wrong value of it goes from the first slot to the last but one, then on to the next
// cell in each slot.
fn shifting_thinned(alloc: Global) -> Result<String, AllocError> {
    let mut text = String::new(alloc);
    put_empty_slots(alloc, &mut text)?;
    text.push_str("slot 31 votes c0\nvotes 1\nspared 2047\nrecovery 95\nwalk")?;
    put_first_nodes(alloc, &mut text)?;
    put_other_nodes(alloc, &mut text)?;
    Ok(text)
}

#[test]
fn the_largest_pattern_keeps_one_vote(rt: HostRuntime) -> Result<(), Fail> {
    let alloc = rt.alloc();
    let file = shifting(alloc)?;
    let text = shifting_thinned(alloc)?;
    let files = (file.as_bytes(), TWO_FRAMES.as_bytes());
    check(&rt, alloc, "thin T", files, ("0", text.as_str()))
}
