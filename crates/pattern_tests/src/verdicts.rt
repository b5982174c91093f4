//! Recovery lengths with their walks, and cycles. Each line has a plan and its votes, and then what is found.
//! This project's own.
use crate::cases::{check_lines, colon_parted};
use crate::plans::{fit, rows_and_pattern};
use rcp_model::Node;
use recovery_analysis::{Verdict, analyse};
use std::alloc::{AllocError, Global};
use std::test::Fail;
use task_graph::DepRows;
use vote_pattern::Pattern;

const VERDICTS: &str = "\
motor:- => recovery 3 0:1 1:1
motor:111 100 => recovery 2 1:1
motor:111 111 => recovery 1
motor:000 101 => recovery 3 0:1 1:1
motor:000 000 => cycle 0:0 1:0
counter:- => recovery 1
counter:0 => cycle 0:0
pitch:- => recovery 10 0:1 1:1 2:1 3:2 0:2 1:4 2:4 3:4 0:4
copy:00 00 => cycle 0:0 1:0
copy:00 10 => recovery 3 0:1 1:1
copy:10 00 => recovery 4 1:0 0:1 1:1
copy:01 01 => cycle 0:0 1:0";

// A node, after a space.
fn put_node(alloc: Global, text: &mut String, node: Node) -> Result<(), AllocError> {
    let item = format!(in alloc; " {}:{}", node.slot, node.cell)?;
    text.push_str(item.as_str())
}

fn with_nodes(alloc: Global, word: &str, nodes: &[Node]) -> Result<String, AllocError> {
    let mut text = String::from_str(alloc, word)?;
    for node in nodes {
        put_node(alloc, &mut text, *node)?;
    }
    Ok(text)
}

fn shown(alloc: Global, verdict: &Verdict) -> Result<String, AllocError> {
    match verdict {
        Verdict::Cycle { nodes } => with_nodes(alloc, "cycle", nodes.as_slice()),
        Verdict::Recovers { length, walk } => {
            let word = format!(in alloc; "recovery {length}")?;
            with_nodes(alloc, word.as_str(), walk.as_slice())
        }
    }
}

fn verdict_on(alloc: Global, rows: &DepRows, pattern: &Pattern) -> Result<String, Fail> {
    if !fit(rows, pattern) {
        return Err("another size".into());
    }
    let verdict = analyse(alloc, rows, pattern)?;
    Ok(shown(alloc, &verdict)?)
}

// What is found of a plan with these votes.
fn verdict_of(alloc: Global, case: &str) -> Result<String, Fail> {
    let (name, votes) = colon_parted(case);
    let (rows, pattern) = rows_and_pattern(alloc, name, votes)?;
    verdict_on(alloc, &rows, &pattern)
}

#[test]
fn patterns_recover_or_have_a_cycle(rt: HostRuntime) -> Result<(), Fail> {
    check_lines(
        &rt,
        rt.alloc(),
        VERDICTS,
        |alloc, case| verdict_of(alloc, case),
    )
}
