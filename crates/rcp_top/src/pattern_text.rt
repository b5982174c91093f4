//! Writes a vote pattern and how soon it recovers, one line at a time.
//! This project's own.
ghost use Rattle.rcp_base.specs.Adding.{Adds};
ghost use Rattle.rcp_model.specs.Walk.{Graph};
ghost use Rattle.vote_pattern.specs.Votes.{AreVotesOf, votes_at};
ghost use Rattle.rcp_top.specs.PatternText as spec;

use crate::send::{add, add_made};
use rcp_base::{Sink, WriteError};
use rcp_model::{Node, Plan};
use trace_text::{Label, Lines};
use vote_pattern::Pattern;

// Writes the votes of each slot, and their number.
pub fn write_pattern<S: Sink>(
    lines: &mut Lines,
    plan: &Plan,
    pattern: &Pattern,
    out: &mut S,
    so_far: Result<(), WriteError>,
) -> Result<(), WriteError>
    ensures { (g : Graph) → AreVotesOf g pattern.now
        → Adds (S.state out.old) (S.state out.new) so_far result
        (spec.pattern_text plan.now.cells g) }
{
    let so_far = write_slots(lines, plan, pattern, out, so_far);
    let votes = pattern.count();
    add(out, so_far, lines.count(Label::Votes, votes as u64))
}

// A line for each slot.
fn write_slots<S: Sink>(
    lines: &mut Lines,
    plan: &Plan,
    pattern: &Pattern,
    out: &mut S,
    mut so_far: Result<(), WriteError>,
) -> Result<(), WriteError>
    ensures { Adds (S.state out.old) (S.state out.new) so_far result
        (spec.slot_lines plan.now.cells (votes_at pattern.now) pattern.now.slots) }
{
    for slot in 0..pattern.slots() {
        so_far = add_made(out, so_far, lines.slot_votes(plan, pattern, slot));
    }
    so_far
}

// Writes the recovery length and the walk beside it.
#[tactic(auto, unfolding(crate::specs::PatternText::recovery_text))]
pub fn write_recovery<S: Sink>(
    lines: &mut Lines,
    plan: &Plan,
    length: u32,
    walk: &[Node],
    out: &mut S,
    so_far: Result<(), WriteError>,
) -> Result<(), WriteError>
    ensures { Adds (S.state out.old) (S.state out.new) so_far result
        (spec.recovery_text plan.now.cells length walk.now) }
{
    let so_far = add(out, so_far, lines.count(Label::Recovery, length as u64));
    add_made(out, so_far, lines.walk(plan, walk))
}
