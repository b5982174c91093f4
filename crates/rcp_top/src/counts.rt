//! What the frames of a run amount to, counted as they are run.
//! After NASA TM-102716; the counts are this project's own.
ghost use Rattle.std.specs.Prelude.{◌≡◌, ◌<◌, ◌≤◌, ◌*◌, ℕ, ℤ, List, [], ◌∷◌, ◌++◌, length, Option};
ghost use Rattle.rcp_base.specs.declared.TheConstants.{MAX_ACTUATORS, MAX_FRAMES};
ghost use Rattle.rcp_base.specs.Writing.{Writes};
ghost use Rattle.layer_stack.specs.Run.{IsStanding, StandsFor};
ghost use Rattle.rcp_model.specs.declared.plan.PlanParts.{PlanParts};
ghost use Rattle.rcp_model.specs.FrameRows.{FrameRows};
ghost use Rattle.rcp_top.specs.Summary as spec;

use crate::send::add;
use layer_stack::{Layer, Run};
use rcp_base::{Sink, WriteError};
use rcp_model::Plan;
use trace_text::{Label, Lines};

/// How many actuator votes had a value, how many had none, and a digest of all in their order.
#[derive(Clone, Copy)]
pub struct Tally {
    votes: u64,
    no_votes: u64,
    digest: u64,
}

/// What frames amount to.
#[derive(Clone, Copy)]
pub struct Counts {
    // The frames whose guard holds.
    guarded: u64,
    tally: Tally,
    // The pairs of a replica and a frame in which the replica is working.
    working: u64,
}

impl Tally {
    // Before the first vote.
    fn new() -> Tally
        ensures { result ≡ spec.tally_of [] }
    {
        Tally {
            votes: 0,
            no_votes: 0,
            digest: 0,
        }
    }

    // One vote more.
    fn with_vote(self, vote: Option<i64>) -> Tally
        requires { (votes : List (Option ℤ))
            × (self ≡ spec.tally_of votes) × (length votes < 4294967296) }
        ensures { (votes : List (Option ℤ)) → self ≡ spec.tally_of votes
            → result ≡ spec.tally_of (votes ++ vote ∷ []) }
    {
        let digest = self.digest.wrapping_mul(31);
        match vote {
            Some(value) => Tally {
                votes: self.votes + 1,
                no_votes: self.no_votes,
                digest: digest.wrapping_add(value.cast_unsigned()),
            },
            None => Tally {
                votes: self.votes,
                no_votes: self.no_votes + 1,
                digest,
            },
        }
    }
}

// The votes of the last frame are tallied too.
fn with_votes<L: Layer>(mut tally: Tally, plan: &Plan, run: &Run<'_, L>) -> Tally
    requires plan { run.now.plan.now ≡ plan.now }
    requires stands { IsStanding L.is_at run.now }
    requires few { (votes : List (Option ℤ)) × (tally ≡ spec.tally_of votes)
        × (length votes ≤ MAX_FRAMES * MAX_ACTUATORS) }
    ensures { (votes : List (Option ℤ)) (past : List FrameRows)
        → tally ≡ spec.tally_of votes → StandsFor L.is_at run.now past
        → result ≡ spec.tally_of (votes ++ spec.votes_in plan.now past) }
{
    for actuator in 0..plan.parts().actuators.len() {
        tally = tally.with_vote(run.vote(actuator as u32));
    }
    tally
}

// How many replicas were healthy in the last frames, as many as the length.
fn working_count<L: Layer>(plan: &Plan, run: &Run<'_, L>) -> u64
    requires plan { run.now.plan.now ≡ plan.now }
    requires stands { IsStanding L.is_at run.now }
    ensures count { (past : List FrameRows) → StandsFor L.is_at run.now past
        → result ≡ spec.working_count plan.now run.now.length past }
    ensures few { result ≤ plan.now.replicas }
{
    let mut count = 0;
    for replica in 0..plan.parts().replicas {
        count += u64::from(run.working(replica));
    }
    count
}

impl Counts {
    /// Before the first frame.
    pub fn new() -> Counts
        ensures { (plan : PlanParts) (recovery : ℕ) → result ≡ spec.counts_of plan recovery [] }
    {
        Counts {
            guarded: 0,
            tally: Tally::new(),
            working: 0,
        }
    }

    /// With the last frame of a run counted too.
    pub fn with_frame<L: Layer>(self, plan: &Plan, run: &Run<'_, L>) -> Counts
        requires plan { run.now.plan.now ≡ plan.now }
        requires last { (rows : FrameRows) × (past : List FrameRows)
            × StandsFor L.is_at run.now (rows ∷ past)
            × (self ≡ spec.counts_of plan.now run.now.length past)
            × (length past < MAX_FRAMES) }
        ensures { (rows : FrameRows) (past : List FrameRows)
            → StandsFor L.is_at run.now (rows ∷ past)
            → self ≡ spec.counts_of plan.now run.now.length past
            → result ≡ spec.counts_of plan.now run.now.length (rows ∷ past) }
    {
        Counts {
            guarded: self.guarded + u64::from(run.guard()),
            tally: with_votes(self.tally, plan, run),
            working: self.working + working_count(plan, run),
        }
    }

    /// Writes the lines of so many frames and what they amount to.
    pub fn write<S: Sink>(
        self,
        frames: u32,
        lines: &mut Lines,
        out: &mut S,
    ) -> Result<(), WriteError>
        ensures { Writes (S.state out.old) (S.state out.new) result (spec.counts_text frames self) }
    {
        let frames = u64::from(frames);
        let so_far = add(out, Ok(()), lines.count(Label::Frames, frames));
        let so_far = add(out, so_far, lines.count(Label::Guarded, self.guarded));
        let so_far = add(out, so_far, lines.count(Label::Votes, self.tally.votes));
        let so_far = add(out, so_far, lines.count(Label::NoVote, self.tally.no_votes));
        let so_far = add(out, so_far, lines.count(Label::Working, self.working));
        add(out, so_far, lines.count(Label::Digest, self.tally.digest))
    }
}
