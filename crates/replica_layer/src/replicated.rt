//! The replicas in one step.
//! After NASA TM-102716.
ghost use Rattle.std.specs.Prelude.{IfOk};
ghost use Rattle.rcp_model.specs.System.{initial_state};
ghost use Rattle.replica_layer.specs.State.{IsAt};

use crate::frames::run_frame;
use frame_table::Table;
use layer_stack::{FrameIn, Layer};
use mailbox::Message;
use rcp_base::Memory;
use rcp_model::Plan;
use replica_parts::{
    Ballot, Held, Post, Setting, ballots, command_at, command_rows, initial_states, messages,
    post_rows, vote_places,
};
use std::alloc::Global;
use vote_pattern::Pattern;

/// The replicas of a plan, all of which do each frame in one step. Only making them takes memory.
#[derive(Debug, Drop)]
pub struct Replicated {
    pub(crate) setting: Setting,
    pub(crate) votes: Pattern,
    pub(crate) table: Table,
    // How many frames are done.
    pub(crate) done: u32,
    // By replica.
    pub(crate) held: Vec<Held>,
    // By replica, of the last frame.
    pub(crate) ballots: Vec<Ballot>,
    // By replica and actuator, of the last frame.
    pub(crate) commands: Vec<Vec<Option<i64>>>,
    // Those still on their way, by receiver and sender.
    pub(crate) letters: Vec<Vec<Post>>,
    // Of the frame at hand: what each replica computed and says, the letters by receiver and sender,
    // and places for one vote.
    pub(crate) computed: Vec<Held>,
    pub(crate) own: Vec<Message>,
    pub(crate) fresh: Vec<Vec<Post>>,
    pub(crate) places: Vec<Option<i64>>,
}

impl Replicated {
    /// The replicas of a plan before the first frame.
    pub fn new(alloc: Global, plan: &Plan) -> Result<Replicated, Memory>
        ensures { IfOk result (λ layer. IsAt layer plan.now (initial_state plan.now)) }
    {
        let setting = Setting::new(alloc, plan)?;
        let ballots = ballots(alloc, &setting)?;
        let commands = command_rows(alloc, &setting)?;
        let letters = post_rows(alloc, &setting)?;
        let own = messages(alloc, &setting)?;
        let fresh = post_rows(alloc, &setting)?;
        let places = vote_places(alloc, &setting)?;
        Ok(Replicated {
            setting,
            votes: Pattern::of(alloc, plan)?,
            table: Table::new(alloc, plan)?,
            done: 0,
            held: initial_states(alloc, plan)?,
            ballots,
            commands,
            letters,
            computed: initial_states(alloc, plan)?,
            own,
            fresh,
            places,
        })
    }
}

impl Layer for Replicated {
    ghost use Rattle.std.specs.Prelude.{⊤};
    ghost use Rattle.replica_layer.specs.State.{IsAt};

    ghost is_at = { IsAt };

    ghost went = { λ old rows new. ⊤ };

    fn frame(&mut self, input: &FrameIn) {
        run_frame(self, input);
    }

    fn slot(&self, replica: u32) -> u32 {
        self.held[replica as usize].slot()
    }

    fn cell(&self, replica: u32, cell: u32) -> i64 {
        self.held[replica as usize].cell(cell)
    }

    fn command(&self, replica: u32, actuator: u32) -> Option<i64> {
        command_at(self.commands.as_slice(), replica, actuator)
    }

    fn heard_slot(&self, to: u32, from: u32) -> Option<u32> {
        self.ballots[to as usize].heard_slot(from)
    }

    fn heard_value(&self, to: u32, from: u32, cell: u32) -> Option<i64> {
        self.ballots[to as usize].heard_value(from, cell)
    }

    fn voted_slot(&self, replica: u32) -> Option<u32> {
        self.ballots[replica as usize].voted_slot()
    }

    fn voted_cell(&self, replica: u32, cell: u32) -> Option<i64> {
        self.ballots[replica as usize].voted_cell(cell)
    }
}
