//! The replicas in phases.
//! After NASA TM-102716.
ghost use Rattle.std.specs.Prelude.{IfOk};
ghost use Rattle.rcp_model.specs.System.{initial_state};
ghost use Rattle.distributed_layer.specs.State.{IsAt};

use crate::frames::run_frame;
use frame_table::Table;
use layer_stack::{FrameIn, Layer};
use mailbox::Message;
use phase_machine::{Phase, phases};
use rcp_base::Memory;
use rcp_model::Plan;
use replica_parts::{Post, Setting, messages, post_rows};
use std::alloc::Global;
use vote_pattern::Pattern;

/// The replicas of a plan, which go through the phases of each frame together, and keep what they
/// hear in mailboxes. Only making them takes memory.
#[derive(Debug, Drop)]
pub struct Distributed {
    pub(crate) setting: Setting,
    pub(crate) votes: Pattern,
    pub(crate) table: Table,
    // How many frames are done.
    pub(crate) done: u32,
    // By replica.
    pub(crate) phases: Vec<Phase>,
    // Those still on their way, by receiver and sender.
    pub(crate) letters: Vec<Vec<Post>>,
    // Of the frame at hand: what each replica says, and the letters by receiver and sender.
    pub(crate) own: Vec<Message>,
    pub(crate) fresh: Vec<Vec<Post>>,
}

impl Distributed {
    /// The replicas of a plan before the first frame.
    pub fn new(alloc: Global, plan: &Plan) -> Result<Distributed, Memory>
        ensures { IfOk result (λ layer. IsAt layer plan.now (initial_state plan.now)) }
    {
        let setting = Setting::new(alloc, plan)?;
        let letters = post_rows(alloc, &setting)?;
        let own = messages(alloc, &setting)?;
        let fresh = post_rows(alloc, &setting)?;
        Ok(Distributed {
            setting,
            votes: Pattern::of(alloc, plan)?,
            table: Table::new(alloc, plan)?,
            done: 0,
            phases: phases(alloc, plan)?,
            letters,
            own,
            fresh,
        })
    }
}

impl Layer for Distributed {
    ghost use Rattle.std.specs.Prelude.{⊤};
    ghost use Rattle.distributed_layer.specs.State.{IsAt};

    ghost is_at = { IsAt };

    ghost went = { λ old rows new. ⊤ };

    fn frame(&mut self, input: &FrameIn) {
        run_frame(self, input);
    }

    fn slot(&self, replica: u32) -> u32 {
        self.phases[replica as usize].slot()
    }

    fn cell(&self, replica: u32, cell: u32) -> i64 {
        self.phases[replica as usize].cell(cell)
    }

    fn command(&self, replica: u32, actuator: u32) -> Option<i64> {
        self.phases[replica as usize].command(actuator)
    }

    fn heard_slot(&self, to: u32, from: u32) -> Option<u32> {
        self.phases[to as usize].heard_slot(from)
    }

    fn heard_value(&self, to: u32, from: u32, cell: u32) -> Option<i64> {
        self.phases[to as usize].heard_value(from, cell)
    }

    fn voted_slot(&self, replica: u32) -> Option<u32> {
        self.phases[replica as usize].voted_slot()
    }

    fn voted_cell(&self, replica: u32, cell: u32) -> Option<i64> {
        self.phases[replica as usize].voted_cell(cell)
    }
}
