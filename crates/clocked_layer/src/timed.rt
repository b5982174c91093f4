//! The replicas on clocks as a layer, which runs the block of each frame to its end.
//! After NASA TM-104196.
ghost use Rattle.std.specs.Prelude.{◌≡◌, []};
ghost use Rattle.clocked_layer.specs.Block.{opened_block};
ghost use Rattle.clocked_layer.specs.Ready.{IsTimely};
ghost use Rattle.clocked_layer.specs.Stepped.{CanClose, IsOpen, Mail, RestsAt, no_mail};
ghost use Rattle.clocked_layer.specs.Timed.{HasTakenAll, IsPickedBy};
ghost use Rattle.rcp_model.specs.System.{SystemState, initial_state};
ghost use Rattle.rcp_model.specs.declared.plan.PlanParts.{PlanParts};

use crate::stepped::Stepped;
use layer_stack::{FrameIn, Layer};

/// The replicas on clocks, run frame by frame, in whatever order events that are due at once are taken.
#[derive(Debug, Drop)]
pub struct Timed<B> {
    block: B,
}

impl<B: Stepped> Timed<B> {
    /// The layer over replicas before the first frame.
    pub fn new(block: B) -> Timed<B>
        requires fresh { (plan : PlanParts) × B.rests block plan (initial_state plan) no_mail }
        ensures at { (plan : PlanParts) → B.rests block plan (initial_state plan) no_mail
            → RestsAt (B.rests result.block) plan (initial_state plan) }
        ensures block { result.block ≡ block }
    {
        Timed { block }
    }

    /// The replicas, which tell of the last frame's events.
    pub fn block(&self) -> &B
        ensures { result.now ≡ self.now.block }
    {
        &self.block
    }
}

// Takes the events of a block that has just been opened, one after the other, until none is left.
fn take_all<B: Stepped>(block: &mut B, input: &FrameIn)
    requires open { IsOpen (B.runs block.old) input.now }
    requires log { B.log block.old ≡ [] }
    ensures over { CanClose (B.runs block.new) input.now }
    ensures all { (plan : PlanParts) (state : SystemState) (mail : Mail)
        → IsTimely plan input.now state
        → B.runs block.old plan input.now (opened_block plan state input.now mail)
        → HasTakenAll (B.runs block.new) plan state input.now mail (B.log block.new) }
    ensures log { (plan : PlanParts) (state : SystemState) (mail : Mail)
        → IsTimely plan input.now state
        → B.runs block.old plan input.now (opened_block plan state input.now mail)
        → IsPickedBy (B.answers block.old) (B.answers block.new) plan state input.now
        (B.log block.new) }
{
    while let Some(_event) = block.step(input) {}
}

impl<B: Stepped> Layer for Timed<B> {
    ghost use Rattle.clocked_layer.specs.Stepped.{Mail, RestsAt};
    ghost use Rattle.clocked_layer.specs.Timed.{IsPickedBy, RestsAfterLog};
    ghost use Rattle.rcp_model.specs.FrameLimits.{IsFrameOf};
    ghost use Rattle.rcp_model.specs.System.{SystemState};
    ghost use Rattle.rcp_model.specs.declared.plan.PlanParts.{PlanParts};

    ghost is_at = { λ timed. RestsAt (B.rests timed.block) };

    ghost went = { λ old rows new. (plan : PlanParts) (state : SystemState) (mail : Mail)
        → B.rests old.block plan state mail → IsFrameOf plan rows
        → RestsAfterLog (B.rests new.block) plan state rows mail (B.log new.block)
        × IsPickedBy (B.answers old.block) (B.answers new.block) plan state rows
        (B.log new.block) };

    fn frame(&mut self, input: &FrameIn) {
        self.block.open(input);
        take_all(&mut self.block, input);
        self.block.close(input);
    }

    fn slot(&self, replica: u32) -> u32 {
        self.block.slot(replica)
    }

    fn cell(&self, replica: u32, cell: u32) -> i64 {
        self.block.cell(replica, cell)
    }

    fn command(&self, replica: u32, actuator: u32) -> Option<i64> {
        self.block.command(replica, actuator)
    }

    fn heard_slot(&self, to: u32, from: u32) -> Option<u32> {
        self.block.heard_slot(to, from)
    }

    fn heard_value(&self, to: u32, from: u32, cell: u32) -> Option<i64> {
        self.block.heard_value(to, from, cell)
    }

    fn voted_slot(&self, replica: u32) -> Option<u32> {
        self.block.voted_slot(replica)
    }

    fn voted_cell(&self, replica: u32, cell: u32) -> Option<i64> {
        self.block.voted_cell(replica, cell)
    }
}
