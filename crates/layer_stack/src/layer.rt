//! What every form of the replicated system does.
//! After NASA TM-102716 and NASA TM-104196.
use crate::frame_in::FrameIn;

/// A form of the replicated system, which is run frame by frame. No call takes memory.
///
/// `is_at` says of which plan it is, and at which state of the system. `went` is what else is told of a frame that it ran:
/// a relation between the layer before, the rows of the frame and the layer after.
pub trait Layer {
    ghost use Rattle.std.specs.Prelude.{◌≡◌, ◌<◌, length};
    ghost use Rattle.rcp_model.specs.declared.plan.PlanParts.{PlanParts};
    ghost use Rattle.rcp_model.specs.FrameLimits.{IsFrameOf};
    ghost use Rattle.rcp_model.specs.FrameRows.{FrameRows};
    ghost use Rattle.rcp_model.specs.System.{SystemState, next_state};
    ghost use Rattle.layer_stack.specs.Layer.{CanRunFrame, HasReplica, HasCell, HasActuator, HasPair, HasPairAndCell, cell_in, heard_slot_in, heard_value_in, voted_slot_in, voted_cell_in};

    ghost is_at: { Self → PlanParts → SystemState → Type 0 };

    ghost went: { Self → FrameRows → Self → Type 0 };

    /// Runs one frame with these rows.
    fn frame(&mut self, input: &FrameIn)
        requires ready { CanRunFrame (is_at self.old) input.now }
        ensures state { (plan : PlanParts) (state : SystemState)
            → is_at self.old plan state → IsFrameOf plan input.now
            → is_at self.new plan (next_state plan state input.now) }
        ensures went { went self.old input.now self.new };

    /// The slot of a replica.
    fn slot(&self, replica: u32) -> u32
        requires { HasReplica (is_at self.now) replica }
        ensures { (plan : PlanParts) (state : SystemState) → is_at self.now plan state
            → replica < plan.replicas → result ≡ (state.replicas replica).slot };

    /// A cell of a replica.
    fn cell(&self, replica: u32, cell: u32) -> i64
        requires { HasCell (is_at self.now) replica cell }
        ensures { (plan : PlanParts) (state : SystemState) → is_at self.now plan state
            → replica < plan.replicas → cell < length plan.cells
            → result ≡ cell_in state replica cell };

    /// The command that a replica gave to an actuator in the last frame.
    /// `None` before the first frame, and where the replica was down and no row gave it one.
    fn command(&self, replica: u32, actuator: u32) -> Option<i64>
        requires { HasActuator (is_at self.now) replica actuator }
        ensures { (plan : PlanParts) (state : SystemState) → is_at self.now plan state
            → replica < plan.replicas → actuator < length plan.actuators
            → result ≡ state.commands replica actuator };

    /// The slot in what stood heard of a sender at the last vote of a replica.
    /// `None` before the first frame, where the replica was down, and where nothing of that sender stood heard.
    fn heard_slot(&self, to: u32, from: u32) -> Option<u32>
        requires { HasPair (is_at self.now) to from }
        ensures { (plan : PlanParts) (state : SystemState) → is_at self.now plan state
            → to < plan.replicas → from < plan.replicas
            → result ≡ heard_slot_in state to from };

    /// The value of a cell in it. `None` as for the slot, and where the message names no value for the cell.
    fn heard_value(&self, to: u32, from: u32, cell: u32) -> Option<i64>
        requires { HasPairAndCell (is_at self.now) to from cell }
        ensures { (plan : PlanParts) (state : SystemState) → is_at self.now plan state
            → to < plan.replicas → from < plan.replicas → cell < length plan.cells
            → result ≡ heard_value_in state to from cell };

    /// The slot that a replica took at the vote of the last frame.
    /// `None` before the first frame, and where the replica was down.
    fn voted_slot(&self, replica: u32) -> Option<u32>
        requires { HasReplica (is_at self.now) replica }
        ensures { (plan : PlanParts) (state : SystemState) → is_at self.now plan state
            → replica < plan.replicas → result ≡ voted_slot_in state replica };

    /// A cell of a replica after that vote, before rows overwrite it. `None` as for the slot.
    fn voted_cell(&self, replica: u32, cell: u32) -> Option<i64>
        requires { HasCell (is_at self.now) replica cell }
        ensures { (plan : PlanParts) (state : SystemState) → is_at self.now plan state
            → replica < plan.replicas → cell < length plan.cells
            → result ≡ voted_cell_in state replica cell };
}
