//! Two layers at one state tell the same, whatever each does within a frame.
//! This project's own.
ghost use Rattle.std.specs.Prelude.{◌≡◌, true};
ghost use Rattle.rcp_model.specs.declared.plan.PlanParts.{PlanParts};
ghost use Rattle.rcp_model.specs.FrameLimits.{IsFrameOf};
ghost use Rattle.rcp_model.specs.System.{SystemState, next_state};
ghost use Rattle.layer_stack.specs.Layer.{CanRunFrame, HasActuator, HasCell, HasPairAndCell};
ghost use Rattle.distributed_layer.specs.Comparing.{AreBothAt};

use layer_stack::{FrameIn, Layer};

/// Runs one frame in two layers that are at one state, after which they are at one state again.
pub fn frame_of_both<L: Layer, M: Layer>(one: &mut L, other: &mut M, input: &FrameIn)
    requires { CanRunFrame (AreBothAt (L.is_at one.old) (M.is_at other.old)) input.now }
    ensures { (plan : PlanParts) (state : SystemState)
        → AreBothAt (L.is_at one.old) (M.is_at other.old) plan state → IsFrameOf plan input.now
        → AreBothAt (L.is_at one.new) (M.is_at other.new) plan (next_state plan state input.now) }
{
    one.frame(input);
    other.frame(input);
}

// Whether they tell the same of what a replica holds.
fn hold_the_same<L: Layer, M: Layer>(one: &L, other: &M, replica: u32, cell: u32) -> bool
    requires { HasCell (AreBothAt (L.is_at one.now) (M.is_at other.now)) replica cell }
    ensures { result ≡ true }
{
    one.slot(replica) == other.slot(replica) && one.cell(replica, cell) == other.cell(replica, cell)
}

// Whether they tell the same of what it heard of a sender.
fn heard_the_same<L: Layer, M: Layer>(one: &L, other: &M, to: u32, from: u32, cell: u32) -> bool
    requires { HasPairAndCell (AreBothAt (L.is_at one.now) (M.is_at other.now)) to from cell }
    ensures { result ≡ true }
{
    one.heard_slot(to, from) == other.heard_slot(to, from)
        && one.heard_value(to, from, cell) == other.heard_value(to, from, cell)
}

// Whether they tell the same of what it voted.
fn voted_the_same<L: Layer, M: Layer>(one: &L, other: &M, replica: u32, cell: u32) -> bool
    requires { HasCell (AreBothAt (L.is_at one.now) (M.is_at other.now)) replica cell }
    ensures { result ≡ true }
{
    one.voted_slot(replica) == other.voted_slot(replica)
        && one.voted_cell(replica, cell) == other.voted_cell(replica, cell)
}

// Whether they tell the same command of it.
fn command_the_same<L: Layer, M: Layer>(one: &L, other: &M, replica: u32, actuator: u32) -> bool
    requires { HasActuator (AreBothAt (L.is_at one.now) (M.is_at other.now)) replica actuator }
    ensures { result ≡ true }
{
    one.command(replica, actuator) == other.command(replica, actuator)
}

/// Whether two layers at one state tell the same of a replica, a cell and an actuator of it, and a
/// sender that it heard: they do.
pub fn tell_the_same<L: Layer, M: Layer>(
    one: &L,
    other: &M,
    replica: u32,
    from: u32,
    cell: u32,
    actuator: u32,
) -> bool
    requires cell { HasPairAndCell (AreBothAt (L.is_at one.now) (M.is_at other.now))
        replica from cell }
    requires actuator { HasActuator (AreBothAt (L.is_at one.now) (M.is_at other.now))
        replica actuator }
    ensures { result ≡ true }
{
    hold_the_same(one, other, replica, cell)
        && command_the_same(one, other, replica, actuator)
        && heard_the_same(one, other, replica, from, cell)
        && voted_the_same(one, other, replica, cell)
}
