//! One frame of all replicas.
//! After NASA TM-102716.
ghost use Rattle.std.specs.Prelude.{◌≡◌, ◌<◌, ◌+◌};
ghost use Rattle.rcp_base.specs.Tables.{table};
ghost use Rattle.rcp_model.specs.declared.plan.PlanParts.{PlanParts};
ghost use Rattle.rcp_model.specs.FrameLimits.{IsFrameOf};
ghost use Rattle.rcp_model.specs.System.{SystemState, fresh_letter, next_state};
ghost use Rattle.layer_stack.specs.Layer.{CanRunFrame};
ghost use Rattle.replica_parts.specs.Ballots.{AreBallots};
ghost use Rattle.replica_parts.specs.Places.{letter_rows};
ghost use Rattle.replica_layer.specs.State.{HaveRoom, IsAt};

use crate::replicated::Replicated;
use layer_stack::FrameIn;
use replica_parts::laws::votes_of_a_pattern_are_the_plans;
use replica_parts::{
    command_all, compute_all, hold_all, keep_all, vote_all, write_owns, write_rows,
};

// Runs a frame up to what the replicas hold: they compute, send, hear, vote and sync, and rows
// overwrite.
fn vote_and_hold(layer: &mut Replicated, input: &FrameIn)
    requires { CanRunFrame (IsAt layer.old) input.now }
    ensures room { HaveRoom layer.new }
    ensures done { layer.new.done ≡ layer.old.done + 1 }
    ensures setting { layer.new.setting ≡ layer.old.setting }
    ensures votes { layer.new.votes ≡ layer.old.votes }
    ensures code { layer.new.table ≡ layer.old.table }
    ensures held { (plan : PlanParts) (state : SystemState)
        → IsAt layer.old plan state → IsFrameOf plan input.now → layer.new.held.items
        ≡ table plan.replicas (next_state plan state input.now).replicas }
    ensures ballots { (plan : PlanParts) (state : SystemState)
        → IsAt layer.old plan state → IsFrameOf plan input.now → AreBallots plan.replicas
        layer.new.ballots.items (next_state plan state input.now).ballots }
    ensures fresh { (plan : PlanParts) (state : SystemState)
        → IsAt layer.old plan state → IsFrameOf plan input.now → letter_rows layer.new.fresh.items
        ≡ table plan.replicas (λ receiver. table plan.replicas
        (fresh_letter plan state input.now receiver)) }
{
    votes_of_a_pattern_are_the_plans();
    compute_all(
        &layer.setting,
        &mut layer.table,
        input.sensors(),
        layer.held.as_slice(),
        &mut layer.computed,
    );
    write_owns(
        &layer.setting,
        &layer.votes,
        layer.computed.as_slice(),
        &mut layer.own,
    );
    write_rows(
        &layer.setting,
        layer.done,
        input,
        layer.own.as_slice(),
        &mut layer.fresh,
    );
    vote_all(
        &layer.setting,
        &layer.votes,
        layer.done,
        input,
        layer.computed.as_slice(),
        layer.own.as_slice(),
        layer.fresh.as_slice(),
        layer.letters.as_slice(),
        &mut layer.places,
        &mut layer.ballots,
    );
    hold_all(
        &layer.setting,
        input,
        layer.ballots.as_slice(),
        &mut layer.held,
    );
    layer.done += 1;
}

/// Runs a frame of all replicas: up to what they hold, then their commands, and then which letters
/// are still on their way. Takes no memory.
pub fn run_frame(layer: &mut Replicated, input: &FrameIn)
    requires { CanRunFrame (IsAt layer.old) input.now }
    ensures { (plan : PlanParts) (state : SystemState)
        → IsAt layer.old plan state → IsFrameOf plan input.now
        → IsAt layer.new plan (next_state plan state input.now) }
{
    let frame = layer.done;
    vote_and_hold(layer, input);
    command_all(
        &layer.setting,
        &mut layer.table,
        input,
        layer.ballots.as_slice(),
        &mut layer.commands,
    );
    keep_all(&layer.setting, frame, &mut layer.fresh);
    std::mem::swap(&mut layer.letters, &mut layer.fresh);
}
