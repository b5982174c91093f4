//! One frame of all replicas.
//! After NASA TM-102716.
ghost use Rattle.std.specs.Prelude.{ℕ, Option};
ghost use Rattle.rcp_base.specs.Message.{Content};
ghost use Rattle.rcp_model.specs.declared.plan.PlanParts.{PlanParts};
ghost use Rattle.rcp_model.specs.FrameLimits.{IsFrameOf};
ghost use Rattle.rcp_model.specs.FrameRows.{FrameRows};
ghost use Rattle.rcp_model.specs.System.{SystemState, next_state};
ghost use Rattle.layer_stack.specs.Layer.{CanRunFrame};
ghost use Rattle.replica_parts.specs.Places.{post_at};
ghost use Rattle.distributed_layer.specs.inner.Amid.{HasSynced, IsAmid};
ghost use Rattle.distributed_layer.specs.State.{IsAt};
ghost use Rattle.distributed_layer.specs.Together.{begun_together, filled_together, letters_together, sent_together, state_together, voted_together};

use crate::delivering::deliver_all;
use crate::distributed::Distributed;
use crate::laws::phases_make_the_next_state;
use crate::stepping::{all_begin, all_send, all_sync, all_vote};
use layer_stack::FrameIn;
use phase_machine::finish_all;
use phase_machine::laws::resting_replicas_wait;
use replica_parts::laws::votes_of_a_pattern_are_the_plans;
use replica_parts::{keep_all, write_rows};

// All that are up compute.
fn begin_together(layer: &mut Distributed, input: &FrameIn)
    requires { CanRunFrame (IsAt layer.old) input.now }
    ensures { (plan : PlanParts) (state : SystemState)
        → IsAt layer.old plan state → IsFrameOf plan input.now
        → (boxes : ℕ → ℕ → Option Content)
        × IsAmid layer.new plan state input.now (post_at layer.new.fresh.items)
        (begun_together plan state input.now boxes) }
{
    resting_replicas_wait();
    all_begin(&layer.setting, &mut layer.table, input, &mut layer.phases);
}

// All that are up send, and what goes out is on its way.
fn send_together(layer: &mut Distributed, input: &FrameIn)
    requires { (plan : PlanParts) × (state : SystemState) × (boxes : ℕ → ℕ → Option Content)
        × IsAmid layer.old plan state input.now (post_at layer.old.fresh.items)
        (begun_together plan state input.now boxes) }
    ensures { (plan : PlanParts) (state : SystemState) (boxes : ℕ → ℕ → Option Content)
        → IsAmid layer.old plan state input.now (post_at layer.old.fresh.items)
        (begun_together plan state input.now boxes)
        → IsAmid layer.new plan state input.now (letters_together plan state input.now boxes)
        (sent_together plan state input.now boxes) }
{
    votes_of_a_pattern_are_the_plans();
    all_send(
        &layer.setting,
        &layer.votes,
        input,
        &mut layer.phases,
        &mut layer.own,
    );
    write_rows(
        &layer.setting,
        layer.done,
        input,
        layer.own.as_slice(),
        &mut layer.fresh,
    );
}

// Letters come that lie in a window: first those of the frame before, so that a letter of this
// frame takes the place of one that came late.
fn fill_together(layer: &mut Distributed, input: &FrameIn)
    requires { (plan : PlanParts) × (state : SystemState) × (boxes : ℕ → ℕ → Option Content)
        × IsAmid layer.old plan state input.now (letters_together plan state input.now boxes)
        (sent_together plan state input.now boxes) }
    ensures { (plan : PlanParts) (state : SystemState) (boxes : ℕ → ℕ → Option Content)
        → IsAmid layer.old plan state input.now (letters_together plan state input.now boxes)
        (sent_together plan state input.now boxes)
        → IsAmid layer.new plan state input.now (letters_together plan state input.now boxes)
        (filled_together plan state input.now boxes) }
{
    deliver_all(
        &layer.setting,
        layer.done,
        input,
        layer.letters.as_slice(),
        &mut layer.phases,
    );
    deliver_all(
        &layer.setting,
        layer.done,
        input,
        layer.fresh.as_slice(),
        &mut layer.phases,
    );
}

// All that are up vote.
fn vote_together(layer: &mut Distributed, input: &FrameIn)
    requires { (plan : PlanParts) × (state : SystemState) × (boxes : ℕ → ℕ → Option Content)
        × IsAmid layer.old plan state input.now (letters_together plan state input.now boxes)
        (filled_together plan state input.now boxes) }
    ensures { (plan : PlanParts) (state : SystemState) (boxes : ℕ → ℕ → Option Content)
        → IsAmid layer.old plan state input.now (letters_together plan state input.now boxes)
        (filled_together plan state input.now boxes)
        → IsAmid layer.new plan state input.now (letters_together plan state input.now boxes)
        (voted_together plan state input.now boxes) }
{
    votes_of_a_pattern_are_the_plans();
    all_vote(
        &layer.setting,
        &layer.votes,
        &mut layer.table,
        input,
        &mut layer.phases,
    );
}

// All that are up sync, and each replica comes to rest.
fn sync_together(layer: &mut Distributed, input: &FrameIn)
    requires { (plan : PlanParts) × (state : SystemState) × (boxes : ℕ → ℕ → Option Content)
        × IsAmid layer.old plan state input.now (letters_together plan state input.now boxes)
        (voted_together plan state input.now boxes) }
    ensures { (plan : PlanParts) (state : SystemState) (boxes : ℕ → ℕ → Option Content)
        → IsAmid layer.old plan state input.now (letters_together plan state input.now boxes)
        (voted_together plan state input.now boxes)
        → HasSynced layer.new plan state input.now boxes }
{
    all_sync(&layer.setting, input, &mut layer.phases);
    finish_all(&mut layer.phases, input);
}

// The letters that are still on their way are kept, and one frame more is done.
fn keep_together(layer: &mut Distributed)
    requires { (plan : PlanParts) × (state : SystemState) × (rows : FrameRows)
        × (boxes : ℕ → ℕ → Option Content) × HasSynced layer.old plan state rows boxes }
    ensures { (plan : PlanParts) (state : SystemState) (rows : FrameRows)
        (boxes : ℕ → ℕ → Option Content) → HasSynced layer.old plan state rows boxes
        → IsAt layer.new plan (state_together plan state rows boxes) }
{
    keep_all(&layer.setting, layer.done, &mut layer.fresh);
    std::mem::swap(&mut layer.letters, &mut layer.fresh);
    layer.done += 1;
}

/// Runs a frame of all replicas, phase by phase. Takes no memory.
pub fn run_frame(layer: &mut Distributed, input: &FrameIn)
    requires { CanRunFrame (IsAt layer.old) input.now }
    ensures { (plan : PlanParts) (state : SystemState)
        → IsAt layer.old plan state → IsFrameOf plan input.now
        → IsAt layer.new plan (next_state plan state input.now) }
{
    phases_make_the_next_state();
    begin_together(layer, input);
    send_together(layer, input);
    fill_together(layer, input);
    vote_together(layer, input);
    sync_together(layer, input);
    keep_together(layer);
}
