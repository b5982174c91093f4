//! What replicas hold after a frame.
//! After NASA TM-102716.
ghost use Rattle.std.specs.Prelude.{◌≡◌, ◌<◌, ◌≤◌, ◌%◌, ◌+◌, ℕ, Option, length, slice_index_or};
ghost use Rattle.rcp_base.specs.declared.TheConstants.{MAX_CELLS};
ghost use Rattle.rcp_base.specs.Tables.{table};
ghost use Rattle.rcp_model.specs.declared.plan.PlanParts.{PlanParts};
ghost use Rattle.rcp_model.specs.Ballot as model;
ghost use Rattle.rcp_model.specs.System.{state_after_rows};
ghost use Rattle.replica_parts.specs.Ballots.{AreBallots, IsBallotOrNone};
ghost use Rattle.replica_parts.specs.Rooms.{AreStates, HasBallotRoom, HasCells, HaveBallotRoom};
ghost use Rattle.replica_parts.specs.Setting.{HasPlan, HasPlanWith, IsSettingOf};
ghost use Rattle.replica_parts.specs.States.{no_state, state_after_vote};

use crate::ballot::Ballot;
use crate::held::Held;
use crate::setting::Setting;
use layer_stack::FrameIn;

// The slot that follows.
fn slot_after(setting: &Setting, slot: u32) -> u32
    requires { HasPlan setting.now }
    ensures { result ≡ (slot + 1) % setting.now.slots }
{
    ((u64::from(slot) + 1) % u64::from(setting.slots)) as u32
}

/// What a replica holds after its sync, or as before where it did not vote. Takes no memory.
pub fn sync(setting: &Setting, ballot: &Ballot, held: &mut Held)
    requires of { HasPlan setting.now }
    requires room { HasBallotRoom setting.now ballot.now }
    requires cells { HasCells setting.now held.old }
    ensures held { (plan : PlanParts) (voted : Option model.Ballot) → IsSettingOf plan setting.now
        → IsBallotOrNone plan.replicas ballot.now voted
        → held.new ≡ state_after_vote plan voted held.old }
    ensures cells { HasCells setting.now held.new }
{
    if ballot.up {
        let slot = slot_after(setting, ballot.taken);
        held.take(slot, ballot.cells.as_slice());
    }
}

/// What a replica holds when rows have overwritten its slot and cells. Takes no memory.
pub fn overwrite(setting: &Setting, input: &FrameIn, replica: u32, held: &mut Held)
    requires of { HasPlanWith setting.now input.now }
    requires replica { replica < setting.now.replicas }
    requires cells { HasCells setting.now held.old }
    ensures held { (plan : PlanParts) → IsSettingOf plan setting.now
        → held.new ≡ state_after_rows plan input.now replica held.old }
    ensures cells { HasCells setting.now held.new }
{
    held.set_slot(input.slot(replica).unwrap_or(held.slot()));
    for cell in 0..setting.cells {
        let value = input.cell(replica, cell).unwrap_or(held.cell(cell));
        held.set_cell(cell, value);
    }
}

/// What a replica holds after its sync and the rows that overwrite. Takes no memory.
pub fn hold_one(setting: &Setting, input: &FrameIn, replica: u32, ballot: &Ballot, held: &mut Held)
    requires of { HasPlanWith setting.now input.now }
    requires replica { replica < setting.now.replicas }
    requires room { HasBallotRoom setting.now ballot.now }
    requires cells { HasCells setting.now held.old }
    ensures held { (plan : PlanParts) (voted : Option model.Ballot) → IsSettingOf plan setting.now
        → IsBallotOrNone plan.replicas ballot.now voted → held.new
        ≡ state_after_rows plan input.now replica (state_after_vote plan voted held.old) }
    ensures cells { HasCells setting.now held.new }
{
    sync(setting, ballot, held);
    if !input.is_quiet() {
        overwrite(setting, input, replica, held);
    }
}

/// What each replica holds after them. Takes no memory.
pub fn hold_all(setting: &Setting, input: &FrameIn, ballots: &[Ballot], held: &mut Vec<Held>)
    requires of { HasPlanWith setting.now input.now }
    requires room { HaveBallotRoom setting.now ballots.now }
    requires cells { AreStates setting.now held.old.items }
    ensures held { (plan : PlanParts) (voted : ℕ → Option model.Ballot)
        → IsSettingOf plan setting.now → AreBallots plan.replicas ballots.now voted
        → held.new.items ≡ table plan.replicas (λ replica. state_after_rows plan input.now replica
        (state_after_vote plan (voted replica) (slice_index_or held.old.items replica no_state))) }
    ensures cells { AreStates setting.now held.new.items }
{
    for replica in 0..setting.replicas {
        let number = replica as usize;
        hold_one(setting, input, replica, &ballots[number], &mut held[number]);
    }
}
