//! What replicas compute and say.
//! After NASA TM-102716.
ghost use Rattle.std.specs.Prelude.{◌≡◌, ◌<◌, None, Some, length, map, set, slice_index_or, if◌then◌else◌};
ghost use Rattle.frame_table.specs.Plan.{IsOf};
ghost use Rattle.rcp_model.specs.declared.plan.PlanParts.{PlanParts};
ghost use Rattle.rcp_model.specs.Messages.{own_message};
ghost use Rattle.vote_pattern.specs.Votes.{is_in};
ghost use Rattle.replica_parts.specs.Rooms.{AreMessages, AreStates, HasCells, HasRoom};
ghost use Rattle.replica_parts.specs.Setting.{HasPlan, IsSettingOf};
ghost use Rattle.replica_parts.specs.States.{message_of, state_after_compute};

use crate::held::Held;
use crate::setting::{Setting, has_vote};
use frame_table::Table;
use mailbox::Message;
use vote_pattern::Pattern;

/// What a replica computes: its slot over its cells. Takes no memory.
pub fn compute(table: &mut Table, sensors: &[i64], held: &Held, computed: &mut Held)
    requires room { length computed.old.cells ≡ length held.now.cells }
    ensures computed { (plan : PlanParts) → IsOf plan table.old
        → computed.new ≡ state_after_compute plan sensors.now held.now }
    ensures table { table.new ≡ table.old }
{
    computed.copy_from(held);
    run(table, sensors, computed);
}

// Runs the slot at hand over the cells.
fn run(table: &mut Table, sensors: &[i64], held: &mut Held)
    ensures held { (plan : PlanParts) → IsOf plan table.old
        → held.new ≡ state_after_compute plan sensors.now held.old }
    ensures table { table.new ≡ table.old }
{
    table.run_slot(held.slot, sensors, held.cells.as_mut_slice());
}

/// What each replica computes, whether or not it is down. Takes no memory.
pub fn compute_all(
    setting: &Setting,
    table: &mut Table,
    sensors: &[i64],
    held: &[Held],
    computed: &mut Vec<Held>,
)
    requires plan { (plan : PlanParts) × IsOf plan table.old }
    requires held { AreStates setting.now held.now }
    requires room { AreStates setting.now computed.old.items }
    ensures computed { (plan : PlanParts) → IsOf plan table.old
        → computed.new.items ≡ map (state_after_compute plan sensors.now) held.now }
    ensures room { AreStates setting.now computed.new.items }
    ensures table { table.new ≡ table.old }
{
    for replica in 0..setting.replicas {
        let number = replica as usize;
        compute(table, sensors, &held[number], &mut computed[number]);
    }
}

/// What a replica says that computed these cells: its slot, and the cells that it votes. Takes no memory.
pub fn write_own(setting: &Setting, votes: &Pattern, computed: &Held, own: &mut Message)
    requires of { HasPlan setting.now }
    requires cells { HasCells setting.now computed.now }
    requires room { HasRoom setting.now own.old }
    ensures own { (plan : PlanParts) → IsSettingOf plan setting.now
        → own.new ≡ message_of plan (is_in votes.now) computed.now }
    ensures room { HasRoom setting.now own.new }
{
    write_cells(setting, votes, computed.slot(), computed.cells(), own);
}

// What a replica in a slot says that computed these cells.
fn write_cells(setting: &Setting, votes: &Pattern, slot: u32, computed: &[i64], own: &mut Message)
    requires of { HasPlan setting.now }
    requires cells { length computed.now ≡ setting.now.cells }
    requires room { HasRoom setting.now own.old }
    ensures own { (plan : PlanParts) → IsSettingOf plan setting.now
        → own.new ≡ own_message plan (is_in votes.now) slot computed.now }
    ensures room { HasRoom setting.now own.new }
{
    own.reset(slot);
    for cell in 0..setting.cells {
        put_voted(
            own,
            cell,
            has_vote(votes, slot, cell),
            computed[cell as usize],
        );
    }
}

// Names a value where it is voted.
fn put_voted(message: &mut Message, cell: u32, voted: bool, value: i64)
    requires cell { cell < length message.old.values }
    requires none { slice_index_or message.old.values cell None ≡ None }
    ensures { message.new ≡ record message.old {
      values = set message.old.values cell (if voted then Some value else None);
    } }
{
    if voted {
        message.put(cell, value);
    }
}

/// What each replica says. Takes no memory.
pub fn write_owns(setting: &Setting, votes: &Pattern, computed: &[Held], own: &mut Vec<Message>)
    requires of { HasPlan setting.now }
    requires computed { AreStates setting.now computed.now }
    requires room { AreMessages setting.now own.old.items }
    ensures own { (plan : PlanParts) → IsSettingOf plan setting.now
        → own.new.items ≡ map (message_of plan (is_in votes.now)) computed.now }
    ensures room { AreMessages setting.now own.new.items }
{
    for replica in 0..setting.replicas {
        let number = replica as usize;
        write_own(setting, votes, &computed[number], &mut own[number]);
    }
}
