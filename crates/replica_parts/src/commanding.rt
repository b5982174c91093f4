//! What replicas command.
//! After NASA TM-102716.
ghost use Rattle.std.specs.Prelude.{◌≡◌, ◌<◌, ℕ, ℤ, Option, length, option_map};
ghost use Rattle.frame_table.specs.Plan.{IsOf};
ghost use Rattle.rcp_base.specs.Tables as tables;
ghost use Rattle.rcp_model.specs.declared.plan.PlanParts.{PlanParts};
ghost use Rattle.rcp_model.specs.Ballot as model;
ghost use Rattle.rcp_model.specs.Command.{command_of};
ghost use Rattle.rcp_model.specs.Slot.{actuator_at, actuator_value};
ghost use Rattle.replica_parts.specs.Ballots.{AreBallots, IsBallotOrNone};
ghost use Rattle.replica_parts.specs.Places as places;
ghost use Rattle.replica_parts.specs.Rooms.{AreCommandRows, HaveBallotRoom};
ghost use Rattle.replica_parts.specs.Setting.{HasPlanWith, IsSettingOf};
ghost use Rattle.replica_parts.specs.declared.setting.Setting.{Setting};

use crate::ballot::Ballot;
use crate::setting::Setting;
use frame_table::Table;
use layer_stack::FrameIn;

/// What an actuator's expression gives over the cells after the vote, or none where there was no vote. Takes no memory.
pub fn evaluated(table: &mut Table, sensors: &[i64], actuator: u32, ballot: &Ballot) -> Option<i64>
    ensures value { (plan : PlanParts) (replicas : ℕ) (voted : Option model.Ballot)
        → IsOf plan table.old → IsBallotOrNone replicas ballot.now voted
        → result ≡ option_map
        (λ one. actuator_value (actuator_at plan actuator) sensors.now one.cells) voted }
    ensures table { table.new ≡ table.old }
{
    if ballot.up {
        Some(table.command(actuator, sensors, ballot.cells.as_slice()))
    } else {
        None
    }
}

/// A replica's command: by a row, else what it evaluates, else none. Takes no memory.
#[tactic(auto, unfolding(rcp_model::specs::Command::command_of))]
pub fn command_one(
    table: &mut Table,
    input: &FrameIn,
    replica: u32,
    actuator: u32,
    ballot: &Ballot,
) -> Option<i64>
    requires replica { replica < input.now.replicas }
    requires actuator { actuator < input.now.actuators }
    ensures value { (plan : PlanParts) (replicas : ℕ) (voted : Option model.Ballot)
        → IsOf plan table.old → IsBallotOrNone replicas ballot.now voted
        → result ≡ command_of plan input.now replica actuator voted }
    ensures table { table.new ≡ table.old }
{
    let row = input.act(replica, actuator);
    row.or(evaluated(table, input.sensors(), actuator, ballot))
}

/// The commands of a replica, by actuator. Takes no memory.
pub fn command_row(
    setting: &Setting,
    table: &mut Table,
    input: &FrameIn,
    replica: u32,
    ballot: &Ballot,
    row: &mut Vec<Option<i64>>,
)
    requires of { HasPlanWith setting.now input.now }
    requires replica { replica < setting.now.replicas }
    requires size { length row.old.items ≡ setting.now.actuators }
    ensures row { (plan : PlanParts) (replicas : ℕ) (voted : Option model.Ballot)
        → IsSettingOf plan setting.now → IsOf plan table.old
        → IsBallotOrNone replicas ballot.now voted
        → row.new.items ≡ tables.table (length plan.actuators)
        (λ actuator. command_of plan input.now replica actuator voted) }
    ensures size { length row.new.items ≡ setting.now.actuators }
    ensures table { table.new ≡ table.old }
{
    for actuator in 0..setting.actuators {
        row[actuator as usize] = command_one(table, input, replica, actuator, ballot);
    }
}

/// A replica's command for an actuator, of all commands.
pub fn command_at(rows: &[Vec<Option<i64>>], replica: u32, actuator: u32) -> Option<i64>
    requires { (setting : Setting) × AreCommandRows setting rows.now
        × (replica < setting.replicas) × (actuator < setting.actuators) }
    ensures { (replicas actuators : ℕ) (commands : ℕ → ℕ → Option ℤ)
        → places.command_rows rows.now
        ≡ tables.table replicas (λ number. tables.table actuators (commands number))
        → replica < replicas → actuator < actuators → result ≡ commands replica actuator }
{
    rows[replica as usize][actuator as usize]
}

/// The commands of all replicas, by replica and actuator. Takes no memory.
pub fn command_all(
    setting: &Setting,
    table: &mut Table,
    input: &FrameIn,
    ballots: &[Ballot],
    rows: &mut Vec<Vec<Option<i64>>>,
)
    requires of { HasPlanWith setting.now input.now }
    requires ballots { HaveBallotRoom setting.now ballots.now }
    requires room { AreCommandRows setting.now rows.old.items }
    ensures commands { (plan : PlanParts) (voted : ℕ → Option model.Ballot)
        → IsSettingOf plan setting.now → IsOf plan table.old
        → AreBallots plan.replicas ballots.now voted
        → places.command_rows rows.new.items ≡ tables.table plan.replicas (λ replica.
        tables.table (length plan.actuators)
        (λ actuator. command_of plan input.now replica actuator (voted replica))) }
    ensures room { AreCommandRows setting.now rows.new.items }
    ensures table { table.new ≡ table.old }
{
    for replica in 0..setting.replicas {
        let number = replica as usize;
        command_row(
            setting,
            table,
            input,
            replica,
            &ballots[number],
            &mut rows[number],
        );
    }
}
