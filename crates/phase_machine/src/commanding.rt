//! What a replica commands, by its votes and by rows.
//! After NASA TM-102716.
ghost use Rattle.std.specs.Prelude.{◌≡◌, ◌<◌, ℕ, ℤ, None, Option, Some, length};
ghost use Rattle.frame_table.specs.Plan.{IsOf};
ghost use Rattle.rcp_base.specs.Tables.{table as by_number};
ghost use Rattle.rcp_model.specs.declared.plan.PlanParts.{PlanParts};
ghost use Rattle.rcp_model.specs.Ballot as model;
ghost use Rattle.replica_parts.specs.Ballots.{IsBallotOrNone};
ghost use Rattle.replica_parts.specs.Setting.{HasPlanWith};
ghost use Rattle.phase_machine.specs.Body.{commands_after_rows};
ghost use Rattle.phase_machine.specs.Phases.{evaluated_over};

use frame_table::Table;
use layer_stack::FrameIn;
use replica_parts::{Ballot, Setting, evaluated};

/// What each actuator's expression gives over the cells after a vote. Takes no memory.
pub(crate) fn evaluate_all(
    setting: &Setting,
    table: &mut Table,
    sensors: &[i64],
    ballot: &Ballot,
    commands: &mut Vec<Option<i64>>,
)
    requires size { length commands.old.items ≡ setting.now.actuators }
    ensures commands { (plan : PlanParts) (replicas : ℕ) (voted : model.Ballot)
        → IsOf plan table.old → IsBallotOrNone replicas ballot.now (Some voted)
        → commands.new.items ≡ by_number setting.now.actuators
        (λ actuator. Some (evaluated_over plan sensors.now voted actuator)) }
    ensures size { length commands.new.items ≡ setting.now.actuators }
    ensures table { table.new ≡ table.old }
{
    for actuator in 0..setting.actuators() {
        commands[actuator as usize] = evaluated(table, sensors, actuator, ballot);
    }
}

/// Puts the commands that rows give to a replica in the place of those that it evaluated.
/// Takes no memory.
pub(crate) fn put_rows(
    setting: &Setting,
    input: &FrameIn,
    replica: u32,
    commands: &mut Vec<Option<i64>>,
)
    requires of { HasPlanWith setting.now input.now }
    requires replica { replica < setting.now.replicas }
    requires size { length commands.old.items ≡ setting.now.actuators }
    ensures commands { (given : ℕ → Option ℤ)
        → commands.old.items ≡ by_number setting.now.actuators given
        → commands.new.items ≡ by_number setting.now.actuators
        (commands_after_rows input.now replica given) }
    ensures size { length commands.new.items ≡ setting.now.actuators }
{
    if !input.is_quiet() {
        overwrite(setting, input, replica, commands);
    }
}

// The same, whichever rows were written.
fn overwrite(setting: &Setting, input: &FrameIn, replica: u32, commands: &mut Vec<Option<i64>>)
    requires of { HasPlanWith setting.now input.now }
    requires replica { replica < setting.now.replicas }
    requires size { length commands.old.items ≡ setting.now.actuators }
    ensures commands { (given : ℕ → Option ℤ)
        → commands.old.items ≡ by_number setting.now.actuators given
        → commands.new.items ≡ by_number setting.now.actuators
        (commands_after_rows input.now replica given) }
    ensures size { length commands.new.items ≡ setting.now.actuators }
{
    for actuator in 0..setting.actuators() {
        let number = actuator as usize;
        commands[number] = input.act(replica, actuator).or(commands[number]);
    }
}

/// The commands that rows give to a replica, and no other. Takes no memory.
pub(crate) fn take_rows(
    setting: &Setting,
    input: &FrameIn,
    replica: u32,
    commands: &mut Vec<Option<i64>>,
)
    requires of { HasPlanWith setting.now input.now }
    requires replica { replica < setting.now.replicas }
    requires size { length commands.old.items ≡ setting.now.actuators }
    ensures commands { commands.new.items ≡ by_number setting.now.actuators
        (commands_after_rows input.now replica (λ actuator. None)) }
    ensures size { length commands.new.items ≡ setting.now.actuators }
{
    for actuator in 0..setting.actuators() {
        commands[actuator as usize] = input.act(replica, actuator);
    }
}
