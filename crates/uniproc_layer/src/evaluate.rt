//! Evaluates the commands of a frame.
//! This project's own.
ghost use Rattle.std.specs.Prelude.{◌≡◌, ◌<◌, ◌^◌, ℤ, length, map};
ghost use Rattle.frame_table.specs.Plan.{IsOf};
ghost use Rattle.rcp_model.specs.declared.plan.ActuatorRow.{ActuatorRow};
ghost use Rattle.rcp_model.specs.declared.plan.PlanParts.{PlanParts};
ghost use Rattle.rcp_model.specs.Slot.{actuator_value};

use frame_table::Table;

/// Puts each actuator's command over these cells in its place.
pub fn evaluate(table: &mut Table, sensors: &[i64], cells: &[i64], commands: &mut [i64])
    requires { length commands.old < 2 ^ 32 }
    ensures commands { (plan : PlanParts) → IsOf plan table.old
        → length commands.old ≡ length plan.actuators → commands.new
        ≡ map (λ (a : ActuatorRow). actuator_value a sensors.now cells.now) plan.actuators }
    ensures table { table.new ≡ table.old }
{
    for number in 0..commands.len() {
        commands[number] = table.command(number as u32, sensors, cells);
    }
}
