//! The compiled actuators of a plan.
//! This project's own.
ghost use Rattle.std.specs.Prelude.{◌≡◌, IfOk};
ghost use Rattle.frame_table.specs.Plan.{commands_of};
ghost use Rattle.frame_table.specs.Values.{command_value};

use crate::build::command_codes;
use rcp_base::Memory;
use rcp_model::ActuatorRow;
use std::alloc::Global;
use std::marker::Model;
use task_code::{Code, Runner};

/// The code of each actuator's value, and what running it takes.
#[derive(Debug, Drop)]
pub struct Commands {
    codes: Vec<Code>,
    runner: Runner,
}

impl Model for Commands {
    ghost use Rattle.std.specs.Prelude.{◌≡◌, ◌≤◌, List};
    ghost use Rattle.std.specs.List.{All};
    ghost use Rattle.task_code.specs.declared.instruction.Instruction.{Instruction};
    ghost use Rattle.task_code.specs.Machine.{room_of, result_count};

    ghost Value = { List (List Instruction) };

    ghost view = { λ commands. commands.codes.items };

    ghost invariant = { λ commands. All (λ code. room_of code ≤ commands.runner) commands.codes.items
        × All (λ code. result_count code ≡ 1) commands.codes.items };
}

impl Commands {
    /// The commands of these actuators.
    pub fn new(alloc: Global, actuators: &[ActuatorRow]) -> Result<Commands, Memory>
        ensures { IfOk result (λ commands. commands ≡ commands_of actuators.now) }
    {
        let codes = command_codes(alloc, actuators)?;
        let runner = Runner::new(alloc, codes.as_slice())?;
        Ok(Commands { codes, runner })
    }

    /// The value of the actuator with this number, and 0 where there is none.
    pub fn value(&mut self, actuator: usize, sensors: &[i64], cells: &[i64]) -> i64
        ensures value { result ≡ command_value self.old actuator sensors.now cells.now }
        ensures commands { self.new ≡ self.old }
    {
        let mut out = [0];
        if actuator < self.codes.len() {
            self.runner
                .eval(&self.codes[actuator], sensors, cells, &mut out);
        }
        out[0]
    }
}
