//! The compiled tasks of a plan.
//! This project's own.
ghost use Rattle.std.specs.Prelude.{◌≡◌, ◌≤◌, length, IfOk};
ghost use Rattle.frame_table.specs.Plan.{programs_of};
ghost use Rattle.frame_table.specs.Tasks.{cells_after_code, cells_after_number, cells_after_numbers};
ghost use Rattle.task_code.specs.Machine.{room_of, result_count};

use crate::build::{codes_of, longest, targets_of};
use crate::write_back::write_back;
use rcp_base::{List, Memory};
use rcp_model::Task;
use std::alloc::Global;
use std::marker::Model;
use task_code::{Code, Runner};

/// The code of each task, the cells that its results go to, and what running them takes.
#[derive(Debug, Drop)]
pub struct Programs {
    codes: Vec<Code>,
    targets: List<List<u16>>,
    runner: Runner,
    results: Vec<i64>,
}

impl Model for Programs {
    ghost use Rattle.std.specs.Prelude.{◌≡◌, ◌≤◌, List, length, map};
    ghost use Rattle.std.specs.List.{All};
    ghost use Rattle.task_code.specs.Machine.{room_of, result_count};
    ghost use Rattle.frame_table.specs.Tasks.{Programs};

    ghost Value = { Programs };

    ghost view = { λ programs. record { codes = programs.codes.items; targets = programs.targets } };

    ghost invariant = { λ programs. All (λ code. room_of code ≤ programs.runner) programs.codes.items
        × All (λ targets. length targets ≤ length programs.results.items) programs.targets
        × (map result_count programs.codes.items ≡ map length programs.targets) };
}

impl Programs {
    /// The programs of these tasks.
    pub fn new(alloc: Global, tasks: &[Task]) -> Result<Programs, Memory>
        ensures { IfOk result (λ programs. programs ≡ programs_of tasks.now) }
    {
        let codes = codes_of(alloc, tasks)?;
        let targets = targets_of(alloc, tasks)?;
        let runner = Runner::new(alloc, codes.as_slice())?;
        let results = vec![in alloc; 0; longest(targets.as_slice())]?;
        Ok(Programs {
            codes,
            targets,
            runner,
            results,
        })
    }

    /// Runs the tasks with these numbers, one after the other. A number that no task has changes nothing.
    pub fn run(&mut self, numbers: &[u16], sensors: &[i64], cells: &mut [i64])
        ensures cells { cells.new ≡ cells_after_numbers self.old numbers.now sensors.now cells.old }
        ensures programs { self.new ≡ self.old }
    {
        for number in numbers {
            self.run_one(*number as usize, sensors, cells);
        }
    }

    fn run_one(&mut self, number: usize, sensors: &[i64], cells: &mut [i64])
        ensures cells { cells.new ≡ cells_after_number self.old number sensors.now cells.old }
        ensures programs { self.new ≡ self.old }
    {
        if number < self.codes.len() {
            run_code(
                &mut self.runner,
                &self.codes[number],
                self.targets.as_slice()[number].as_slice(),
                self.results.as_mut_slice(),
                sensors,
                cells,
            );
        }
    }
}

// Runs a code whose results go to these cells, in a buffer that has room for them.
fn run_code(
    runner: &mut Runner,
    code: &Code,
    targets: &[u16],
    results: &mut [i64],
    sensors: &[i64],
    cells: &mut [i64],
)
    requires room { room_of code.now ≤ runner.old }
    requires count { result_count code.now ≡ length targets.now }
    requires buffer { length targets.now ≤ length results.old }
    ensures cells { cells.new ≡ cells_after_code code.now targets.now sensors.now cells.old }
    ensures room { runner.new ≡ runner.old }
{
    let results = &mut results[..targets.len()];
    runner.eval(code, sensors, cells, results);
    write_back(targets, results, cells);
}
