//! Runs of code.
//! This project's own.
ghost use Rattle.std.specs.Prelude.{◌≡◌, ◌+◌, ◌≤◌, length, IfOk};
ghost use Rattle.std.specs.List.{All};
ghost use Rattle.task_code.specs.Machine.{room_of, results, result_count, greatest_room};

use crate::code::Code;
use crate::machine::Machine;
use crate::steps::Steps;
use rcp_base::Memory;
use std::alloc::Global;
use std::marker::{Brand, Model};
use std::sync::ledger::{Blank, Ledger};

/// What runs code, with the room that it was made with and no more memory. Contracts see it as that room.
#[derive(Debug, Drop)]
pub struct Runner {
    machine: Machine,
    room: u32,
}

impl Model for Runner {
    ghost use Rattle.std.specs.Prelude.{ℕ, ◌≡◌, length};

    ghost Value = { ℕ };

    ghost view = { λ runner. runner.room };

    ghost invariant = { λ runner. (length runner.machine.stack.items ≡ runner.room) × (length runner.machine.lets.items ≡ runner.room) };
}

impl Runner {
    /// A runner with room for each of these codes.
    #[tactic(auto, using(crate::proofs::RoomLaws::all_fit))]
    pub fn new(alloc: Global, codes: &[Code]) -> Result<Runner, Memory>
        ensures room { IfOk result (λ runner. runner ≡ greatest_room codes.now) }
        ensures enough { IfOk result (λ runner. All (λ code. room_of code ≤ runner) codes.now) }
    {
        let room = greatest_room(codes);
        let machine = Machine::new(alloc, room)?;
        Ok(Runner { machine, room })
    }

    pub fn room(&self) -> u32
        ensures { result ≡ self.now }
    {
        self.room
    }

    /// Writes the results of a code, which can't fail and takes no memory. A sensor, cell or let that isn't there is 0.
    pub fn eval(&mut self, code: &Code, sensors: &[i64], cells: &[i64], out: &mut [i64])
        requires room { room_of code.now ≤ self.old }
        requires out { length out.old ≡ result_count code.now }
        ensures values { out.new ≡ results code.now sensors.now cells.now }
        ensures room { self.new ≡ self.old }
    {
        self.eval_in::<Brand>(code, sensors, cells, out, Blank::new(1));
    }

    /// The same, and counts a step for each instruction.
    pub fn eval_counted<L: Ledger>(
        &mut self,
        code: &Code,
        sensors: &[i64],
        cells: &[i64],
        out: &mut [i64],
        steps: &mut Steps<L>,
    )
        requires room { room_of code.now ≤ self.old }
        requires out { length out.old ≡ result_count code.now }
        ensures values { out.new ≡ results code.now sensors.now cells.now }
        ensures room { self.new ≡ self.old }
        ensures steps { steps.new ≡ steps.old + length code.now }
    {
        self.machine
            .run(code.as_slice(), sensors, cells, out, steps);
    }

    // Counts in a ledger that is made for it.
    fn eval_in<L: Ledger>(
        &mut self,
        code: &Code,
        sensors: &[i64],
        cells: &[i64],
        out: &mut [i64],
        blank: Blank,
    )
        requires room { room_of code.now ≤ self.old }
        requires out { length out.old ≡ result_count code.now }
        requires name { blank.name ≡ L.name }
        requires parts { blank.parts ≡ L.parts }
        requires one { L.parts ≡ 1 }
        ensures values { out.new ≡ results code.now sensors.now cells.now }
        ensures room { self.new ≡ self.old }
    {
        let mut steps = Steps::<L>::new(blank);
        self.eval_counted(code, sensors, cells, out, &mut steps);
    }
}

// The room of the code that takes the most.
fn greatest_room(codes: &[Code]) -> u32
    ensures { result ≡ greatest_room codes.now }
{
    let mut room = 0;
    for code in codes {
        room = room.max(code.room());
    }
    room
}
