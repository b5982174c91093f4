//! Code: instructions, and the room that a run of them takes.
//! This project's own.
ghost use Rattle.std.specs.Prelude.{◌≡◌, ◌-◌, ◌+◌, ◌<◌, ◌≤◌, ◌^◌, length, IfOk, IsTrue, ◌↔◌, []};
ghost use Rattle.task_code.specs.Machine as machine;

use crate::instruction::Instruction;
use rcp_base::Memory;
use std::marker::Model;

/// The code of a task or of an expression, which contracts see as its instructions.
#[derive(Debug, Drop)]
pub struct Code {
    instructions: Vec<Instruction>,
    room: u32,
}

impl Model for Code {
    ghost use Rattle.std.specs.Prelude.{List, ◌≡◌, ◌<◌, ◌^◌, length};
    ghost use Rattle.task_code.specs.declared.instruction.Instruction.{Instruction};
    ghost use Rattle.task_code.specs.Machine.{room_of};

    ghost Value = { List Instruction };

    ghost view = { λ code. code.instructions.items };

    ghost invariant = { λ code. (code.room ≡ room_of code.instructions.items) × (length code.instructions.items < 2 ^ 32) };
}

impl Code {
    /// The code of these instructions. More than a `u32` counts are want of memory.
    pub(crate) fn new(instructions: Vec<Instruction>) -> Result<Code, Memory>
        ensures { IfOk result (λ code. code ≡ instructions.items) }
    {
        if instructions.len() > u32::MAX as usize {
            return Err(Memory);
        }
        let room = room_of(instructions.as_slice());
        Ok(Code { instructions, room })
    }

    /// How many instructions it has.
    pub fn len(&self) -> u32
        ensures { result ≡ length self.now }
    {
        self.instructions.len() as u32
    }

    pub fn is_empty(&self) -> bool
        ensures { IsTrue result ↔ (self.now ≡ []) }
    {
        self.instructions.is_empty()
    }

    /// How many places a run takes, for its stack as for its lets.
    pub fn room(&self) -> u32
        ensures { result ≡ machine.room_of self.now }
    {
        self.room
    }

    pub(crate) fn as_slice(&self) -> &[Instruction]
        ensures { result.now ≡ self.now }
    {
        self.instructions.as_slice()
    }
}

fn room_of(code: &[Instruction]) -> u32
    requires { length code.now < 2 ^ 32 }
    ensures { result ≡ machine.room_of code.now }
{
    let mut height = 0;
    let mut lets = 0;
    let mut room = 0;
    for instruction in code {
        room = room.max(height.max(lets));
        height = height_after(*instruction, height);
        lets = lets_after(*instruction, lets);
    }
    room.max(height.max(lets))
}

// How many numbers stand below the top after an instruction, where so many stood before.
fn height_after(instruction: Instruction, height: u32) -> u32
    requires { height + 1 < 2 ^ 32 }
    ensures height { result ≡ machine.height_after instruction height }
    ensures bound { result ≤ height + 1 }
{
    match instruction {
        Instruction::Number(_)
        | Instruction::Sensor(_)
        | Instruction::Cell(_)
        | Instruction::Let(_) => height + 1,
        Instruction::Neg
        | Instruction::Not
        | Instruction::Abs
        | Instruction::WithNumber(_, _)
        | Instruction::WithSensor(_, _)
        | Instruction::WithCell(_, _)
        | Instruction::WithLet(_, _) => height,
        Instruction::Two(_) | Instruction::Keep | Instruction::Give => height.saturating_sub(1),
        Instruction::Clamp | Instruction::If => height.saturating_sub(2),
    }
}

// How many lets have a value after an instruction.
fn lets_after(instruction: Instruction, lets: u32) -> u32
    requires { lets + 1 < 2 ^ 32 }
    ensures lets { result ≡ machine.lets_after instruction lets }
    ensures bound { result ≤ lets + 1 }
{
    match instruction {
        Instruction::Keep => lets + 1,
        _ => lets,
    }
}
