//! The rows of a frame that a number gives.
//! This project's own.
ghost use Rattle.std.specs.Prelude.{[], ◌∷◌, ◌≡◌, ◌<◌, ◌^◌, ◌++◌, length, OnOk};
ghost use Rattle.std.specs.Fmt.{decimal};
ghost use Rattle.rcp_model.specs.Plan.{IsPlan};
ghost use Rattle.journal_gen.specs.Draws.{drawn, next_seed};
ghost use Rattle.journal_gen.specs.Generator as spec;
ghost use Rattle.journal_gen.specs.Generator.{rows_text};
ghost use Rattle.journal_gen.specs.Written.{line_text, row_text};
ghost use Rattle.journal_gen.specs.inner.Columns.{IsOnCellOf, column_bytes};

use crate::draws::Draws;
use crate::fault::Fault;
use crate::line::{Column, put_line};
use rcp_base::Memory;
use rcp_model::PlanParts;

/// Adds the sensor row of a frame, where one comes.
#[tactic(auto, unfolding(crate::specs::Generator::sensor_rows, crate::specs::Generator::has_sensor_row))]
pub fn put_sensor_rows(
    text: &mut Vec<u8>,
    parts: &PlanParts,
    frame: u32,
    draw: u32,
) -> Result<(), Memory>
    requires draw { draw < 2 ^ 15 }
    ensures { OnOk result (text.new.items ≡ text.old.items
        ++ rows_text parts.now (spec.sensor_rows parts.now frame draw)) }
{
    if parts.sensors.len() > 0 && frame % 2 == 0 && draw % 2 == 0 {
        put_sensor(text, parts, frame, draw)
    } else {
        Ok(())
    }
}

#[tactic(auto, unfolding(crate::specs::Generator::sensor_row, crate::specs::Written::row_text))]
fn put_sensor(text: &mut Vec<u8>, parts: &PlanParts, frame: u32, draw: u32) -> Result<(), Memory>
    requires some { 0 < length parts.now.sensors }
    requires draw { draw < 2 ^ 15 }
    ensures { OnOk result (text.new.items ≡ text.old.items
        ++ row_text parts.now (spec.sensor_row parts.now frame draw)) }
{
    let sensor = parts.sensors.get(draw as usize / 2 % parts.sensors.len());
    let value = i64::from(draw / 128 % 201) - 100;
    let columns = [
        Column::Text(sensor.name.bytes()),
        Column::Value(value),
        Column::Nothing,
        Column::Nothing,
    ];
    put_line(text, frame, b"sensor", &columns)
}

/// Adds the fault row of a frame, where one comes.
#[tactic(auto, unfolding(crate::specs::Generator::fault_rows, crate::specs::Generator::fault_row, crate::specs::Generator::seed_after_fault))]
pub fn put_fault_rows(
    text: &mut Vec<u8>,
    parts: &PlanParts,
    recovery: u32,
    frame: u32,
    draws: &mut Draws,
) -> Result<(), Memory>
    requires plan { IsPlan parts.now }
    ensures text { OnOk result (text.new.items ≡ text.old.items
        ++ rows_text parts.now (spec.fault_rows parts.now recovery frame
        (drawn (next_seed draws.old.seed)))) }
    ensures seed { OnOk result (draws.new.seed
        ≡ spec.seed_after_fault parts.now recovery frame draws.old.seed) }
{
    if has_fault(parts, recovery, frame) {
        let draw = draws.draw();
        put_fault(
            text,
            parts,
            frame,
            draw % parts.replicas,
            fault_of(parts, draw),
        )
    } else {
        Ok(())
    }
}

#[tactic(auto, unfolding(crate::specs::Generator::has_fault))]
fn has_fault(parts: &PlanParts, recovery: u32, frame: u32) -> bool
    ensures { result ≡ spec.has_fault parts.now recovery frame }
{
    let recovery = u64::from(recovery);
    let period = 2 * (recovery + 1);
    parts.replicas >= 3 && u64::from(frame) % period == recovery
}

// The fault that a draw gives.
#[tactic(auto, unfolding(crate::specs::Generator::fault_of))]
fn fault_of(parts: &PlanParts, draw: u32) -> Fault
    requires plan { IsPlan parts.now }
    requires draw { draw < 2 ^ 15 }
    ensures fault { result ≡ spec.fault_of parts.now draw }
    ensures cell { IsOnCellOf parts.now result }
{
    match draw / 16 % 4 {
        0 => Fault::Down,
        1 => Fault::Cell {
            cell: draw / 64 % parts.cells.len() as u32,
            value: i64::from(draw) - 16_384,
        },
        2 => Fault::Slot {
            slot: draw / 64 % parts.slots.len() as u32,
        },
        _ => Fault::Drop {
            receiver: (draw % parts.replicas + 1) % parts.replicas,
        },
    }
}

#[tactic(auto, unfolding(crate::specs::Generator::row_of_fault, crate::specs::Written::row_text))]
fn put_fault(
    text: &mut Vec<u8>,
    parts: &PlanParts,
    frame: u32,
    replica: u32,
    fault: Fault,
) -> Result<(), Memory>
    requires cell { IsOnCellOf parts.now fault }
    ensures { OnOk result (text.new.items ≡ text.old.items
        ++ row_text parts.now (spec.row_of_fault frame replica fault)) }
{
    let none = Column::Nothing;
    match fault {
        Fault::Down => put_replica_row(text, frame, replica, b"down", none, none),
        Fault::Cell { cell, value } => {
            let name = Column::Text(parts.cells.get(cell as usize).name.bytes());
            let value = Column::Value(value);
            put_replica_row(text, frame, replica, b"cell", name, value)
        }
        Fault::Slot { slot } => {
            put_replica_row(text, frame, replica, b"slot", Column::Count(slot), none)
        }
        Fault::Drop { receiver } => {
            let receiver = Column::Count(receiver);
            put_replica_row(text, frame, replica, b"drop", receiver, none)
        }
    }
}

// Adds a row on a replica, with two columns after it.
fn put_replica_row<'a>(
    text: &mut Vec<u8>,
    frame: u32,
    replica: u32,
    word: &[u8],
    second: Column<'a>,
    third: Column<'a>,
) -> Result<(), Memory>
    ensures { OnOk result (text.new.items ≡ text.old.items ++ line_text frame word.now
        (decimal replica ∷ column_bytes second.entry ∷ column_bytes third.entry ∷ [] ∷ [])) }
{
    let columns = [Column::Count(replica), second, third, Column::Nothing];
    put_line(text, frame, word, &columns)
}
