//! What stands in the columns of a row.
//! This project's own.
ghost use Rattle.std.specs.Prelude.{◌≡◌, ◌<◌, ◌≤◌, length, map, option_map, position, IfOk, IfSome, MatchOption, MatchResult, None, OnOk, OnSome, Some};
ghost use Rattle.std.specs.Str.{bytes_eq};
ghost use Rattle.rcp_base.specs.Answers.{place_in};
ghost use Rattle.rcp_model.specs.Plan.{IsPlan, variable_names, actuator_names};
ghost use Rattle.fault_journal.specs.Columns as spec;
ghost use Rattle.fault_journal.specs.Number.{integer_of};
ghost use Rattle.fault_journal.specs.declared.fault.JournalFault.TheVariants as fault;

use crate::fault::JournalFault;
use crate::kind::columns_of;
use crate::number::integer_of;
use crate::row::{Column, Kind, WrittenRow};
use rcp_model::{ActuatorRow, PlanParts, Variable};

/// The row of this number, by its first column, its kind and the texts of the columns after it.
#[tactic(auto, unfolding(crate::specs::Columns::written_row))]
pub fn written_row(
    plan: &PlanParts,
    number: u32,
    frame: &[u8],
    kind: Kind,
    texts: [&[u8]; 4],
) -> Result<WrittenRow, JournalFault>
    requires { IsPlan plan.now }
    ensures row { result
        ≡ spec.written_row plan.now number frame.now kind (map (λ text. text.now) texts.entry) }
    ensures item { IfOk result (λ row. row.item < 64) }
{
    let [a, b, c, d] = texts;
    let [first, second, third, fourth] = columns_of(kind);
    let mut row = bare_row(frame, kind).ok_or(JournalFault::Column {
        row: number,
        column: 1,
    })?;
    read_column(plan, number, 3, &mut row, first, a)?;
    read_column(plan, number, 4, &mut row, second, b)?;
    read_column(plan, number, 5, &mut row, third, c)?;
    read_column(plan, number, 6, &mut row, fourth, d)?;
    Ok(row)
}

// The row of a frame before its columns are read.
fn bare_row(frame: &[u8], kind: Kind) -> Option<WrittenRow>
    ensures row { result ≡ option_map (λ frame. spec.bare_row frame kind) (integer_of frame.now) }
    ensures item { IfSome result (λ row. row.item ≡ 0) }
{
    let frame = integer_of(frame)?;
    Some(WrittenRow {
        frame,
        kind,
        replica: 0,
        receiver: 0,
        item: 0,
        value: 0,
    })
}

// Gives a row what the column of this number holds.
fn read_column(
    plan: &PlanParts,
    number: u32,
    at: u32,
    row: &mut WrittenRow,
    column: Column,
    text: &[u8],
) -> Result<(), JournalFault>
    requires plan { IsPlan plan.now }
    requires item { row.old.item < 64 }
    ensures row { MatchResult result
        (λ _. spec.with_column plan.now row.old column text.now ≡ Some row.new)
        (λ refused. (spec.with_column plan.now row.old column text.now ≡ None)
        × (refused ≡ fault.Column number at)) }
    ensures item { OnOk result (row.new.item < 64) }
{
    give(plan, row, column, text).ok_or(JournalFault::Column {
        row: number,
        column: at,
    })
}

// Gives a row what a column holds, if the text is such.
#[tactic(auto, unfolding(crate::specs::Columns::with_column))]
fn give(plan: &PlanParts, row: &mut WrittenRow, column: Column, text: &[u8]) -> Option<()>
    requires plan { IsPlan plan.now }
    requires item { row.old.item < 64 }
    ensures row { MatchOption result
        (spec.with_column plan.now row.old column text.now ≡ None)
        (λ _. spec.with_column plan.now row.old column text.now ≡ Some row.new) }
    ensures item { OnSome result (row.new.item < 64) }
{
    match column {
        Column::Replica => row.replica = integer_of(text)?,
        Column::Receiver => row.receiver = integer_of(text)?,
        Column::SensorName => row.item = variable_item(plan.sensors.as_slice(), text)?,
        Column::CellName => row.item = variable_item(plan.cells.as_slice(), text)?,
        Column::ActuatorName => row.item = actuator_item(plan.actuators.as_slice(), text)?,
        Column::Value => row.value = integer_of(text)?,
        Column::Nothing => {
            if !text.is_empty() {
                return None;
            }
        }
    }
    Some(())
}

// The number of the sensor or cell of this name.
#[tactic(auto, using(crate::proofs::ColumnLemmas::variable_places))]
fn variable_item(variables: &[Variable], text: &[u8]) -> Option<u8>
    requires { length variables.now ≤ 64 }
    ensures item { result ≡ place_in (variable_names variables.now) text.now }
    ensures within { IfSome result (λ item. item < 64) }
{
    Some(variable_place(variables, text)? as u8)
}

fn variable_place(variables: &[Variable], text: &[u8]) -> Option<usize>
    ensures place { result ≡ position (λ variable. bytes_eq text.now variable.name) variables.now }
    ensures within { IfSome result (λ place. place < length variables.now) }
{
    variables
        .iter()
        .position(|variable| text == variable.name.bytes())
}

// The number of the actuator of this name.
#[tactic(auto, using(crate::proofs::ColumnLemmas::actuator_places))]
fn actuator_item(actuators: &[ActuatorRow], text: &[u8]) -> Option<u8>
    requires { length actuators.now ≤ 32 }
    ensures item { result ≡ place_in (actuator_names actuators.now) text.now }
    ensures within { IfSome result (λ item. item < 64) }
{
    Some(actuator_place(actuators, text)? as u8)
}

fn actuator_place(actuators: &[ActuatorRow], text: &[u8]) -> Option<usize>
    ensures place { result ≡ position (λ actuator. bytes_eq text.now actuator.name) actuators.now }
    ensures within { IfSome result (λ place. place < length actuators.now) }
{
    actuators
        .iter()
        .position(|actuator| text == actuator.name.bytes())
}
