//! The kinds of rows: their names, their numbers and their columns.
//! This project's own.
ghost use Rattle.std.specs.Prelude.{◌≡◌};
ghost use Rattle.fault_journal.specs.Columns as spec;
ghost use Rattle.fault_journal.specs.Journal as journal;

use crate::row::{Column, Kind};

/// The kind that a text names.
#[tactic(auto, unfolding(crate::specs::Columns::kind_of))]
pub fn kind_of(text: &[u8]) -> Option<Kind>
    ensures { result ≡ spec.kind_of text.now }
{
    if text == b"sensor".as_slice() {
        Some(Kind::Sensor)
    } else if text == b"down".as_slice() {
        Some(Kind::Down)
    } else if text == b"cell".as_slice() {
        Some(Kind::Cell)
    } else if text == b"slot".as_slice() {
        Some(Kind::Slot)
    } else if text == b"act".as_slice() {
        Some(Kind::Act)
    } else if text == b"lie".as_slice() {
        Some(Kind::Lie)
    } else if text == b"lieslot".as_slice() {
        Some(Kind::LieSlot)
    } else if text == b"drop".as_slice() {
        Some(Kind::Drop)
    } else if text == b"skew".as_slice() {
        Some(Kind::Skew)
    } else if text == b"rate".as_slice() {
        Some(Kind::Rate)
    } else if text == b"delay".as_slice() {
        Some(Kind::Delay)
    } else if text == b"end".as_slice() {
        Some(Kind::End)
    } else {
        None
    }
}

/// The kind's number, from 0 to 11.
pub fn kind_number(kind: Kind) -> u8
    ensures { result ≡ journal.kind_number kind }
{
    match kind {
        Kind::Sensor => 0,
        Kind::Down => 1,
        Kind::Cell => 2,
        Kind::Slot => 3,
        Kind::Act => 4,
        Kind::Lie => 5,
        Kind::LieSlot => 6,
        Kind::Drop => 7,
        Kind::Skew => 8,
        Kind::Rate => 9,
        Kind::Delay => 10,
        Kind::End => 11,
    }
}

/// What the columns `a`, `b`, `c` and `d` of a kind hold.
pub fn columns_of(kind: Kind) -> [Column; 4]
    ensures { result ≡ spec.columns_of kind }
{
    use Column::{ActuatorName, CellName, Nothing, Receiver, Replica, SensorName, Value};
    match kind {
        Kind::Sensor => [SensorName, Value, Nothing, Nothing],
        Kind::Down => [Replica, Nothing, Nothing, Nothing],
        Kind::Cell => [Replica, CellName, Value, Nothing],
        Kind::Slot => [Replica, Value, Nothing, Nothing],
        Kind::Act => [Replica, ActuatorName, Value, Nothing],
        Kind::Lie => [Replica, Receiver, CellName, Value],
        Kind::LieSlot => [Replica, Receiver, Value, Nothing],
        Kind::Drop => [Replica, Receiver, Nothing, Nothing],
        Kind::Skew => [Replica, Value, Nothing, Nothing],
        Kind::Rate => [Replica, Value, Nothing, Nothing],
        Kind::Delay => [Replica, Receiver, Value, Nothing],
        Kind::End => [Nothing, Nothing, Nothing, Nothing],
    }
}
