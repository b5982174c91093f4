//! The rows of a journal.
//! This project's own.

/// What a row speaks of.
#[derive(Clone, Copy, Debug, PartialEq)]
pub enum Kind {
    Sensor,
    Down,
    Cell,
    Slot,
    Act,
    Lie,
    LieSlot,
    Drop,
    Skew,
    Rate,
    Delay,
    End,
}

/// What stands in a column.
#[derive(Clone, Copy, Debug, PartialEq)]
pub enum Column {
    /// A number: that of the replica that the row is about, or of the sender.
    Replica,
    /// A number: that of the receiver.
    Receiver,
    SensorName,
    CellName,
    ActuatorName,
    /// A number: the value, slot, ticks or parts per million that the row gives.
    Value,
    Nothing,
}

/// A row's numbers as they are written, those that it doesn't have being 0. `item` is the number of the sensor, cell or actuator.
#[derive(Clone, Copy, Debug, PartialEq)]
pub struct WrittenRow {
    pub frame: i64,
    pub kind: Kind,
    pub replica: i64,
    pub receiver: i64,
    pub item: u8,
    pub value: i64,
}

/// A row whose numbers are within their limits.
#[derive(Clone, Copy, Debug, PartialEq)]
pub struct Row {
    pub frame: u32,
    pub kind: Kind,
    pub replica: u8,
    pub receiver: u8,
    pub item: u8,
    pub value: i64,
}
