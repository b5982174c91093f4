//! Places in a task file.
//! This project's own.

/// A key at the top of a task file.
#[derive(Clone, Copy, Debug, PartialEq, Eq)]
pub enum Section {
    Format,
    Replicas,
    RecoveryLimit,
    Timing,
    Sensor,
    Cell,
    Task,
    Slot,
    Actuator,
    /// Any other key.
    Unknown,
}

/// A key within a section.
#[derive(Clone, Copy, Debug, PartialEq, Eq)]
pub enum Key {
    Compute,
    Broadcast,
    Vote,
    Sync,
    Skew,
    DriftPpm,
    DelayMin,
    DelayMax,
    SkewLimit,
    DriftLimitPpm,
    Name,
    Initial,
    Body,
    Tasks,
    Votes,
    Value,
    /// Any other key.
    Unknown,
}

/// A place in a task file: a section, the number of one of its tables, a key of the table, and the number of an entry of a list there.
#[derive(Clone, Copy, Debug, PartialEq, Eq)]
pub struct Path {
    pub section: Section,
    pub index: Option<u32>,
    pub key: Option<Key>,
    pub item: Option<u32>,
}
