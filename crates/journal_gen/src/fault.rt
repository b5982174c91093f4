//! What a fault does to a replica.
//! This project's own.

/// What a fault does to a replica for one frame.
#[derive(Clone, Copy)]
pub enum Fault {
    Down,
    /// Overwrites a cell.
    Cell { cell: u32, value: i64 },
    /// Overwrites the slot.
    Slot { slot: u32 },
    /// Loses the message to a receiver.
    Drop { receiver: u32 },
}
