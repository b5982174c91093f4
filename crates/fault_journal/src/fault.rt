//! Why a journal is refused.
//! This project's own.
use rcp_base::Memory;
use std::alloc::AllocFailed;
use thiserror::Error;

/// The first test that a journal fails. Rows are numbered from 1, after the header; columns are numbered from 1 to 6.
#[derive(Clone, Copy, Debug, PartialEq, Error)]
pub enum JournalFault {
    #[error("the journal has more than 67108864 bytes")]
    TooLong,
    #[error("row {row} doesn't have six fields")]
    Width { row: u32 },
    #[error("the first record is no header")]
    Header,
    #[error("row {row} is of no known kind")]
    Kind { row: u32 },
    #[error("column {column} of row {row} doesn't have what its kind asks for")]
    Column { row: u32, column: u32 },
    #[error("row {row} is out of order")]
    Order { row: u32 },
    #[error("row {row} is out of its limits")]
    Limit { row: u32 },
    #[error("row {row} repeats an earlier one")]
    Repeated { row: u32 },
    #[error("row {row} is where the end row should be, or follows it")]
    End { row: u32 },
    #[error("no memory")]
    Memory,
}

impl From<Memory> for JournalFault {
    ghost use Rattle.std.specs.Prelude.{◌≡◌};
    ghost use Rattle.fault_journal.specs.declared.fault.JournalFault.TheVariants as fault;

    ghost from_gives = { λ _ refused. refused ≡ fault.Memory };

    fn from(_: Memory) -> JournalFault {
        JournalFault::Memory
    }
}

impl<T: Drop> From<AllocFailed<T>> for JournalFault {
    ghost use Rattle.std.specs.Prelude.{◌≡◌};
    ghost use Rattle.fault_journal.specs.declared.fault.JournalFault.TheVariants as fault;

    ghost from_gives = { λ _ refused. refused ≡ fault.Memory };

    fn from(_: AllocFailed<T>) -> JournalFault {
        JournalFault::Memory
    }
}
