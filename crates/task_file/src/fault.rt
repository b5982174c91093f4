//! Why a task file is refused.
//! This project's own.
ghost use Rattle.std.specs.Prelude.{◌≡◌};
ghost use Rattle.task_file.specs.Fault.{fault_of_text};

use crate::path::Path;
use rcp_base::Memory;
use std::alloc::AllocError;
use task_lang::LangFault;
use thiserror::Error;

/// The first test that a task file fails, in the order of the variants. A byte is counted from 0 in its text, a rule from 1.
#[derive(Clone, Copy, Debug, PartialEq, Eq, Error)]
pub enum FileFault {
    /// More than 1,048,576 bytes.
    #[error("the task file is too long")]
    TooLong,
    /// No text in UTF-8, or no document.
    #[error("the task file is no TOML document")]
    NotToml,
    /// Something is not there, is of another type or out of range, or should not be there.
    #[error("the task file has another shape")]
    Shape { path: Path },
    /// No name, or a name that stands before.
    #[error("a bad name in the task file")]
    BadName { path: Path },
    #[error("a fault of syntax at byte {byte} of a text in the task file")]
    Syntax { path: Path, byte: u32 },
    #[error("an unknown name at byte {byte} of a text in the task file")]
    UnknownName { path: Path, byte: u32 },
    #[error("a name that may not be given a value at byte {byte} of a text in the task file")]
    BadTarget { path: Path, byte: u32 },
    /// An entry of a slot that names no task, or no cell.
    #[error("an unknown name in a slot of the task file")]
    UnknownInSlot { path: Path },
    /// An entry of a slot that stands there before, or a task that sets what an earlier one sets.
    #[error("a clash in a slot of the task file")]
    SlotClash { path: Path },
    #[error("timing rule {rule} of the task file fails")]
    Timing { rule: u8 },
    #[error("memory ran out")]
    Memory,
}

impl FileFault {
    /// The fault of a text of the task language at a place.
    pub fn of_text(path: Path, fault: LangFault) -> FileFault
        ensures { result ≡ fault_of_text path fault }
    {
        match fault {
            LangFault::Syntax { byte } => FileFault::Syntax { path, byte },
            LangFault::UnknownName { byte } => FileFault::UnknownName { path, byte },
            LangFault::BadTarget { byte } => FileFault::BadTarget { path, byte },
            LangFault::Memory => FileFault::Memory,
        }
    }
}

impl From<Memory> for FileFault {
    ghost use Rattle.std.specs.Prelude.{◌≡◌};
    ghost use Rattle.task_file.specs.declared.fault.FileFault.TheVariants as fault;

    ghost from_gives = { λ _ refused. refused ≡ fault.Memory };

    fn from(_: Memory) -> FileFault {
        FileFault::Memory
    }
}

impl From<AllocError> for FileFault {
    ghost use Rattle.std.specs.Prelude.{◌≡◌};
    ghost use Rattle.task_file.specs.declared.fault.FileFault.TheVariants as fault;

    ghost from_gives = { λ _ refused. refused ≡ fault.Memory };

    fn from(_: AllocError) -> FileFault {
        FileFault::Memory
    }
}
