//! Why a text of the task language was not read.
//! This project's own.
use rcp_base::Memory;
use thiserror::Error;

/// Why a text was not read. A byte is counted from 0, and is that of the first fault; names are tested only in a text that is in the grammar.
#[derive(Clone, Copy, Debug, PartialEq, Eq, Error)]
pub enum LangFault {
    /// The text is not in the grammar. The byte is the first of the first token with which no text of the grammar goes on,
    /// or the text's length where the whole text is only the front of one.
    #[error("a fault of syntax at byte {byte}")]
    Syntax { byte: u32 },
    /// An expression uses a name that is no sensor, no cell and no `let` of an earlier statement. The byte is the name's first.
    #[error("an unknown name at byte {byte}")]
    UnknownName { byte: u32 },
    /// A statement gives a value to what is no cell or was set before, or names a `let` as a sensor, a cell or an earlier `let`.
    /// The byte is the name's first.
    #[error("a name that may not be given a value at byte {byte}")]
    BadTarget { byte: u32 },
    /// Memory ran out, which says nothing of the text.
    #[error("memory ran out")]
    Memory,
}

impl From<Memory> for LangFault {
    ghost use Rattle.std.specs.Prelude.{◌≡◌};
    ghost use Rattle.task_lang.specs.declared.fault.LangFault.TheVariants.{Memory};

    ghost from_gives = { λ _ fault. fault ≡ Memory };

    fn from(_: Memory) -> LangFault {
        LangFault::Memory
    }
}
