//! The sink that text is written to.
//! This project's own.
ghost use Rattle.rcp_base.specs.States.{SinkState};
ghost use Rattle.rcp_base.specs.Writing.{Writes};

use crate::Memory;

/// Why bytes were not written.
#[derive(Clone, Copy, Debug, PartialEq, Eq)]
pub enum WriteError {
    /// The sink failed.
    Failed,
    /// Out of memory.
    Memory,
}

impl From<Memory> for WriteError {
    ghost use Rattle.std.specs.Prelude.{◌≡◌};
    ghost use Rattle.rcp_base.specs.declared.sink.WriteError.TheVariants.{Memory};

    ghost from_gives = { λ _ error. error ≡ Memory };

    fn from(_: Memory) -> WriteError {
        WriteError::Memory
    }
}

/// A sink, by what was written to it and by how often it has failed.
pub trait Sink {
    ghost state: { Self → SinkState };

    /// Writes all the bytes, or a front of them.
    fn write_all(&mut self, bytes: &[u8]) -> Result<(), WriteError>
        ensures { Writes (state self.old) (state self.new) result bytes.now };
}
