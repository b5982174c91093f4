//! A sink in memory that never fails.
//! This project's own.
ghost use Rattle.std.specs.Prelude.{◌≡◌, [], ◌++◌, OnOk, OnErr};

use crate::{Memory, Sink, WriteError};
use std::alloc::Global;
use std::marker::Model;

/// What was written, in memory. A write fails only where memory runs out. Contracts see it as the bytes written.
#[derive(Drop)]
pub struct SureSink {
    bytes: Vec<u8>,
}

impl Model for SureSink {
    ghost use Rattle.std.specs.Prelude.{List, ℕ};

    ghost Value = { List ℕ };

    ghost view = { λ sink. sink.bytes.items };
}

impl SureSink {
    pub fn new(alloc: Global) -> SureSink
        ensures { result ≡ [] }
    {
        SureSink {
            bytes: Vec::new(alloc),
        }
    }

    /// What was written so far.
    pub fn bytes(&self) -> &[u8]
        ensures { result.now ≡ self.now }
    {
        self.bytes.as_slice()
    }

    /// Writes these bytes after what was written so far.
    pub(crate) fn append(&mut self, bytes: &[u8]) -> Result<(), Memory>
        ensures ok { OnOk result (self.new ≡ self.old ++ bytes.now) }
        ensures err { OnErr result (self.new ≡ self.old) }
    {
        self.bytes.extend_from_slice(bytes)?;
        Ok(())
    }
}

impl Sink for SureSink {
    ghost use Rattle.std.specs.Prelude.{Some};

    ghost state = { λ sink. record { written = Some sink; faults = 0 } };

    fn write_all(&mut self, bytes: &[u8]) -> Result<(), WriteError> {
        self.append(bytes)?;
        Ok(())
    }
}
