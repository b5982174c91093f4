//! A sink in memory that fails where it is told to.
//! This project's own.
ghost use Rattle.std.specs.Prelude.{◌≡◌, [], ◌++◌, take, Some, OnOk, OnErr};
ghost use Rattle.rcp_base.specs.Calls.{no_calls, with_failure, next_failure, after_call};
ghost use Rattle.rcp_base.specs.Writing.{AppendsFront, Writes};
ghost use Rattle.rcp_base.specs.MemSink.{WritesBy, memory_sink_state};

use crate::calls::Calls;
use crate::{Memory, Sink, SureSink, WriteError};
use std::alloc::Global;
use std::marker::Model;

/// What was written, in memory. A write fails where its call is listed, and where memory runs out.
#[derive(Drop)]
pub struct MemSink {
    written: SureSink,
    calls: Calls,
}

impl Model for MemSink {
    ghost use Rattle.rcp_base.specs.MemSink.{MemoryState};

    ghost Value = { MemoryState };

    ghost view = { λ sink. record { bytes = sink.written; calls = sink.calls } };
}

impl MemSink {
    /// A sink without a byte, in which no call is listed.
    pub fn new(alloc: Global) -> MemSink
        ensures { result ≡ record { bytes = []; calls = no_calls } }
    {
        MemSink {
            written: SureSink::new(alloc),
            calls: Calls::new(alloc),
        }
    }

    /// Lists a call of `write_all` that is to fail after the first `after` bytes of its piece.
    /// The first call is number 1. Of two entries for one call the first counts.
    pub fn fail_at(&mut self, call: u32, after: u32) -> Result<(), Memory>
        ensures ok { OnOk result
            (self.new ≡ record self.old { calls = with_failure self.old.calls call after }) }
        ensures err { OnErr result (self.new ≡ self.old) }
    {
        self.calls.fail_at(call, after)
    }

    /// What was written so far.
    pub fn bytes(&self) -> &[u8]
        ensures { result.now ≡ self.now.bytes }
    {
        self.written.bytes()
    }
}

impl Sink for MemSink {
    ghost state = { memory_sink_state };

    fn write_all(&mut self, bytes: &[u8]) -> Result<(), WriteError>
        ensures writes { Writes (memory_sink_state self.old) (memory_sink_state self.new)
            result bytes.now }

        // Beside the trait's clause: it fails at its listed calls alone.
        ensures outcome { WritesBy (next_failure self.old.calls)
            self.old.bytes self.new.bytes result bytes.now }
        ensures calls { self.new.calls ≡ after_call self.old.calls }
    {
        let Some(after) = self.calls.next() else {
            self.written.append(bytes)?;
            return Ok(());
        };
        append_front(&mut self.written, bytes, after)?;
        Err(WriteError::Failed)
    }
}

fn append_front(written: &mut SureSink, bytes: &[u8], len: u32) -> Result<(), Memory>
    ensures ok { OnOk result (written.new ≡ written.old ++ take len bytes.now) }
    ensures err { OnErr result (written.new ≡ written.old) }
    ensures front { OnOk result (AppendsFront (Some written.old) (Some written.new) bytes.now) }
{
    let front = &bytes[..bytes.len().min(len as usize)];
    written.append(front)?;
    Ok(())
}
