//! Hands a line to the sink.
//! This project's own.
ghost use Rattle.std.specs.Prelude.{◌≡◌, ℕ, List, IfOk};
ghost use Rattle.rcp_base.specs.Adding.{Adds};
ghost use Rattle.rcp_base.specs.Writing.{Writes};

use rcp_base::{Memory, Sink, WriteError};

/// Writes a line by one call of the sink, if there was memory for it.
#[tactic(auto, using(rcp_base::proofs::WritingLaws::writes_nothing))]
pub fn send<S: Sink>(out: &mut S, line: Result<&[u8], Memory>) -> Result<(), WriteError>
    ensures { (text : List ℕ) → IfOk line.entry (λ bytes. bytes.now ≡ text)
        → Writes (S.state out.old) (S.state out.new) result text }
{
    match line {
        Ok(bytes) => out.write_all(bytes),
        Err(Memory) => Err(WriteError::Memory),
    }
}

/// Adds a line to a text that is being written, unless an earlier write went wrong.
pub fn add<S: Sink>(
    out: &mut S,
    so_far: Result<(), WriteError>,
    line: &[u8],
) -> Result<(), WriteError>
    ensures { Adds (S.state out.old) (S.state out.new) so_far result line.now }
{
    add_made(out, so_far, Ok(line))
}

/// Adds a line, unless an earlier write went wrong or there was no memory for it.
#[tactic(auto, using(rcp_base::proofs::AddingLaws::adds_memory))]
pub fn add_made<S: Sink>(
    out: &mut S,
    so_far: Result<(), WriteError>,
    line: Result<&[u8], Memory>,
) -> Result<(), WriteError>
    ensures { (text : List ℕ) → IfOk line.entry (λ bytes. bytes.now ≡ text)
        → Adds (S.state out.old) (S.state out.new) so_far result text }
{
    match so_far {
        Ok(()) => send(out, line),
        Err(error) => Err(error),
    }
}
