//! What is found for a form of words, and how the call ends with it.
//! This project's own.
ghost use Rattle.std.specs.Prelude.{◌≡◌, ◌≢◌, ℕ, List};
ghost use Rattle.std.specs.Result.{ForOk};
ghost use Rattle.rcp_base.specs.Writing.{Writes};
ghost use Rattle.rcp_top.specs.Finds.{TellsEnd};
ghost use Rattle.rcp_top.specs.Outcome.{Ends, outcome_at, refused, unreadable, status_after};
ghost use Rattle.rcp_top.specs.Reading.{End};

use crate::layers::Layers;
use crate::send::send;
use crate::status::Status;
use crate::stop::{Refusal, Stop};
use rcp_base::{Memory, Sink, WriteError};
use std::alloc::Global;
use trace_text::Lines;

/// What was found for a form of words: it shows a text.
pub trait Shown: Drop {
    ghost shows: { Self → List ℕ → Type 0 };

    /// Writes the text. What runs replicas runs a layer that is handed in.
    fn write<S: Sink, K: Layers>(
        self,
        alloc: Global,
        layers: &mut K,
        lines: &mut Lines,
        out: &mut S,
    ) -> Result<(), WriteError>
        requires { (text : List ℕ) × shows self text }
        ensures { (text : List ℕ) → shows self text
            → Writes (S.state out.old) (S.state out.new) result text };
}

/// Writes what was found, or the line of the refusal.
pub fn finish<T: Shown, S: Sink, K: Layers>(
    alloc: Global,
    found: Result<T, Stop<'_>>,
    layers: &mut K,
    lines: &mut Lines,
    out: &mut S,
) -> Status
    requires { ForOk found (λ shown. (text : List ℕ) × T.shows shown text) }
    ensures ends { (end : End (List ℕ)) → TellsEnd T.shows found.entry end
        → Ends (outcome_at end) result (S.state out.old) (S.state out.new) }
    ensures form { result ≢ Status.Usage }
{
    match found {
        Ok(shown) => end(Status::Done, shown.write(alloc, layers, lines, out)),
        Err(Stop::Refused(refusal)) => write_refusal(refusal, lines, out),
        Err(Stop::Unreadable(word)) => { end(Status::ReadFault, send(out, lines.unreadable(word))) }
        Err(Stop::Memory) => Status::Memory,
    }
}

// Writes the line of what is refused.
fn write_refusal<S: Sink>(refusal: Refusal, lines: &mut Lines, out: &mut S) -> Status
    ensures ends { Ends (refused refusal) result (S.state out.old) (S.state out.new) }
    ensures form { result ≢ Status.Usage }
{
    match refusal {
        Refusal::TaskFile(fault) => {
            end(
                Status::TaskRefused,
                out.write_all(lines.task_refused(&fault)),
            )
        }
        Refusal::Pattern { plan, cycle: nodes } => {
            end(
                Status::PatternRefused,
                send(out, lines.cycle(&plan, nodes.as_slice())),
            )
        }
        Refusal::Journal(fault) => {
            end(
                Status::JournalRefused,
                out.write_all(lines.journal_refused(&fault)),
            )
        }
    }
}

// The status after a write.
pub fn end(due: Status, written: Result<(), WriteError>) -> Status
    ensures { result ≡ status_after due written }
{
    match written {
        Ok(()) => due,
        Err(WriteError::Failed) => Status::WriteFault,
        Err(WriteError::Memory) => Status::Memory,
    }
}
