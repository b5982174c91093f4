//! `gen FILE NUMBER FRAMES`: a journal of a plan that a number gives.
//! This project's own.
ghost use Rattle.std.specs.Prelude.{◌≡◌, ◌<◌, ◌≤◌, length};
ghost use Rattle.rcp_base.specs.States.{IsLater};
ghost use Rattle.rcp_base.specs.Writing.{Writes};
ghost use Rattle.rcp_top.specs.Finds.{Finds};
ghost use Rattle.rcp_top.specs.Generated.{ShowsJournal, gen_of};

use crate::judge::Judged;
use crate::layers::Layers;
use crate::read::read_plan_at;
use crate::request::JournalRequest;
use crate::send::add;
use crate::shown::Shown;
use crate::stop::Stop;
use journal_gen::generate;
use rcp_base::{Folder, Sink, WriteError};
use std::alloc::Global;
use trace_text::Lines;

/// A plan with its recovery length, and which journal of it is asked for.
#[derive(Drop)]
pub struct Generation {
    judged: Judged,
    request: JournalRequest,
}

/// Reads the plan.
pub fn read_gen<'a, F: Folder>(
    alloc: Global,
    folder: &mut F,
    file: &'a str,
    request: JournalRequest,
) -> Result<Generation, Stop<'a>>
    ensures finds { Finds ShowsJournal (F.state folder.old) (F.state folder.new)
        (gen_of file.now request.number request.frames) result }
    ensures later { IsLater (F.state folder.old) (F.state folder.new) }
{
    let judged = read_plan_at(alloc, folder, file)?;
    Ok(Generation { judged, request })
}

impl Shown for Generation {
    ghost shows = { ShowsJournal };

    fn write<S: Sink, K: Layers>(
        self,
        alloc: Global,
        _layers: &mut K,
        _lines: &mut Lines,
        out: &mut S,
    ) -> Result<(), WriteError> {
        let JournalRequest { number, frames, .. } = self.request;
        let plan = &self.judged.plan;
        let text = generate(alloc, plan, self.judged.length, number, frames)?;
        write_rows(text.as_slice(), out)
    }
}

// Writes a text, each line by one call.
fn write_rows<S: Sink>(text: &[u8], out: &mut S) -> Result<(), WriteError>
    ensures { Writes (S.state out.old) (S.state out.new) result text.now }
{
    let mut rest = text;
    let mut so_far = Ok(());
    while !rest.is_empty() {
        let (row, more) = rest.split_at(row_length(rest));
        so_far = add(out, so_far, row);
        rest = more;
    }
    so_far
}

// How many bytes a text has through its first line feed.
fn row_length(text: &[u8]) -> usize
    ensures within { result ≤ length text.now }
    ensures some { 0 < length text.now → 0 < result }
{
    match text.iter().position(|byte| *byte == b'\n') {
        Some(place) => place + 1,
        None => text.len(),
    }
}
