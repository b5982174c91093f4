//! The program's one call.
//! This project's own.
ghost use Rattle.std.specs.Prelude.{◌≡◌, ◌≢◌, ℕ, List, None};
ghost use Rattle.rcp_base.specs.Files.{Rises};
ghost use Rattle.rcp_base.specs.States.{IsLater};
ghost use Rattle.rcp_top.specs.Forms.{form_in, form_of, bytes_of_words, work_of};
ghost use Rattle.rcp_top.specs.Outcome.{Ends, EndsOver, HasUnread, outcome_at, usage};
ghost use Rattle.rcp_top.specs.Reading.{Does};

use crate::check::read_check;
use crate::form::{Form, Summary, form_of};
use crate::generated::read_gen;
use crate::ideal::read_ideal;
use crate::layers::{Layers, Shipped};
use crate::read::read_run;
use crate::shown::{end, finish};
use crate::status::Status;
use crate::thin::read_thin;
use rcp_base::{Folder, Memory, Sink};
use std::alloc::Global;
use trace_text::Lines;

/// Does all that the program does with the words after its name: reads the files that they name, and writes what is due.
/// Each line is one call of the sink.
pub fn rcp<F: Folder, S: Sink>(
    alloc: Global,
    words: &[String],
    folder: &mut F,
    out: &mut S,
) -> Status
    // Where the folder tells its files, status and text are as is due over them.
    ensures ends { EndsOver (F.state folder.old) (F.state folder.new)
        (bytes_of_words words.now) (λ due. Ends due result (S.state out.old) (S.state out.new)) }

    // These hold for all folders and sinks, also for those that tell nothing.
    ensures no_form { form_of (bytes_of_words words.now) ≡ None
        → Ends usage result (S.state out.old) (S.state out.new) }
    ensures usage { result ≡ Status.Usage
        → form_of (bytes_of_words words.now) ≡ None }
    ensures read_fault { result ≡ Status.ReadFault → (name : List ℕ)
        × HasUnread (F.state folder.old) (F.state folder.new) (bytes_of_words words.now) name }
    ensures write_fault { result ≡ Status.WriteFault
        → Rises (S.state out.old).faults (S.state out.new).faults }
    ensures files { (F.state folder.new).files ≡ (F.state folder.old).files }
{
    rcp_over(alloc, words, folder, out, &mut Shipped)
}

/// The same over layers that are handed in: `rs` and `ds` make that of a replay with this last word, `da_last` that of `events`
/// with `last`, and `da` that of every other form that runs replicas.
pub fn rcp_over<F: Folder, S: Sink, K: Layers>(
    alloc: Global,
    words: &[String],
    folder: &mut F,
    out: &mut S,
    layers: &mut K,
) -> Status
    // Where the folder tells its files, status and text are as is due over them.
    ensures ends { EndsOver (F.state folder.old) (F.state folder.new)
        (bytes_of_words words.now) (λ due. Ends due result (S.state out.old) (S.state out.new)) }

    // These hold for all folders and sinks, also for those that tell nothing.
    ensures no_form { form_of (bytes_of_words words.now) ≡ None
        → Ends usage result (S.state out.old) (S.state out.new) }
    ensures usage { result ≡ Status.Usage
        → form_of (bytes_of_words words.now) ≡ None }
    ensures read_fault { result ≡ Status.ReadFault → (name : List ℕ)
        × HasUnread (F.state folder.old) (F.state folder.new) (bytes_of_words words.now) name }
    ensures write_fault { result ≡ Status.WriteFault
        → Rises (S.state out.old).faults (S.state out.new).faults }
    ensures files { (F.state folder.new).files ≡ (F.state folder.old).files }
{
    let mut lines = match Lines::new(alloc) {
        Ok(lines) => lines,
        Err(Memory) => return Status::Memory,
    };
    match form_of(words) {
        Some(form) => run_form(alloc, form, folder, layers, &mut lines, out),
        None => end(Status::Usage, out.write_all(lines.usage())),
    }
}

// Reads and writes what is due for a form of words.
fn run_form<F: Folder, S: Sink, K: Layers>(
    alloc: Global,
    form: Form<'_>,
    folder: &mut F,
    layers: &mut K,
    lines: &mut Lines,
    out: &mut S,
) -> Status
    ensures does { Does (F.state folder.old) (F.state folder.new) (work_of (form_in form.entry))
        (λ end. Ends (outcome_at end) result (S.state out.old) (S.state out.new)) }
    ensures form { result ≢ Status.Usage }
    ensures later { IsLater (F.state folder.old) (F.state folder.new) }
{
    match form {
        Form::Check { file } => finish(alloc, read_check(alloc, folder, file), layers, lines, out),
        Form::Thin { file } => finish(alloc, read_thin(alloc, folder, file), layers, lines, out),
        Form::Ideal { file, journal } => {
            let found = read_ideal(alloc, folder, file, journal);
            finish(alloc, found, layers, lines, out)
        }
        Form::Replay {
            file,
            journal,
            layer,
        } => {
            let found = read_run(alloc, folder, file, journal, layer);
            finish(alloc, found, layers, lines, out)
        }
        Form::Events {
            file,
            journal,
            order,
        } => {
            let found = read_run(alloc, folder, file, journal, order);
            finish(alloc, found, layers, lines, out)
        }
        Form::Summary { file, journal } => {
            let found = read_run(alloc, folder, file, journal, Summary);
            finish(alloc, found, layers, lines, out)
        }
        Form::Gen { file, request } => {
            let found = read_gen(alloc, folder, file, request);
            finish(alloc, found, layers, lines, out)
        }
    }
}
