//! The program: its words, the system's files and its standard output.
//! This project's own.
#![tactic(auto)]

ghost use Rattle.std.specs.Prelude.{◌≡◌, ◌≢◌};

mod folder;
mod sink;

use folder::StdFolder;
use rcp_top::{Status, rcp};
use sink::StdOut;
use std::io::ErrorKind;
use std::process::ExitCode;
use std::rt::Env;
use std::{env, io};

// The words after the program's name.
fn words(system: &(impl Env + AllocGlobal)) -> io::Result<Vec<String>> {
    Ok(env::args(system)?.skip(1).collect(system.alloc())?)
}

// What the program ends with where the system gives no words.
fn number_without_words(why: ErrorKind) -> u8
    ensures memory { why ≡ ErrorKind.OutOfMemory → result ≡ 1 }
    ensures other { why ≢ ErrorKind.OutOfMemory → result ≡ 12 }
{
    match why {
        ErrorKind::OutOfMemory => 1,
        _ => 12,
    }
}

// What the program ends with after a run.
fn number(status: Status) -> u8
    ensures done { status ≡ Status.Done → result ≡ 0 }
    ensures memory { status ≡ Status.Memory → result ≡ 1 }
    ensures usage { status ≡ Status.Usage → result ≡ 2 }
    ensures task_refused { status ≡ Status.TaskRefused → result ≡ 3 }
    ensures pattern_refused { status ≡ Status.PatternRefused → result ≡ 4 }
    ensures journal_refused { status ≡ Status.JournalRefused → result ≡ 5 }
    ensures read_fault { status ≡ Status.ReadFault → result ≡ 6 }
    ensures write_fault { status ≡ Status.WriteFault → result ≡ 7 }
{
    match status {
        Status::Done => 0,
        Status::Memory => 1,
        Status::Usage => 2,
        Status::TaskRefused => 3,
        Status::PatternRefused => 4,
        Status::JournalRefused => 5,
        Status::ReadFault => 6,
        Status::WriteFault => 7,
    }
}

fn main(rt: HostRuntime) -> ExitCode {
    let words = match words(&rt) {
        Ok(words) => words,
        Err(error) => return ExitCode::from(number_without_words(error.kind())),
    };
    let mut folder = StdFolder::new(&rt);
    let mut out = StdOut::new(io::writer(&rt));
    ExitCode::from(number(rcp(rt.alloc(), words.as_slice(), &mut folder, &mut out)))
}
